// The values of trees in a store.

ghost use Rattle.std.specs.Prelude.{◌≡◌, Ok};
ghost use Rattle.pk_ctypes.specs.Types.{InType, wrapped};
ghost use Rattle.pk_ctypes.specs.Operators.{HasRight, value_of};
ghost use Rattle.pk_graph.specs.Views.{tree_view};
ghost use Rattle.pk_graph.specs.Kinds.{IsTyped, IsScalar};
ghost use Rattle.pk_graph.specs.Graphs.{kinds_of};
ghost use Rattle.pk_graph.specs.Shown.{graph_view};
ghost use Rattle.pk_graph.specs.Steps.{at_site, tree_value, indexed};
ghost use Rattle.pk_graph.specs.Stores.{IsStore, storing, number_of};
ghost use Rattle.pk_graph_step.specs.GraphSteps.{value_view};

use crate::stores::Store;
use pk_ctypes::{Fault, IntType, Op, apply, convert, value_law};
use pk_graph::{Graph, Site, Tree};

/// A fault at an operation.
#[derive(Clone, Copy)]
pub struct Failure {
    pub fault: Fault,
    pub site: Site,
}

fn held(number: &i128) -> Result<i128, Failure>
    ensures { value_view result ≡ Ok number.now }
{
    Ok(*number)
}

// A scalar's number.
fn scalar(graph: &Graph, store: &Store, variable: usize) -> Result<i128, Failure>
    requires store { IsStore (kinds_of (graph_view graph.now)) store.now }
    requires scalar { IsScalar (kinds_of (graph_view graph.now)) variable }
    ensures { value_view result ≡ Ok (number_of store.now variable) }
{
    Ok(store.numbers(variable)[0])
}

fn converted(int_type: IntType, number: &i128) -> Result<i128, Failure>
    ensures { value_view result ≡ Ok (wrapped int_type number.now) }
{
    Ok(convert(int_type, *number))
}

// What an operator gives, or its fault with its place.
fn operated(
    operator: Op,
    site: Site,
    int_type: IntType,
    a: &i128,
    b: &i128,
) -> Result<i128, Failure>
    requires left { InType int_type a.now }
    requires right { HasRight operator int_type b.now }
    ensures { value_view result ≡ at_site site (value_of operator int_type a.now b.now) }
{
    match apply(operator, int_type, *a, *b) {
        Ok(value) => Ok(value),
        Err(fault) => Err(Failure { fault, site }),
    }
}

/// The number that a tree has in a store, or its first fault.
#[tactic(auto, unfolding(pk_graph::specs::Views::tree_view))]
pub(crate) fn value(graph: &Graph, store: &Store, tree: &Tree) -> Result<i128, Failure>
    requires store { IsStore (kinds_of (graph_view graph.now)) store.now }
    requires typed { IsTyped (kinds_of (graph_view graph.now)) (tree_view tree.now) }
    ensures { value_view result ≡ tree_value storing (tree_view tree.now) store.now }
{
    value_law();
    match tree {
        Tree::Constant(_, number) => held(number),
        Tree::Variable(variable) => scalar(graph, store, *variable),
        Tree::Converted(int_type, operand) => match value(graph, store, operand) {
            Ok(a) => converted(*int_type, &a),
            Err(failure) => Err(failure),
        },
        Tree::Unary(operator, site, int_type, operand) => match value(graph, store, operand) {
            Ok(a) => operated(*operator, *site, *int_type, &a, &a),
            Err(failure) => Err(failure),
        },
        Tree::Binary {
            operator,
            site,
            int_type,
            left,
            right,
        } => match value(graph, store, left) {
            Ok(a) => match value(graph, store, right) {
                Ok(b) => operated(*operator, *site, *int_type, &a, &b),
                Err(failure) => Err(failure),
            },
            Err(failure) => Err(failure),
        },
    }
}

/// The place of an element, or the fault of its index.
pub(crate) fn place_of(site: Site, length: usize, index: &i128) -> Result<usize, Failure>
    ensures { value_view result ≡ indexed site length index.now }
{
    let index = *index;
    if 0 <= index && index < length as i128 {
        Ok(index as usize)
    } else {
        Err(Failure {
            fault: Fault::Index,
            site,
        })
    }
}
