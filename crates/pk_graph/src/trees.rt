// Trees: expressions without effects.

ghost use Rattle.std.specs.Prelude.{◌≡◌, IfOk};
ghost use Rattle.pk_graph.specs.Trees as tree;
ghost use Rattle.pk_graph.specs.Views.{tree_view};

use pk_ctypes::{IntType, Op, Pos};
use std::alloc::{AllocError, Global};

/// An operation of a graph: the number of its call path, and its place in the text.
#[derive(Clone, Copy)]
pub struct Site {
    pub path: usize,
    pub at: Pos,
}

/// An expression without effects over the variables of a graph, by their numbers.
#[derive(Drop)]
pub enum Tree {
    Constant(IntType, i128),
    Variable(usize),
    Converted(IntType, Box<Tree>),
    /// An operator in a type, and its operand, which has a number of that type.
    Unary(Op, Site, IntType, Box<Tree>),
    /// An operator in a type, and its operands, which have numbers of that type, but for the count of a shift.
    Binary {
        operator: Op,
        site: Site,
        int_type: IntType,
        left: Box<Tree>,
        right: Box<Tree>,
    },
}

// Each ensures which tree it makes.
#[tactic(auto, unfolding(crate::specs::Views::tree_view))]
impl Tree {
    pub fn constant(int_type: IntType, number: i128) -> Tree
        ensures { tree_view result ≡ tree.constant int_type number }
    {
        Tree::Constant(int_type, number)
    }

    pub fn variable(variable: usize) -> Tree
        ensures { tree_view result ≡ tree.variable variable }
    {
        Tree::Variable(variable)
    }

    pub fn converted(int_type: IntType, operand: Box<Tree>) -> Tree
        ensures { tree_view result ≡ tree.converted int_type (tree_view operand.value) }
    {
        Tree::Converted(int_type, operand)
    }

    pub fn unary(operator: Op, site: Site, int_type: IntType, operand: Box<Tree>) -> Tree
        ensures { tree_view result ≡ tree.unary operator site int_type (tree_view operand.value) }
    {
        Tree::Unary(operator, site, int_type, operand)
    }

    pub fn binary(
        operator: Op,
        site: Site,
        int_type: IntType,
        left: Box<Tree>,
        right: Box<Tree>,
    ) -> Tree
        ensures { tree_view result ≡ tree.binary operator site int_type (tree_view left.value) (tree_view right.value) }
    {
        Tree::Binary {
            operator,
            site,
            int_type,
            left,
            right,
        }
    }

    /// The same tree, in memory of its own.
    pub fn copy(&self, alloc: Global) -> Result<Tree, AllocError>
        ensures { IfOk result (λ e. tree_view e ≡ tree_view self.now) }
    {
        let copied = copied(alloc, self)?;
        Ok(Box::into_inner(copied))
    }
}

// A tree on the heap. It is generic, so that what is dropped where memory ends is one value to the prover, and not each variant.
fn boxed<T: Drop>(alloc: Global, value: T) -> Result<Box<T>, AllocError>
    ensures { IfOk result (λ b. b.value ≡ value) }
{
    Ok(Box::new(alloc, value)?)
}

fn constant_of(int_type: IntType, number: &i128) -> Tree
    ensures { tree_view result ≡ tree.constant int_type number.now }
{
    Tree::constant(int_type, *number)
}

// The same tree on the heap.
#[tactic(auto, unfolding(crate::specs::Views::tree_view))]
fn copied(alloc: Global, tree: &Tree) -> Result<Box<Tree>, AllocError>
    ensures { IfOk result (λ b. tree_view b.value ≡ tree_view tree.now) }
{
    match tree {
        Tree::Constant(int_type, number) => boxed(alloc, constant_of(*int_type, number)),
        Tree::Variable(variable) => boxed(alloc, Tree::variable(*variable)),
        Tree::Converted(int_type, operand) => {
            let operand = copied(alloc, operand)?;
            boxed(alloc, Tree::converted(*int_type, operand))
        }
        Tree::Unary(operator, at, int_type, operand) => {
            let operand = copied(alloc, operand)?;
            boxed(alloc, Tree::unary(*operator, *at, *int_type, operand))
        }
        Tree::Binary {
            operator,
            site,
            int_type,
            left: first,
            right: second,
        } => {
            let left = copied(alloc, first)?;
            let right = copied(alloc, second)?;
            boxed(
                alloc,
                Tree::binary(*operator, *site, *int_type, left, right),
            )
        }
    }
}
