// The constants of a graph's trees.

ghost use Rattle.std.specs.Prelude.{◌≡◌, ◌++◌, IfOk, OnOk, map};
ghost use Rattle.pk_graph.specs.Views.{tree_view, instr_view};
ghost use Rattle.pk_graph.specs.Graphs.{edge_view};
ghost use Rattle.pk_graph.specs.Shown.{graph_view};
ghost use Rattle.pk_thresh.specs.Thresholds.{constants_in, constants_on, constants_along, constants_of};

use pk_graph::{Edge, Graph, Instr, Tree};
use std::alloc::{AllocError, Global};

// Adds the constants of a tree.
#[tactic(auto, unfolding(pk_graph::specs::Views::tree_view, crate::specs::Thresholds::constants_in))]
fn add_tree(all: &mut Vec<i128>, tree: &Tree) -> Result<(), AllocError>
    ensures { OnOk result (all.new.items ≡ all.old.items ++ constants_in (tree_view tree.now)) }
{
    match tree {
        Tree::Constant(_, number) => {
            all.push(*number)?;
            Ok(())
        }
        Tree::Variable(_) => Ok(()),
        Tree::Converted(_, operand) => add_tree(all, operand),
        Tree::Unary(_, _, _, operand) => add_tree(all, operand),
        Tree::Binary { left, right, .. } => {
            add_tree(all, left)?;
            add_tree(all, right)
        }
    }
}

// Adds those of an instruction.
#[tactic(auto, unfolding(pk_graph::specs::Views::instr_view, crate::specs::Thresholds::constants_on))]
fn add_instr(all: &mut Vec<i128>, instr: &Instr) -> Result<(), AllocError>
    ensures { OnOk result (all.new.items ≡ all.old.items ++ constants_on (instr_view instr.now)) }
{
    match instr {
        Instr::Skip => Ok(()),
        Instr::Set(_, value) => add_tree(all, value),
        Instr::Havoc { .. } => Ok(()),
        Instr::Clear(_) => Ok(()),
        Instr::Load { index, .. } => add_tree(all, index),
        Instr::Store { index, value, .. } => {
            add_tree(all, index)?;
            add_tree(all, value)
        }
        Instr::Guard(condition, _) => add_tree(all, condition),
        Instr::Check(_, condition) => add_tree(all, condition),
    }
}

// Adds those of an edge.
#[tactic(auto, unfolding(pk_graph::specs::Graphs::edge_view))]
fn add_edge(all: &mut Vec<i128>, edge: &Edge) -> Result<(), AllocError>
    ensures { OnOk result (all.new.items ≡ all.old.items ++ constants_on (edge_view edge.now).instr) }
{
    add_instr(all, &edge.instr)
}

// Adds those of edges.
fn add_edges(all: &mut Vec<i128>, edges: &[Edge]) -> Result<(), AllocError>
    ensures { OnOk result (all.new.items ≡ all.old.items ++ constants_along (map edge_view edges.now)) }
{
    for edge in edges {
        add_edge(all, edge)?;
    }
    Ok(())
}

/// The constants of the trees on a graph's edges, by number of their points.
pub fn constants(alloc: Global, graph: &Graph) -> Result<Vec<i128>, AllocError>
    ensures { IfOk result (λ all. all.items ≡ constants_of (graph_view graph.now)) }
{
    let mut all = Vec::new(alloc);
    for point in 0..graph.points() {
        add_edges(&mut all, graph.edges(point))?;
    }
    Ok(all)
}
