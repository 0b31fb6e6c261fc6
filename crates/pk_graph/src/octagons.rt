// The variables over which octagons stand.

ghost use Rattle.std.specs.Prelude.{◌≡◌, ◌&&◌, IfOk, map, length};
ghost use Rattle.pk_graph.specs.Views.{tree_view, instr_view};
ghost use Rattle.pk_graph.specs.Graphs.{edge_view, variable_view};
ghost use Rattle.pk_graph.specs.OctagonVariables.{occurs, is_asked_by, is_asked_on, AreMarked, AreMarks, is_named_scalar, octagon_variables_of};
ghost use Rattle.pk_graph.specs.Shown.{graph_view};

use crate::graphs::{Edge, Graph, Variable};
use crate::instructions::Instr;
use crate::trees::Tree;
use std::alloc::{AllocError, Global};

// Marks the variables of a tree.
fn mark_tree(marks: &mut [bool], tree: &Tree)
    ensures { AreMarked (λ x. occurs x (tree_view tree.now)) marks.old marks.new }
{
    match tree {
        Tree::Constant(_, _) => (),
        Tree::Variable(variable) => {
            if *variable < marks.len() {
                marks[*variable] = true;
            }
        }
        Tree::Converted(_, operand) => mark_tree(marks, operand),
        Tree::Unary(_, _, _, operand) => mark_tree(marks, operand),
        Tree::Binary { left, right, .. } => {
            mark_tree(marks, left);
            mark_tree(marks, right);
        }
    }
}

// Marks the variables of guards, assertions and indices of an instruction.
fn mark_instr(marks: &mut [bool], instr: &Instr)
    ensures { AreMarked (λ x. is_asked_by x (instr_view instr.now)) marks.old marks.new }
{
    match instr {
        Instr::Skip => (),
        Instr::Set(_, _) => (),
        Instr::Havoc { .. } => (),
        Instr::Clear(_) => (),
        Instr::Load { index, .. } => mark_tree(marks, index),
        Instr::Store { index, .. } => mark_tree(marks, index),
        Instr::Guard(condition, _) => mark_tree(marks, condition),
        Instr::Check(_, condition) => mark_tree(marks, condition),
    }
}

// Marks those of an edge.
#[tactic(auto, unfolding(crate::specs::Graphs::edge_view))]
fn mark_edge(marks: &mut [bool], edge: &Edge)
    ensures { AreMarked (λ x. is_asked_by x (edge_view edge.now).instr) marks.old marks.new }
{
    mark_instr(marks, &edge.instr);
}

// Marks those of edges.
fn mark_edges(marks: &mut [bool], edges: &[Edge])
    ensures { AreMarked (λ x. is_asked_on x (map edge_view edges.now)) marks.old marks.new }
{
    for number in 0..edges.len() {
        mark_edge(marks, &edges[number]);
    }
}

fn is_wanted(variable: &Variable, is_asked: bool) -> bool
    ensures { result ≡ (is_asked && is_named_scalar (variable_view variable.now)) }
{
    if !is_asked {
        return false;
    }
    if variable.length.is_some() {
        return false;
    }
    variable.name.is_some()
}

// For each variable whether a guard, an assertion or an index has it.
fn marked(alloc: Global, graph: &Graph) -> Result<Vec<bool>, AllocError>
    ensures { IfOk result
        (λ marks. AreMarks (graph_view graph.now).points (length (graph_view graph.now).variables) marks.items) }
{
    let mut marks = vec![in alloc; false; graph.variables().len()]?;
    for point in 0..graph.points() {
        let edges = graph.edges(point);
        mark_edges(&mut marks, edges);
    }
    Ok(marks)
}

/// The first so many named scalars, by number, that occur in a guard, an assertion or an index of the graph, in rising order.
pub fn octagon_variables(
    alloc: Global,
    graph: &Graph,
    most: usize,
) -> Result<Vec<usize>, AllocError>
    ensures { IfOk result (λ list. list.items ≡ octagon_variables_of (graph_view graph.now) most) }
{
    let marks = marked(alloc, graph)?;
    let variables = graph.variables();
    let mut list = Vec::new(alloc);
    let mut left = most;
    for number in 0..variables.len() {
        if left == 0 {
            return Ok(list);
        }
        if !is_wanted(&variables[number], marks[number]) {
            continue;
        }
        list.push(number)?;
        left -= 1;
    }
    Ok(list)
}
