// Marks of the variables that occur in guards, assertions and indices.

ghost use Rattle.std.specs.Prelude.{◌≡◌, ◌&&◌, IfOk, length, map};
ghost use Rattle.pk_graph.specs.Views.{tree_view, instr_view};
ghost use Rattle.pk_graph.specs.Graphs.{PointOf, edge_view, variable_view};
ghost use Rattle.pk_graph.specs.OctagonVariables.{occurs, is_asked_by, AreMarked, AreMarks, is_named_scalar, first_asked};
ghost use Rattle.std.specs.Prelude.{List};

use pk_graph::{Edge, Instr, Tree, Variable};
use std::alloc::{AllocError, Global};

// Marks the variables of a tree.
fn mark_tree(marks: &mut [bool], tree: &Tree)
    ensures { AreMarked (λ x. occurs x (tree_view tree.now)) marks.old marks.new }
{
    match tree {
        Tree::Constant(_, _) => (),
        Tree::Variable(variable) => {
            if *variable < marks.len() {
                marks[*variable] = true;
            }
        }
        Tree::Converted(_, operand) => mark_tree(marks, operand),
        Tree::Unary(_, _, _, operand) => mark_tree(marks, operand),
        Tree::Binary { left, right, .. } => {
            mark_tree(marks, left);
            mark_tree(marks, right);
        }
    }
}

// Marks the variables of guards, assertions and indices of an instruction.
fn mark_instr(marks: &mut [bool], instr: &Instr)
    ensures { AreMarked (λ x. is_asked_by x (instr_view instr.now)) marks.old marks.new }
{
    match instr {
        Instr::Skip => (),
        Instr::Set(_, _) => (),
        Instr::Havoc { .. } => (),
        Instr::Clear(_) => (),
        Instr::Load { index, .. } => mark_tree(marks, index),
        Instr::Store { index, .. } => mark_tree(marks, index),
        Instr::Guard(condition, _) => mark_tree(marks, condition),
        Instr::Check(_, condition) => mark_tree(marks, condition),
    }
}

/// Marks those of an edge that is taken.
pub fn mark_taken(marks: &mut [bool], edge: &Edge, is_taken: bool)
    ensures { AreMarked (λ x. is_taken && is_asked_by x (edge_view edge.now).instr) marks.old marks.new }
{
    if is_taken {
        mark_instr(marks, &edge.instr);
    }
}

fn is_wanted(variable: &Variable, is_asked: bool) -> bool
    ensures { result ≡ (is_asked && is_named_scalar (variable_view variable.now)) }
{
    if !is_asked {
        return false;
    }
    if variable.length.is_some() {
        return false;
    }
    variable.name.is_some()
}

/// The first so many named scalars that are marked, by number.
pub fn first_marked(
    alloc: Global,
    variables: &[Variable],
    marks: &[bool],
    most: usize,
) -> Result<Vec<usize>, AllocError>
    requires { length marks.now ≡ length variables.now }
    ensures { IfOk result (λ list. (ps : List PointOf) → AreMarks ps (length variables.now) marks.now →
        list.items ≡ first_asked ps most 0 (map variable_view variables.now)) }
{
    let mut list = Vec::new(alloc);
    let mut left = most;
    for number in 0..variables.len() {
        if left == 0 {
            return Ok(list);
        }
        if !is_wanted(&variables[number], marks[number]) {
            continue;
        }
        list.push(number)?;
        left -= 1;
    }
    Ok(list)
}
