// Calls behind their arguments.

ghost use Rattle.std.specs.Prelude.{◌≡◌, ◌+◌, ℕ, map, drop, nat_lt, length, IfOk, OnOk};
ghost use Rattle.pk_typed.specs.Types.{type_of};
ghost use Rattle.pk_typed.specs.Views.{value_tree, value_trees};
ghost use Rattle.pk_graph.specs.Views.{tree_view};
ghost use Rattle.pk_draft.specs.Drafts as drafts;
ghost use Rattle.pk_draft.specs.Shown.{drafted};
ghost use Rattle.pk_lower_row.specs.Rows as rows;
ghost use Rattle.pk_lower_row.specs.Shapes.{any_makes, shape_of};
ghost use Rattle.pk_lower_row.specs.Views.{given};

use pk_ctypes::IntType;
use pk_draft::{Draft, Size};
use pk_graph::Tree;
use pk_lower_row as rows;
use pk_lower_row::{Waiting, boxed, makes, set, shape_of};
use pk_typed::Value;
use std::alloc::{AllocError, Global};

/// How many values there are up to the last whose lowering makes an edge.
pub fn last_making(values: &[Value]) -> usize
    ensures { (k : ℕ) → any_makes (value_trees (drop k values.now)) ≡ nat_lt k result }
{
    let mut last = values.len();
    while last > 0 {
        if makes(&values[last - 1]) {
            return last;
        }
        last -= 1;
    }
    0
}

/// The tree of a value waits for a later operand. What it is is looked up only where it may have to go into a temporary.
pub(crate) fn held(
    alloc: Global,
    draft: &mut Draft,
    how: Waiting,
    value: &Value,
    tree: Box<Tree>,
) -> Result<Box<Tree>, AllocError>
    ensures { IfOk result (λ e. given e.value draft.new
        ≡ rows.held how (shape_of (value_tree value.now)) (type_of (value_tree value.now))
        (given tree.value draft.old)) }
{
    match how {
        Waiting::Loose => Ok(tree),
        Waiting::Strong => held_as(alloc, draft, how, value, tree),
        Waiting::Weak => held_as(alloc, draft, how, value, tree),
    }
}

fn held_as(
    alloc: Global,
    draft: &mut Draft,
    how: Waiting,
    value: &Value,
    tree: Box<Tree>,
) -> Result<Box<Tree>, AllocError>
    ensures { IfOk result (λ e. given e.value draft.new
        ≡ rows.held how (shape_of (value_tree value.now)) (type_of (value_tree value.now))
        (given tree.value draft.old)) }
{
    rows::held(alloc, draft, how, shape_of(value), value.int_type(), tree)
}

// A parameter gets a tree of a value.
fn bind(
    alloc: Global,
    draft: &mut Draft,
    parameter: IntType,
    value: &Value,
    variable: usize,
    argument: &Tree,
) -> Result<(), AllocError>
    ensures { OnOk result (drafted draft.new
        ≡ rows.set_after parameter (type_of (value_tree value.now)) variable (given argument.now draft.old)) }
{
    let copy = argument.copy(alloc)?;
    let copy = boxed(alloc, copy)?;
    set(draft, parameter, value.int_type(), variable, copy)
}

// The parameters of a path are set from trees; they are its first variables.
fn bind_all(
    alloc: Global,
    draft: &mut Draft,
    first: usize,
    parameters: &[IntType],
    values: &[Value],
    trees: &[Tree],
) -> Result<(), AllocError>
    ensures { (k : ℕ) → OnOk result (drafted draft.new
        ≡ rows.bound k 0 first parameters.now (rows.types_of (value_trees values.now)) (map tree_view trees.now)
        (drafted draft.old)) }
{
    for number in 0..parameters.len() {
        if number >= values.len() {
            return Ok(());
        }
        if number >= trees.len() {
            return Ok(());
        }
        let variable = first.checked_add(number).ok_or(AllocError)?;
        let parameter = parameters[number];
        bind(
            alloc,
            draft,
            parameter,
            &values[number],
            variable,
            &trees[number],
        )?;
    }
    Ok(())
}

/// A call behind its arguments, and the variable of its result.
pub fn enter(
    alloc: Global,
    draft: &mut Draft,
    path: usize,
    size: Size,
    parameters: &[IntType],
    values: &[Value],
    trees: &[Tree],
) -> Result<usize, AllocError>
    ensures draft { OnOk result (drafted draft.new
        ≡ rows.entered_after path size parameters.now (rows.types_of (value_trees values.now))
        (map tree_view trees.now) (drafted draft.old)) }
    ensures variable { IfOk result (λ x. x ≡ (drafted draft.old).variables + length parameters.now) }
{
    let first = draft.variables();
    bind_all(alloc, draft, first, parameters, values, trees)?;
    draft.enter(path, size)?;
    first.checked_add(parameters.len()).ok_or(AllocError)
}
