// The tests of a `switch`.

ghost use Rattle.std.specs.Prelude.{◌≡◌, ◌+◌, ◌<◌, ◌^◌, length, OnOk, IfOk};
ghost use Rattle.pk_typed.specs.Views.{value_tree};
ghost use Rattle.pk_graph.specs.Views.{tree_view};
ghost use Rattle.pk_draft.specs.Shown.{drafted};
ghost use Rattle.pk_lower_row.specs.Rows.{operand};
ghost use Rattle.pk_lower_expression.specs.Expressions.{ways};
ghost use Rattle.pk_lower_row.specs.Contexts as contexts;
ghost use Rattle.pk_lower_row.specs.Views.{context_in, given};
ghost use Rattle.pk_lower_statement.specs.Statements as rows;

use pk_ctypes::{IntType, Pos};
use pk_draft::{Draft, equals};
use pk_graph::{Site, Tree};
use pk_lower_expression::value;
use pk_lower_row::{Context, Waiting, boxed, converted, converted_shape, guards, held, shape_of};
use pk_typed::Value;
use std::alloc::{AllocError, Global};

// A test for each case in order, whose points begin at `first`.
fn test_cases(
    alloc: Global,
    draft: &mut Draft,
    site: Site,
    int_type: IntType,
    tree: &Tree,
    cases: &[i128],
    first: usize,
) -> Result<(), AllocError>
    ensures { OnOk result
        (drafted draft.new ≡ rows.case_tests site int_type (tree_view tree.now) cases.now first (drafted draft.old)) }
{
    let mut point = first;
    for case in cases {
        test_case(alloc, draft, site, int_type, tree, case, point)?;
        point = point.checked_add(1).ok_or(AllocError)?;
    }
    Ok(())
}

fn test_case(
    alloc: Global,
    draft: &mut Draft,
    site: Site,
    int_type: IntType,
    tree: &Tree,
    case: &i128,
    point: usize,
) -> Result<(), AllocError>
    ensures { OnOk result
        (drafted draft.new ≡ rows.case_test site int_type (tree_view tree.now) case.now point (drafted draft.old)) }
{
    let next = draft.fresh(1)?;
    let copy = tree.copy(alloc)?;
    let copy = boxed(alloc, copy)?;
    let test = equals(alloc, site, int_type, copy, case)?;
    let test = boxed(alloc, test)?;
    guards(alloc, draft, point, next, test)?;
    draft.at(next);
    Ok(())
}

// The promoted value, which waits for the tests.
fn tested(
    context: &Context<'_>,
    draft: &mut Draft,
    int_type: IntType,
    switched: &Value,
) -> Result<Box<Tree>, AllocError>
    ensures { IfOk result (λ e. given e.value draft.new
        ≡ rows.tested int_type (operand (value_tree switched.now)
        (ways (context_in context.now) (value_tree switched.now))) (drafted draft.old)) }
{
    let tree = value(context, draft, switched)?;
    let from = switched.int_type();
    let tree = converted(context.alloc, from, int_type, tree)?;
    let shape = converted_shape(from, int_type, shape_of(switched));
    held(context.alloc, draft, Waiting::Strong, shape, int_type, tree)
}

// A `switch` up to its body, behind its value: the number of its end, behind which are its cases and the default.
fn begin_switch(
    alloc: Global,
    draft: &mut Draft,
    site: Site,
    int_type: IntType,
    cases: &[i128],
    has_default: bool,
    tree: &Tree,
) -> Result<usize, AllocError>
    ensures draft { OnOk result
        (drafted draft.new ≡ rows.switch_begun site int_type cases.now has_default (given tree.now draft.old)) }
    ensures end { IfOk result (λ e. e ≡ (drafted draft.old).points) }
    ensures fits { IfOk result (λ e. e + 1 + length cases.now < 2 ^ 64) }
{
    let count = cases.len();
    let more = if has_default { 1 } else { 0 };
    let end = draft.fresh(1 + count + more)?;
    test_cases(alloc, draft, site, int_type, tree, cases, end + 1)?;
    draft.away(if has_default { end + 1 + count } else { end })?;
    Ok(end)
}

/// A `switch` up to its body: the number of its end, behind which are its cases and the default. The value's tree is let go here, once.
pub fn open_switch(
    context: &Context<'_>,
    draft: &mut Draft,
    at: Pos,
    int_type: IntType,
    switched: &Value,
    cases: &[i128],
    has_default: bool,
) -> Result<usize, AllocError>
    ensures draft { OnOk result (drafted draft.new
        ≡ rows.switch_begun (contexts.site (context_in context.now) at) int_type cases.now has_default
        (rows.tested int_type (operand (value_tree switched.now)
        (ways (context_in context.now) (value_tree switched.now))) (drafted draft.old))) }
    ensures end { IfOk result
        (λ e. e ≡ (rows.tested int_type (operand (value_tree switched.now)
        (ways (context_in context.now) (value_tree switched.now))) (drafted draft.old)).1.points) }
    ensures fits { IfOk result (λ e. e + 1 + length cases.now < 2 ^ 64) }
{
    let tree = tested(context, draft, int_type, switched)?;
    let site = context.site(at);
    let end = begin_switch(
        context.alloc,
        draft,
        site,
        int_type,
        cases,
        has_default,
        &tree,
    );
    drop(tree);
    end
}
