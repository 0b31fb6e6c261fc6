// The lowering of statements.

ghost use Rattle.std.specs.Prelude.{◌≡◌, ◌+◌, ◌<◌, ◌^◌, option_map, IfOk, OnOk};
ghost use Rattle.pk_typed.specs.Views.{value_tree, effect_tree, for_start_tree, statement_tree, item_trees};
ghost use Rattle.pk_draft.specs.Drafts as drafts;
ghost use Rattle.pk_draft.specs.Shown.{drafted};
ghost use Rattle.pk_lower_row.specs.Contexts as contexts;
ghost use Rattle.pk_lower_row.specs.Rows as expressions;
ghost use Rattle.pk_lower_expression.specs.Expressions.{ways, performed};
ghost use Rattle.pk_lower_row.specs.Views.{context_in};
ghost use Rattle.pk_lower_statement.specs.Statements as rows;

use crate::declarations::{declare, declare_all};
use crate::jumps::return_value;
use crate::switches::open_switch;
use pk_ctypes::{IntType, Pos};
use pk_draft::Draft;
use pk_graph::Instr;
use pk_lower_expression::{choose, perform};
use pk_lower_row::Context;
use pk_typed::{Effect, ForHead, ForStart, Item, Statement, Value};
use std::alloc::AllocError;

/// Where break, continue and return go; the first of the function's labels, and of the innermost switch the first of its cases and its default.
#[derive(Clone, Copy)]
pub struct Exits {
    pub broken: usize,
    pub continued: usize,
    pub left: usize,
    pub labels: usize,
    pub cases: usize,
    pub otherwise: usize,
}

// A point of a row of them.
fn point_of(first: usize, number: usize) -> Result<usize, AllocError>
    ensures { IfOk result (λ p. p ≡ first + number) }
{
    first.checked_add(number).ok_or(AllocError)
}

// An optional expression for its effect.
fn perform_if(
    context: &Context<'_>,
    draft: &mut Draft,
    effect: &Option<Effect>,
) -> Result<(), AllocError>
    ensures { OnOk result (drafted draft.new
        ≡ rows.performed_if (context_in context.now) (option_map effect_tree effect.now) (drafted draft.old)) }
{
    match effect {
        None => Ok(()),
        Some(effect) => perform(context, draft, effect),
    }
}

#[tactic(auto, unfolding(pk_typed::specs::Views::for_start_tree))]
fn start_for(context: &Context<'_>, draft: &mut Draft, start: &ForStart) -> Result<(), AllocError>
    ensures { OnOk result
        (drafted draft.new ≡ rows.for_start (context_in context.now) (for_start_tree start.now) (drafted draft.old)) }
{
    match start {
        ForStart::Declared(objects) => declare_all(context, draft, objects.as_slice()),
        ForStart::Effect(effect) => perform_if(context, draft, effect),
    }
}

fn test_for(
    context: &Context<'_>,
    draft: &mut Draft,
    if_true: usize,
    if_false: usize,
    test: &Option<Value>,
) -> Result<(), AllocError>
    ensures { OnOk result (drafted draft.new ≡ rows.for_test (context_in context.now)
        (option_map value_tree test.now) if_true if_false (drafted draft.old)) }
{
    match test {
        None => draft.link(Instr::skip(), if_true),
        Some(test) => choose(context, draft, if_true, if_false, test),
    }
}

// Two new points for the branches; on at the first.
fn begin_if(
    context: &Context<'_>,
    draft: &mut Draft,
    at: Pos,
    condition: &Value,
) -> Result<usize, AllocError>
    ensures draft { OnOk result (drafted draft.new
        ≡ rows.branching at (ways (context_in context.now) (value_tree condition.now)) (drafted draft.old)) }
    ensures first { IfOk result (λ p. p ≡ (drafted draft.old).points) }
    ensures fits { IfOk result (λ p. p + 2 < 2 ^ 64) }
{
    draft.on(at);
    let first = draft.fresh(2)?;
    choose(context, draft, first, first + 1, condition)?;
    draft.at(first);
    Ok(first)
}

// A new point where both ends meet.
fn end_if(draft: &mut Draft, at: Pos, end: usize) -> Result<(), AllocError>
    ensures { OnOk result (drafted draft.new ≡ rows.meeting at end (drafted draft.old)) }
{
    let other = draft.point();
    draft.on(at);
    let join = draft.fresh(1)?;
    draft.at(end);
    draft.link(Instr::skip(), join)?;
    draft.at(other);
    draft.go(Instr::skip(), join)
}

// Three new points; on at the first, with an edge to it.
fn begin_loop(draft: &mut Draft) -> Result<usize, AllocError>
    ensures draft { OnOk result (drafted draft.new ≡ rows.loop_begun (drafted draft.old)) }
    ensures first { IfOk result (λ p. p ≡ (drafted draft.old).points) }
    ensures fits { IfOk result (λ p. p + 3 < 2 ^ 64) }
{
    let first = draft.fresh(3)?;
    draft.go(Instr::skip(), first)?;
    Ok(first)
}

// A loop's body between two points, and the way from its end.
#[cycle(statements)]
fn round(
    context: &Context<'_>,
    draft: &mut Draft,
    exits: Exits,
    from: usize,
    broken: usize,
    to: usize,
    body: &Statement,
) -> Result<(), AllocError>
    ensures { OnOk result (drafted draft.new ≡ rows.round exits
        (rows.lowered (context_in context.now) (statement_tree body.now)) from broken to (drafted draft.old)) }
{
    draft.at(from);
    let inner = Exits {
        broken,
        continued: to,
        ..exits
    };
    lower(context, draft, inner, body)?;
    draft.go(Instr::skip(), to)
}

#[cycle(statements)]
fn lower_while(
    context: &Context<'_>,
    draft: &mut Draft,
    exits: Exits,
    at: Pos,
    body: &Statement,
    condition: &Value,
) -> Result<(), AllocError>
    ensures { OnOk result (drafted draft.new ≡ rows.while_draft
        (ways (context_in context.now) (value_tree condition.now))
        (rows.lowered (context_in context.now) (statement_tree body.now)) exits (drafts.on at (drafted draft.old))) }
{
    draft.on(at);
    let head = begin_loop(draft)?;
    choose(context, draft, head + 1, head + 2, condition)?;
    round(context, draft, exits, head + 1, head + 2, head, body)?;
    draft.at(head + 2);
    Ok(())
}

#[cycle(statements)]
fn lower_do(
    context: &Context<'_>,
    draft: &mut Draft,
    exits: Exits,
    at: Pos,
    body: &Statement,
    condition: &Value,
) -> Result<(), AllocError>
    ensures { OnOk result (drafted draft.new ≡ rows.do_draft at
        (ways (context_in context.now) (value_tree condition.now))
        (rows.lowered (context_in context.now) (statement_tree body.now)) exits (drafts.on at (drafted draft.old))) }
{
    draft.on(at);
    let first = begin_loop(draft)?;
    round(context, draft, exits, first, first + 2, first + 1, body)?;
    draft.on(at);
    choose(context, draft, first, first + 2, condition)?;
    draft.at(first + 2);
    Ok(())
}

#[cycle(statements)]
fn lower_for(
    context: &Context<'_>,
    draft: &mut Draft,
    exits: Exits,
    at: Pos,
    head: &ForHead,
    body: &Statement,
) -> Result<(), AllocError>
    ensures { let h = head.now in
        OnOk result (drafted draft.new ≡ rows.for_draft at
        (rows.for_start (context_in context.now) (for_start_tree h.start))
        (rows.for_test (context_in context.now) (option_map value_tree h.test))
        (rows.performed_if (context_in context.now) (option_map effect_tree h.step))
        (rows.lowered (context_in context.now) (statement_tree body.now)) exits
        (drafts.on at (drafted draft.old))) }
{
    draft.on(at);
    let outer = draft.here().scope;
    let end = draft.fresh(1)?;
    start_for(context, draft, &head.start)?;
    draft.on(at);
    let inner = draft.here().scope;
    let first = begin_loop(draft)?;
    test_for(context, draft, first + 1, end, &head.test)?;
    round(context, draft, exits, first + 1, end, first + 2, body)?;
    draft.on(at);
    draft.scope(inner);
    perform_if(context, draft, &head.step)?;
    draft.go(Instr::skip(), first)?;
    draft.at(end);
    draft.scope(outer);
    Ok(())
}

#[cycle(statements)]
fn lower_switch(
    context: &Context<'_>,
    draft: &mut Draft,
    exits: Exits,
    at: Pos,
    body: &Statement,
    int_type: IntType,
    value: &Value,
    cases: &[i128],
    has_default: bool,
) -> Result<(), AllocError>
    ensures { OnOk result (drafted draft.new ≡ rows.switch_draft (contexts.site (context_in context.now) at) int_type
        (expressions.operand (value_tree value.now) (ways (context_in context.now) (value_tree value.now)))
        cases.now has_default (rows.lowered (context_in context.now) (statement_tree body.now)) exits
        (drafts.on at (drafted draft.old))) }
{
    draft.on(at);
    let end = open_switch(context, draft, at, int_type, value, cases, has_default)?;
    let inner = Exits {
        broken: end,
        cases: end + 1,
        otherwise: end + 1 + cases.len(),
        ..exits
    };
    lower(context, draft, inner, body)?;
    draft.go(Instr::skip(), end)
}

/// A statement.
#[cycle(statements)]
pub fn lower(
    context: &Context<'_>,
    draft: &mut Draft,
    exits: Exits,
    statement: &Statement,
) -> Result<(), AllocError>
    ensures { OnOk result (drafted draft.new
        ≡ rows.lowered (context_in context.now) (statement_tree statement.now) exits (drafted draft.old)) }
{
    match statement {
        Statement::Block(_, items) => {
            let scope = draft.here().scope;
            lower_items(context, draft, exits, items.as_slice())?;
            draft.scope(scope);
            Ok(())
        }
        Statement::Empty(_) => Ok(()),
        Statement::Effect(at, effect) => {
            draft.on(*at);
            perform(context, draft, effect)
        }
        Statement::Label(at, number, body) => {
            draft.on(*at);
            let point = point_of(exits.labels, *number)?;
            draft.come(point)?;
            lower(context, draft, exits, body)
        }
        Statement::Case(at, number, body) => {
            draft.on(*at);
            let point = point_of(exits.cases, *number)?;
            draft.come(point)?;
            lower(context, draft, exits, body)
        }
        Statement::Default(at, body) => {
            draft.on(*at);
            draft.come(exits.otherwise)?;
            lower(context, draft, exits, body)
        }
        Statement::If(at, condition, body) => {
            let first = begin_if(context, draft, *at, condition)?;
            lower(context, draft, exits, body)?;
            let end = draft.point();
            draft.at(first + 1);
            end_if(draft, *at, end)
        }
        Statement::IfElse {
            at,
            condition,
            if_true,
            if_false,
        } => {
            let first = begin_if(context, draft, *at, condition)?;
            lower(context, draft, exits, if_true)?;
            let end = draft.point();
            draft.at(first + 1);
            lower(context, draft, exits, if_false)?;
            end_if(draft, *at, end)
        }
        Statement::Switch {
            at,
            int_type,
            value,
            cases,
            has_default,
            body,
        } => lower_switch(
            context,
            draft,
            exits,
            *at,
            body,
            *int_type,
            value,
            cases.as_slice(),
            *has_default,
        ),
        Statement::While(at, condition, body) => {
            lower_while(context, draft, exits, *at, body, condition)
        }
        Statement::Do(at, body, condition) => {
            lower_do(context, draft, exits, *at, body, condition)
        }
        Statement::For(at, head, body) => lower_for(context, draft, exits, *at, head, body),
        Statement::Goto(at, number) => {
            draft.on(*at);
            let point = point_of(exits.labels, *number)?;
            draft.away(point)
        }
        Statement::Continue(at) => {
            draft.on(*at);
            draft.away(exits.continued)
        }
        Statement::Break(at) => {
            draft.on(*at);
            draft.away(exits.broken)
        }
        Statement::Return(at, value) => {
            draft.on(*at);
            return_value(context, draft, exits.left, value)
        }
    }
}

/// The items of a block.
#[cycle(statements)]
pub fn lower_items(
    context: &Context<'_>,
    draft: &mut Draft,
    exits: Exits,
    items: &[Item],
) -> Result<(), AllocError>
    ensures { OnOk result (drafted draft.new
        ≡ rows.lowered_items (context_in context.now) (item_trees items.now) exits (drafted draft.old)) }
{
    for item in items {
        match item {
            Item::Declared(object) => declare(context, draft, object)?,
            Item::Statement(statement) => lower(context, draft, exits, statement)?,
        }
    }
    Ok(())
}
