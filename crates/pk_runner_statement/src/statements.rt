// Statements, and what comes behind them.

ghost use Rattle.std.specs.Prelude.{◌≡◌, Some, IfOk};
ghost use Rattle.pk_typed.specs.Views.{for_start_tree, statement_tree};
ghost use Rattle.pk_meaning.specs.Programs as programs;
ghost use Rattle.pk_meaning.specs.Steps as steps;
ghost use Rattle.pk_meaning.specs.Work as work;
ghost use Rattle.pk_runner_frame.specs.Frames.{Reading, held, ahead_at, scope_in, place_in, loop_of};
ghost use Rattle.pk_runner_state.specs.Shown.{program_in, shown, Told, Agrees};

use crate::declarations::rest;
use crate::steps::{begin_if, begin_if_else, begin_loop, begin_switch, fall, return_value};
use pk_ctypes::{IntType, Pos};
use pk_runner_frame::{Ahead, Caller, Frame, Spot, Task, Work, before, loop_of, then, way_there};
use pk_runner_jump::{Mark, break_out, continue_loop, for_scope, go_to, go_to_case, loop_again};
use pk_runner_state::{Answer, Program, State, Table, come, go_on, resume, top, without};
use pk_typed::{ForHead, ForStart, Statement};
use std::alloc::AllocError;

fn begin_for<'a>(
    program: &Program<'a>,
    state: &mut State<'a>,
    table: &mut Table,
    at: Pos,
    statement: &'a Statement,
    head: &'a ForHead,
    ahead: usize,
) -> Result<Answer, AllocError>
    ensures told { (s : Reading) (l : work.Loop) → Agrees s table.new.rows.items →
        loop_of (statement_tree statement.now) ≡ Some l →
        IfOk result (λ r. Told s state.old state.new r
        (steps.for_start (steps.standing_at at (shown s state.old)) (for_start_tree head.now.start)
        (work.Back (steps.place at
        (steps.for_scope (program_in program.now) state.old.path (for_start_tree head.now.start)
        (scope_in s state.old.here.scope))) l (steps.place at (scope_in s state.old.here.scope))
        (ahead_at (held s state.old.frames.items) ahead)))) }
    ensures before { (s : Reading) → Agrees s table.new.rows.items → Agrees s table.old.rows.items }
{
    let here = Spot {
        at,
        scope: state.here.scope,
    };
    let inner = Spot {
        at,
        scope: for_scope(program, table, state.path, &head.start, here.scope)?,
    };
    let again = before(
        &mut state.frames,
        Ahead::Again(inner, statement, here, ahead),
    )?;
    let back = then(&mut state.frames, Work::Back(again))?;
    state.here = here;
    match &head.start {
        ForStart::Declared(objects) => Ok(go_on(state, Work::Declare(objects.as_slice(), back))),
        ForStart::Effect(first) => match first {
            None => Ok(resume(state, back)),
            Some(effect) => Ok(go_on(state, Work::Perform(Task::Tree(effect), back))),
        },
    }
}

/// A statement, behind which comes what is ahead.
pub fn execute<'a>(
    program: &Program<'a>,
    state: &mut State<'a>,
    table: &mut Table,
    statement: &'a Statement,
    ahead: usize,
) -> Result<Answer, AllocError>
    ensures told { (s : Reading) → Agrees s table.new.rows.items →
        IfOk result (λ r. Told s state.old state.new r
        (steps.does (program_in program.now) (shown s state.old) (statement_tree statement.now) (ahead_at
        (held s state.old.frames.items) ahead))) }
    ensures before { (s : Reading) → Agrees s table.new.rows.items → Agrees s table.old.rows.items }
{
    let scope = state.here.scope;
    match statement {
        Statement::Block(_, items) => {
            let rest = before(
                &mut state.frames,
                Ahead::Rest(scope, items.as_slice(), ahead),
            )?;
            Ok(go_on(state, Work::Go(rest)))
        }
        Statement::Empty(_) => Ok(go_on(state, Work::Go(ahead))),
        Statement::Effect(at, effect) => {
            let way = way_there(&mut state.frames, ahead)?;
            state.here = Spot { at: *at, scope };
            Ok(go_on(state, Work::Perform(Task::Tree(effect), way)))
        }
        Statement::Label(at, _, inner) => {
            Ok(come(state, Spot { at: *at, scope }, Work::Do(inner, ahead)))
        }
        Statement::Case(at, _, inner) => {
            Ok(come(state, Spot { at: *at, scope }, Work::Do(inner, ahead)))
        }
        Statement::Default(at, inner) => {
            Ok(come(state, Spot { at: *at, scope }, Work::Do(inner, ahead)))
        }
        Statement::If(at, condition, body) => begin_if(state, *at, condition, body, ahead),
        Statement::IfElse {
            at,
            condition,
            if_true,
            if_false,
        } => begin_if_else(state, *at, condition, if_true, if_false, ahead),
        Statement::Switch {
            at,
            int_type,
            value,
            cases,
            has_default,
            body,
        } => begin_switch(
            state,
            *at,
            *int_type,
            value,
            cases.as_slice(),
            *has_default,
            body,
            ahead,
        ),
        Statement::While(at, _, _) => begin_loop(state, *at, statement, ahead),
        Statement::Do(at, _, _) => begin_loop(state, *at, statement, ahead),
        Statement::For(at, head, _) => {
            begin_for(program, state, table, *at, statement, head, ahead)
        }
        Statement::Goto(_, label) => go_to(program, state, table, *label, ahead),
        Statement::Continue(_) => continue_loop(state, ahead),
        Statement::Break(_) => Ok(break_out(state, ahead)),
        Statement::Return(at, value) => return_value(program, state, *at, value, ahead),
    }
}

/// On with what comes behind a statement.
pub fn proceed<'a>(
    program: &Program<'a>,
    state: &mut State<'a>,
    table: &mut Table,
    chosen: &[i128],
    number: usize,
) -> Result<Answer, AllocError>
    ensures told { (s : Reading) → Agrees s table.new.rows.items →
        IfOk result (λ r. Told s state.old state.new r
        (steps.goes (program_in program.now) chosen.now (shown s state.old)
        (ahead_at (held s state.old.frames.items) number))) }
    ensures before { (s : Reading) → Agrees s table.new.rows.items → Agrees s table.old.rows.items }
{
    if number < state.frames.len() {
        let frame = state.frames[number];
        match frame {
            Frame::Ahead(ahead) => match ahead {
                Ahead::Rest(scope, items, next) => {
                    let next = if next < number {
                        next
                    } else {
                        state.frames.len()
                    };
                    rest(program, state, table, chosen, scope, items, next)
                }
                Ahead::Join(here, next) => {
                    state.frames.truncate(number);
                    Ok(come(state, here, Work::Go(next)))
                }
                Ahead::Again(_, statement, _, _) => match loop_of(statement) {
                    Some(_) => loop_again(state, number),
                    None => fall(program, state, table, chosen, number, Caller::Nobody),
                },
                Ahead::Close(here, next) => {
                    state.frames.truncate(number);
                    Ok(come(state, here, Work::Go(next)))
                }
                Ahead::End(caller) => { fall(program, state, table, chosen, number, caller) }
            },
            Frame::Work(_) => fall(program, state, table, chosen, number, Caller::Nobody),
        }
    } else {
        fall(program, state, table, chosen, number, Caller::Nobody)
    }
}

fn is_same(value: &i128, case: &i128) -> bool
    ensures { result ≡ int_eq value.now case.now }
{
    *value == *case
}

ghost use Rattle.std.specs.Ordering.{int_eq};

/// The cases of a switch that are left, from a number on.
pub fn choose<'a>(
    program: &Program<'a>,
    state: &mut State<'a>,
    table: &mut Table,
    int_type: IntType,
    cases: &'a [i128],
    number: usize,
    has_default: bool,
    body: &'a Statement,
    here: Spot,
    ahead: usize,
) -> Result<Answer, AllocError>
    ensures told { (s : Reading) → Agrees s table.new.rows.items →
        IfOk result (λ r. Told s state.old state.new r
        (steps.on_top (shown s state.old).values (λ v vs. steps.chooses (program_in program.now)
        (shown s state.old) int_type cases.now number has_default (statement_tree body.now) (place_in s here)
        (ahead_at (held s state.old.frames.items) ahead) v vs))) }
    ensures before { (s : Reading) → Agrees s table.new.rows.items → Agrees s table.old.rows.items }
{
    match top(&state.values) {
        None => Ok(Answer::Stuck),
        Some(value) => {
            if cases.len() == 0 {
                without(&mut state.values, 1);
                if has_default {
                    go_to_case(program, state, table, Mark::Default, here, body, ahead)
                } else {
                    Ok(come(state, here, Work::Go(ahead)))
                }
            } else if is_same(&value, &cases[0]) {
                without(&mut state.values, 1);
                go_to_case(program, state, table, Mark::Case(number), here, body, ahead)
            } else {
                let next = number.checked_add(1).ok_or(AllocError)?;
                Ok(come(
                    state,
                    here,
                    Work::Choose(int_type, &cases[1..], next, has_default, body, here, ahead),
                ))
            }
        }
    }
}
