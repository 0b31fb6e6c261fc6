// Steps that jump nowhere.

ghost use Rattle.std.specs.Prelude.{◌≡◌, ◌<◌, ◌+◌, ℕ, length, take, Option, Some, IfOk, OnOk, option_map, slice_index_or};
ghost use Rattle.pk_typed.specs.Trees as tree;
ghost use Rattle.pk_typed.specs.Views.{value_tree, statement_tree};
ghost use Rattle.pk_meaning.specs.Programs as programs;
ghost use Rattle.pk_meaning.specs.Steps as steps;
ghost use Rattle.pk_meaning.specs.Work as work;
ghost use Rattle.pk_runner_frame.specs.Frames.{Reading, held, nothing, work_at, ahead_at, work_in, scope_in, loop_of, turn, back, caller_in};
ghost use Rattle.pk_runner_state.specs.Shown.{program_in, shown, Told, Agrees};

use pk_ctypes::{IntType, Pos};
use pk_runner_frame::{
    Ahead, Caller, Expression, Frame, Loop, Object, Spot, Way, Work, before, loop_at, take,
    take_caller, then,
};
use pk_runner_state::{
    Answer, Program, State, Table, are_chosen, body_scope, closed, come, go_on, is_main, items,
    opened, returns, write,
};
use pk_typed::{Statement, Value};
use std::alloc::AllocError;

// Work on top; what stands below stays, as work and as what comes behind a statement.
fn then_over<'a>(frames: &mut Vec<Frame<'a>>, work: Work<'a>) -> Result<usize, AllocError>
    ensures work { (s : Reading) →
        IfOk result (λ n. work_at (held s frames.new.items) n ≡ work_in s (held s frames.old.items) work.entry) }
    ensures below { (s : Reading) (i : ℕ) → i < length frames.old.items →
        OnOk result (slice_index_or (held s frames.new.items) i nothing
        ≡ slice_index_or (held s frames.old.items) i nothing) }
    ensures number { IfOk result (λ n. n ≡ length frames.old.items) }
    ensures count { OnOk result (length frames.new.items ≡ length frames.old.items + 1) }
{
    let number = frames.len();
    frames.push(Frame::Work(work))?;
    Ok(number)
}

// `if` without else.
pub fn begin_if<'a>(
    state: &mut State<'a>,
    at: Pos,
    condition: &'a Value,
    body: &'a Statement,
    ahead: usize,
) -> Result<Answer, AllocError>
    ensures { (s : Reading) (p : programs.Program) → IfOk result
        (λ r. Told s state.old state.new r
        (steps.does p (shown s state.old) (tree.if_then at (value_tree condition.now)
        (statement_tree body.now)) (ahead_at (held s state.old.frames.items) ahead))) }
{
    let here = Spot {
        at,
        scope: state.here.scope,
    };
    let join = before(&mut state.frames, Ahead::Join(here, ahead))?;
    let yes = then(&mut state.frames, Work::Do(body, join))?;
    state.here = here;
    Ok(go_on(
        state,
        Work::Test(
            Expression::Tree(condition, false),
            Way::Onward(here, yes),
            Way::Onward(here, join),
        ),
    ))
}

// `if` with else.
pub fn begin_if_else<'a>(
    state: &mut State<'a>,
    at: Pos,
    condition: &'a Value,
    if_true: &'a Statement,
    if_false: &'a Statement,
    ahead: usize,
) -> Result<Answer, AllocError>
    ensures { (s : Reading) (p : programs.Program) → IfOk result
        (λ r. Told s state.old state.new r
        (steps.does p (shown s state.old) (tree.if_else at (value_tree condition.now)
        (statement_tree if_true.now) (statement_tree if_false.now)) (ahead_at (held s state.old.frames.items) ahead))) }
{
    let here = Spot {
        at,
        scope: state.here.scope,
    };
    let join = before(&mut state.frames, Ahead::Join(here, ahead))?;
    let yes = then_over(&mut state.frames, Work::Do(if_true, join))?;
    let no = then(&mut state.frames, Work::Do(if_false, join))?;
    state.here = here;
    Ok(go_on(
        state,
        Work::Test(
            Expression::Tree(condition, false),
            Way::Onward(here, yes),
            Way::Onward(here, no),
        ),
    ))
}

pub fn begin_switch<'a>(
    state: &mut State<'a>,
    at: Pos,
    int_type: IntType,
    value: &'a Value,
    cases: &'a [i128],
    has_default: bool,
    body: &'a Statement,
    ahead: usize,
) -> Result<Answer, AllocError>
    ensures { (s : Reading) (p : programs.Program) →
        IfOk result (λ r. Told s state.old state.new r (steps.does p (shown s state.old) (tree.switch at int_type
        (value_tree value.now) cases.now has_default (statement_tree body.now))
        (ahead_at (held s state.old.frames.items) ahead))) }
{
    let here = Spot {
        at,
        scope: state.here.scope,
    };
    let choose = then(
        &mut state.frames,
        Work::Choose(int_type, cases, 0, has_default, body, here, ahead),
    )?;
    let keep = then(&mut state.frames, Work::Keep(choose))?;
    let convert = then(&mut state.frames, Work::Convert(int_type, keep))?;
    state.here = here;
    Ok(go_on(
        state,
        Work::Evaluate(Expression::Tree(value, false), convert),
    ))
}

// `while`, `do`: the statement is the loop.
pub fn begin_loop<'a>(
    state: &mut State<'a>,
    at: Pos,
    statement: &'a Statement,
    ahead: usize,
) -> Result<Answer, AllocError>
    ensures { (s : Reading) (l : work.Loop) → loop_of (statement_tree statement.now) ≡ Some l →
        IfOk result (λ r. Told s state.old state.new r
        (steps.comes (shown s state.old) (steps.place at (scope_in s state.old.here.scope))
        (work.Turn (steps.place at
        (scope_in s state.old.here.scope)) l (steps.place at (scope_in s state.old.here.scope))
        (ahead_at (held s state.old.frames.items) ahead)) (shown s state.old).values)) }
{
    let here = Spot {
        at,
        scope: state.here.scope,
    };
    let again = before(
        &mut state.frames,
        Ahead::Again(here, statement, here, ahead),
    )?;
    Ok(come(state, here, Work::Turn(again)))
}

pub fn return_value<'a>(
    program: &Program<'a>,
    state: &mut State<'a>,
    at: Pos,
    value: &'a Option<Value>,
    ahead: usize,
) -> Result<Answer, AllocError>
    ensures { (s : Reading) →
        IfOk result (λ r.
        Told s state.old state.new r (steps.returns (steps.standing_at at (shown s state.old)) (programs.function_of
        (program_in program.now) state.old.path).returns (option_map value_tree value.now)
        (steps.caller_of (ahead_at (held s state.old.frames.items) ahead)))) }
{
    let path = state.path;
    let caller = take_caller(&mut state.frames, ahead);
    state.here = Spot {
        at,
        scope: state.here.scope,
    };
    match returns(program, path) {
        None => Ok(go_on(state, Work::Leave(caller))),
        Some(int_type) => match value {
            None => Ok(go_on(state, Work::Leave(caller))),
            Some(value) => {
                let leave = then(&mut state.frames, Work::Leave(caller))?;
                let put = then(
                    &mut state.frames,
                    Work::Put(int_type, Object::Result(path), leave),
                )?;
                Ok(go_on(state, Work::Evaluate(Expression::Tree(value, false), put)))
            }
        },
    }
}

// The end of a function's body.
pub fn fall<'a>(
    program: &Program<'a>,
    state: &mut State<'a>,
    table: &mut Table,
    chosen: &[i128],
    number: usize,
    caller: Caller,
) -> Result<Answer, AllocError>
    ensures told { (s : Reading) → Agrees s table.new.rows.items →
        IfOk result (λ r. Told s state.old state.new r
        (steps.goes (program_in program.now) chosen.now (shown s state.old) (work.End (caller_in s (held s
        (take number state.old.frames.items)) caller)))) }
    ensures before { (s : Reading) → Agrees s table.new.rows.items → Agrees s table.old.rows.items }
{
    let path = state.path;
    let here = Spot {
        at: closed(program, path),
        scope: body_scope(program, table, path)?,
    };
    match returns(program, path) {
        None => {
            state.frames.truncate(number);
            state.here = here;
            Ok(go_on(state, Work::Leave(caller)))
        }
        Some(int_type) => {
            if is_main(program, path) {
                state.frames.truncate(number);
                state.here = here;
                let leave = then(&mut state.frames, Work::Leave(caller))?;
                write(state, Object::Result(path), &0, leave)
            } else if are_chosen(int_type, 1, chosen) {
                state.frames.truncate(number);
                state.here = here;
                let leave = then(&mut state.frames, Work::Leave(caller))?;
                write(state, Object::Result(path), &chosen[0], leave)
            } else {
                Ok(Answer::Wants(int_type, 1))
            }
        }
    }
}

/// A call of a path, behind its parameters.
pub fn enter<'a>(
    program: &Program<'a>,
    state: &mut State<'a>,
    table: &mut Table,
    path: usize,
    number: usize,
) -> Result<Answer, AllocError>
    ensures told { (s : Reading) → Agrees s table.new.rows.items →
        IfOk result (λ r. Told s state.old state.new r
        (steps.enters (program_in program.now) (shown s state.old) path
        (work_at (held s state.old.frames.items) number))) }
    ensures before { (s : Reading) → Agrees s table.new.rows.items → Agrees s table.old.rows.items }
{
    let scope = body_scope(program, table, path)?;
    let caller = Caller::Path(state.path, state.here, number);
    let end = before(&mut state.frames, Ahead::End(caller))?;
    let rest = before(
        &mut state.frames,
        Ahead::Rest(scope, items(program, path), end),
    )?;
    state.path = path;
    state.here = Spot {
        at: opened(program, path),
        scope,
    };
    Ok(go_on(state, Work::Go(rest)))
}

/// To the function's exit.
pub fn leave<'a>(
    program: &Program<'a>,
    state: &mut State<'a>,
    table: &mut Table,
    caller: Caller,
) -> Result<Answer, AllocError>
    ensures told { (s : Reading) → Agrees s table.new.rows.items →
        IfOk result (λ r. Told s state.old state.new r
        (steps.comes (shown s state.old) (steps.body_place (program_in program.now) state.old.path)
        (work.Return (caller_in s
        (held s state.old.frames.items) caller)) (shown s state.old).values)) }
    ensures before { (s : Reading) → Agrees s table.new.rows.items → Agrees s table.old.rows.items }
{
    let path = state.path;
    let scope = body_scope(program, table, path)?;
    let here = Spot {
        at: opened(program, path),
        scope,
    };
    Ok(come(state, here, Work::Return(caller)))
}

// What the entry returns.
fn result_of(program: &Program<'_>, state: &State<'_>) -> Option<i128>
    ensures { (s : Reading) → result
        ≡ steps.result_of (shown s state.now) (programs.function_of (program_in program.now) state.now.path).returns }
{
    match returns(program, state.path) {
        None => None,
        Some(_) => Some(state.objects.number(Object::Result(state.path))),
    }
}

/// Behind the exit.
pub fn go_back<'a>(program: &Program<'a>, state: &mut State<'a>, caller: Caller) -> Answer
    ensures { (s : Reading) → Told s state.old state.new result
        (steps.returned (program_in program.now) (shown s state.old)
        (caller_in s (held s state.old.frames.items) caller)) }
{
    match caller {
        Caller::Nobody => Answer::Returned(result_of(program, state)),
        Caller::Path(path, here, number) => {
            let work = take(&mut state.frames, number);
            state.path = path;
            state.here = here;
            go_on(state, work)
        }
    }
}

/// A loop where it begins again.
pub fn turn_loop<'a>(program: &Program<'a>, state: &mut State<'a>, number: usize) -> Answer
    ensures { (s : Reading) (p : programs.Program) (ch : Numbers) → p ≡ program_in program.now →
        Told s state.old state.new result
        (steps.step_of p ch (shown s state.old) (turn (ahead_at (held s state.old.frames.items) number))) }
{
    match loop_at(&state.frames, number) {
        Some(end) => match end.kind {
            Loop::While(test, _) => go_on(
                state,
                Work::Test(
                    Expression::Tree(test, false),
                    Way::Into(number),
                    Way::Behind(number),
                ),
            ),
            Loop::DoWhile(body, _) => go_on(state, Work::Do(body, number)),
            Loop::For(test, _, body) => match test {
                None => come(state, end.here, Work::Do(body, number)),
                Some(test) => go_on(
                    state,
                    Work::Test(
                        Expression::Tree(test, false),
                        Way::Into(number),
                        Way::Behind(number),
                    ),
                ),
            },
        },
        None => go_back(program, state, Caller::Nobody),
    }
}

ghost use Rattle.pk_graph.specs.Steps.{Numbers};

/// The way to where a loop begins again.
pub fn go_back_to_loop<'a>(program: &Program<'a>, state: &mut State<'a>, number: usize) -> Answer
    ensures { (s : Reading) (p : programs.Program) (ch : Numbers) → p ≡ program_in program.now →
        Told s state.old state.new result
        (steps.step_of p ch (shown s state.old) (back (ahead_at (held s state.old.frames.items) number))) }
{
    match loop_at(&state.frames, number) {
        Some(end) => come(state, end.here, Work::Turn(number)),
        None => go_back(program, state, Caller::Nobody),
    }
}
