// Jumps: labels, cases, break, continue.

ghost use Rattle.std.specs.Prelude.{◌≡◌, IfOk, None};
ghost use Rattle.pk_typed.specs.Views.{for_start_tree, statement_tree, item_trees};
ghost use Rattle.pk_meaning.specs.Steps as steps;
ghost use Rattle.pk_runner_frame.specs.Frames.{Reading, held, ahead_at, ahead_in, scope_in};
ghost use Rattle.pk_runner_state.specs.Shown.{program_in, shown, Told, Agrees};
ghost use Rattle.pk_runner_jump.specs.Marks.{mark_in, found_in};

use pk_ctypes::Pos;
use pk_runner_frame::{
    Ahead, Caller, Expression, Frame, Loop, Scope, Spot, Task, Way, Work, ahead_in_frame, before,
    loop_at, take_caller, then,
};
use pk_runner_state::{
    Answer, Program, State, Table, body_scope, come, items, leave_loop, with_all_declared,
    with_declared,
};
use pk_typed::{ForStart, Item, Statement};
use std::alloc::AllocError;

/// What a jump looks for.
#[derive(Clone, Copy)]
pub enum Mark {
    Label(usize),
    Case(usize),
    Default,
}

/// Where it was found: what is done there.
#[derive(Clone, Copy)]
pub struct Found<'a> {
    pub here: Spot,
    pub statement: &'a Statement,
    pub ahead: usize,
}

fn is_label(mark: Mark, label: usize) -> bool
    ensures { result ≡ steps.is_label (mark_in mark) label }
{
    match mark {
        Mark::Label(number) => number == label,
        Mark::Case(_) => false,
        Mark::Default => false,
    }
}

fn is_case(mark: Mark, case: usize) -> bool
    ensures { result ≡ steps.is_case (mark_in mark) case }
{
    match mark {
        Mark::Case(number) => number == case,
        Mark::Label(_) | Mark::Default => false,
    }
}

fn is_default(mark: Mark) -> bool
    ensures { result ≡ steps.is_default (mark_in mark) }
{
    match mark {
        Mark::Label(_) => false,
        Mark::Case(_) => false,
        Mark::Default => true,
    }
}

/// The scope in a `for`, behind its first part.
pub fn for_scope(
    program: &Program<'_>,
    table: &mut Table,
    path: usize,
    start: &ForStart,
    scope: Scope,
) -> Result<Scope, AllocError>
    ensures scope { (s : Reading) → Agrees s table.new.rows.items →
        IfOk result (λ x.
        scope_in s x ≡ steps.for_scope (program_in program.now) path (for_start_tree start.now) (scope_in s scope)) }
    ensures before { (s : Reading) → Agrees s table.new.rows.items → Agrees s table.old.rows.items }
{
    match start {
        ForStart::Declared(objects) => {
            with_all_declared(program, table, path, objects.as_slice(), scope)
        }
        ForStart::Effect(_) => Ok(scope),
    }
}

// What comes behind a statement on top; what stands below stays.
fn lay<'a>(frames: &mut Vec<Frame<'a>>, ahead: Ahead<'a>) -> Result<usize, AllocError>
    ensures frames { OnOk result (frames.new.items ≡ frames.old.items ++ frame.Ahead ahead.entry ∷ []) }
    ensures number { IfOk result (λ n. n ≡ length frames.old.items) }
{
    let number = frames.len();
    frames.push(Frame::Ahead(ahead))?;
    Ok(number)
}

ghost use Rattle.std.specs.Prelude.{◌++◌, ◌∷◌, [], length, OnOk};
ghost use Rattle.pk_runner_frame.specs.declared.works.Frame.TheVariants as frame;

// In a part of a statement, behind which comes what is laid first.
#[cycle(finding)]
fn find_behind<'a>(
    program: &Program<'a>,
    table: &mut Table,
    frames: &mut Vec<Frame<'a>>,
    path: usize,
    mark: Mark,
    scope: Scope,
    statement: &'a Statement,
    ahead: Ahead<'a>,
) -> Result<Option<Found<'a>>, AllocError>
    ensures found { (s : Reading) → Agrees s table.new.rows.items → (o : work.Way) →
        IfOk result (λ r. found_in s (held s frames.new.items) r o
        ≡ steps.found (program_in program.now) path (mark_in mark) (scope_in s scope) (statement_tree statement.now)
        (ahead_in s (held s frames.old.items) ahead.entry) o) }
    ensures before { (s : Reading) → Agrees s table.new.rows.items → Agrees s table.old.rows.items }
    ensures kept { IfOk result (λ r. r ≡ None → frames.new.items ≡ frames.old.items) }
{
    let count = frames.len();
    let number = lay(frames, ahead)?;
    match find(program, table, frames, path, mark, scope, statement, number)? {
        Some(found) => Ok(Some(found)),
        None => {
            frames.truncate(count);
            Ok(None)
        }
    }
}

// The way to a mark in a statement.
#[cycle(finding)]
fn find<'a>(
    program: &Program<'a>,
    table: &mut Table,
    frames: &mut Vec<Frame<'a>>,
    path: usize,
    mark: Mark,
    scope: Scope,
    statement: &'a Statement,
    ahead: usize,
) -> Result<Option<Found<'a>>, AllocError>
    ensures found { (s : Reading) → Agrees s table.new.rows.items → (o : work.Way) →
        IfOk result (λ r. found_in s (held s frames.new.items) r o
        ≡ steps.found (program_in program.now) path (mark_in mark) (scope_in s scope) (statement_tree statement.now)
        (ahead_at (held s frames.old.items) ahead) o) }
    ensures before { (s : Reading) → Agrees s table.new.rows.items → Agrees s table.old.rows.items }
    ensures kept { IfOk result (λ r. r ≡ None → frames.new.items ≡ frames.old.items) }
{
    match statement {
        Statement::Block(_, items) => find_in(
            program,
            table,
            frames,
            path,
            mark,
            scope,
            items.as_slice(),
            ahead,
        ),
        Statement::Label(at, label, inner) => {
            if is_label(mark, *label) {
                Ok(Some(Found {
                    here: Spot { at: *at, scope },
                    statement: inner,
                    ahead,
                }))
            } else {
                find(program, table, frames, path, mark, scope, inner, ahead)
            }
        }
        Statement::Case(at, case, inner) => {
            if is_case(mark, *case) {
                Ok(Some(Found {
                    here: Spot { at: *at, scope },
                    statement: inner,
                    ahead,
                }))
            } else {
                find(program, table, frames, path, mark, scope, inner, ahead)
            }
        }
        Statement::Default(at, inner) => {
            if is_default(mark) {
                Ok(Some(Found {
                    here: Spot { at: *at, scope },
                    statement: inner,
                    ahead,
                }))
            } else {
                find(program, table, frames, path, mark, scope, inner, ahead)
            }
        }
        Statement::If(at, _, body) => find_behind(
            program,
            table,
            frames,
            path,
            mark,
            scope,
            body,
            Ahead::Join(Spot { at: *at, scope }, ahead),
        ),
        Statement::IfElse {
            at,
            condition: _,
            if_true,
            if_false,
        } => {
            let here = Spot { at: *at, scope };
            match find_behind(
                program,
                table,
                frames,
                path,
                mark,
                scope,
                if_true,
                Ahead::Join(here, ahead),
            )? {
                Some(found) => Ok(Some(found)),
                None => find_behind(
                    program,
                    table,
                    frames,
                    path,
                    mark,
                    scope,
                    if_false,
                    Ahead::Join(here, ahead),
                ),
            }
        }
        Statement::Switch {
            at,
            int_type: _,
            value: _,
            cases: _,
            has_default: _,
            body,
        } => match mark {
            Mark::Label(_) => find_behind(
                program,
                table,
                frames,
                path,
                mark,
                scope,
                body,
                Ahead::Close(Spot { at: *at, scope }, ahead),
            ),
            Mark::Case(_) => Ok(None),
            Mark::Default => Ok(None),
        },
        Statement::While(at, _, body) => {
            let here = Spot { at: *at, scope };
            find_behind(
                program,
                table,
                frames,
                path,
                mark,
                scope,
                body,
                Ahead::Again(here, statement, here, ahead),
            )
        }
        Statement::Do(at, body, _) => {
            let here = Spot { at: *at, scope };
            find_behind(
                program,
                table,
                frames,
                path,
                mark,
                scope,
                body,
                Ahead::Again(here, statement, here, ahead),
            )
        }
        Statement::For(at, head, body) => {
            let inner = for_scope(program, table, path, &head.start, scope)?;
            find_behind(
                program,
                table,
                frames,
                path,
                mark,
                inner,
                body,
                Ahead::Again(
                    Spot {
                        at: *at,
                        scope: inner,
                    },
                    statement,
                    Spot { at: *at, scope },
                    ahead,
                ),
            )
        }
        Statement::Empty(_) => Ok(None),
        Statement::Effect(_, _) => Ok(None),
        Statement::Goto(_, _) => Ok(None),
        Statement::Continue(_) => Ok(None),
        Statement::Break(_) => Ok(None),
        Statement::Return(_, _) => Ok(None),
    }
}

// The way to a mark in the items of a block.
#[cycle(finding)]
fn find_in<'a>(
    program: &Program<'a>,
    table: &mut Table,
    frames: &mut Vec<Frame<'a>>,
    path: usize,
    mark: Mark,
    scope: Scope,
    items: &'a [Item],
    ahead: usize,
) -> Result<Option<Found<'a>>, AllocError>
    ensures found { (s : Reading) → Agrees s table.new.rows.items → (o : work.Way) →
        IfOk result (λ r. found_in s (held s frames.new.items) r o
        ≡ steps.found_in (program_in program.now) path (mark_in mark) (scope_in s scope) (item_trees items.now)
        (ahead_at (held s frames.old.items) ahead) o) }
    ensures before { (s : Reading) → Agrees s table.new.rows.items → Agrees s table.old.rows.items }
    ensures kept { IfOk result (λ r. r ≡ None → frames.new.items ≡ frames.old.items) }
{
    let mut inner = scope;
    for number in 0..items.len() {
        match &items[number] {
            Item::Declared(declared) => {
                inner = with_declared(program, table, path, declared, inner)?;
            }
            Item::Statement(statement) => {
                let found = find_behind(
                    program,
                    table,
                    frames,
                    path,
                    mark,
                    inner,
                    statement,
                    Ahead::Rest(inner, &items[number + 1..], ahead),
                )?;
                match found {
                    Some(found) => return Ok(Some(found)),
                    None => {}
                }
            }
        }
    }
    Ok(None)
}

// To where a jump found its mark.
fn jump<'a>(state: &mut State<'a>, found: Option<Found<'a>>) -> Answer
    ensures { (s : Reading) → Told s state.old state.new result
        (steps.takes (shown s state.old) (found_in s (held s state.old.frames.items) found.entry work.Lost)
        (shown s state.old).values) }
{
    match found {
        Some(found) => come(state, found.here, Work::Do(found.statement, found.ahead)),
        None => Answer::Stuck,
    }
}

ghost use Rattle.pk_meaning.specs.Work as work;

/// To a label of the function.
pub fn go_to<'a>(
    program: &Program<'a>,
    state: &mut State<'a>,
    table: &mut Table,
    label: usize,
    ahead: usize,
) -> Result<Answer, AllocError>
    ensures told { (s : Reading) → Agrees s table.new.rows.items →
        IfOk result (λ r. Told s state.old state.new r
        (steps.takes (shown s state.old) (steps.gone_to (program_in program.now) state.old.path label (ahead_at
        (held s state.old.frames.items) ahead)) (shown s state.old).values)) }
    ensures before { (s : Reading) → Agrees s table.new.rows.items → Agrees s table.old.rows.items }
{
    let path = state.path;
    let caller = take_caller(&mut state.frames, ahead);
    let scope = body_scope(program, table, path)?;
    let end = before(&mut state.frames, Ahead::End(caller))?;
    let found = find_in(
        program,
        table,
        &mut state.frames,
        path,
        Mark::Label(label),
        scope,
        items(program, path),
        end,
    )?;
    Ok(jump(state, found))
}

/// To a case or the default of a switch, behind which comes what is ahead.
pub fn go_to_case<'a>(
    program: &Program<'a>,
    state: &mut State<'a>,
    table: &mut Table,
    mark: Mark,
    here: Spot,
    body: &'a Statement,
    ahead: usize,
) -> Result<Answer, AllocError>
    ensures told { (s : Reading) → Agrees s table.new.rows.items →
        IfOk result (λ r. Told s state.old state.new r
        (steps.takes (shown s state.old)
        (steps.found (program_in program.now) state.old.path (mark_in mark) (scope_in s here.scope)
        (statement_tree body.now) (work.Close (place_in s here)
        (ahead_at (held s state.old.frames.items) ahead)) work.Lost) (shown s state.old).values)) }
    ensures before { (s : Reading) → Agrees s table.new.rows.items → Agrees s table.old.rows.items }
{
    let path = state.path;
    let found = find_behind(
        program,
        table,
        &mut state.frames,
        path,
        mark,
        here.scope,
        body,
        Ahead::Close(here, ahead),
    )?;
    Ok(jump(state, found))
}

ghost use Rattle.pk_runner_frame.specs.Frames.{place_in};

/// On at the end of a loop's body.
pub fn loop_again<'a>(state: &mut State<'a>, number: usize) -> Result<Answer, AllocError>
    ensures { (s : Reading) →
        IfOk result (λ r. Told s state.old state.new r
        (steps.takes (shown s state.old) (again (ahead_at (held s state.old.frames.items) number))
        (shown s state.old).values)) }
{
    match loop_at(&state.frames, number) {
        Some(end) => {
            state.frames.truncate(number + 1);
            match end.kind {
                Loop::While(_, _) => Ok(come(state, end.here, Work::Turn(number))),
                Loop::DoWhile(_, test) => Ok(come(
                    state,
                    end.here,
                    Work::Test(
                        Expression::Tree(test, false),
                        Way::Head(number),
                        Way::Behind(number),
                    ),
                )),
                Loop::For(_, third, _) => match third {
                    None => Ok(come(state, end.here, Work::Back(number))),
                    Some(effect) => {
                        let back = then(&mut state.frames, Work::Back(number))?;
                        Ok(come(state, end.here, Work::Perform(Task::Tree(effect), back)))
                    }
                },
            }
        }
        None => Ok(Answer::Stuck),
    }
}

ghost use Rattle.pk_runner_jump.specs.Marks.{again};

// Where a way outwards goes on.
#[derive(Clone, Copy)]
enum Outward {
    On(usize),
    Here,
    Nowhere,
}

// To the end of a loop's body.
#[tactic(auto, unfolding(pk_runner_frame::specs::Frames::ahead_in))]
fn to_loop(ahead: Ahead<'_>) -> Outward
    ensures { (s : Reading) (hs : List Held) → outward steps.continued again hs (ahead_in s hs ahead.entry) result
        ≡ steps.continued (ahead_in s hs ahead.entry) }
{
    match ahead {
        Ahead::Rest(_, _, next) => Outward::On(next),
        Ahead::Join(_, next) => Outward::On(next),
        Ahead::Again(_, _, _, _) => Outward::Here,
        Ahead::Close(_, next) => Outward::On(next),
        Ahead::End(_) => Outward::Nowhere,
    }
}

ghost use Rattle.std.specs.Prelude.{List, MatchOption};
ghost use Rattle.pk_runner_frame.specs.Frames.{Held, behind};
ghost use Rattle.pk_runner_jump.specs.Marks.{outward};

// The end of the innermost loop's body, or the frames' number where there is none.
fn innermost_loop(frames: &[Frame<'_>], ahead: usize) -> usize
    ensures { (s : Reading) →
        again (ahead_at (held s frames.now) result) ≡ steps.continued (ahead_at (held s frames.now) ahead) }
{
    let mut limit = frames.len();
    let mut number = ahead;
    while number < limit {
        let ahead = ahead_in_frame(frames[number]);
        limit = number;
        match to_loop(ahead) {
            Outward::On(next) => number = next,
            Outward::Here => return limit,
            Outward::Nowhere => return frames.len(),
        }
    }
    frames.len()
}

/// `continue`
pub fn continue_loop<'a>(state: &mut State<'a>, ahead: usize) -> Result<Answer, AllocError>
    ensures { (s : Reading) →
        IfOk result (λ r. Told s state.old state.new r
        (steps.takes (shown s state.old) (steps.continued (ahead_at (held s state.old.frames.items) ahead))
        (shown s state.old).values)) }
{
    let number = innermost_loop(&state.frames, ahead);
    loop_again(state, number)
}

// To the end of a loop's or a switch's body.
#[tactic(auto, unfolding(pk_runner_frame::specs::Frames::ahead_in))]
fn to_end(ahead: Ahead<'_>) -> Outward
    ensures { (s : Reading) (hs : List Held) →
        outward steps.broken past hs (ahead_in s hs ahead.entry) result ≡ steps.broken (ahead_in s hs ahead.entry) }
{
    match ahead {
        Ahead::Rest(_, _, next) => Outward::On(next),
        Ahead::Join(_, next) => Outward::On(next),
        Ahead::Again(_, _, _, _) => Outward::Here,
        Ahead::Close(_, _) => Outward::Here,
        Ahead::End(_) => Outward::Nowhere,
    }
}

// The end of the innermost loop's or switch's body, or the frames' number where there is none.
fn innermost(frames: &[Frame<'_>], ahead: usize) -> usize
    ensures { (s : Reading) →
        past (ahead_at (held s frames.now) result) ≡ steps.broken (ahead_at (held s frames.now) ahead) }
{
    let mut limit = frames.len();
    let mut number = ahead;
    while number < limit {
        let ahead = ahead_in_frame(frames[number]);
        limit = number;
        match to_end(ahead) {
            Outward::On(next) => number = next,
            Outward::Here => return limit,
            Outward::Nowhere => return frames.len(),
        }
    }
    frames.len()
}

ghost use Rattle.pk_runner_jump.specs.Marks.{past};

// The end of a switch, and what comes behind it.
#[tactic(auto, unfolding(pk_runner_frame::specs::Frames::ahead_in))]
fn switch_in_ahead(ahead: Ahead<'_>) -> Option<(Spot, usize)>
    ensures { MatchOption result ((s : Reading) (hs : List Held) →
        past (ahead_in s hs ahead.entry) ≡ behind (ahead_in s hs ahead.entry)) (λ x. (s : Reading) (hs : List Held) →
        ahead_in s hs ahead.entry ≡ work.Close (place_in s x.0) (ahead_at hs x.1)) }
{
    match ahead {
        Ahead::Close(here, next) => Some((here, next)),
        Ahead::Rest(_, _, _) => None,
        Ahead::Join(_, _) => None,
        Ahead::Again(_, _, _, _) => None,
        Ahead::End(_) => None,
    }
}

// The end of a switch that a number stands for.
fn switch_at(frames: &[Frame<'_>], number: usize) -> Option<(Spot, usize)>
    ensures { MatchOption result ((s : Reading) → past (ahead_at (held s frames.now) number)
        ≡ behind (ahead_at (held s frames.now) number)) (λ x. (s : Reading) →
        ahead_at (held s frames.now) number
        ≡ work.Close (place_in s x.0) (ahead_at (held s (take number frames.now)) x.1)) }
{
    if number < frames.len() {
        switch_in_ahead(ahead_in_frame(frames[number]))
    } else {
        None
    }
}

ghost use Rattle.std.specs.Prelude.{take};

/// `break`
pub fn break_out<'a>(state: &mut State<'a>, ahead: usize) -> Answer
    ensures { (s : Reading) → Told s state.old state.new result
        (steps.takes (shown s state.old) (steps.broken (ahead_at (held s state.old.frames.items) ahead))
        (shown s state.old).values) }
{
    let number = innermost(&state.frames, ahead);
    match switch_at(&state.frames, number) {
        Some((here, next)) => {
            state.frames.truncate(number);
            come(state, here, Work::Go(next))
        }
        None => leave_loop(state, number),
    }
}
