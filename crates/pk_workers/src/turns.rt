// One worker.

ghost use Rattle.std.specs.Prelude.{◌≡◌, ◌<◌, ◌≤◌, None, Some, IfSome, OnSome, true};
ghost use Rattle.pk_words.specs.Board.{IsCause};
ghost use Rattle.pk_workers.specs.Working.{HasJust, HasSame, IsRunnable, IsEnding};

use crate::gates::Gate;
use crate::runs::run_one;
use pk_board::{Board, Finished, Hold, Pass, Stopped};
use pk_hints::{Bound, Hall, Hints, Rest};
use pk_words::{Parted, Why};
use std::alloc::Global;
use std::sync::Wait;
use std::thread::Threads;

/// How a worker ends: its pass found the last element done, or the board was stopped.
#[derive(Drop)]
pub enum Ending<C: Drop, P: Drop> {
    Finished {
        pass: Pass<C, P>,
        finished: Finished,
    },
    Stopped(Stopped),
}

/// Whether the last element is done. A pass with a Hold doesn't look, since it isn't.
fn look_at_end<Y: Parted>(
    board: &Board<Y>,
    pass: &mut Pass<Y::Cell, Y::Part>,
    kept: &Option<Hold>,
) -> Option<Finished>
    requires of_board { pass.old.table ≡ board.now.table }
    ensures of_board { pass.new.table ≡ pass.old.table }
    ensures tokens { HasSame pass.old.view pass.new.view }
    ensures ended { OnSome result (pass.new.view.ended ≡ true) }
{
    if kept.is_some() {
        return None;
    }
    match board.finished(pass) {
        Ok(finished) => Some(finished),
        Err(_) => None,
    }
}

/// Claims an element, if it is open.
fn claim_one<Y: Parted>(board: &Board<Y>, pass: &mut Pass<Y::Cell, Y::Part>, e: u32) -> Option<Hold>
    requires of_board { pass.old.table ≡ board.now.table }
    requires tokens { HasJust pass.old.view None None None }
    requires element { e < board.now.subject.wiring.plan.elements }
    ensures of_board { pass.new.table ≡ pass.old.table }
    ensures tokens { HasJust pass.new.view result None None }
    ensures runnable { IfSome result (IsRunnable (Y.meaning board.now.subject.system) board.now.subject.wiring) }
{
    match board.claim(pass, e) {
        Ok(hold) => Some(hold),
        Err(_) => None,
    }
}

/// Claims the first open element from one on and below another.
fn claim_between<Y: Parted>(
    board: &Board<Y>,
    pass: &mut Pass<Y::Cell, Y::Part>,
    from: u32,
    end: u32,
) -> Option<Hold>
    requires of_board { pass.old.table ≡ board.now.table }
    requires tokens { HasJust pass.old.view None None None }
    requires end { end ≤ board.now.subject.wiring.plan.elements }
    ensures of_board { pass.new.table ≡ pass.old.table }
    ensures tokens { HasJust pass.new.view result None None }
    ensures runnable { IfSome result (IsRunnable (Y.meaning board.now.subject.system) board.now.subject.wiring) }
{
    for e in from..end {
        if let Some(hold) = claim_one(board, pass, e) {
            return Some(hold);
        }
    }
    None
}

/// Claims an open element, looking at each from one on and then at those before it.
fn claim_any<Y: Parted>(
    board: &Board<Y>,
    pass: &mut Pass<Y::Cell, Y::Part>,
    from: u32,
) -> Option<Hold>
    requires of_board { pass.old.table ≡ board.now.table }
    requires tokens { HasJust pass.old.view None None None }
    requires from { from ≤ board.now.subject.wiring.plan.elements }
    ensures of_board { pass.new.table ≡ pass.old.table }
    ensures tokens { HasJust pass.new.view result None None }
    ensures runnable { IfSome result (IsRunnable (Y.meaning board.now.subject.system) board.now.subject.wiring) }
{
    let elements = board.subject().plan().elements();
    match claim_between(board, pass, from, elements) {
        None => claim_between(board, pass, 0, from),
        found => found,
    }
}

/// Claims the element of a hint, or, where there is none and the worker is to walk, an open element.
fn claim_next<Y: Parted, B: Bound>(
    board: &Board<Y>,
    pass: &mut Pass<Y::Cell, Y::Part>,
    hall: &Hall<B>,
    hints: &mut Hints<B>,
    worker: u32,
    rest: &Rest,
    from: u32,
) -> Option<Hold>
    requires of_board { pass.old.table ≡ board.now.table }
    requires bound { B.elements ≡ board.now.subject.wiring.plan.elements }
    requires tokens { HasJust pass.old.view None None None }
    requires from { from ≤ board.now.subject.wiring.plan.elements }
    ensures of_board { pass.new.table ≡ pass.old.table }
    ensures tokens { HasJust pass.new.view result None None }
    ensures runnable { IfSome result (IsRunnable (Y.meaning board.now.subject.system) board.now.subject.wiring) }
{
    match hall.take(hints, worker) {
        Some(element) => claim_one(board, pass, element),
        None if rest.is_to_walk() => claim_any(board, pass, from),
        None => None,
    }
}

/// The Hold that was kept, or else that of an open element.
fn next_hold<Y: Parted, B: Bound>(
    board: &Board<Y>,
    pass: &mut Pass<Y::Cell, Y::Part>,
    hall: &Hall<B>,
    hints: &mut Hints<B>,
    worker: u32,
    rest: &Rest,
    kept: Option<Hold>,
    from: u32,
) -> Option<Hold>
    requires of_board { pass.old.table ≡ board.now.table }
    requires bound { B.elements ≡ board.now.subject.wiring.plan.elements }
    requires tokens { HasJust pass.old.view kept None None }
    requires runnable { IfSome kept (IsRunnable (Y.meaning board.now.subject.system) board.now.subject.wiring) }
    requires from { from ≤ board.now.subject.wiring.plan.elements }
    ensures of_board { pass.new.table ≡ pass.old.table }
    ensures tokens { HasJust pass.new.view result None None }
    ensures runnable { IfSome result (IsRunnable (Y.meaning board.now.subject.system) board.now.subject.wiring) }
{
    match kept {
        None => claim_next(board, pass, hall, hints, worker, rest, from),
        hold => hold,
    }
}

/// Stops the board.
fn stop<Y: Parted>(board: &Board<Y>, pass: &mut Pass<Y::Cell, Y::Part>, why: Why) -> Stopped
    requires of_board { pass.old.table ≡ board.now.table }
    requires cause { IsCause (Y.meaning board.now.subject.system) board.now.subject.wiring why }
    ensures { IsCause (Y.meaning board.now.subject.system) board.now.subject.wiring result }
{
    board.stop(pass, why);
    match board.stopped(pass) {
        Some((_, stopped)) => stopped,
        None => unreachable!(),
    }
}

/// Works until the last element is done or the board is stopped.
pub fn work<R: Threads + Wait, Y: Parted, G: Gate, B: Bound>(
    rt: &R,
    alloc: Global,
    gate: &G,
    hall: &Hall<B>,
    worker: u32,
    board: &Board<Y>,
    pass: Pass<Y::Cell, Y::Part>,
    hints: Hints<B>,
) -> Ending<Y::Cell, Y::Part>
    requires of_board { pass.table ≡ board.now.table }
    requires bound { B.elements ≡ board.now.subject.wiring.plan.elements }
    requires tokens { HasJust pass.view None None None }
    ensures { IsEnding (Y.meaning board.now.subject.system) board.now.subject.wiring board.now.table result }
{
    let mut pass = pass;
    let mut hints = hints;
    let mut kept = None;
    let mut from = 0;
    let mut rest = Rest::new();
    for _ in rt.forever() {
        if let Some((_, stopped)) = board.stopped(&mut pass) {
            return Ending::Stopped(stopped);
        }
        if let Some(finished) = look_at_end(board, &mut pass, &kept) {
            return Ending::Finished { pass, finished };
        }
        let Some(hold) = next_hold(
            board, &mut pass, hall, &mut hints, worker, &rest, kept, from,
        ) else {
            kept = None;
            rest = rest.longer(rt, hall);
            continue;
        };
        rest = rest.over(hall);
        from = hold.element();
        match run_one(
            rt, alloc, gate, worker, board, &mut pass, hall, &mut hints, hold,
        ) {
            Ok(ready) => kept = ready,
            Err(why) => return Ending::Stopped(stop(board, &mut pass, why)),
        }
    }
    unreachable!()
}
