// How a worker spends its tokens.

ghost use Rattle.std.specs.Prelude.{◌≡◌, ◌+◌, None, Some, IfSome};
ghost use Rattle.pk_board.specs.Calls.{IsSending, IsResetting};
ghost use Rattle.pk_workers.specs.Working.{HasJust, HasSeen, IsRunnable, HasGot};

use pk_board::{Armed, Arrived, Board, Got, Hold, Pass, Resetting, Sending};
use pk_hints::{Bound, Hall, Hints};
use pk_words::Parted;

/// What is kept once an element was told: the Hold that there was, or else that of the element, if it is ready. One that isn't kept is offered,
/// with a hint.
fn keep<Y: Parted, B: Bound>(
    board: &Board<Y>,
    pass: &mut Pass<Y::Cell, Y::Part>,
    hall: &Hall<B>,
    hints: &mut Hints<B>,
    kept: Option<Hold>,
    got: Got,
    rest: Option<Sending>,
) -> (Option<Sending>, Option<Hold>)
    requires of_board { pass.old.table ≡ board.now.table }
    requires bound { B.elements ≡ board.now.subject.wiring.plan.elements }
    requires tokens { HasGot (Y.meaning board.now.subject.system) board.now.subject.wiring pass.old.view kept got rest }
    requires runnable { IfSome kept (IsRunnable (Y.meaning board.now.subject.system) board.now.subject.wiring) }
    ensures of_board { pass.new.table ≡ pass.old.table }
    ensures seen { HasSeen pass.old.view pass.new.view }
    ensures rest { result.0 ≡ rest }
    ensures tokens { HasJust pass.new.view result.1 rest None }
    ensures runnable { IfSome result.1 (IsRunnable (Y.meaning board.now.subject.system) board.now.subject.wiring) }
{
    let Got::Ready(hold) = got else {
        return (rest, kept);
    };
    match kept {
        None => (rest, Some(hold)),
        Some(first) => {
            let element = hold.element();
            board.offer(pass, hold);
            hall.give(hints, element);
            (rest, Some(first))
        }
    }
}

/// Tells the next successor. There is a Sending of those that are left, and the Hold that is kept.
fn tell_next<Y: Parted, B: Bound>(
    board: &Board<Y>,
    pass: &mut Pass<Y::Cell, Y::Part>,
    hall: &Hall<B>,
    hints: &mut Hints<B>,
    sending: Sending,
    kept: Option<Hold>,
) -> (Option<Sending>, Option<Hold>)
    requires of_board { pass.old.table ≡ board.now.table }
    requires bound { B.elements ≡ board.now.subject.wiring.plan.elements }
    requires sending { IsSending board.now.subject.wiring.plan sending }
    requires tokens { HasJust pass.old.view kept (Some sending) None }
    requires runnable { IfSome kept (IsRunnable (Y.meaning board.now.subject.system) board.now.subject.wiring) }
    ensures of_board { pass.new.table ≡ pass.old.table }
    ensures seen { HasSeen pass.old.view pass.new.view }
    ensures rest { IfSome result.0 (λ s. s ≡ record { element = sending.element; sent = sending.sent + 1 }) }
    ensures sending { IfSome result.0 (IsSending board.now.subject.wiring.plan) }
    ensures tokens { HasJust pass.new.view result.1 result.0 None }
    ensures runnable { IfSome result.1 (IsRunnable (Y.meaning board.now.subject.system) board.now.subject.wiring) }
{
    board.subject().wired();
    match board.arrive(pass, sending) {
        Arrived::Next { rest, got } => keep(board, pass, hall, hints, kept, got, Some(rest)),
        Arrived::Sent { got } => keep(board, pass, hall, hints, kept, got, None),
    }
}

/// Tells all successors. Of the elements that become ready the first is kept, and each other one is offered.
pub(crate) fn tell_all<Y: Parted, B: Bound>(
    board: &Board<Y>,
    pass: &mut Pass<Y::Cell, Y::Part>,
    hall: &Hall<B>,
    hints: &mut Hints<B>,
    sending: Sending,
) -> Option<Hold>
    requires of_board { pass.old.table ≡ board.now.table }
    requires bound { B.elements ≡ board.now.subject.wiring.plan.elements }
    requires sending { IsSending board.now.subject.wiring.plan sending }
    requires tokens { HasJust pass.old.view None (Some sending) None }
    ensures of_board { pass.new.table ≡ pass.old.table }
    ensures seen { HasSeen pass.old.view pass.new.view }
    ensures tokens { HasJust pass.new.view result None None }
    ensures runnable { IfSome result (IsRunnable (Y.meaning board.now.subject.system) board.now.subject.wiring) }
{
    let mut kept = None;
    let mut left = Some(sending);
    while let Some(now) = left {
        (left, kept) = tell_next(board, pass, hall, hints, now, kept);
    }
    kept
}

/// Arms all members of a component. The Hold is that of its head.
pub(crate) fn arm_all<Y: Parted>(
    board: &Board<Y>,
    pass: &mut Pass<Y::Cell, Y::Part>,
    resetting: Resetting,
) -> Hold
    requires of_board { pass.old.table ≡ board.now.table }
    requires resetting { IsResetting board.now.subject.wiring.plan resetting }
    requires tokens { HasJust pass.old.view None None (Some resetting) }
    ensures of_board { pass.new.table ≡ pass.old.table }
    ensures seen { HasSeen pass.old.view pass.new.view }
    ensures tokens { HasJust pass.new.view (Some result) None None }
    ensures runnable { IsRunnable (Y.meaning board.now.subject.system) board.now.subject.wiring result }
{
    board.subject().wired();
    let mut left = resetting;
    loop {
        match board.arm(pass, left) {
            Armed::More(rest) => left = rest,
            Armed::Head(hold) => return hold,
        }
    }
}
