// Two passes of a board.

ghost use Rattle.std.specs.Prelude.{◌≡◌};
ghost use Rattle.pk_board_tests.specs.Tokens.{HasTokens, HasNone};

use crate::plans::prepared;
use crate::summing::{Summing, Values};
use crate::walks::{last_word, word};
use pk_board::{Board, Pass};
use pk_plan::Plan;
use pk_words::Why;
use std::alloc::AllocError;
use std::process::Abort;

// One pass claims the first element, and the other can't until it is offered.
fn claim_first<'a>(
    rt: &impl Abort,
    board: &Board<'a, Summing>,
    plan: &Plan,
    pass: &mut Pass<u64, Values>,
    other: &mut Pass<u64, Values>,
)
    requires of_board { pass.old.table ≡ board.now.table }
    requires other_of_board { other.old.table ≡ board.now.table }
    requires plan { board.now.subject.wiring.plan ≡ plan.now }
    requires none { HasNone pass.old.view }
    requires other_none { HasNone other.old.view }
    ensures of_board { pass.new.table ≡ board.now.table }
    ensures other_of_board { other.new.table ≡ board.now.table }
    ensures none { HasNone pass.new.view }
    ensures other_none { HasNone other.new.view }
{
    assert!(rt; plan.elements() > 0);
    match board.claim(pass, 0) {
        Err(_) => panic!(rt; "0 isn't open"),
        Ok(hold) => {
            assert!(rt; word(rt, board, plan, other, 0) == 0);
            board.offer(pass, hold);
        }
    }
}

// One pass stops the board, and the other sees it.
fn stop<'a>(
    rt: &impl Abort,
    board: Board<'a, Summing>,
    pass: &mut Pass<u64, Values>,
    other: &mut Pass<u64, Values>,
)
    requires of_board { pass.old.table ≡ board.table }
    requires other_of_board { other.old.table ≡ board.table }
{
    assert!(rt; board.stopped(other).is_none());
    board.stop(pass, Why::Memory);
    match board.stopped(other) {
        None => panic!(rt; "the stop isn't seen"),
        Some((_, token)) => assert!(rt; matches!(board.abandon(token), Why::Memory)),
    }
}

// Each pass claims the first element and offers it; the last waits for one; then the board is stopped.
fn used<'a>(rt: &impl Abort, board: Board<'a, Summing>, plan: &Plan, pass: Pass<u64, Values>)
    requires of_board { pass.table ≡ board.table }
    requires plan { board.subject.wiring.plan ≡ plan.now }
    requires none { HasNone pass.view }
{
    let mut pass = pass;
    let mut other = board.split(&mut pass);
    claim_first(rt, &board, plan, &mut pass, &mut other);
    claim_first(rt, &board, plan, &mut other, &mut pass);
    assert!(rt; last_word(rt, &board, &mut other) == 1);
    stop(rt, board, &mut pass, &mut other);
}

#[test]
fn passes_claim_in_turn_and_see_a_stop(rt: HostRuntime) -> Result<(), AllocError> {
    let made = prepared(&rt, rt.alloc(), 2, &[(0, 1)])?;
    let (board, pass) = Board::start(rt.alloc(), &made.system, &made.plan, 10, false)?;
    used(&rt, board, &made.plan, pass);
    Ok(())
}
