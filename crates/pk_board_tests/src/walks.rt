// One pass goes through a board, step by step.

ghost use Rattle.std.specs.Prelude.{◌≡◌, OnOk};
ghost use Rattle.pk_plan.specs.Digraphs.{lists_of};
ghost use Rattle.pk_board_tests.specs.Tokens.{HasTokens, HasNone, IsAbout};
ghost use Rattle.pk_board_tests.specs.Prepared.{IsPrepared};

use crate::ends::leaves;
use crate::plans::prepared;
use crate::runs::{Answer, run_held, run_open};
use crate::summing::{Summing, Values};
use Answer::{Again, Ready, Waiting};
use pk_board::{Board, Pass};
use pk_iterate::Cells;
use pk_plan::Plan;
use std::alloc::{AllocError, Global};
use std::process::Abort;

// The word of an element that isn't open.
pub fn word<'a>(
    rt: &impl Abort,
    board: &Board<'a, Summing>,
    plan: &Plan,
    pass: &mut Pass<u64, Values>,
    e: u32,
) -> u64
    requires of_board { pass.old.table ≡ board.now.table }
    requires plan { board.now.subject.wiring.plan ≡ plan.now }
    ensures of_board { pass.new.table ≡ board.now.table }
    ensures tokens { HasTokens pass.new.view pass.old.view.holds pass.old.view.sends pass.old.view.resets }
{
    assert!(rt; e < plan.elements());
    match board.claim(pass, e) {
        Ok(_) => panic!(rt; "{e} is open"),
        Err(seen) => seen.word,
    }
}

// The word of the last element, which isn't done.
pub fn last_word<'a>(
    rt: &impl Abort,
    board: &Board<'a, Summing>,
    pass: &mut Pass<u64, Values>,
) -> u64
    requires of_board { pass.old.table ≡ board.now.table }
    ensures of_board { pass.new.table ≡ board.now.table }
    ensures tokens { HasTokens pass.new.view pass.old.view.holds pass.old.view.sends pass.old.view.resets }
{
    match board.finished(pass) {
        Ok(_) => panic!(rt; "the last element is done"),
        Err(seen) => seen.word,
    }
}

// The last element is claimed, isn't done, and is run.
fn run_last<'a>(
    rt: &impl Abort,
    alloc: Global,
    board: &Board<'a, Summing>,
    plan: &Plan,
    system: &Summing,
    pass: &mut Pass<u64, Values>,
) -> Result<(), AllocError>
    requires of_board { pass.old.table ≡ board.now.table }
    requires about { IsAbout board.now.subject system.now plan.now }
    requires none { HasNone pass.old.view }
    ensures of_board { OnOk result (pass.new.table ≡ board.now.table) }
    ensures none { OnOk result (HasNone pass.new.view) }
{
    assert!(rt; plan.elements() > 0);
    match board.claim(pass, plan.elements() - 1) {
        Err(_) => panic!(rt; "the last element isn't open"),
        Ok(hold) => {
            assert!(rt; last_word(rt, board, pass) == 0);
            let answers = run_held(rt, alloc, board, plan, system, pass, hold)?;
            assert!(rt; answers.is_empty());
            Ok(())
        }
    }
}

// Runs elements, of which each gives these answers.
fn stepped<'a>(
    rt: &impl Abort,
    alloc: Global,
    board: &Board<'a, Summing>,
    plan: &Plan,
    system: &Summing,
    pass: &mut Pass<u64, Values>,
    steps: &[(u32, &[Answer])],
) -> Result<(), AllocError>
    requires of_board { pass.old.table ≡ board.now.table }
    requires about { IsAbout board.now.subject system.now plan.now }
    requires none { HasNone pass.old.view }
    ensures of_board { OnOk result (pass.new.table ≡ board.now.table) }
    ensures none { OnOk result (HasNone pass.new.view) }
{
    for (e, expected) in steps {
        assert!(rt; *e < plan.elements());
        let answers = run_open(rt, alloc, board, plan, system, pass, *e)?;
        assert!(rt; answers.as_slice() == *expected, "at {e}");
    }
    Ok(())
}

// The board is done and leaves these cells and numbers of runs.
fn ended<'a>(
    rt: &impl Abort,
    board: Board<'a, Summing>,
    pass: Pass<u64, Values>,
    plan: &Plan,
    system: &Summing,
    cells: &Cells<u64>,
)
    requires of_board { pass.table ≡ board.table }
    requires about { IsAbout board.subject system.now plan.now }
    requires prepared { IsPrepared plan.now (lists_of system.now.rows.items) cells.now }
{
    let mut pass = pass;
    match board.finished(&mut pass) {
        Err(_) => panic!(rt; "the last element isn't done"),
        Ok(finished) => leaves(rt, board, pass, finished, cells, plan.elements()),
    }
}

// The word of an element that isn't open, and the runs after it.
type Stage = (u32, u64, &'static [(u32, &'static [Answer])]);

// Goes through the stages.
fn staged<'a>(
    rt: &impl Abort,
    alloc: Global,
    board: &Board<'a, Summing>,
    plan: &Plan,
    system: &Summing,
    pass: &mut Pass<u64, Values>,
    stages: &[Stage],
) -> Result<(), AllocError>
    requires of_board { pass.old.table ≡ board.now.table }
    requires about { IsAbout board.now.subject system.now plan.now }
    requires none { HasNone pass.old.view }
    ensures of_board { OnOk result (pass.new.table ≡ board.now.table) }
    ensures none { OnOk result (HasNone pass.new.view) }
{
    for (e, expected, steps) in stages {
        assert!(rt; word(rt, board, plan, pass, *e) == *expected);
        stepped(rt, alloc, board, plan, system, pass, steps)?;
    }
    Ok(())
}

// Goes through the stages and runs the last element. Then the first has been run once.
fn walked<'a>(
    rt: &impl Abort,
    alloc: Global,
    board: &Board<'a, Summing>,
    plan: &Plan,
    system: &Summing,
    pass: &mut Pass<u64, Values>,
    stages: &[Stage],
) -> Result<(), AllocError>
    requires of_board { pass.old.table ≡ board.now.table }
    requires about { IsAbout board.now.subject system.now plan.now }
    requires none { HasNone pass.old.view }
    ensures of_board { OnOk result (pass.new.table ≡ board.now.table) }
{
    staged(rt, alloc, board, plan, system, pass, stages)?;
    run_last(rt, alloc, board, plan, system, pass)?;
    assert!(rt; word(rt, board, plan, pass, 0) == 1310721);
    Ok(())
}

// A walk leaves what the iteration leaves.
fn walk(
    rt: &impl Abort,
    alloc: Global,
    plan: &Plan,
    system: &Summing,
    cells: &Cells<u64>,
    stages: &[Stage],
) -> Result<(), AllocError>
    requires { IsPrepared plan.now (lists_of system.now.rows.items) cells.now }
{
    let (board, pass) = Board::start(alloc, system, plan, 1000, false)?;
    let mut pass = pass;
    walked(rt, alloc, &board, plan, system, &mut pass, stages)?;
    ended(rt, board, pass, plan, system, cells);
    Ok(())
}

const DIAMOND: [(u32, u32); 4] = [(0, 1), (0, 2), (1, 3), (2, 3)];

const THROUGH_DIAMOND: [Stage; 1] = [(
    3,
    2,
    &[
        (0, &[Ready(1), Ready(2)]),
        (1, &[Waiting(1)]),
        (2, &[Ready(3)]),
        (3, &[Ready(4)]),
    ],
)];

#[test]
fn diamond_step_by_step(rt: HostRuntime) -> Result<(), AllocError> {
    let made = prepared(&rt, rt.alloc(), 4, &DIAMOND)?;
    walk(
        &rt,
        rt.alloc(),
        &made.plan,
        &made.system,
        &made.cells,
        &THROUGH_DIAMOND,
    )
}

pub const JUMP: [(u32, u32); 14] = [
    (0, 1),
    (1, 2),
    (1, 11),
    (2, 3),
    (3, 4),
    (4, 5),
    (5, 6),
    (5, 8),
    (6, 7),
    (7, 3),
    (8, 9),
    (9, 10),
    (11, 12),
    (12, 5),
];

// The loop's test waits for two elements at first, and for one when the loop is gone through again.
const THROUGH_LOOP: [Stage; 2] = [
    (
        5,
        2,
        &[
            (0, &[Ready(1)]),
            (1, &[Ready(2), Ready(11)]),
            (2, &[Ready(3)]),
            (11, &[Ready(12)]),
            (12, &[Waiting(1)]),
            (3, &[Ready(4)]),
            (4, &[Ready(5)]),
            (5, &[Ready(6)]),
            (6, &[Ready(7)]),
            (7, &[Ready(13)]),
            (13, &[Again(3)]),
        ],
    ),
    (
        5,
        1048577,
        &[
            (3, &[Ready(4)]),
            (4, &[Ready(5)]),
            (5, &[Ready(6)]),
            (6, &[Ready(7)]),
            (7, &[Ready(13)]),
            (13, &[Ready(8)]),
            (8, &[Ready(9)]),
            (9, &[Ready(10)]),
            (10, &[Ready(14)]),
        ],
    ),
];

#[test]
fn loop_with_a_jump_into_it(rt: HostRuntime) -> Result<(), AllocError> {
    let made = prepared(&rt, rt.alloc(), 13, &JUMP)?;
    walk(
        &rt,
        rt.alloc(),
        &made.plan,
        &made.system,
        &made.cells,
        &THROUGH_LOOP,
    )
}
