// How a board that was gone through ends.

ghost use Rattle.std.specs.Prelude.{◌≡◌, true, false};
ghost use Rattle.pk_plan.specs.Digraphs.{lists_of};
ghost use Rattle.pk_words.specs.Reads.{HasEnd};
ghost use Rattle.pk_board_tests.specs.Summing.{summing};
ghost use Rattle.pk_board_tests.specs.Prepared.{HasEach};

use crate::summing::{Summing, Values};
use pk_board::{Board, Finished, Pass};
use pk_iterate::Cells;
use std::process::Abort;

fn closed<'a>(board: Board<'a, Summing>, pass: Pass<u64, Values>, finished: Finished) -> Cells<u64>
    requires of_board { pass.table ≡ board.table }
    requires ended { pass.view.ended ≡ true }
    requires whole { board.subject.lean ≡ false }
    requires ends { HasEnd (summing (lists_of board.subject.system.rows.items)) board.subject.wiring.plan }
    ensures { HasEach board.entry.subject.wiring.plan.elements result }
{
    board.close(pass, finished)
}

// Whether the cells and the numbers of runs are the same.
pub fn same(one: &Cells<u64>, other: &Cells<u64>, elements: u32) -> bool
    requires one { HasEach elements one.now }
    requires other { HasEach elements other.now }
{
    for e in 0..elements {
        if one.run(e) != other.run(e) || **one.cell(e) != **other.cell(e) {
            return false;
        }
    }
    true
}

// The board leaves these cells and numbers of runs.
pub fn leaves<'a>(
    rt: &impl Abort,
    board: Board<'a, Summing>,
    pass: Pass<u64, Values>,
    finished: Finished,
    cells: &Cells<u64>,
    elements: u32,
)
    requires of_board { pass.table ≡ board.table }
    requires ended { pass.view.ended ≡ true }
    requires whole { board.subject.lean ≡ false }
    requires ends { HasEnd (summing (lists_of board.subject.system.rows.items)) board.subject.wiring.plan }
    requires elements { board.subject.wiring.plan.elements ≡ elements }
    requires each { HasEach elements cells.now }
{
    let left = closed(board, pass, finished);
    assert!(rt; same(&left, cells, elements));
}
