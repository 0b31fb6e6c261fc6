// How a board ends.

ghost use Rattle.std.specs.Prelude.{◌≡◌, ℕ, ◌+◌, ◌<◌, ◌≤◌, ◌⊎◌, [], length, true, false, slice_index_or};
ghost use Rattle.std.specs.Arc.{arc_value};
ghost use Rattle.std.specs.Mem.Slots.{slots_items, slots_filled, slots_len, IsFull};
ghost use mathlib.Core.Option.{some};
ghost use lib.ListN.{get_elem?};
ghost use Rattle.pk_layout.specs.Layouts.{slots_of};
ghost use Rattle.pk_words.specs.Kinds.{HasCell, HasValue, kind_of};
ghost use Rattle.pk_words.specs.Reads.{AreResult};
ghost use Rattle.pk_board.specs.Calls.{IsOutcome};
ghost use Rattle.pk_board.specs.Results.{HaveCells};

use crate::boards::Board;
use crate::passes::Pass;
use crate::results::Results;
use crate::tokens::Finished;
use atomic_table::Closed;
use pk_iterate::Cells;
use pk_words::{Parted, RUN, Slot, Subject};
use std::alloc::Global;
use std::sync::Arc;

// Takes what some slots have, of which the first is kept.
pub(crate) fn take_slots<S: Drop>(closed: &mut Closed<S, Global>, from: usize, end: usize) -> S
    requires some { from < end }
    requires within { end ≤ slots_len closed.old.slots }
    requires full { (k : ℕ) → from ≤ k → k < end → slice_index_or (slots_filled closed.old.slots) k false ≡ true }
    ensures first { get_elem? (slots_items closed.old.slots) from ≡ some result }
    ensures items { slots_items closed.new.slots ≡ slots_items closed.old.slots }
    ensures long { slots_len closed.new.slots ≡ slots_len closed.old.slots }
    ensures words { closed.new.words ≡ closed.old.words }
    ensures taken { (k : ℕ) → from ≤ k → k < end → slice_index_or (slots_filled closed.new.slots) k false ≡ false }
    ensures others { (k : ℕ) → (k < from) ⊎ (end ≤ k)
        → slice_index_or (slots_filled closed.new.slots) k false
        ≡ slice_index_or (slots_filled closed.old.slots) k false }
{
    let first = closed.take(from);
    for slot in from + 1..end {
        drop(closed.take(slot));
    }
    first
}

// The cell that a slot has.
fn cell_of<C: Drop, P: Drop>(slot: Slot<C, P>) -> Arc<C>
    requires { (c : C) × (kind_of slot ≡ HasCell c) }
    ensures { kind_of slot ≡ HasCell (arc_value result) }
{
    match slot {
        Slot::Cell(cell) => cell,
        _ => unreachable!(),
    }
}

// The first cell of each element, and the run number of its word.
fn gathered<Y: Parted>(
    subject: &Subject<Y>,
    closed: Closed<Slot<Y::Cell, Y::Part>, Global>,
    results: Results<Y::Cell>,
) -> Cells<Y::Cell>
    requires room { results ≡ record { cells = []; runs = []; room = subject.now.wiring.plan.elements } }
    requires words { slots_len closed.words ≡ subject.now.wiring.plan.elements + 2 }
    requires slots { slots_len closed.slots ≡ slots_of subject.now.wiring.layout }
    requires full { IsFull closed.words × IsFull closed.slots }
    requires cells { HaveCells (Y.meaning subject.now.system) subject.now.wiring (slots_items closed.slots) }
    requires result { AreResult (Y.meaning subject.now.system) subject.now.wiring (HasValue kind_of) (slots_items closed.words)
        (slots_items closed.slots) }
    ensures { IsOutcome (Y.meaning subject.now.system) subject.now.wiring result }
{
    let mut closed = closed;
    let mut results = results;
    subject.wired();
    let layout = subject.layout();
    for e in 0..subject.plan().elements() {
        let from = layout.first_slot(e);
        let end = layout.first_slot(e + 1);
        let cell = cell_of(take_slots(&mut closed, from, end));
        let run = closed.word(e as usize + 2) / RUN;
        results.add(cell, run);
    }
    closed.free();
    results.into_cells()
}

impl<'a, Y: Parted> Board<'a, Y> {
    /// The cell of each element, and how often it was run.
    pub fn close(self, pass: Pass<Y::Cell, Y::Part>, _finished: Finished) -> Cells<Y::Cell>
        requires of_board { pass.table ≡ self.table }
        requires ended { pass.view.ended ≡ true }
        requires whole { self.subject.lean ≡ false }
        ensures { IsOutcome (Y.meaning self.entry.subject.system) self.entry.subject.wiring result }
    {
        let Board {
            subject,
            table,
            earliest: _,
            results,
            lean: _,
        } = self;
        let Pass { seat } = pass;
        gathered(&subject, table.close_with(seat), results)
    }
}
