// How a board ends that lets go of cells.

ghost use Rattle.std.specs.Prelude.{◌≡◌, ◌<◌, ◌++◌, ◌∷◌, [], length, slice_index, true};
ghost use Rattle.std.specs.Mem.Slots.{slots_items, slots_len, IsFull};
ghost use Rattle.pk_layout.specs.Layouts.{slots_of};
ghost use Rattle.pk_words.specs.Kinds.{HasPart, kind_of};
ghost use Rattle.pk_board.specs.Lean.{HasItems};
ghost use Rattle.pk_board.specs.Parts.{AreParts, HavePartsOf, AreMadeOf};

use crate::boards::Board;
use crate::ends::take_slots;
use crate::lean::Lean;
use crate::passes::Pass;
use crate::tokens::Finished;
use atomic_table::Closed;
use pk_words::{Parted, Slot, Subject};
use std::alloc::Global;

// The part that a slot has.
fn part_of<C: Drop, P: Drop>(slot: Slot<C, P>) -> P
    requires { (part : P) × (kind_of slot ≡ HasPart part) }
    ensures { kind_of slot ≡ HasPart result }
{
    match slot {
        Slot::Part(part) => Box::into_inner(part),
        _ => unreachable!(),
    }
}

// Files what a slot has, if it is the first one of an item's last element: this item's part.
fn file<C: Drop, P: Drop>(lean: &mut Lean<P>, e: u32, end: u32, slot: Slot<C, P>)
    requires element { e < length lean.old.tops }
    requires room { length lean.old.parts < lean.old.room }
    requires part { e < end → slice_index lean.old.tops e ≡ e → (part : P) × (kind_of slot ≡ HasPart part) }
    ensures same { (lean.new.tops ≡ lean.old.tops) × (lean.new.room ≡ lean.old.room) }
    ensures filed { e < end → slice_index lean.old.tops e ≡ e → (part : P) → kind_of slot ≡ HasPart part
        → lean.new.parts ≡ lean.old.parts ++ part ∷ [] }
    ensures passed { (e < end → slice_index lean.old.tops e ≡ e → ⊥) → lean.new.parts ≡ lean.old.parts }
{
    if e >= end || lean.top(e) != e {
        return;
    }
    lean.add(part_of(slot));
}

// The part of each item, in the order of the listing.
fn parted<Y: Parted>(
    subject: &Subject<Y>,
    closed: Closed<Slot<Y::Cell, Y::Part>, Global>,
    lean: Lean<Y::Part>,
) -> Vec<Y::Part>
    requires items { HasItems subject.now.wiring.plan subject.now.wiring.layout lean }
    requires slots { slots_len closed.slots ≡ slots_of subject.now.wiring.layout }
    requires full { IsFull closed.slots }
    requires parts { HavePartsOf (Y.meaning subject.now.system) subject.now.wiring (Y.part_of subject.now.system)
        (slots_items closed.slots) }
    ensures { AreMadeOf (Y.meaning subject.now.system) subject.now.wiring.plan (Y.part_of subject.now.system) result.items }
{
    let mut closed = closed;
    let mut lean = lean;
    subject.wired();
    let plan = subject.plan();
    let layout = subject.layout();
    let end = plan.elements() - 1;
    for e in plan.listing() {
        let slot = take_slots(
            &mut closed,
            layout.first_slot(*e),
            layout.first_slot(*e + 1),
        );
        file(&mut lean, *e, end, slot);
    }
    closed.free();
    lean.into_parts()
}

impl<'a, Y: Parted> Board<'a, Y> {
    /// The part of each item, in the order of the plan's listing.
    pub fn close_parts(self, pass: Pass<Y::Cell, Y::Part>, _finished: Finished) -> Vec<Y::Part>
        requires of_board { pass.table ≡ self.table }
        requires ended { pass.view.ended ≡ true }
        requires lean { self.subject.lean ≡ true }
        ensures { AreParts (Y.meaning self.entry.subject.system) self.entry.subject.wiring
            (Y.part_of self.entry.subject.system) result.items }
    {
        let Board {
            subject,
            table,
            earliest: _,
            results: _,
            lean,
        } = self;
        let Pass { seat } = pass;
        parted(&subject, table.close_with(seat), lean)
    }
}
