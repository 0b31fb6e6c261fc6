// How an item ends: its cells are looked at once more, and then let go of.

ghost use Rattle.std.specs.Prelude.{◌≡◌, ◌≢◌, ℕ, All, ◌∷◌, [], ◌+◌, ◌*◌, ◌<◌, ◌≤◌, ◌↔◌, ◌⊎◌, IfOk, OnErr, length, slice_get, Some, true, false};
ghost use Rattle.std.specs.Arc.{arc_value};
ghost use Rattle.std.specs.Prelude.{box_value};
ghost use Rattle.pk_plan.specs.Plans.{PlanView, successors_of, place_of};
ghost use Rattle.pk_plan.specs.Shape.{has, holds};
ghost use Rattle.pk_items.specs.Items.{EndsItem, top_of};
ghost use Rattle.pk_layout.specs.Layouts.{slots_of, first_of, reader_of};
ghost use Rattle.pk_words.specs.declared.view.View.{View};
ghost use Rattle.pk_words.specs.Kinds.{IsPartOf};
ghost use Rattle.pk_words.specs.Told.{IsIdle};
ghost use Rattle.pk_words.specs.Tokens.{times};
ghost use Rattle.pk_words.specs.Views.{HasHold, done_view, take_view, slots_in};
ghost use Rattle.pk_lean_words.specs.Members.{IsLastCell};
ghost use Rattle.pk_board.specs.Calls.{AreCopies, IsFound, IsLastRun, IsLook, IsPeek, IsRunCell};
ghost use Rattle.pk_board.specs.Emptying.{IsItemFrom, HasTaken, AreLeft, IsEmptying, IsEmptied, HasInputs};

use crate::boards::Board;
use crate::copies::Copies;
use crate::passes::Pass;
use crate::tokens::{Hold, Sending};
use atomic_table::Seat;
use pk_words::{
    DONE, Parted, RUN, Slot, View, give_told, input_told, load_told, store_told, take_told,
};
use std::alloc::AllocError;
use std::marker::Brand;
use std::sync::Arc;

impl<'a, Y: Parted> Board<'a, Y> {
    /// Whether cells are let go of.
    pub fn is_lean(&self) -> bool
        ensures { result ≡ self.now.subject.lean }
    {
        self.subject.is_lean()
    }

    /// Whether the element is the last of an item.
    pub fn ends_item(&self, e: u32) -> bool
        requires lean { self.now.subject.lean ≡ true }
        requires element { e < self.now.subject.wiring.plan.elements }
        ensures { (result ≡ true) ↔ EndsItem self.now.subject.wiring.plan e }
    {
        e < self.subject.plan().elements() - 1 && self.lean.top(e) == e
    }

    /// The last cell of a member of an outermost component, whose exit is held and is run for the last time.
    pub fn peek(
        &self,
        pass: &mut Pass<Y::Cell, Y::Part>,
        hold: &Hold,
        member: u32,
    ) -> Result<Arc<Y::Cell>, AllocError>
        requires of_board { pass.old.table ≡ self.now.table }
        requires item { EndsItem self.now.subject.wiring.plan hold.now.element }
        requires held { HasHold pass.old.view hold.now.element hold.now.run }
        requires last { IsLastRun
            (Y.meaning self.now.subject.system) self.now.subject.wiring.plan hold.now }
        requires member { holds self.now.subject.wiring.plan hold.now.element member ≡ true }
        ensures of_board { pass.new.table ≡ pass.old.table }
        ensures peek { IfOk result (λ c. IsPeek
            (Y.meaning self.now.subject.system) self.now.subject.wiring member pass.old.view pass.new.view (arc_value c)) }
        ensures err { OnErr result (IsLook member pass.old.view pass.new.view) }
    {
        let word = hold.element() as usize + 2;
        let slot = self.subject.layout().first_slot(member);
        input_told::<_, _, _, Brand>(
            &self.table.shared,
            &mut pass.seat,
            word,
            slot,
            member,
            hold.run(),
            0,
        );
        let cell = self.read_slot(&mut pass.seat, slot);
        give_told::<_, _, _, Brand>(&self.table.shared, &mut pass.seat, word);
        cell
    }

    /// The cell that the last run of an item's last element gives.
    pub fn own_cell(
        &self,
        pass: &mut Pass<Y::Cell, Y::Part>,
        hold: &Hold,
        copies: &Copies<Y::Cell>,
    ) -> Result<Arc<Y::Cell>, AllocError>
        requires of_board { pass.old.table ≡ self.now.table }
        requires item { EndsItem self.now.subject.wiring.plan hold.now.element }
        requires held { HasHold pass.old.view hold.now.element hold.now.run }
        requires cell { IsRunCell
            (Y.meaning self.now.subject.system) self.now.subject.wiring.plan hold.now false copies.now.cell }
        ensures of_board { pass.new.table ≡ pass.old.table }
        ensures look { IsFound hold.now.element pass.old.view pass.new.view }
        ensures own { IfOk result (λ c. arc_value c ≡ copies.now.cell) }
        ensures last { IsLastCell (Y.meaning self.now.subject.system) self.now.subject.wiring.plan hold.now.element
            copies.now.cell }
    {
        let word = hold.element() as usize + 2;
        load_told::<_, _, _, Brand>(&self.table.shared, &mut pass.seat, word);
        copies.cell()
    }

    // Where the item that an element ends begins in the plan's listing.
    fn item_start(&self, last: u32) -> u32
        requires { EndsItem self.now.subject.wiring.plan last }
        ensures { IsItemFrom self.now.subject.wiring.plan last result }
    {
        let plan = self.subject.plan();
        if plan.is_exit(last) {
            plan.component_of(last).first
        } else {
            plan.place(last)
        }
    }

    // Takes a slot that an element of the item reads, and writes what is left there.
    fn leave(
        &self,
        seat: &mut Seat<Slot<Y::Cell, Y::Part>, View>,
        last: u32,
        slot: usize,
        left: Slot<Y::Cell, Y::Part>,
    )
        requires of_board { seat.old.table_id ≡ self.now.table }
        requires item { EndsItem self.now.subject.wiring.plan last }
        requires held { 0 < times last seat.old.me.0.holds }
        requires slot { slot < slots_of self.now.subject.wiring.layout }
        requires reader { top_of self.now.subject.wiring.plan (reader_of self.now.subject.wiring.layout slot) ≡ last }
        requires at_home { has slot seat.old.me.0.out ≡ false }
        ensures same { (seat.new.table_id ≡ seat.old.table_id) × (seat.new.id ≡ seat.old.id) }
        ensures left { seat.new.me ≡ (take_view slot seat.old.me.0, (slot, left) ∷ seat.old.me.1) }
    {
        take_told::<_, _, _, Brand>(&self.table.shared, seat, last as usize + 2, slot);
        drop(self.table.shared.exchange(seat, slot, left));
    }

    // Takes each slot of what an element of the item reads, and leaves nothing there.
    fn empty_inputs(&self, seat: &mut Seat<Slot<Y::Cell, Y::Part>, View>, last: u32, e: u32)
        requires of_board { seat.old.table_id ≡ self.now.table }
        requires item { EndsItem self.now.subject.wiring.plan last }
        requires held { 0 < times last seat.old.me.0.holds }
        requires element { e < self.now.subject.wiring.plan.elements }
        requires of { top_of self.now.subject.wiring.plan e ≡ last }
        requires out { seat.old.me.0.out ≡ slots_in seat.old.me.1 }
        requires at_home { (k : ℕ) → k < slots_of self.now.subject.wiring.layout
            → reader_of self.now.subject.wiring.layout k ≡ e → k ≢ first_of self.now.subject.wiring.layout e
            → has k (slots_in seat.old.me.1) ≡ false }
        ensures same { (seat.new.table_id ≡ seat.old.table_id) × (seat.new.id ≡ seat.old.id) }
        ensures taken { HasTaken seat.old.me seat.new.me }
        ensures left { (c : Y.Cell) (part : Y.Part) → AreLeft self.now.subject.wiring last c part seat.old.me
            → AreLeft self.now.subject.wiring last c part seat.new.me }
        ensures inputs { HasInputs self.now.subject.wiring.layout e
            (length ((Y.meaning self.now.subject.system).reads e)) seat.old.me seat.new.me }
    {
        for place in 0..self.subject.system().reads(e).len() {
            let slot = self.subject.layout().input_slot(e, place);
            self.leave(seat, last, slot, Slot::Gone);
        }
    }

    // Takes each slot that a member of the item reads, and leaves nothing there.
    fn empty_members(&self, seat: &mut Seat<Slot<Y::Cell, Y::Part>, View>, last: u32, start: u32)
        requires of_board { seat.old.table_id ≡ self.now.table }
        requires item { EndsItem self.now.subject.wiring.plan last }
        requires held { 0 < times last seat.old.me.0.holds }
        requires start { IsItemFrom self.now.subject.wiring.plan last start }
        requires out { seat.old.me.0.out ≡ slots_in seat.old.me.1 }
        requires emptying { IsEmptying self.now.subject.wiring last start start seat.old.me }
        ensures same { (seat.new.table_id ≡ seat.old.table_id) × (seat.new.id ≡ seat.old.id) }
        ensures taken { HasTaken seat.old.me seat.new.me }
        ensures left { (c : Y.Cell) (part : Y.Part) → AreLeft self.now.subject.wiring last c part seat.old.me
            → AreLeft self.now.subject.wiring last c part seat.new.me }
        ensures emptying { IsEmptying
            self.now.subject.wiring last start (place_of self.now.subject.wiring.plan last) seat.new.me }
    {
        let plan = self.subject.plan();
        for at in start..plan.place(last) {
            let member = plan.listing()[at as usize];
            self.leave(
                seat,
                last,
                self.subject.layout().first_slot(member),
                Slot::Gone,
            );
            self.empty_inputs(seat, last, member);
        }
    }

    // Takes each slot that an element of the item reads, and leaves nothing there, but for the part in the last one's first slot.
    fn empty_item(
        &self,
        seat: &mut Seat<Slot<Y::Cell, Y::Part>, View>,
        last: u32,
        part: Box<Y::Part>,
    )
        requires of_board { seat.old.table_id ≡ self.now.table }
        requires item { EndsItem self.now.subject.wiring.plan last }
        requires held { 0 < times last seat.old.me.0.holds }
        requires out { seat.old.me.0.out ≡ slots_in seat.old.me.1 }
        requires outside { (at : ℕ) → IsEmptying self.now.subject.wiring last at at seat.old.me }
        ensures same { (seat.new.table_id ≡ seat.old.table_id) × (seat.new.id ≡ seat.old.id) }
        ensures taken { HasTaken seat.old.me seat.new.me }
        ensures left { (c : Y.Cell) → AreLeft self.now.subject.wiring last c (box_value part) seat.old.me
            → AreLeft self.now.subject.wiring last c (box_value part) seat.new.me }
        ensures emptied { IsEmptied self.now.subject.wiring last seat.new.me }
    {
        let start = self.item_start(last);
        self.empty_members(seat, last, start);
        self.empty_inputs(seat, last, last);
        let first = self.subject.layout().first_slot(last);
        self.leave(seat, last, first, Slot::Part(part));
    }

    // Takes each slot of the element that another item reads, and writes its copy.
    fn put_outside(
        &self,
        seat: &mut Seat<Slot<Y::Cell, Y::Part>, View>,
        last: u32,
        further: Vec<Arc<Y::Cell>>,
    )
        requires of_board { seat.old.table_id ≡ self.now.table }
        requires lean { self.now.subject.lean ≡ true }
        requires item { EndsItem self.now.subject.wiring.plan last }
        requires held { 0 < times last seat.old.me.0.holds }
        requires idle { IsIdle seat.old.me }
        requires count { first_of self.now.subject.wiring.layout last + (length further.items + 1)
            ≡ first_of self.now.subject.wiring.layout (last + 1) }
        ensures same { (seat.new.table_id ≡ seat.old.table_id) × (seat.new.id ≡ seat.old.id) }
        ensures taken { HasTaken seat.old.me seat.new.me }
        ensures left { (c : Y.Cell) (part : Y.Part) → All (λ x. arc_value x ≡ c) further.items
            → AreLeft self.now.subject.wiring last c part seat.new.me }
        ensures outside { (at : ℕ) → IsEmptying self.now.subject.wiring last at at seat.new.me }
    {
        let mut cells = further;
        let mut slot = self.subject.layout().first_slot(last + 1);
        while let Some(cell) = cells.pop() {
            slot -= 1;
            if self.lean.top_at(slot) != last {
                self.put(seat, last, slot, cell);
            }
        }
    }

    /// Ends the last run of an item's last element. Each slot that the item's elements read is left empty, and the part goes where the
    /// element's own cell was.
    pub fn done_last(
        &self,
        pass: &mut Pass<Y::Cell, Y::Part>,
        hold: Hold,
        copies: Copies<Y::Cell>,
        part: Box<Y::Part>,
    ) -> Sending
        requires of_board { pass.old.table ≡ self.now.table }
        requires lean { self.now.subject.lean ≡ true }
        requires item { EndsItem self.now.subject.wiring.plan hold.element }
        requires held { HasHold pass.old.view hold.element hold.run }
        requires room { hold.run < self.now.subject.wiring.limit }
        requires copies { AreCopies self.now.subject.wiring hold.element copies }
        requires cell { IsRunCell
            (Y.meaning self.now.subject.system) self.now.subject.wiring.plan hold false copies.cell }
        requires part { IsPartOf (Y.meaning self.now.subject.system) self.now.subject.wiring.plan
            (Y.part_of self.now.subject.system) hold.element (box_value part) }
        ensures of_board { pass.new.table ≡ pass.old.table }
        ensures sending { result ≡ record { element = hold.element; sent = 0 } }
        ensures view { pass.new.view
            ≡ done_view hold.element ((hold.run + 1) * 1048576 + 262145)
            (successors_of self.now.subject.wiring.plan hold.element) pass.old.view }
    {
        let element = hold.element();
        let Copies {
            element: _,
            first: _,
            further,
        } = copies;
        self.put_outside(&mut pass.seat, element, further);
        self.empty_item(&mut pass.seat, element, part);
        store_told::<_, _, _, Brand>(
            &self.table.shared,
            &mut pass.seat,
            element as usize + 2,
            (hold.run() + 1) * RUN + DONE,
            element,
        );
        Sending::new(element, 0)
    }
}
