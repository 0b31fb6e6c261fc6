// How an element is run: its inputs, the copies of its cell, and its end.

ghost use Rattle.std.specs.Prelude.{◌≡◌, ℕ, ◌+◌, ◌*◌, ◌<◌, ◌≤◌, ◌∷◌, [], ◌↔◌, length, map, replicate, IfOk, IfSome, IsNone, OnErr, true, false};
ghost use Rattle.std.specs.Arc.{arc_value};
ghost use Rattle.pk_plan.specs.Plans.{end_of, successors_of};
ghost use Rattle.pk_plan.specs.Shape.{has};
ghost use Rattle.pk_items.specs.Items.{EndsItem};
ghost use Rattle.pk_layout.specs.Layouts.{first_of};
ghost use Rattle.pk_words.specs.declared.view.View.{View};
ghost use Rattle.pk_words.specs.declared.slot.Slot.{Slot};
ghost use Rattle.pk_words.specs.declared.slot.Slot.TheVariants.{Cell};
ghost use Rattle.pk_words.specs.Kinds.{HasCell, kind_of};
ghost use Rattle.pk_words.specs.Tokens.{times};
ghost use Rattle.pk_words.specs.Views.{HasHold, done_view, take_view};
ghost use Rattle.pk_board.specs.Calls.{AreCopies, IsGlance, IsInput, IsRunCell};
ghost use Rattle.pk_board.specs.Writing.{IsWriting};

use crate::boards::Board;
use crate::copies::{Copies, copied};
use crate::passes::Pass;
use crate::tokens::{Hold, Sending};
use atomic_table::Seat;
use pk_words::{DONE, Parted, RUN, Slot, View, give_told, input_told, store_told, take_told};
use std::alloc::{AllocError, Global};
use std::marker::Brand;
use std::sync::Arc;

impl<'a, Y: Parted> Board<'a, Y> {
    // The cell in the slot that the seat took.
    pub(crate) fn read_slot(
        &self,
        seat: &mut Seat<Slot<Y::Cell, Y::Part>, View>,
        slot: usize,
    ) -> Result<Arc<Y::Cell>, AllocError>
        requires of_board { seat.old.table_id ≡ self.now.table }
        requires has { (x : Slot Y.Cell Y.Part) × (c : Y.Cell) × (seat.old.me.1 ≡ (slot, x) ∷ [])
            × (kind_of x ≡ HasCell c) }
        ensures same { (seat.new.table_id ≡ seat.old.table_id) × (seat.new.id ≡ seat.old.id)
            × (seat.new.me ≡ seat.old.me) }
        ensures value { IfOk result (λ a. (x : Slot Y.Cell Y.Part) (c : Y.Cell) → seat.old.me.1 ≡ (slot, x) ∷ []
            → kind_of x ≡ HasCell c → arc_value a ≡ c) }
    {
        match seat.slot_mut(&self.table.shared, slot) {
            Slot::Cell(cell) => cell.clone(),
            _ => unreachable!(),
        }
    }

    /// The cell that the Hold's run reads at a place.
    pub fn input(
        &self,
        pass: &mut Pass<Y::Cell, Y::Part>,
        hold: &Hold,
        place: usize,
    ) -> Result<Arc<Y::Cell>, AllocError>
        requires of_board { pass.old.table ≡ self.now.table }
        requires element { hold.now.element < self.now.subject.wiring.plan.elements }
        requires held { HasHold pass.old.view hold.now.element hold.now.run }
        requires place { place < length ((Y.meaning self.now.subject.system).reads hold.now.element) }
        ensures of_board { pass.new.table ≡ pass.old.table }
        ensures input { IfOk result (λ c. IsInput (Y.meaning self.now.subject.system) self.now.subject.wiring
            hold.now place pass.old.view pass.new.view (arc_value c)) }
        ensures err { OnErr result
            (IsGlance (Y.meaning self.now.subject.system) hold.now.element place pass.old.view pass.new.view) }
    {
        let element = hold.element();
        let word = element as usize + 2;
        let slot = self.subject.layout().input_slot(element, place);
        input_told::<_, _, _, Brand>(
            &self.table.shared,
            &mut pass.seat,
            word,
            slot,
            element,
            hold.run(),
            place,
        );
        let cell = self.read_slot(&mut pass.seat, slot);
        give_told::<_, _, _, Brand>(&self.table.shared, &mut pass.seat, word);
        cell
    }

    /// A run's cell, once for each slot of its element.
    pub fn copies(
        &self,
        alloc: Global,
        hold: &Hold,
        cell: Arc<Y::Cell>,
    ) -> Result<Copies<Y::Cell>, AllocError>
        requires { hold.now.element < self.now.subject.wiring.plan.elements }
        ensures copies { IfOk result (AreCopies self.now.subject.wiring hold.now.element) }
        ensures cell { IfOk result (λ c. c.cell ≡ arc_value cell) }
    {
        let element = hold.element();
        let layout = self.subject.layout();
        let count = layout.first_slot(element + 1) - layout.first_slot(element);
        copied(alloc, element, cell, count)
    }

    // Takes a slot of the element, and writes the cell.
    pub(crate) fn put(
        &self,
        seat: &mut Seat<Slot<Y::Cell, Y::Part>, View>,
        e: u32,
        slot: usize,
        cell: Arc<Y::Cell>,
    )
        requires of_board { seat.old.table_id ≡ self.now.table }
        requires element { e < self.now.subject.wiring.plan.elements }
        requires slot { (first_of self.now.subject.wiring.layout e ≤ slot)
            × (slot < first_of self.now.subject.wiring.layout (e + 1)) }
        requires held { 0 < times e seat.old.me.0.holds }
        requires at_home { has slot seat.old.me.0.out ≡ false }
        ensures same { (seat.new.table_id ≡ seat.old.table_id) × (seat.new.id ≡ seat.old.id) }
        ensures put { seat.new.me ≡ (take_view slot seat.old.me.0, (slot, Cell cell) ∷ seat.old.me.1) }
    {
        take_told::<_, _, _, Brand>(&self.table.shared, seat, e as usize + 2, slot);
        drop(self.table.shared.exchange(seat, slot, Slot::Cell(cell)));
    }

    // Takes each slot of the element, and writes its copy.
    pub(crate) fn put_all(
        &self,
        seat: &mut Seat<Slot<Y::Cell, Y::Part>, View>,
        e: u32,
        first: Arc<Y::Cell>,
        further: Vec<Arc<Y::Cell>>,
    )
        requires of_board { seat.old.table_id ≡ self.now.table }
        requires element { e < self.now.subject.wiring.plan.elements }
        requires held { 0 < times e seat.old.me.0.holds }
        requires idle { (seat.old.me.1 ≡ []) × (seat.old.me.0.out ≡ []) }
        requires count { first_of self.now.subject.wiring.layout e + (length further.items + 1)
            ≡ first_of self.now.subject.wiring.layout (e + 1) }
        requires same { map arc_value further.items ≡ replicate (length further.items) (arc_value first) }
        ensures same { (seat.new.table_id ≡ seat.old.table_id) × (seat.new.id ≡ seat.old.id) }
        ensures written { IsWriting self.now.subject.wiring e (arc_value first)
            (first_of self.now.subject.wiring.layout e) seat.old.me.0 seat.new.me }
    {
        let mut cells = further;
        let mut slot = self.subject.layout().first_slot(e + 1);
        while let Some(cell) = cells.pop() {
            slot -= 1;
            self.put(seat, e, slot, cell);
        }
        self.put(seat, e, slot - 1, first);
    }

    /// Ends a run of a point, of END, or of an exit that is stable. There is a Sending exactly where the element isn't END.
    pub fn done(
        &self,
        pass: &mut Pass<Y::Cell, Y::Part>,
        hold: Hold,
        copies: Copies<Y::Cell>,
    ) -> Option<Sending>
        requires of_board { pass.old.table ≡ self.now.table }
        requires element { hold.element < self.now.subject.wiring.plan.elements }
        requires held { HasHold pass.old.view hold.element hold.run }
        requires room { hold.run < self.now.subject.wiring.limit }
        requires going { self.now.subject.lean ≡ true → EndsItem self.now.subject.wiring.plan hold.element → ⊥ }
        requires copies { AreCopies self.now.subject.wiring hold.element copies }
        requires cell { IsRunCell
            (Y.meaning self.now.subject.system) self.now.subject.wiring.plan hold false copies.cell }
        ensures of_board { pass.new.table ≡ pass.old.table }
        ensures end { IsNone result ↔ (hold.element ≡ end_of self.now.subject.wiring.plan) }
        ensures sending { IfSome result (λ s. s ≡ record { element = hold.element; sent = 0 }) }
        ensures view { pass.new.view
            ≡ done_view hold.element ((hold.run + 1) * 1048576 + 262145)
            (successors_of self.now.subject.wiring.plan hold.element) pass.old.view }
    {
        let element = hold.element();
        let Copies {
            element: _,
            first,
            further,
        } = copies;
        self.put_all(&mut pass.seat, element, first, further);
        store_told::<_, _, _, Brand>(
            &self.table.shared,
            &mut pass.seat,
            element as usize + 2,
            (hold.run() + 1) * RUN + DONE,
            element,
        );
        if self.subject.plan().successors(element).is_empty() {
            return None;
        }
        Some(Sending::new(element, 0))
    }
}
