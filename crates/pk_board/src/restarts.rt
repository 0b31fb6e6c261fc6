// How a component is gone through again.

ghost use Rattle.std.specs.Prelude.{◌≡◌, ℕ, ◌+◌, ◌*◌, ◌<◌, slice_index, length, true};
ghost use Rattle.pk_plan.specs.Shape.{shape_of};
ghost use Rattle.pk_core.specs.Events.{inner};
ghost use Rattle.pk_words.specs.Board.{head_of, members_at};
ghost use Rattle.pk_words.specs.Views.{HasHold, HasResetting, again_view};
ghost use Rattle.pk_words.specs.Told.{IsIdle, Armed as MemberArmed, HeadArmed, Restarted};
ghost use Rattle.pk_words.specs.declared.view.View.{View};
ghost use Rattle.pk_layout.specs.Layouts.{first_of};
ghost use Rattle.pk_board.specs.Calls.{AreCopies, IsRunCell, IsResetting, IsArmed};
ghost use Rattle.pk_board.specs.Writing.{IsWriting};

use crate::answers::Armed;
use crate::boards::Board;
use crate::copies::Copies;
use crate::passes::Pass;
use crate::tokens::{Hold, Resetting};
use atomic_table::Seat;
use pk_words::{DONE, Parted, RUN, Slot, View, arm_head_told, arm_told, store_told};
use std::marker::Brand;
use std::sync::Arc;

impl<'a, Y: Parted> Board<'a, Y> {
    // A member that isn't the head waits for the others again.
    fn arm_member(
        &self,
        seat: &mut Seat<Slot<Y::Cell, Y::Part>, View>,
        exit: u32,
        left: usize,
        member: u32,
        amount: u64,
    )
        requires of_board { seat.old.table_id ≡ self.now.table }
        requires idle { IsIdle seat.old.me }
        requires resets { HasResetting seat.old.me.0 exit (left + 1) }
        requires some_left { 0 < left }
        requires below { member < self.now.subject.wiring.plan.elements }
        requires member { member ≡ slice_index (members_at self.now.subject.wiring.plan exit) left }
        requires amount { amount + inner (shape_of self.now.subject.wiring.plan) exit member ≡ 262145 }
        ensures same { (seat.new.table_id ≡ seat.old.table_id) × (seat.new.id ≡ seat.old.id) }
        ensures armed { (word : ℕ) × MemberArmed exit left member seat.old.me word seat.new.me }
    {
        arm_told::<_, _, _, Brand>(
            &self.table.shared,
            seat,
            member as usize + 2,
            amount,
            exit,
            left,
            member,
        );
    }

    // The head is held again, and its run number is told.
    fn arm_head(&self, seat: &mut Seat<Slot<Y::Cell, Y::Part>, View>, exit: u32, head: u32) -> u64
        requires of_board { seat.old.table_id ≡ self.now.table }
        requires idle { IsIdle seat.old.me }
        requires resets { HasResetting seat.old.me.0 exit 1 }
        requires below { head < self.now.subject.wiring.plan.elements }
        requires head { head ≡ head_of self.now.subject.wiring.plan exit }
        ensures same { (seat.new.table_id ≡ seat.old.table_id) × (seat.new.id ≡ seat.old.id) }
        ensures armed { HeadArmed (Y.meaning self.now.subject.system) self.now.subject.wiring exit head seat.old.me
            (result * 1048576 + 262145) seat.new.me }
    {
        let word = arm_head_told::<_, _, _, Brand>(
            &self.table.shared,
            seat,
            head as usize + 2,
            exit,
            head,
        );
        word / RUN
    }

    /// Arms a member of a component that is gone through again, the last one first. Once all others are armed there is a Hold of
    /// the head.
    pub fn arm(&self, pass: &mut Pass<Y::Cell, Y::Part>, resetting: Resetting) -> Armed
        requires of_board { pass.old.table ≡ self.now.table }
        requires resetting { IsResetting self.now.subject.wiring.plan resetting }
        requires resets { HasResetting pass.old.view resetting.exit resetting.left }
        ensures of_board { pass.new.table ≡ pass.old.table }
        ensures armed { IsArmed
            (Y.meaning self.now.subject.system) self.now.subject.wiring resetting pass.old.view pass.new.view result }
    {
        let exit = resetting.exit();
        let left = resetting.left() - 1;
        let plan = self.subject.plan();
        let component = plan.component_of(exit);
        let member = plan.members(component)[left];
        if left == 0 {
            let run = self.arm_head(&mut pass.seat, exit, member);
            Armed::Head(Hold::new(member, run))
        } else {
            let amount = DONE - self.earliest.inner(plan, component, member) as u64;
            self.arm_member(&mut pass.seat, exit, left, member, amount);
            Armed::More(Resetting::new(exit, left))
        }
    }

    // The exit waits for the members of its component, whose slots are written.
    fn restart(&self, seat: &mut Seat<Slot<Y::Cell, Y::Part>, View>, exit: u32, run: u64) -> usize
        requires of_board { seat.old.table_id ≡ self.now.table }
        requires below { exit < self.now.subject.wiring.plan.elements }
        requires held { HasHold seat.old.me.0 exit run }
        requires room { run < self.now.subject.wiring.limit }
        requires written { (c : Y.Cell) × (old : View)
            × IsWriting self.now.subject.wiring exit c
            (first_of self.now.subject.wiring.layout exit) old seat.old.me
            × IsRunCell (Y.meaning self.now.subject.system) self.now.subject.wiring.plan
            (record { element = exit; run = run }) true c }
        ensures same { (seat.new.table_id ≡ seat.old.table_id) × (seat.new.id ≡ seat.old.id) }
        ensures members { result ≡ length (members_at self.now.subject.wiring.plan exit) }
        ensures resetting { IsResetting self.now.subject.wiring.plan (record { exit = exit; left = result }) }
        ensures told { Restarted self.now.subject.wiring.plan exit seat.old.me
            ((run + 1) * 1048576 + inner (shape_of self.now.subject.wiring.plan) exit exit) seat.new.me }
    {
        let plan = self.subject.plan();
        let component = plan.component_of(exit);
        let waits = self.earliest.inner(plan, component, exit) as u64;
        store_told::<_, _, _, Brand>(
            &self.table.shared,
            seat,
            exit as usize + 2,
            (run + 1) * RUN + waits,
            exit,
        );
        plan.members(component).len()
    }

    /// Ends a run of an exit whose component is to be gone through again.
    pub fn again(
        &self,
        pass: &mut Pass<Y::Cell, Y::Part>,
        hold: Hold,
        copies: Copies<Y::Cell>,
    ) -> Resetting
        requires of_board { pass.old.table ≡ self.now.table }
        requires element { hold.element < self.now.subject.wiring.plan.elements }
        requires held { HasHold pass.old.view hold.element hold.run }
        requires room { hold.run < self.now.subject.wiring.limit }
        requires copies { AreCopies self.now.subject.wiring hold.element copies }
        requires cell { IsRunCell
            (Y.meaning self.now.subject.system) self.now.subject.wiring.plan hold true copies.cell }
        ensures of_board { pass.new.table ≡ pass.old.table }
        ensures resetting { result ≡ record {
          exit = hold.element;
          left = length (members_at self.now.subject.wiring.plan hold.element);
        } }
        ensures is_resetting { IsResetting self.now.subject.wiring.plan result }
        ensures view { pass.new.view
            ≡ again_view hold.element
            ((hold.run + 1) * 1048576 + inner (shape_of self.now.subject.wiring.plan) hold.element hold.element)
            (length (members_at self.now.subject.wiring.plan hold.element)) pass.old.view }
    {
        let exit = hold.element();
        let Copies {
            element: _,
            first,
            further,
        } = copies;
        self.put_all(&mut pass.seat, exit, first, further);
        let members = self.restart(&mut pass.seat, exit, hold.run());
        Resetting::new(exit, members)
    }
}
