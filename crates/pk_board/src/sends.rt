// How successors are told.

ghost use Rattle.std.specs.Prelude.{◌≡◌, ◌%◌, ◌<◌};
ghost use Rattle.pk_words.specs.Views.{HasSending};
ghost use Rattle.pk_board.specs.Calls.{IsArrived, IsGotOf, IsSending};

use crate::answers::{Arrived, Got};
use crate::boards::Board;
use crate::passes::Pass;
use crate::tokens::{Hold, Sending};
use pk_words::{Parted, RUN, decrement_told};
use std::marker::Brand;

impl<'a, Y: Parted> Board<'a, Y> {
    /// Tells the next successor, which waits for one element less.
    pub fn arrive(&self, pass: &mut Pass<Y::Cell, Y::Part>, sending: Sending) -> Arrived
        requires of_board { pass.old.table ≡ self.now.table }
        requires sending { IsSending self.now.subject.wiring.plan sending }
        requires sends { HasSending pass.old.view sending.element sending.sent }
        ensures of_board { pass.new.table ≡ pass.old.table }
        ensures arrived { IsArrived
            (Y.meaning self.now.subject.system) self.now.subject.wiring sending pass.old.view pass.new.view result }
    {
        let element = sending.element();
        let sent = sending.sent();
        let targets = self.subject.plan().successors(element);
        let target = targets[sent];
        let found = decrement_told::<_, _, _, Brand>(
            &self.table.shared,
            &mut pass.seat,
            target as usize + 2,
            element,
            sent,
        );
        let got = got_of(target, found);
        if sent + 1 < targets.len() {
            let rest = Sending::new(element, sent + 1);
            return Arrived::Next { rest, got };
        }
        Arrived::Sent { got }
    }
}

// What an element has got whose word was found before it was told.
fn got_of(target: u32, found: u64) -> Got
    requires { 0 < found % 1048576 }
    ensures { IsGotOf target found result }
{
    match found % RUN {
        1 => Got::Ready(Hold::new(target, found / RUN)),
        count => Got::Waiting(count - 1),
    }
}
