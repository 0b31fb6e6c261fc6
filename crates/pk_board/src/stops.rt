// How a board is stopped.

ghost use Rattle.std.specs.Prelude.{◌≡◌, IfSome, IfNone};
ghost use Rattle.pk_words.specs.Board.{IsCause};
ghost use Rattle.pk_board.specs.Stops.{IsStop, IsStopped, IsGoing};

use crate::boards::Board;
use crate::passes::Pass;
use crate::tokens::Stopped;
use pk_words::{Parted, Why, load_told, stop_word, store_told, why_in};
use std::marker::Brand;

impl<'a, Y: Parted> Board<'a, Y> {
    /// Stops the board, and says why: memory was refused, or the recursion runs an element once more than the limit lets it.
    pub fn stop(&self, pass: &mut Pass<Y::Cell, Y::Part>, why: Why)
        requires of_board { pass.old.table ≡ self.now.table }
        requires cause { IsCause (Y.meaning self.now.subject.system) self.now.subject.wiring why }
        ensures of_board { pass.new.table ≡ pass.old.table }
        ensures stop { IsStop self.now.subject.wiring why pass.old.view pass.new.view }
    {
        let word = stop_word(self.subject.limit(), why);
        store_told::<_, _, _, Brand>(&self.table.shared, &mut pass.seat, 1, word, 0);
    }

    /// Why the board is stopped, if it is. Once a pass has stopped it or found it stopped, it is.
    pub fn stopped(&self, pass: &mut Pass<Y::Cell, Y::Part>) -> Option<(Why, Stopped)>
        requires of_board { pass.old.table ≡ self.now.table }
        ensures of_board { pass.new.table ≡ pass.old.table }
        ensures stopped { IfSome result (λ r. IsStopped
            (Y.meaning self.now.subject.system) self.now.subject.wiring r.0 pass.old.view pass.new.view) }
        ensures token { IfSome result (λ r. r.1 ≡ r.0) }
        ensures going { IfNone result (IsGoing pass.old.view pass.new.view) }
    {
        let word = load_told::<_, _, _, Brand>(&self.table.shared, &mut pass.seat, 1);
        let why = why_in(self.subject.limit(), word)?;
        Some((why, Stopped::new(why)))
    }

    /// Drops the board, and says why it was stopped.
    pub fn abandon(self, stopped: Stopped) -> Why
        requires { IsCause (Y.meaning self.subject.system) self.subject.wiring stopped }
        ensures why { result ≡ stopped }
        ensures cause { IsCause (Y.meaning self.entry.subject.system) self.entry.subject.wiring result }
    {
        let Board {
            subject,
            table,
            earliest,
            results,
            lean,
        } = self;
        drop(lean);
        drop(results);
        drop(earliest);
        drop(table);
        drop(subject);
        stopped.why()
    }
}
