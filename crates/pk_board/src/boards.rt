// The board, and its calls that ask for no run.

ghost use Rattle.std.specs.Prelude.{◌≡◌, ◌<◌, ◌≤◌, IfOk, IfErr, OnOk};
ghost use Rattle.pk_words.specs.Views.{HasHold, new_view, offer_view, split_view};
ghost use Rattle.pk_board.specs.Calls.{IsClaimed, IsSeen, IsEnd, IsNoEnd};

use crate::answers::Seen;
use crate::earliest::Earliest;
use crate::lean::Lean;
use crate::passes::Pass;
use crate::results::Results;
use crate::tokens::{Finished, Hold};
use atomic_table::Table;
use pk_words::{
    DONE, OPEN, Parted, Parts, RUN, Rule, Slot, Subject, View, exchange_told, load_told, store_told,
};
use std::alloc::Global;
use std::marker::{Brand, Model};

/// A word for each element of a plan, and a slot for each cell that an element writes or reads. Any number of passes may call it at once.
#[derive(Drop)]
pub struct Board<'a, Y: Parted> {
    pub(crate) subject: Subject<'a, Y>,
    pub(crate) table: Table<Slot<Y::Cell, Y::Part>, View, Subject<'a, Y>, Rule, Global>,
    // Tells how many members of a component constrain a member.
    pub(crate) earliest: Earliest,
    // The room that the end needs.
    pub(crate) results: Results<Y::Cell>,
    // What a board has that lets go of cells.
    pub(crate) lean: Lean<Y::Part>,
}

impl<'a, Y: Parted> Model for Board<'a, Y> {
    ghost use Rattle.pk_board.specs.Boards.{BoardView, IsWhole};

    ghost Value = { BoardView Y };

    ghost view = { λ b. record { subject = b.subject; table = b.table.shared.table_id } };

    ghost invariant = { λ b. IsWhole (Y.meaning b.subject.system)
        b.subject b.table.shared.key b.table.shared.table_id b.earliest b.results b.lean };
}

impl<'a, Y: Parted> Board<'a, Y> {
    /// A pass for another thread. It has no token, and has seen what this one has.
    pub fn split(&self, pass: &mut Pass<Y::Cell, Y::Part>) -> Pass<Y::Cell, Y::Part>
        requires of_board { pass.old.table ≡ self.now.table }
        ensures own { pass.new ≡ record { table = pass.old.table; view = split_view pass.old.view } }
        ensures other { result ≡ record { table = pass.old.table; view = new_view pass.old.view } }
    {
        Pass {
            seat: self.table.shared.split_seat::<Parts>(&mut pass.seat),
        }
    }

    /// Opens the element of a Hold, so that any pass may claim it.
    pub fn offer(&self, pass: &mut Pass<Y::Cell, Y::Part>, hold: Hold)
        requires of_board { pass.old.table ≡ self.now.table }
        requires element { hold.element < self.now.subject.wiring.plan.elements }
        requires held { HasHold pass.old.view hold.element hold.run }
        requires within { hold.run ≤ self.now.subject.wiring.limit }
        ensures of_board { pass.new.table ≡ pass.old.table }
        ensures view { pass.new.view ≡ offer_view hold.element pass.old.view }
    {
        let element = hold.element();
        store_told::<_, _, _, Brand>(
            &self.table.shared,
            &mut pass.seat,
            element as usize + 2,
            hold.run() * RUN + OPEN,
            element,
        );
    }

    /// Claims an open element, or tells the word that was found.
    pub fn claim(&self, pass: &mut Pass<Y::Cell, Y::Part>, e: u32) -> Result<Hold, Seen>
        requires of_board { pass.old.table ≡ self.now.table }
        requires element { e < self.now.subject.wiring.plan.elements }
        ensures of_board { pass.new.table ≡ pass.old.table }
        ensures held { IfOk result (λ hold. IsClaimed
            (Y.meaning self.now.subject.system) self.now.subject.wiring e hold pass.old.view pass.new.view) }
        ensures seen { IfErr result (λ seen. IsSeen e seen.word pass.old.view pass.new.view) }
    {
        let word = e as usize + 2;
        let found = load_told::<_, _, _, Brand>(&self.table.shared, &mut pass.seat, word);
        if found % RUN != OPEN {
            return Err(Seen { word: found });
        }
        let seen = exchange_told::<_, _, _, Brand>(
            &self.table.shared,
            &mut pass.seat,
            word,
            found,
            found - OPEN,
            e,
        );
        if seen != found {
            return Err(Seen { word: seen });
        }
        Ok(Hold::new(e, found / RUN))
    }

    /// Whether the last element is done, or else its word.
    pub fn finished(&self, pass: &mut Pass<Y::Cell, Y::Part>) -> Result<Finished, Seen>
        requires of_board { pass.old.table ≡ self.now.table }
        ensures of_board { pass.new.table ≡ pass.old.table }
        ensures finished { OnOk result (IsEnd self.now.subject.wiring.plan pass.old.view pass.new.view) }
        ensures seen { IfErr result
            (λ seen. IsNoEnd self.now.subject.wiring.plan seen.word pass.old.view pass.new.view) }
    {
        let last = self.subject.plan().elements() - 1;
        let word = last as usize + 2;
        let found = load_told::<_, _, _, Brand>(&self.table.shared, &mut pass.seat, word);
        if found % RUN != DONE {
            return Err(Seen { word: found });
        }
        Ok(Finished::new())
    }
}
