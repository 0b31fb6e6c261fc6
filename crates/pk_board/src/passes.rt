// Passes.

use atomic_table::Seat;
use pk_words::{Slot, View};
use std::marker::Model;

/// What a thread calls a board with. It has the Holds and Sendings that calls gave with it.
#[derive(Drop)]
pub struct Pass<C: Drop, P: Drop> {
    pub(crate) seat: Seat<Slot<C, P>, View>,
}

impl<C: Drop, P: Drop> Model for Pass<C, P> {
    ghost use Rattle.pk_board.specs.Boards.{PassView};
    ghost use Rattle.pk_words.specs.Told.{IsIdle};

    ghost Value = { PassView };

    ghost view = { λ p. record { table = p.seat.table_id; view = p.seat.me.0 } };

    ghost invariant = { λ p. IsIdle p.seat.me };
}
