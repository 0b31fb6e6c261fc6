// What is kept of an item.

ghost use Rattle.std.specs.Prelude.{◌≡◌, ◌<◌, All, length};
ghost use Rattle.pk_pieces.specs.Pieces.{PieceOf, put_each};
ghost use Rattle.pk_parts.specs.Kept.{pieces_in};

use pk_pieces::{Piece, Pieces};
use std::marker::Model;

/// What is kept of an item once its cells are let go of: the pieces of its points.
#[derive(Drop)]
pub struct Kept {
    pieces: Vec<Piece>,
}

impl Model for Kept {
    ghost use Rattle.std.specs.Prelude.{List};
    ghost use Rattle.pk_pieces.specs.Pieces.{PieceOf};

    ghost Value = { List PieceOf };

    ghost view = { λ k. k.pieces.items };
}

impl Kept {
    pub(crate) fn new(pieces: Vec<Piece>) -> Kept
        ensures { result ≡ pieces.items }
    {
        Kept { pieces }
    }

    fn put(self, pieces: &mut Pieces)
        requires { All (λ (p : PieceOf). p.point < length pieces.old) self }
        ensures { pieces.new ≡ put_each pieces.old self }
    {
        pieces.put_all(self.pieces);
    }
}

/// Puts the pieces of each item at their points' places.
pub(crate) fn put_kept(pieces: &mut Pieces, kept: Vec<Kept>)
    requires { All (λ (p : PieceOf). p.point < length pieces.old) (pieces_in kept.items) }
    ensures { pieces.new ≡ put_each pieces.old (pieces_in kept.items) }
{
    let mut left = kept;
    while let Some(item) = left.pop() {
        item.put(pieces);
    }
}
