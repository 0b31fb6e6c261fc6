// Pieces in any order.

ghost use Rattle.std.specs.Prelude.{◌≡◌, ◌<◌, All, IfOk, length, replicate, None};
ghost use Rattle.pk_pieces.specs.Pieces.{PieceOf, put, put_each};

use crate::pieces::Piece;
use std::alloc::{AllocError, Global};
use std::marker::Model;

/// A place for the piece of each point.
#[derive(Drop)]
pub struct Pieces {
    places: Vec<Option<Piece>>,
}

impl Model for Pieces {
    ghost use Rattle.std.specs.Prelude.{List, Option};
    ghost use Rattle.pk_pieces.specs.Pieces.{PieceOf};

    ghost Value = { List (Option PieceOf) };

    ghost view = { λ p. p.places.items };
}

impl Pieces {
    /// Places for so many points, with no piece yet.
    pub fn new(alloc: Global, points: usize) -> Result<Pieces, AllocError>
        ensures { IfOk result (λ pieces. pieces ≡ replicate points None) }
    {
        let mut places = Vec::with_capacity(alloc, points)?;
        for _ in 0..points {
            places.push(None)?;
        }
        Ok(Pieces { places })
    }

    /// Puts a piece at its point's place.
    pub fn put(&mut self, piece: Piece)
        requires { piece.point < length self.old }
        ensures { self.new ≡ put self.old piece }
    {
        let at = piece.point() as usize;
        self.places[at] = Some(piece);
    }

    /// Puts each of these at its point's place.
    pub fn put_all(&mut self, pieces: Vec<Piece>)
        requires { All (λ (p : PieceOf). p.point < length self.old) pieces.items }
        ensures { self.new ≡ put_each self.old pieces.items }
    {
        let mut left = pieces;
        while let Some(piece) = left.pop() {
            self.put(piece);
        }
    }

    pub(crate) fn places(&self) -> &[Option<Piece>]
        ensures { result.now ≡ self.now }
    {
        &self.places
    }
}
