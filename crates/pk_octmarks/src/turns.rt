// Closing in turn: after the bounds on one variable have changed, before those on another do.

ghost use Rattle.std.specs.Prelude.{◌≡◌, ℕ, IfSome, None};
ghost use Rattle.pk_octmat.specs.Shapes.{left_of};
ghost use Rattle.pk_octclose.specs.Closing.{IsSmall};
ghost use Rattle.pk_octclose.specs.Places.{closing_of};
ghost use Rattle.pk_octmarks.specs.Marks.{IsMarked};
ghost use Rattle.pk_octmarks.specs.Turns.{IsAhead, IsMade};

use crate::closing::close_changed;
use crate::mark::Mark;
use pk_octclose::{close, closing_is_closed, small};
use pk_octmat::{Matrix, Shape};

/// What there is of a matrix before the bounds on a variable change.
#[derive(Clone, Copy)]
pub enum Ahead {
    /// So much is known of it.
    Known(Mark),
    /// Nothing: no integers meet it.
    Empty,
    /// It isn't small, and is as it was.
    Large,
}

/// Closes a small matrix in place of which so much is known, or finds that no integers meet it. None where it isn't small: it is as it was then.
pub fn close_small(m: &mut Matrix, mark: Mark) -> Option<Shape>
    requires { IsMarked mark m.old }
    ensures value { IfSome result (λ s. left_of s m.new ≡ closing_of m.old) }
    ensures vars { m.new.vars ≡ m.old.vars }
    ensures small { IfSome result (λ s. IsSmall m.old) }
    ensures large { result ≡ None → IsSmall m.old → ⊥ }
    ensures stays { result ≡ None → m.new ≡ m.old }
{
    m.is_octagon();
    if !small(m) {
        return None;
    }
    match mark {
        Mark::Closed => Some(Shape::Kept),
        Mark::ClosedBut(k) => Some(close_changed(m, k)),
        Mark::Unknown => Some(close(m)),
    }
}

// Closes a small matrix.
fn close_known(m: &mut Matrix, mark: Mark) -> Ahead
    requires { IsMarked mark m.old }
    ensures value { IsMade result m.old m.new }
    ensures vars { m.new.vars ≡ m.old.vars }
{
    match close_small(m, mark) {
        None => Ahead::Large,
        Some(Shape::Empty) => Ahead::Empty,
        Some(Shape::Kept) => Ahead::Known(Mark::Closed),
    }
}

/// Closes a small matrix before the bounds on variable k change, unless it is closed but for these.
pub fn close_ahead(m: &mut Matrix, mark: Mark, k: u32) -> Ahead
    requires { IsMarked mark m.old }
    ensures value { IsAhead result k m.old m.new }
    ensures vars { m.new.vars ≡ m.old.vars }
{
    m.is_octagon();
    closing_is_closed();
    match mark {
        Mark::Closed => Ahead::Known(mark),
        Mark::ClosedBut(j) => {
            if j == k {
                return Ahead::Known(mark);
            }
            close_known(m, mark)
        }
        Mark::Unknown => close_known(m, mark),
    }
}
