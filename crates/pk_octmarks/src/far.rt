// Whether bounds are far from the cap.

ghost use Rattle.std.specs.Prelude.{◌≡◌, ◌↔◌, ◌<◌, true};
ghost use Rattle.pk_octclose.specs.Laws.{IsInside};
ghost use Rattle.pk_octmarks.specs.Marks.{IsFar};

use pk_octmat::{Bound, Matrix};

// Whether a bound is a number far from the cap.
fn is_inside(bound: Bound) -> bool
    ensures { (result ≡ true) ↔ IsInside bound }
{
    match bound.number() {
        None => false,
        Some(z) => -(1 << 66) < z,
    }
}

/// Whether each bound on a variable is so.
pub(crate) fn is_far(m: &Matrix, k: u32) -> bool
    requires { k < m.now.vars }
    ensures { (result ≡ true) ↔ IsFar m.now k }
{
    m.is_octagon();
    for j in 0..2 * m.vars {
        if !is_inside(m.bound(2 * k, j)) || !is_inside(m.bound(2 * k + 1, j)) {
            return false;
        }
    }
    true
}
