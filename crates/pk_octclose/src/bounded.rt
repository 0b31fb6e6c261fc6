// Whether the bounds of a matrix are small.

ghost use Rattle.std.specs.Prelude.{◌≡◌, ◌↔◌, ℕ, ◌<◌, ◌*◌, ◌^◌, true, false};
ghost use Rattle.pk_octmat.specs.Bounds.{IsNear};
ghost use Rattle.pk_octmat.specs.Octagon.{entry};
ghost use Rattle.pk_octclose.specs.Closing.{IsSmall};

use pk_octmat::{Bound, Matrix};

/// Whether a bound is none or within 2^58 of 0.
fn is_small(bound: Bound) -> bool
    ensures { (result ≡ true) ↔ IsNear (2 ^ 58) bound }
{
    match bound.number() {
        None => true,
        Some(z) => -(1 << 58) <= z && z <= 1 << 58,
    }
}

/// Whether the bounds of row i are small.
fn is_row_small(m: &Matrix, i: u32) -> bool
    requires row { i < 2 * m.now.vars }
    ensures { (result ≡ true) ↔ ((j : ℕ) → j < 2 * m.now.vars → IsNear (2 ^ 58) (entry m.now i j)) }
{
    m.is_octagon();
    for j in 0..2 * m.vars {
        if !is_small(m.bound(i, j)) {
            return false;
        }
    }
    true
}

/// Whether each bound is none or within 2^58 of 0.
pub fn small(m: &Matrix) -> bool
    ensures { (result ≡ true) ↔ IsSmall m.now }
{
    m.is_octagon();
    for i in 0..2 * m.vars {
        if !is_row_small(m, i) {
            return false;
        }
    }
    true
}
