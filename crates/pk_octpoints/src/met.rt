// Whether integers meet a matrix.

ghost use Rattle.std.specs.Prelude.{◌≡◌, ◌↔◌, ℕ, pos, negsuc, ◌<◌, ◌*◌, ◌-◌, ◌/◌, ◌^◌, ◌-ℤ◌, ◌≤ℤ◌, length, Some, true, false};
ghost use Rattle.pk_octmat.specs.Bounds.{AtMost};
ghost use Rattle.pk_octmat.specs.Octagon.{entry, side as side_of, Meets};
ghost use Rattle.pk_octpoints.specs.Points.{numbers_of, AreWithin};

use pk_octmat::{Bound, Matrix};

/// V(i) of a point.
fn side(numbers: &[i128], i: u32) -> i128
    requires place { i / 2 < length numbers.now }
    requires near { AreWithin numbers.now }
    ensures value { result ≡ side_of (numbers_of numbers.now) i }
    ensures low { negsuc (2 ^ 100 - 1) ≤ℤ result }
    ensures high { result ≤ℤ pos (2 ^ 100) }
{
    let number = numbers[i as usize / 2];
    if i % 2 == 0 { number } else { -number }
}

/// Whether V(j) - V(i) is at most its bound.
fn is_met(m: &Matrix, numbers: &[i128], i: u32, j: u32) -> bool
    requires size { length numbers.now ≡ m.now.vars }
    requires near { AreWithin numbers.now }
    requires row { i < 2 * m.now.vars }
    requires column { j < 2 * m.now.vars }
    ensures { (result ≡ true) ↔
        AtMost (Some (side_of (numbers_of numbers.now) j -ℤ side_of (numbers_of numbers.now) i)) (entry m.now i j) }
{
    let difference = Bound::exactly(side(numbers, j) - side(numbers, i));
    difference.is_at_most(m.bound(i, j))
}

/// Whether the bounds of row i are met.
fn is_row_met(m: &Matrix, numbers: &[i128], i: u32) -> bool
    requires size { length numbers.now ≡ m.now.vars }
    requires near { AreWithin numbers.now }
    requires row { i < 2 * m.now.vars }
    ensures { (result ≡ true) ↔ ((j : ℕ) → j < 2 * m.now.vars →
        AtMost (Some (side_of (numbers_of numbers.now) j -ℤ side_of (numbers_of numbers.now) i)) (entry m.now i j)) }
{
    m.is_octagon();
    for j in 0..2 * m.vars {
        if !is_met(m, numbers, i, j) {
            return false;
        }
    }
    true
}

/// Whether numbers meet each bound.
pub fn inside(m: &Matrix, numbers: &[i128]) -> bool
    requires size { length numbers.now ≡ m.now.vars }
    requires near { AreWithin numbers.now }
    ensures { (result ≡ true) ↔ Meets (entry m.now) (numbers_of numbers.now) }
{
    m.is_octagon();
    for i in 0..2 * m.vars {
        if !is_row_met(m, numbers, i) {
            return false;
        }
    }
    true
}
