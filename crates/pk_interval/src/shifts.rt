// Shifts by counts that are fewer than the type's bits.

ghost use Rattle.std.specs.Prelude.{◌≡◌, pos, ◌≤ℤ◌, ◌<ℤ◌, ◌-ℤ◌, IfSome};
ghost use Rattle.pk_ctypes.specs.Types.{width_of};
ghost use Rattle.pk_interval.specs.Ranges.{IsIn};
ghost use Rattle.pk_interval.specs.Operators.{AreCounts, counts_of, shiftable, left_by, right_by};

use crate::interval::{Interval, between};
use crate::scalars::{greater, hull, left, lesser, right};
use pk_ctypes::{IntType, width};

// The greatest count that is fewer than the type's bits.
fn last_count(t: IntType) -> i128
    ensures value { result ≡ pos (width_of t) -ℤ pos 1 }
    ensures few { result <ℤ pos 64 }
{
    i128::from(width(t)) - 1
}

// Counts that are fewer than the bits of every type.
fn counts(t: IntType, b: &Interval) -> Option<Interval>
    ensures value { result ≡ counts_of t b.now }
    ensures few { IfSome result AreCounts }
{
    between(greater(b.lo, 0), lesser(b.hi, last_count(t)))
}

// The numbers of an interval that may be shifted to the left.
fn not_negative(t: IntType, a: &Interval) -> Option<Interval>
    requires { IsIn t a.now }
    ensures value { result ≡ shiftable a.now }
    ensures inside { IfSome result (λ r. IsIn t r) }
    ensures from { IfSome result (λ r. pos 0 ≤ℤ r.lo) }
{
    between(greater(a.lo, 0), a.hi)
}

// The least shifted by the least count, and the greatest by the greatest.
fn doubled(t: IntType, a: &Interval, by: &Interval) -> Interval
    requires inside { IsIn t a.now }
    requires from { pos 0 ≤ℤ a.now.lo }
    requires few { AreCounts by.now }
    ensures { Some result ≡ left_by (Some a.now) (Some by.now) }
{
    Interval {
        lo: left(t, a.lo, by.lo),
        hi: left(t, a.hi, by.hi),
    }
}

pub(crate) fn shifts_left(t: IntType, a: &Interval, b: &Interval) -> Option<Interval>
    requires { IsIn t a.now }
    ensures { result ≡ left_by (shiftable a.now) (counts_of t b.now) }
{
    match (not_negative(t, a), counts(t, b)) {
        (Some(numbers), Some(by)) => Some(doubled(t, &numbers, &by)),
        (Some(_), None) => None,
        (None, _) => None,
    }
}

// The hull of the bounds, each shifted by the least and by the greatest count.
fn halved(t: IntType, a: &Interval, by: &Interval) -> Interval
    requires inside { IsIn t a.now }
    requires few { AreCounts by.now }
    ensures { Some result ≡ right_by a.now (Some by.now) }
{
    hull(
        right(t, a.lo, by.lo),
        right(t, a.lo, by.hi),
        right(t, a.hi, by.lo),
        right(t, a.hi, by.hi),
    )
}

pub(crate) fn shifts_right(t: IntType, a: &Interval, b: &Interval) -> Option<Interval>
    requires { IsIn t a.now }
    ensures { result ≡ right_by a.now (counts_of t b.now) }
{
    match counts(t, b) {
        Some(by) => Some(halved(t, a, &by)),
        None => None,
    }
}
