// Operations on numbers of a type, in 128 bits.

ghost use Rattle.std.specs.Prelude.{◌≡◌, ◌≢◌, ◌<◌, ◌^◌, ℤ, pos, ◌+ℤ◌, ◌-ℤ◌, ◌≤ℤ◌, ◌<ℤ◌, neg_ℤ, int_div, unsigned_abs};
ghost use Rattle.std.specs.Int.{int_min, int_max};
ghost use Rattle.pk_ctypes.specs.Types.{InType};
ghost use Rattle.pk_interval.specs.Operators.{product_of, hull_of, shifted_left, shifted_right, complement_of};

use crate::interval::Interval;
use pk_ctypes::{IntType, is_signed, range};

pub(crate) fn plus(t: IntType, x: i128, y: i128) -> i128
    requires left { InType t x }
    requires right { InType t y }
    ensures { result ≡ x +ℤ y }
{
    x + y
}

pub(crate) fn minus(t: IntType, x: i128, y: i128) -> i128
    requires left { InType t x }
    requires right { InType t y }
    ensures { result ≡ x -ℤ y }
{
    x - y
}

pub(crate) fn negative(t: IntType, x: i128) -> i128
    requires { InType t x }
    ensures { result ≡ neg_ℤ x }
{
    -x
}

// A product, if it is below 2^127 in absolute value.
pub(crate) fn times(t: IntType, x: i128, y: i128) -> Option<i128>
    requires left { InType t x }
    requires right { InType t y }
    ensures { result ≡ product_of x y }
{
    x.checked_mul(y)
}

// A quotient, rounded toward zero.
pub(crate) fn divided(t: IntType, x: i128, y: i128) -> i128
    requires left { InType t x }
    requires divisor { y ≢ pos 0 }
    ensures { result ≡ int_div x y }
{
    x / y
}

// The absolute value.
pub(crate) fn magnitude(t: IntType, x: i128) -> i128
    requires { InType t x }
    ensures { result ≡ pos (unsigned_abs x) }
{
    if x < 0 { -x } else { x }
}

pub(crate) fn left(t: IntType, x: i128, count: i128) -> i128
    requires number { InType t x }
    requires from { pos 0 ≤ℤ x }
    requires least { pos 0 ≤ℤ count }
    requires most { count <ℤ pos 64 }
    ensures { result ≡ shifted_left x count }
{
    x << count
}

pub(crate) fn right(t: IntType, x: i128, count: i128) -> i128
    requires number { InType t x }
    requires least { pos 0 ≤ℤ count }
    requires most { count <ℤ pos 64 }
    ensures { result ≡ shifted_right x count }
{
    x >> count
}

// The lesser of two numbers.
pub(crate) fn lesser(x: i128, y: i128) -> i128
    ensures value { result ≡ int_min x y }
    ensures left { result ≤ℤ x }
    ensures right { result ≤ℤ y }
{
    x.min(y)
}

// The greater of two numbers.
pub(crate) fn greater(x: i128, y: i128) -> i128
    ensures value { result ≡ int_max x y }
    ensures left { x ≤ℤ result }
    ensures right { y ≤ℤ result }
{
    x.max(y)
}

// The least and the greatest of four numbers.
pub(crate) fn hull(p: i128, q: i128, r: i128, s: i128) -> Interval
    ensures { result ≡ hull_of p q r s }
{
    Interval {
        lo: lesser(lesser(p, q), lesser(r, s)),
        hi: greater(greater(p, q), greater(r, s)),
    }
}

// The bits that a number has not, as a number of the type.
pub(crate) fn other_bits(t: IntType, x: i128) -> i128
    requires { InType t x }
    ensures { result ≡ complement_of t x }
{
    let (_, high) = range(t);
    if is_signed(t) { -1 - x } else { high - x }
}
