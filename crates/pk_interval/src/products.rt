// Sums, products, quotients and rests.

ghost use Rattle.std.specs.Prelude.{◌≡◌, pos, ◌-ℤ◌, ◌≤ℤ◌};
ghost use Rattle.pk_interval.specs.Ranges.{IsIn};
ghost use Rattle.pk_interval.specs.Operators as operators;

use crate::interval::{Interval, between};
use crate::outcome::Outcome;
use crate::scalars::{divided, hull, magnitude, minus, negative, plus, times};
use pk_ctypes::IntType;

pub(crate) fn sums(t: IntType, a: &Interval, b: &Interval) -> Interval
    requires left { IsIn t a.now }
    requires right { IsIn t b.now }
    ensures { result ≡ operators.range_sum a.now b.now }
{
    Interval {
        lo: plus(t, a.lo, b.lo),
        hi: plus(t, a.hi, b.hi),
    }
}

pub(crate) fn differences(t: IntType, a: &Interval, b: &Interval) -> Interval
    requires left { IsIn t a.now }
    requires right { IsIn t b.now }
    ensures { result ≡ operators.range_difference a.now b.now }
{
    Interval {
        lo: minus(t, a.lo, b.hi),
        hi: minus(t, a.hi, b.lo),
    }
}

pub(crate) fn negatives(t: IntType, a: &Interval) -> Interval
    requires { IsIn t a.now }
    ensures { result ≡ operators.range_negative a.now }
{
    Interval {
        lo: negative(t, a.hi),
        hi: negative(t, a.lo),
    }
}

fn hull_of_held(p: Option<i128>, q: Option<i128>, r: Option<i128>, s: Option<i128>) -> Outcome
    ensures { result ≡ operators.hull_if p q r s }
{
    let Some(p) = p else {
        return Outcome::TooLarge;
    };
    let Some(q) = q else {
        return Outcome::TooLarge;
    };
    let Some(r) = r else {
        return Outcome::TooLarge;
    };
    let Some(s) = s else {
        return Outcome::TooLarge;
    };
    Outcome::Within(hull(p, q, r, s))
}

pub(crate) fn products(t: IntType, a: &Interval, b: &Interval) -> Outcome
    requires left { IsIn t a.now }
    requires right { IsIn t b.now }
    ensures { result ≡ operators.range_product a.now b.now }
{
    hull_of_held(
        times(t, a.lo, b.lo),
        times(t, a.lo, b.hi),
        times(t, a.hi, b.lo),
        times(t, a.hi, b.hi),
    )
}

// The numbers of an interval that are 1 or more.
fn positive_part(b: &Interval) -> Option<Interval>
    ensures { result ≡ operators.above_zero b.now }
{
    between(b.lo.max(1), b.hi)
}

// The numbers of an interval that are -1 or less.
fn negative_part(b: &Interval) -> Option<Interval>
    ensures { result ≡ operators.below_zero b.now }
{
    between(b.lo, b.hi.min(-1))
}

// The hull of the quotients by divisors of one sign.
fn corners(t: IntType, a: &Interval, d: &Interval) -> Interval
    requires left { IsIn t a.now }
    requires divisors { operators.HasOneSign d.now }
    ensures { result ≡ operators.corner_quotients a.now d.now }
{
    hull(
        divided(t, a.lo, d.lo),
        divided(t, a.lo, d.hi),
        divided(t, a.hi, d.lo),
        divided(t, a.hi, d.hi),
    )
}

pub(crate) fn quotients(t: IntType, a: &Interval, b: &Interval) -> Option<Interval>
    requires { IsIn t a.now }
    ensures { result ≡ operators.range_quotient a.now b.now }
{
    match (positive_part(b), negative_part(b)) {
        (None, None) => None,
        (Some(d), None) => Some(corners(t, a, &d)),
        (None, Some(e)) => Some(corners(t, a, &e)),
        (Some(d), Some(e)) => Some(corners(t, a, &d).join(&corners(t, a, &e))),
    }
}

// The greatest absolute value of a divisor.
fn greatest(t: IntType, b: &Interval) -> i128
    requires { IsIn t b.now }
    ensures { result ≡ pos (operators.greatest_of b.now) }
{
    magnitude(t, b.lo).max(magnitude(t, b.hi))
}

// The least rest of `m` at most in absolute value, by the least dividend.
fn least_rest(lo: i128, m: i128) -> i128
    requires { pos 0 ≤ℤ m }
    ensures value { result ≡ operators.rest_low lo m }
    ensures most { result ≤ℤ pos 0 }
{
    if 0 <= lo { 0 } else { lo.max(-m) }
}

// The greatest rest of `m` at most in absolute value, by the greatest dividend.
fn greatest_rest(hi: i128, m: i128) -> i128
    requires { pos 0 ≤ℤ m }
    ensures value { result ≡ operators.rest_high hi m }
    ensures least { pos 0 ≤ℤ result }
{
    if hi <= 0 { 0 } else { hi.min(m) }
}

fn less_one(most: i128) -> i128
    requires { pos 1 ≤ℤ most }
    ensures value { result ≡ most -ℤ pos 1 }
    ensures least { pos 0 ≤ℤ result }
{
    most - 1
}

// The rests below `most` in absolute value.
fn rests_below(a: &Interval, most: i128) -> Interval
    requires { pos 1 ≤ℤ most }
    ensures { result ≡ operators.rests_within a.now (most -ℤ pos 1) }
{
    let m = less_one(most);
    Interval {
        lo: least_rest(a.lo, m),
        hi: greatest_rest(a.hi, m),
    }
}

pub(crate) fn rests(t: IntType, a: &Interval, b: &Interval) -> Option<Interval>
    requires { IsIn t b.now }
    ensures { result ≡ operators.range_rest a.now b.now }
{
    let most = greatest(t, b);
    if most == 0 {
        None
    } else {
        Some(rests_below(a, most))
    }
}
