// Bitwise operators.

ghost use Rattle.std.specs.Prelude.{◌≡◌, ◌-◌, ◌^◌, ◌≤◌, pos, ◌≤ℤ◌, unsigned_abs};
ghost use Rattle.pk_interval.specs.Ranges.{IsIn, whole as whole_of};
ghost use Rattle.pk_interval.specs.Operators.{digits_of, range_and, range_or, range_complement};

use crate::interval::Interval;
use crate::scalars::{greater, lesser, other_bits};
use pk_ctypes::{IntType, range};

/// All numbers of a type.
pub fn whole(t: IntType) -> Interval
    ensures { result ≡ whole_of t }
{
    let (lo, hi) = range(t);
    Interval { lo, hi }
}

// 2 to the power k.
fn power(k: u32) -> i128
    requires { k ≤ 64 }
    ensures { result ≡ pos (2 ^ k) }
{
    1 << k
}

// How many binary digits a number below 2^k has.
fn digits(k: u32, m: i128) -> u32
    requires few { k ≤ 64 }
    requires from { pos 0 ≤ℤ m }
    ensures value { result ≡ digits_of k (unsigned_abs m) }
    ensures few { result ≤ 64 }
{
    if k == 0 {
        0
    } else if m < power(k - 1) {
        digits(k - 1, m)
    } else {
        k
    }
}

// The greatest number of as many binary digits as `m` has.
fn ones(m: i128) -> i128
    requires { pos 0 ≤ℤ m }
    ensures { result ≡ pos (2 ^ digits_of 64 (unsigned_abs m) - 1) }
{
    power(digits(64, m)) - 1
}

pub(crate) fn ands(t: IntType, a: &Interval, b: &Interval) -> Interval
    ensures { result ≡ range_and t a.now b.now }
{
    if 0 <= a.lo {
        if 0 <= b.lo {
            Interval {
                lo: 0,
                hi: lesser(a.hi, b.hi),
            }
        } else {
            Interval { lo: 0, hi: a.hi }
        }
    } else if 0 <= b.lo {
        Interval { lo: 0, hi: b.hi }
    } else {
        whole(t)
    }
}

pub(crate) fn ors(t: IntType, a: &Interval, b: &Interval) -> Interval
    ensures { result ≡ range_or t a.now b.now }
{
    if 0 <= a.lo && 0 <= b.lo {
        Interval {
            lo: 0,
            hi: ones(greater(a.hi, b.hi)),
        }
    } else {
        whole(t)
    }
}

pub(crate) fn complements(t: IntType, a: &Interval) -> Interval
    requires { IsIn t a.now }
    ensures { result ≡ range_complement t a.now }
{
    Interval {
        lo: other_bits(t, a.hi),
        hi: other_bits(t, a.lo),
    }
}
