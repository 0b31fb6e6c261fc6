// Widening with thresholds, and narrowing.

ghost use Rattle.std.specs.Prelude.{◌≡◌, ◌≤ℤ◌};
ghost use Rattle.std.specs.List.Sorted.{IsSorted};
ghost use Rattle.std.specs.Ordering.{int_cmp};
ghost use Rattle.pk_ctypes.specs.Types.{InType};
ghost use Rattle.pk_interval.specs.Ranges.{IsIn, range_from};
ghost use Rattle.pk_interval.specs.Widening.{next_up, next_down, lowered, raised, widened, narrowed_low, narrowed_high, narrowed_if, narrowed};

use crate::interval::{Interval, between};
use pk_ctypes::{IntType, range};

// The least threshold of the type that is `x` or more, or else the type's end.
fn up(t: IntType, thresholds: &[i128], x: i128) -> i128
    requires { IsSorted int_cmp thresholds.now }
    ensures { result ≡ next_up t thresholds.now x }
{
    let (_, high) = range(t);
    let i = thresholds.partition_point(|c| *c < x);
    match thresholds.get(i) {
        Some(c) => (*c).min(high),
        None => high,
    }
}

// The greatest threshold of the type that is `x` or less, or else the type's end.
fn down(t: IntType, thresholds: &[i128], x: i128) -> i128
    requires { IsSorted int_cmp thresholds.now }
    ensures { result ≡ next_down t thresholds.now x }
{
    let (low, _) = range(t);
    let i = thresholds.partition_point(|c| *c <= x);
    if i == 0 {
        low
    } else {
        thresholds[i - 1].max(low)
    }
}

fn lower(t: IntType, thresholds: &[i128], held: i128, next: i128) -> i128
    requires held { InType t held }
    requires next { InType t next }
    requires rising { IsSorted int_cmp thresholds.now }
    ensures value { result ≡ lowered t thresholds.now held next }
    ensures bound { result ≤ℤ held }
    ensures inside { InType t result }
{
    if next < held {
        down(t, thresholds, next)
    } else {
        held
    }
}

fn raise(t: IntType, thresholds: &[i128], held: i128, next: i128) -> i128
    requires held { InType t held }
    requires next { InType t next }
    requires rising { IsSorted int_cmp thresholds.now }
    ensures value { result ≡ raised t thresholds.now held next }
    ensures bound { held ≤ℤ result }
    ensures inside { InType t result }
{
    if held < next {
        up(t, thresholds, next)
    } else {
        held
    }
}

// The narrowed bounds, of which the first may pass the second.
fn lower_bound(t: IntType, held: i128, next: i128) -> i128
    requires held { InType t held }
    requires next { InType t next }
    ensures value { result ≡ narrowed_low t held next }
    ensures inside { InType t result }
{
    let (low, _) = range(t);
    if held == low { next } else { held }
}

fn upper_bound(t: IntType, held: i128, next: i128) -> i128
    requires held { InType t held }
    requires next { InType t next }
    ensures value { result ≡ narrowed_high t held next }
    ensures inside { InType t result }
{
    let (_, high) = range(t);
    if held == high { next } else { held }
}

// The interval between the bounds, or the one that there was, where nothing is left.
fn kept(t: IntType, lo: i128, hi: i128, held: &Interval) -> Interval
    requires low { InType t lo }
    requires high { InType t hi }
    requires held { IsIn t held.now }
    ensures value { result ≡ narrowed_if (range_from lo hi) held.now }
    ensures inside { IsIn t result }
{
    match between(lo, hi) {
        Some(less) => less,
        None => *held,
    }
}

impl Interval {
    /// This interval, with each bound that `next` passes moved to the next of the thresholds, which are in rising order, or to the type's end.
    pub fn widen(&self, next: &Interval, t: IntType, thresholds: &[i128]) -> Interval
        requires held { IsIn t self.now }
        requires next { IsIn t next.now }
        requires rising { IsSorted int_cmp thresholds.now }
        ensures value { result ≡ widened t thresholds.now self.now next.now }
        ensures inside { IsIn t result }
    {
        Interval {
            lo: lower(t, thresholds, self.lo, next.lo),
            hi: raise(t, thresholds, self.hi, next.hi),
        }
    }

    /// This interval, with each bound at the type's end replaced by that of `next`, where a number is left.
    pub fn narrow(&self, next: &Interval, t: IntType) -> Interval
        requires held { IsIn t self.now }
        requires next { IsIn t next.now }
        ensures value { result ≡ narrowed t self.now next.now }
        ensures inside { IsIn t result }
    {
        kept(
            t,
            lower_bound(t, self.lo, next.lo),
            upper_bound(t, self.hi, next.hi),
            self,
        )
    }
}
