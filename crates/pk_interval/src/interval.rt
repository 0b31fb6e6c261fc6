// Intervals, and their order.

ghost use Rattle.std.specs.Prelude.{◌≡◌, ◌↔◌, true, ◌≤ℤ◌, IfSome};
ghost use Rattle.pk_interval.specs.Ranges.{joined, met, is_within, range_from, single, LiesIn};

use std::marker::Model;

/// The whole numbers from `lo` to `hi`, of which there is at least one.
#[derive(Clone, Copy)]
pub struct Interval {
    pub lo: i128,
    pub hi: i128,
}

impl Model for Interval {
    ghost use Rattle.std.specs.Prelude.{◌≤ℤ◌};
    ghost use Rattle.pk_interval.specs.Ranges.{Range};

    ghost Value = { Range };

    ghost view = { λ i. record { lo = i.lo; hi = i.hi } };

    ghost invariant = { λ i. i.lo ≤ℤ i.hi };

    ghost inverse = { λ r. record { lo = r.lo; hi = r.hi } };
}

/// The numbers from `lo` to `hi`, if there is one.
pub fn between(lo: i128, hi: i128) -> Option<Interval>
    ensures { result ≡ range_from lo hi }
{
    if lo <= hi {
        Some(Interval { lo, hi })
    } else {
        None
    }
}

/// One number.
pub fn point(z: i128) -> Interval
    ensures { result ≡ single z }
{
    Interval { lo: z, hi: z }
}

fn common(a: &Interval, b: &Interval) -> Option<Interval>
    ensures { result ≡ met a.now b.now }
{
    between(a.lo.max(b.lo), a.hi.min(b.hi))
}

impl Interval {
    /// The least interval that has the numbers of both.
    pub fn join(&self, other: &Interval) -> Interval
        ensures { result ≡ joined self.now other.now }
    {
        Interval {
            lo: self.lo.min(other.lo),
            hi: self.hi.max(other.hi),
        }
    }

    /// The numbers of both, if there is one.
    pub fn meet(&self, other: &Interval) -> Option<Interval>
        ensures value { result ≡ met self.now other.now }
        ensures left { IfSome result (λ r. LiesIn self.now r) }
        ensures right { IfSome result (λ r. LiesIn other.now r) }
    {
        common(self, other)
    }

    /// Whether both have the same numbers.
    pub fn equals(&self, other: &Interval) -> bool
        ensures { result ≡ true ↔ self.now ≡ other.now }
    {
        self.lo == other.lo && self.hi == other.hi
    }

    /// Whether each number of this one is one of `other`.
    pub fn leq(&self, other: &Interval) -> bool
        ensures { result ≡ is_within self.now other.now }
    {
        other.lo <= self.lo && self.hi <= other.hi
    }
}
