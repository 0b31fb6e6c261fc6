// Comparisons: surely, surely not, or either.

ghost use Rattle.std.specs.Prelude.{◌≡◌, pos};
ghost use Rattle.pk_interval.specs.Ranges.{single};
ghost use Rattle.pk_interval.specs.Operators.{truths as truths_of, is_below, is_at_most, is_one, are_apart};

use crate::interval::{Interval, point};

pub(crate) fn truths(sure: bool, never: bool) -> Interval
    ensures { result ≡ truths_of sure never }
{
    if sure {
        Interval { lo: 1, hi: 1 }
    } else if never {
        Interval { lo: 0, hi: 0 }
    } else {
        Interval { lo: 0, hi: 1 }
    }
}

pub(crate) fn below(a: &Interval, b: &Interval) -> bool
    ensures { result ≡ is_below a.now b.now }
{
    a.hi < b.lo
}

pub(crate) fn at_most(a: &Interval, b: &Interval) -> bool
    ensures { result ≡ is_at_most a.now b.now }
{
    a.hi <= b.lo
}

pub(crate) fn one(a: &Interval, b: &Interval) -> bool
    ensures { result ≡ is_one a.now b.now }
{
    at_most(a, b) && at_most(b, a)
}

// Whether the numbers are 0, as truths.
pub(crate) fn zeros(a: &Interval) -> Interval
    ensures { result ≡ truths_of (is_one a.now (single (pos 0))) (are_apart a.now (single (pos 0))) }
{
    let zero = point(0);
    truths(one(a, &zero), apart(a, &zero))
}

pub(crate) fn apart(a: &Interval, b: &Interval) -> bool
    ensures { result ≡ are_apart a.now b.now }
{
    below(a, b) || below(b, a)
}
