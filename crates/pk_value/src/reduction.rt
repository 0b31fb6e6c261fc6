// An interval and a congruence, each as tight as the other lets it be.

ghost use Rattle.std.specs.Prelude.{◌≡◌, ◌<◌, ◌^◌, unsigned_abs, IfSome};
ghost use Rattle.pk_interval.specs.Ranges.{IsIn, LiesIn};
ghost use Rattle.pk_congr.specs.Laws.{IsOf};
ghost use Rattle.pk_value.specs.Reduction.{red, reduced_at, reduced_if, ReductionIsExact};

use pk_congr::{Congr, reduced_law};
use pk_ctypes::IntType;
use pk_interval::Interval;

// From bounds that are numbers of the congruence.
fn between(lo: i128, hi: i128, congr: &Congr) -> Option<(Interval, Congr)>
    requires { unsigned_abs lo < 2 ^ 127 }
    ensures { result ≡ reduced_at congr.now lo hi }
{
    if lo < hi {
        Some((Interval { lo, hi }, *congr))
    } else if hi < lo {
        None
    } else {
        Some((Interval { lo, hi: lo }, Congr::constant(lo)))
    }
}

// From the next numbers of the congruence, if there are any.
fn from_next(lo: Option<i128>, hi: Option<i128>, congr: &Congr) -> Option<(Interval, Congr)>
    requires { IfSome lo (λ z. unsigned_abs z < 2 ^ 127) }
    ensures { result ≡ reduced_if congr.now lo hi }
{
    match (lo, hi) {
        (Some(lo), Some(hi)) => between(lo, hi, congr),
        (Some(_), None) => None,
        (None, _) => None,
    }
}

fn reduced(t: IntType, interval: &Interval, congr: &Congr) -> Option<(Interval, Congr)>
    requires { IsIn t interval.now }
    ensures { result ≡ red interval.now congr.now }
{
    let _ = t;
    reduced_law(congr);
    from_next(
        congr.next_up(interval.lo),
        congr.next_down(interval.hi),
        congr,
    )
}

/// The numbers that are in both, for an interval of type `t`: its bounds moved to the next numbers of the congruence, and a constant where one number is left.
/// The modulus is then at most 2^64.
pub fn reduce(t: IntType, interval: &Interval, congr: &Congr) -> Option<(Interval, Congr)>
    requires { IsIn t interval.now }
    ensures value { result ≡ red interval.now congr.now }
    ensures within { IfSome result (λ p. LiesIn interval.now p.0) }
    ensures inside { IfSome result (λ p. IsIn t p.0) }
    ensures class { IfSome result (λ p. IsOf t p.1) }
{
    reduced_law(congr);
    reduced(t, interval, congr)
}

/// Reduction keeps exactly the numbers of both, and its bounds are two of them.
pub fn reduction_law()
    ensures { ReductionIsExact }
{}
