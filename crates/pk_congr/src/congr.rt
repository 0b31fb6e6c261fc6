// Congruences as values.

ghost use Rattle.std.specs.Prelude.{◌≡◌, ◌<◌, ◌^◌, ◌≤ℤ◌, pos, unsigned_abs};
ghost use Rattle.pk_congr.specs.Classes.{constant, every, class_of, class_if};

use std::marker::Model;

/// The numbers that differ from `r` by a multiple of `m`; where `m` is 0, `r` alone. Else `r` is one of 0 to `m - 1`. Both are below 2^127 in absolute
/// value. Contracts see the two numbers.
#[derive(Clone, Copy)]
pub struct Congr {
    pub m: i128,
    pub r: i128,
}

impl Model for Congr {
    ghost use Rattle.pk_congr.specs.Classes.{Class, IsReduced};

    ghost Value = { Class };

    ghost view = { λ c. record { m = c.m; r = c.r } };

    ghost invariant = { λ c. IsReduced c.m c.r };

    ghost inverse = { λ c. record { m = c.m; r = c.r } };
}

impl Congr {
    /// The number `r` alone.
    pub fn constant(r: i128) -> Congr
        requires { unsigned_abs r < 2 ^ 127 }
        ensures { result ≡ constant r }
    {
        Congr { m: 0, r }
    }

    /// Every number.
    pub fn every() -> Congr
        ensures { result ≡ every }
    {
        Congr { m: 1, r: 0 }
    }
}

// The least number that is too large for a modulus or a rest.
pub(crate) const LIMIT: u128 = 170_141_183_460_469_231_731_687_303_715_884_105_728;

// The congruence of a modulus and any number of it, or every number where one of them is too large.
pub(crate) fn class(m: u128, r: i128) -> Congr
    ensures { result ≡ class_if (pos m) r }
{
    if m < LIMIT && r.unsigned_abs() < LIMIT {
        reduced(m as i128, r)
    } else {
        Congr::every()
    }
}

// The congruence of a modulus and any number of it.
fn reduced(m: i128, r: i128) -> Congr
    requires from { pos 0 ≤ℤ m }
    requires modulus { unsigned_abs m < 2 ^ 127 }
    requires rest { unsigned_abs r < 2 ^ 127 }
    ensures { result ≡ class_of m r }
{
    if m == 0 {
        Congr { m, r }
    } else {
        Congr {
            m,
            r: r.rem_euclid(m),
        }
    }
}
