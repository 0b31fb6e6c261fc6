// The order of congruences, joins and widening.

ghost use Rattle.std.specs.Prelude.{◌≡◌, ◌↔◌, true};
ghost use Rattle.pk_congr.specs.Classes.{is_within, joined, widened, narrowed};

use crate::congr::{Congr, class};
use crate::divisors::{gcd, is_divisor};

impl Congr {
    /// The least congruence that has the numbers of both. Every number, where two constants are 2^127 or more apart.
    pub fn join(&self, other: &Congr) -> Congr
        ensures { result ≡ joined self.now other.now }
    {
        let moduli = gcd(self.m.unsigned_abs(), other.m.unsigned_abs());
        class(gcd(moduli, self.r.abs_diff(other.r)), self.r)
    }

    /// Whether both have the same modulus and rest.
    pub fn equals(&self, other: &Congr) -> bool
        ensures { result ≡ true ↔ self.now ≡ other.now }
    {
        self.m == other.m && self.r == other.r
    }

    /// Whether each number of this one is one of `other`.
    pub fn leq(&self, other: &Congr) -> bool
        ensures { result ≡ is_within self.now other.now }
    {
        let m = other.m.unsigned_abs();
        is_divisor(m, self.m.unsigned_abs()) && is_divisor(m, self.r.abs_diff(other.r))
    }

    /// The widening of this one by `next`, which is their join: each step that rises divides the modulus.
    pub fn widen(&self, next: &Congr) -> Congr
        ensures { result ≡ widened self.now next.now }
    {
        self.join(next)
    }

    /// The narrowing of this one by `next`: `next` where this one has every number.
    pub fn narrow(&self, next: &Congr) -> Congr
        ensures { result ≡ narrowed self.now next.now }
    {
        if self.m == 1 { *next } else { *self }
    }
}
