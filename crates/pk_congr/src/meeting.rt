// Meets, by linear congruences.

ghost use Rattle.std.specs.Prelude.{◌≡◌, ◌+◌, ◌*◌, ◌/◌, ◌^◌, ◌<◌, ℕ, pos, ◌<ℤ◌, unsigned_abs, false};
ghost use Rattle.std.specs.Option.{SomeIff};
ghost use Rattle.pk_ctypes.specs.Types.{IsEqualModulo};
ghost use Rattle.pk_congr.specs.Classes.{gcd, are_apart, met, met_of};

use crate::congr::{Congr, LIMIT, class};
use crate::divisors::{gcd, is_divisor};

// A number t below n for which mt - d is a multiple of n.
fn solution(m: u128, n: u128, d: u128) -> u128
    requires apart { gcd m n ≡ 1 }
    requires product { m * n < 2 ^ 127 }
    requires less { d < n }
    ensures below { result < n }
    ensures solves { (u : ℕ) × (m * result ≡ d + n * u) }
{
    let a = m % n;
    if a == 0 {
        0
    } else {
        let u = solution(n, a, (a - d % a) % a);
        (d + n * u) / a
    }
}

// A number that is equal to r modulo m, and to s modulo n.
fn common(m: u128, r: u128, n: u128, s: u128, g: u128) -> u128
    requires left { r < m }
    requires right { s < n }
    requires held { n < 2 ^ 127 }
    requires divisor { g ≡ gcd m n }
    requires meets { IsEqualModulo g (pos r) (pos s) }
    requires room { m / g * n < 2 ^ 127 }
    ensures left { IsEqualModulo m (pos r) (pos result) }
    ensures right { IsEqualModulo n (pos s) (pos result) }
    ensures held { result < 2 ^ 127 }
{
    let apart = (s + (n - r % n)) % n;
    r + m * solution(m / g, n / g, apart / g)
}

// The least common multiple of two numbers by their greatest common divisor, if it is below 2^127.
fn multiple(m: u128, n: u128, g: u128) -> Option<u128>
    requires { 0 < g }
    ensures { SomeIff result (m / g * n < 2 ^ 127) (m / g * n) }
{
    match (m / g).checked_mul(n) {
        Some(l) => { if l < LIMIT { Some(l) } else { None } }
        None => None,
    }
}

// The common numbers of two congruences that are not apart, and of moduli above 0.
fn both(a: &Congr, b: &Congr, g: u128) -> Congr
    requires left { pos 0 <ℤ a.now.m }
    requires right { pos 0 <ℤ b.now.m }
    requires divisor { g ≡ gcd (unsigned_abs a.now.m) (unsigned_abs b.now.m) }
    requires meets { are_apart a.now b.now ≡ false }
    ensures { result ≡ met_of a.now b.now }
{
    let m = a.m.unsigned_abs();
    let n = b.m.unsigned_abs();
    match multiple(m, n, g) {
        Some(l) => class(
            l,
            common(m, a.r.unsigned_abs(), n, b.r.unsigned_abs(), g) as i128,
        ),
        None => *a,
    }
}

// Whether no number is in both, by the greatest common divisor of the moduli.
fn apart(a: &Congr, b: &Congr, g: u128) -> bool
    requires { g ≡ gcd (unsigned_abs a.now.m) (unsigned_abs b.now.m) }
    ensures { result ≡ are_apart a.now b.now }
{
    !is_divisor(g, a.r.abs_diff(b.r))
}

impl Congr {
    /// The congruence of the numbers that are in both, or None where there are none. Where its modulus would be 2^127 or more, this congruence.
    pub fn meet(&self, other: &Congr) -> Option<Congr>
        ensures { result ≡ met self.now other.now }
    {
        let g = gcd(self.m.unsigned_abs(), other.m.unsigned_abs());
        if apart(self, other, g) {
            None
        } else if self.m == 0 {
            Some(*self)
        } else if other.m == 0 {
            Some(*other)
        } else {
            Some(both(self, other, g))
        }
    }

    /// Whether no number is in both, so that `==` is surely false.
    pub fn is_disjoint(&self, other: &Congr) -> bool
        ensures { result ≡ are_apart self.now other.now }
    {
        let g = gcd(self.m.unsigned_abs(), other.m.unsigned_abs());
        apart(self, other, g)
    }
}
