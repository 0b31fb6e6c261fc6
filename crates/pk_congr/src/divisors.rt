// Common divisors.

ghost use Rattle.std.specs.Prelude.{◌≡◌, ◌%◌, ◌==◌};
ghost use Rattle.pk_congr.specs.Classes.{gcd, divides};

/// The greatest common divisor, by Euclid's algorithm.
pub(crate) fn gcd(a: u128, b: u128) -> u128
    ensures { result ≡ gcd a b }
{
    let mut x = a;
    let mut y = b;
    while y != 0 {
        let rest = x % y;
        x = y;
        y = rest;
    }
    x
}

// Whether a number divides another; 0 divides only 0.
pub(crate) fn is_divisor(d: u128, n: u128) -> bool
    ensures { result ≡ (n % d == 0) }
{
    if d == 0 { n == 0 } else { n % d == 0 }
}
