// Intervals of results in a type.

ghost use Rattle.std.specs.Prelude.{◌≡◌, ◌-◌, ◌^◌, ℤ, negsuc, ◌-ℤ◌, ◌≤ℤ◌, IfSome};
ghost use Rattle.pk_ctypes.specs.Types.{wrapped};
ghost use Rattle.pk_interval.specs.Ranges.{IsIn};
ghost use Rattle.pk_interval.specs.Fitting.{clamped, moved_if, shifted, unmoved, finish_of};
ghost use Rattle.pk_interval.specs.Operators.{CanWrap};

use crate::bits::whole;
use crate::interval::{Interval, between};
use crate::outcome::Outcome;
use crate::scalars::{greater, lesser};
use pk_ctypes::{IntType, convert, is_signed, range};

/// The numbers of an interval that lie in a type, if there is one.
pub fn clamp(t: IntType, a: &Interval) -> Option<Interval>
    ensures value { result ≡ clamped t a.now }
    ensures inside { IfSome result (λ r. IsIn t r) }
{
    let (low, high) = range(t);
    between(greater(a.lo, low), lesser(a.hi, high))
}

// What takes a number into a type.
fn shift(t: IntType, z: i128) -> i128
    requires { negsuc (2 ^ 126 - 1) ≤ℤ z }
    ensures { result ≡ wrapped t z -ℤ z }
{
    convert(t, z) - z
}

// Moves an interval by what takes its least number into the type, if that takes the greatest there.
fn move_by(t: IntType, a: &Interval, added: i128) -> (Interval, Option<i128>)
    requires { added ≡ wrapped t a.now.lo -ℤ a.now.lo }
    ensures { result ≡ moved_if t a.now added }
{
    let (_, high) = range(t);
    match a.hi.checked_add(added) {
        Some(hi) => {
            if hi <= high {
                let lo = a.lo + added;
                (Interval { lo, hi }, Some(added))
            } else {
                (whole(t), None)
            }
        }
        None => (whole(t), None),
    }
}

/// The conversions of the numbers of an interval, and what was added to each: none where they lie in more than one window of the type's size. Its least number is
/// -2^126 or more.
pub fn wrap(t: IntType, a: &Interval) -> (Interval, Option<i128>)
    requires { negsuc (2 ^ 126 - 1) ≤ℤ a.now.lo }
    ensures value { result ≡ shifted t a.now }
    ensures inside { IsIn t result.0 }
{
    move_by(t, a, shift(t, a.lo))
}

// An interval to whose numbers nothing was added.
fn kept(found: Option<Interval>) -> Option<(Interval, Option<i128>)>
    ensures { result ≡ unmoved found }
{
    match found {
        None => None,
        Some(interval) => Some((interval, Some(0))),
    }
}

/// What an operator gives, in the type of its result: clamped to a signed type, wrapped into an unsigned one; and what was added to each number, none where that
/// isn't one number.
pub fn finish(t: IntType, found: &Outcome) -> Option<(Interval, Option<i128>)>
    requires { CanWrap found.now }
    ensures value { result ≡ finish_of t found.now }
    ensures inside { IfSome result (λ p. IsIn t p.0) }
{
    match found {
        Outcome::Empty => None,
        Outcome::Within(interval) => {
            if is_signed(t) {
                kept(clamp(t, interval))
            } else {
                Some(wrap(t, interval))
            }
        }
        Outcome::TooLarge => Some((whole(t), None)),
    }
}
