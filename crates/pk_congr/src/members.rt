// Membership, and the members next to a number.

ghost use Rattle.std.specs.Prelude.{◌≡◌};
ghost use Rattle.pk_congr.specs.Classes.{has_member, next_up_of, next_down_of, held_number};

use crate::congr::Congr;
use crate::divisors::is_divisor;

// A number, unless it is 2^127 or more in absolute value.
pub(crate) fn held(z: Option<i128>) -> Option<i128>
    ensures { result ≡ held_number z }
{
    match z {
        Some(z) => { if z == i128::MIN { None } else { Some(z) } }
        None => None,
    }
}

impl Congr {
    /// Whether a number is one of these.
    pub fn contains(&self, x: i128) -> bool
        ensures { result ≡ has_member self.now x }
    {
        is_divisor(self.m.unsigned_abs(), x.abs_diff(self.r))
    }

    /// The least of these numbers that is `x` or more, if there is one below 2^127.
    pub fn next_up(&self, x: i128) -> Option<i128>
        ensures { result ≡ held_number (next_up_of self.now x) }
    {
        if self.m == 0 {
            if x <= self.r { Some(self.r) } else { None }
        } else {
            let above = (self.r - x.rem_euclid(self.m)).rem_euclid(self.m);
            held(x.checked_add(above))
        }
    }

    /// The greatest of these numbers that is `x` or less, if there is one above -2^127.
    pub fn next_down(&self, x: i128) -> Option<i128>
        ensures { result ≡ held_number (next_down_of self.now x) }
    {
        if self.m == 0 {
            if self.r <= x { Some(self.r) } else { None }
        } else {
            let below = (x.rem_euclid(self.m) - self.r).rem_euclid(self.m);
            held(x.checked_sub(below))
        }
    }
}
