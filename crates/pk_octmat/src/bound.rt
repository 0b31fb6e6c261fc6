// A bound in 16 bytes: a number, or none.

ghost use Rattle.std.specs.Prelude.{◌≡◌, ◌-◌, ◌^◌, ◌<ℤ◌, pos, Some, None, true, ◌↔◌};
ghost use Rattle.pk_octmat.specs.Bounds as bounds;

use std::marker::Model;

/// A bound: a number, or none, which is above every number.
#[derive(Clone, Copy)]
pub struct Bound {
    /// The number, or the greatest of all for none.
    packed: i128,
}

impl Model for Bound {
    ghost use Rattle.std.specs.Prelude.{Option, ℤ};

    ghost Value = { Option ℤ };

    ghost use Rattle.pk_octmat.specs.Packed.{unpacked, IsPacked, packed_bound, packed_unpacked};

    ghost view = { unpacked };

    ghost invariant = { IsPacked };

    ghost inverse = { packed_bound };

    ghost inverse_ok = { packed_unpacked };
}

const _: () = prove!(size_of::<Bound>() == 16);

impl Bound {
    /// No bound.
    #[inline]
    pub fn none() -> Bound
        ensures { result ≡ None }
    {
        Bound { packed: i128::MAX }
    }

    /// A number as a bound, as it is.
    #[inline]
    pub fn exactly(number: i128) -> Bound
        requires { number <ℤ pos (2 ^ 127 - 1) }
        ensures { result ≡ Some number }
    {
        Bound { packed: number }
    }

    /// The number, if there is one.
    #[inline]
    pub fn number(self) -> Option<i128>
        ensures { result ≡ self }
    {
        if self.packed < i128::MAX {
            Some(self.packed)
        } else {
            None
        }
    }

    /// A number within 2^66 of 0 as a bound: above that none, below it -2^66.
    #[inline]
    pub fn of(number: Option<i128>) -> Bound
        ensures value { result ≡ bounds.capped number }
        ensures near { bounds.IsNear (2 ^ 66) result }
    {
        match number {
            None => Bound::none(),
            Some(z) => {
                if 1 << 66 < z {
                    Bound::none()
                } else if z < -(1 << 66) {
                    Bound::exactly(-(1 << 66))
                } else {
                    Bound::exactly(z)
                }
            }
        }
    }

    /// The bound, brought within 2^66 of 0.
    #[inline]
    pub fn capped(self) -> Bound
        ensures value { result ≡ bounds.capped self }
        ensures near { bounds.IsNear (2 ^ 66) result }
    {
        Bound::of(self.number())
    }

    #[inline]
    pub fn is_none(self) -> bool
        ensures { result ≡ bounds.is_none self }
    {
        match self.number() {
            None => true,
            Some(_) => false,
        }
    }

    #[inline]
    pub fn is_negative(self) -> bool
        ensures { result ≡ bounds.is_negative self }
    {
        match self.number() {
            None => false,
            Some(z) => z < 0,
        }
    }

    /// Whether two bounds are the same.
    #[inline]
    pub fn equals(self, other: Bound) -> bool
        ensures { (result ≡ true) ↔ (self ≡ other) }
    {
        self.packed == other.packed
    }

    /// Whether a bound is at most another.
    #[inline]
    pub fn is_at_most(self, other: Bound) -> bool
        ensures { result ≡ bounds.is_at_most self other }
    {
        self.packed <= other.packed
    }

    /// The sum of two bounds.
    #[inline]
    pub fn plus(self, other: Bound) -> Bound
        requires left { bounds.IsNear (2 ^ 100) self }
        requires right { bounds.IsNear (2 ^ 100) other }
        ensures { result ≡ bounds.plus self other }
    {
        match (self.number(), other.number()) {
            (Some(a), Some(b)) => Bound::exactly(a + b),
            (Some(_), None) => Bound::none(),
            (None, _) => Bound::none(),
        }
    }

    /// The lesser of two bounds.
    #[inline]
    pub fn lesser(self, other: Bound) -> Bound
        ensures { result ≡ bounds.lesser self other }
    {
        if other.packed < self.packed {
            other
        } else {
            self
        }
    }

    /// The greater of two bounds.
    #[inline]
    pub fn greater(self, other: Bound) -> Bound
        ensures { result ≡ bounds.greater self other }
    {
        if self.packed < other.packed {
            other
        } else {
            self
        }
    }

    /// Half of a bound, rounded down.
    #[inline]
    pub fn halved(self) -> Bound
        ensures { result ≡ bounds.halved self }
    {
        match self.number() {
            None => Bound::none(),
            Some(z) => Bound::exactly(z.div_euclid(2)),
        }
    }

    /// A bound down to even.
    #[inline]
    pub fn even_down(self) -> Bound
        ensures { result ≡ bounds.even_down self }
    {
        match self.number() {
            None => Bound::none(),
            Some(z) => Bound::exactly(z.div_euclid(2) + z.div_euclid(2)),
        }
    }
}
