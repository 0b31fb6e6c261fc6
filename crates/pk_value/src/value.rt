// What is known of a number.

ghost use Rattle.std.specs.Prelude.{◌≡◌, ◌↔◌, true, pos, ◌<◌, ◌<ℤ◌, ◌≤ℤ◌, ◌^◌, IfSome, unsigned_abs};
ghost use Rattle.pk_interval.specs.Ranges.{IsIn};
ghost use Rattle.pk_congr.specs.Laws.{IsOf};
ghost use Rattle.pk_value.specs.Known.{Known, any_of, exactly, red_known};
ghost use Rattle.pk_value.specs.Laws.{IsTight};

use crate::reduction::reduce;
use pk_blocks::Item;
use pk_congr::{Congr, reduced_law};
use pk_ctypes::IntType;
use pk_interval::{Interval, point, whole};
use std::marker::Model;

/// What is known of a number: an interval and a congruence. Its type stands elsewhere.
#[derive(Clone, Copy)]
pub struct Value {
    pub interval: Interval,
    pub congr: Congr,
}

impl Model for Value {
    ghost use Rattle.pk_value.specs.Known.{Known};

    ghost Value = { Known };

    ghost view = { λ v. record { range = v.interval; class = v.congr } };

    ghost inverse = { λ k. record { interval = k.range; congr = k.class } };
}

// Whether a value has all numbers between two.
fn has_all(interval: &Interval, congr: &Congr) -> bool
    ensures { result ≡ true → (congr.now.m ≡ pos 1) × (interval.now.lo <ℤ interval.now.hi) }
{
    congr.m == 1 && interval.lo < interval.hi
}

// Whether a value has one number, and says so.
fn has_one(interval: &Interval, congr: &Congr) -> bool
    ensures { result ≡ true →
        (congr.now.m ≡ pos 0) × (congr.now.r ≡ interval.now.lo) × (interval.now.lo ≡ interval.now.hi) }
{
    congr.m == 0 && congr.r == interval.lo && interval.lo == interval.hi
}

// Whether a value is plainly tight.
fn is_plain(interval: &Interval, congr: &Congr) -> bool
    ensures { result ≡ true → IsTight (record { range = interval.now; class = congr.now }) }
{
    if has_all(interval, congr) {
        true
    } else {
        has_one(interval, congr)
    }
}

impl Value {
    /// Any number of a type.
    pub fn any(t: IntType) -> Value
        ensures { result ≡ any_of t }
    {
        Value {
            interval: whole(t),
            congr: Congr::every(),
        }
    }

    /// One number.
    pub fn exactly(z: i128) -> Value
        requires { unsigned_abs z < 2 ^ 127 }
        ensures { result ≡ exactly z }
    {
        Value {
            interval: point(z),
            congr: Congr::constant(z),
        }
    }

    /// Both parts, each as tight as the other lets it be, or none where no number is left.
    pub fn reduced(&self, t: IntType) -> Option<Value>
        requires { IsIn t self.now.range }
        ensures value { result ≡ red_known self.now }
        ensures inside { IfSome result (λ k. IsIn t k.range) }
        ensures class { IfSome result (λ k. IsOf t k.class) }
        ensures some { IfSome result (λ k. k.range.lo ≤ℤ k.range.hi) }
    {
        reduced_law(&self.congr);
        if is_plain(&self.interval, &self.congr) {
            return Some(*self);
        }
        match reduce(t, &self.interval, &self.congr) {
            None => None,
            Some(both) => Some(Value {
                interval: both.0,
                congr: both.1,
            }),
        }
    }

    /// Whether both know the same.
    pub fn equals(&self, other: &Value) -> bool
        ensures { result ≡ true ↔ self.now ≡ other.now }
    {
        self.interval.equals(&other.interval) && self.congr.equals(&other.congr)
    }
}

impl Item for Value {
    fn same(&self, other: &Value) -> bool {
        self.equals(other)
    }
}
