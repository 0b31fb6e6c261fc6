// Join, order, widening and narrowing of values, part by part.

ghost use Rattle.std.specs.Prelude.{◌≡◌};
ghost use Rattle.std.specs.List.Sorted.{IsSorted};
ghost use Rattle.std.specs.Ordering.{int_cmp};
ghost use Rattle.pk_interval.specs.Ranges.{IsIn};
ghost use Rattle.pk_congr.specs.Classes.{joined as joined_classes, is_within as is_class_within};
ghost use Rattle.pk_value.specs.Known.{joined, is_within, widened, narrowed};

use crate::value::Value;
use pk_congr::{Congr, reduced_law};
use pk_ctypes::IntType;

// The join of two congruences, which are mostly the same.
fn join_classes(a: &Congr, b: &Congr) -> Congr
    ensures { result ≡ joined_classes a.now b.now }
{
    reduced_law(a);
    if a.equals(b) { *a } else { a.join(b) }
}

// The order of two congruences, which are mostly the same.
fn is_below(a: &Congr, b: &Congr) -> bool
    ensures { result ≡ is_class_within a.now b.now }
{
    if a.equals(b) { true } else { a.leq(b) }
}

impl Value {
    /// What is known of a number that is one of either.
    pub fn join(&self, other: &Value) -> Value
        ensures { result ≡ joined self.now other.now }
    {
        Value {
            interval: self.interval.join(&other.interval),
            congr: join_classes(&self.congr, &other.congr),
        }
    }

    /// Whether each part of this one is within that of `other`.
    pub fn leq(&self, other: &Value) -> bool
        ensures { result ≡ is_within self.now other.now }
    {
        self.interval.leq(&other.interval) && is_below(&self.congr, &other.congr)
    }

    /// This one widened by `next`: the interval with thresholds in rising order, the congruence by a join.
    pub fn widen(&self, next: &Value, t: IntType, thresholds: &[i128]) -> Value
        requires held { IsIn t self.now.range }
        requires next { IsIn t next.now.range }
        requires rising { IsSorted int_cmp thresholds.now }
        ensures value { result ≡ widened t thresholds.now self.now next.now }
        ensures inside { IsIn t result.range }
    {
        Value {
            interval: self.interval.widen(&next.interval, t, thresholds),
            congr: join_classes(&self.congr, &next.congr),
        }
    }

    /// This one narrowed by `next`, part by part.
    pub fn narrow(&self, next: &Value, t: IntType) -> Value
        requires held { IsIn t self.now.range }
        requires next { IsIn t next.now.range }
        ensures value { result ≡ narrowed t self.now next.now }
        ensures inside { IsIn t result.range }
    {
        Value {
            interval: self.interval.narrow(&next.interval, t),
            congr: self.congr.narrow(&next.congr),
        }
    }
}
