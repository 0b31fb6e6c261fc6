// What a comparison that holds says of its operands.

ghost use Rattle.std.specs.Prelude.{◌≡◌, ◌≤ℤ◌, ◌+ℤ◌, ◌-ℤ◌, pos, if◌then◌else◌, Some, IfSome};
ghost use Rattle.std.specs.Ordering.{int_eq};
ghost use Rattle.pk_ctypes.specs.declared.types.Op.TheVariants as ops;
ghost use Rattle.pk_interval.specs.Ranges.{IsIn, range_from};
ghost use Rattle.pk_octagons.specs.Values.{IsValue};
ghost use Rattle.pk_transfer.specs.Guards.{refined, with_both, at_most as kept_at_most, at_least as kept_at_least};
ghost use Rattle.pk_octagons.specs.Reduced.{with_range};

use pk_congr::{Congr, reduced_law};
use pk_ctypes::{IntType, Op};
use pk_interval::Interval;
use pk_value::Value;

// The numbers of a value from `lo` to `hi`, if there is one.
fn narrowed(x: &Value, t: IntType, lo: i128, hi: i128) -> Option<Value>
    requires inside { IsIn t x.now.range }
    requires from { x.now.range.lo ≤ℤ lo }
    requires to { hi ≤ℤ x.now.range.hi }
    ensures value { result ≡ with_range x.now (range_from lo hi) }
    ensures inside { IfSome result (IsValue t) }
{
    let _ = t;
    reduced_law(&x.congr);
    if lo <= hi {
        Some(Value {
            interval: Interval { lo, hi },
            congr: x.congr,
        })
    } else {
        None
    }
}

// An interval and a congruence, if there are both.
fn both(t: IntType, interval: Option<Interval>, congr: Option<Congr>) -> Option<Value>
    requires { IfSome interval (IsIn t) }
    ensures value { result ≡ with_both interval congr }
    ensures inside { IfSome result (IsValue t) }
{
    let _ = t;
    match interval {
        None => None,
        Some(interval) => match congr {
            None => None,
            Some(congr) => Some(Value { interval, congr }),
        },
    }
}

// The least number of a value that is other than z, or one above the greatest.
fn low_other_than(x: &Value, t: IntType, z: i128) -> i128
    requires { IsIn t x.now.range }
    ensures value { result ≡ (if int_eq x.now.range.lo z then x.now.range.lo +ℤ pos 1 else x.now.range.lo) }
    ensures from { x.now.range.lo ≤ℤ result }
{
    let _ = t;
    let low = x.interval.lo;
    if low == z { low + 1 } else { low }
}

// The greatest number of a value that is other than z, or one below the least.
fn high_other_than(x: &Value, t: IntType, z: i128) -> i128
    requires { IsIn t x.now.range }
    ensures value { result ≡ (if int_eq x.now.range.hi z then x.now.range.hi -ℤ pos 1 else x.now.range.hi) }
    ensures to { result ≤ℤ x.now.range.hi }
{
    let _ = t;
    let high = x.interval.hi;
    if high == z { high - 1 } else { high }
}

// One below the greatest number.
fn below(v: &Value, u: IntType) -> i128
    requires { IsIn u v.now.range }
    ensures { result ≡ v.now.range.hi -ℤ pos 1 }
{
    let _ = u;
    v.interval.hi - 1
}

// One above the least number.
fn above(v: &Value, u: IntType) -> i128
    requires { IsIn u v.now.range }
    ensures { result ≡ v.now.range.lo +ℤ pos 1 }
{
    let _ = u;
    v.interval.lo + 1
}

fn at_most(x: &Value, t: IntType, z: i128) -> Option<Value>
    requires { IsIn t x.now.range }
    ensures value { result ≡ kept_at_most x.now z }
    ensures inside { IfSome result (IsValue t) }
{
    narrowed(x, t, x.interval.lo, x.interval.hi.min(z))
}

fn at_least(x: &Value, t: IntType, z: i128) -> Option<Value>
    requires { IsIn t x.now.range }
    ensures value { result ≡ kept_at_least x.now z }
    ensures inside { IfSome result (IsValue t) }
{
    narrowed(x, t, x.interval.lo.max(z), x.interval.hi)
}

fn as_it_is(x: &Value, t: IntType) -> Option<Value>
    requires { IsIn t x.now.range }
    ensures value { result ≡ Some x.now }
    ensures inside { IfSome result (IsValue t) }
{
    let _ = t;
    let _opened = (x.interval.lo, x.congr.m);
    Some(*x)
}

fn other_than(x: &Value, t: IntType, v: &Value) -> Option<Value>
    requires { IsIn t x.now.range }
    ensures value { result ≡ refined ops.Ne x.now v.now }
    ensures inside { IfSome result (IsValue t) }
{
    let z = v.interval.lo;
    if z == v.interval.hi {
        narrowed(x, t, low_other_than(x, t, z), high_other_than(x, t, z))
    } else {
        as_it_is(x, t)
    }
}

fn equal_to(x: &Value, t: IntType, v: &Value) -> Option<Value>
    requires { IsIn t x.now.range }
    ensures value { result ≡ refined ops.Eq x.now v.now }
    ensures inside { IfSome result (IsValue t) }
{
    both(t, x.interval.meet(&v.interval), x.congr.meet(&v.congr))
}

/// What is known of x where its comparison with v holds; none where it can't. An operator that is no comparison says nothing.
pub fn refine(op: Op, x: &Value, t: IntType, v: &Value, u: IntType) -> Option<Value>
    requires left { IsIn t x.now.range }
    requires right { IsIn u v.now.range }
    ensures value { result ≡ refined op x.now v.now }
    ensures inside { IfSome result (IsValue t) }
{
    match op {
        Op::Lt => at_most(x, t, below(v, u)),
        Op::Le => at_most(x, t, v.interval.hi),
        Op::Gt => at_least(x, t, above(v, u)),
        Op::Ge => at_least(x, t, v.interval.lo),
        Op::Eq => equal_to(x, t, v),
        Op::Ne => other_than(x, t, v),
        Op::Add
        | Op::Sub
        | Op::Mul
        | Op::Div
        | Op::Rem
        | Op::Shl
        | Op::Shr
        | Op::And
        | Op::Or
        | Op::Xor
        | Op::Neg
        | Op::BitNot
        | Op::Not => as_it_is(x, t),
    }
}
