// What is known of the result of an operator or a conversion.

ghost use Rattle.std.specs.Prelude.{◌≡◌, ◌-◌, ◌^◌, negsuc, ◌≤ℤ◌, ℤ, IfSome};
ghost use Rattle.pk_ctypes.specs.Operators.{result_type as type_of_result};
ghost use Rattle.pk_interval.specs.Ranges.{IsIn};
ghost use Rattle.pk_interval.specs.Fitting.{finish_of};
ghost use Rattle.pk_interval.specs.Operators.{HasRightIn, CanWrap};
ghost use Rattle.pk_congr.specs.Laws.{IsOf};
ghost use Rattle.pk_value.specs.Values.{one_if, compared, fitted, from_table, operated, converted, is_constant, red_as};

use crate::reduction::reduce;
use crate::value::Value;
use pk_congr::{Congr, binary as binary_congr, reduced_law, wrap as wrap_congr};
use pk_ctypes::{IntType, Op, apply, result_type, value_law};
use pk_interval::{
    Interval, Outcome, binary as binary_interval, finish, point, wrap as wrap_interval,
};

// One number where the test holds.
fn unless(apart: bool, z: i128, found: Outcome) -> Outcome
    ensures { result ≡ one_if apart z found }
{
    if apart {
        Outcome::Within(point(z))
    } else {
        found
    }
}

// What the intervals say, and for equality the congruences too.
fn compare(op: Op, a: &Congr, b: &Congr, found: Outcome) -> Outcome
    ensures { result ≡ compared op a.now b.now found }
{
    match op {
        Op::Eq => unless(a.is_disjoint(b), 0, found),
        Op::Ne => unless(a.is_disjoint(b), 1, found),
        Op::Not => unless(a.is_disjoint(&Congr::constant(0)), 0, found),
        Op::Add
        | Op::Sub
        | Op::Mul
        | Op::Div
        | Op::Rem
        | Op::Shl
        | Op::Shr
        | Op::And
        | Op::Or
        | Op::Xor
        | Op::Lt
        | Op::Gt
        | Op::Le
        | Op::Ge
        | Op::Neg
        | Op::BitNot => found,
    }
}

// An interval of a type and a congruence, each as tight as the other lets it be.
fn known(t: IntType, interval: &Interval, congr: &Congr) -> Option<Value>
    requires { IsIn t interval.now }
    ensures value { result ≡ red_as interval.now congr.now }
    ensures inside { IfSome result (λ k. IsIn t k.range) }
    ensures class { IfSome result (λ k. IsOf t k.class) }
    ensures some { IfSome result (λ k. k.range.lo ≤ℤ k.range.hi) }
{
    Value {
        interval: *interval,
        congr: *congr,
    }
    .reduced(t)
}

// An outcome and a congruence in the type.
fn fit(t: IntType, found: &Outcome, congr: &Congr) -> Option<Value>
    requires { CanWrap found.now }
    ensures value { result ≡ fitted t (finish_of t found.now) congr.now }
    ensures inside { IfSome result (λ k. IsIn t k.range) }
    ensures class { IfSome result (λ k. IsOf t k.class) }
    ensures some { IfSome result (λ k. k.range.lo ≤ℤ k.range.hi) }
{
    match finish(t, found) {
        None => None,
        Some(both) => known(t, &both.0, &wrap_congr(t, congr, both.1)),
    }
}

fn by_table(op: Op, t: IntType, a: &Value, b: &Value) -> Option<Value>
    requires left { IsIn t a.now.range }
    requires right { HasRightIn op t b.now.range }
    ensures value { result ≡ from_table op t a.now b.now }
    ensures inside { IfSome result (λ k. IsIn (type_of_result op t) k.range) }
    ensures class { IfSome result (λ k. IsOf (type_of_result op t) k.class) }
    ensures some { IfSome result (λ k. k.range.lo ≤ℤ k.range.hi) }
{
    let found = compare(
        op,
        &a.congr,
        &b.congr,
        binary_interval(op, t, &a.interval, &b.interval),
    );
    fit(
        result_type(op, t),
        &found,
        &binary_congr(op, t, &a.congr, &b.congr),
    )
}

fn constant(a: &Value) -> bool
    ensures { result ≡ is_constant a.now }
{
    a.interval.lo == a.interval.hi
}

/// What is known of an operator's result, where both operands lie in its type, but for a shift's count. An operator with one operand doesn't use `b`.
pub fn operate(op: Op, t: IntType, a: &Value, b: &Value) -> Option<Value>
    requires left { IsIn t a.now.range }
    requires right { HasRightIn op t b.now.range }
    ensures value { result ≡ operated op t a.now b.now }
    ensures inside { IfSome result (λ k. IsIn (type_of_result op t) k.range) }
    ensures class { IfSome result (λ k. IsOf (type_of_result op t) k.class) }
    ensures some { IfSome result (λ k. k.range.lo ≤ℤ k.range.hi) }
{
    value_law();
    if constant(a) && constant(b) {
        match apply(op, t, a.interval.lo, b.interval.lo) {
            Ok(z) => Some(Value::exactly(z)),
            Err(_) => by_table(op, t, a, b),
        }
    } else {
        by_table(op, t, a, b)
    }
}

/// What is known of a conversion. The least number is -2^126 or more.
pub fn convert(t: IntType, a: &Value) -> Option<Value>
    requires { negsuc (2 ^ 126 - 1) ≤ℤ a.now.range.lo }
    ensures value { result ≡ converted t a.now }
    ensures inside { IfSome result (λ k. IsIn t k.range) }
    ensures class { IfSome result (λ k. IsOf t k.class) }
    ensures some { IfSome result (λ k. k.range.lo ≤ℤ k.range.hi) }
{
    let (interval, added) = wrap_interval(t, &a.interval);
    known(t, &interval, &wrap_congr(t, &a.congr, added))
}
