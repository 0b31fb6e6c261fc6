// What the operators give, before a result is clamped to its type or wrapped, and wrapping.

ghost use Rattle.std.specs.Prelude.{◌≡◌, ◌^◌, pos, unsigned_abs, true};
ghost use Rattle.pk_ctypes.specs.Operators.{is_count};
ghost use Rattle.pk_congr.specs.Classes.{every};
ghost use Rattle.pk_congr.specs.Operators as operators;

use crate::congr::{Congr, class};
use crate::divisors::{gcd, is_divisor};
use crate::members::held;
use pk_ctypes::{IntType, Op, is_shift_count, is_signed, range, size};

// The congruence of a modulus and any number of it, if there is such a number of 128 bits.
fn class_or(m: u128, r: Option<i128>) -> Congr
    ensures { result ≡ operators.class_if_some (pos m) r }
{
    match r {
        Some(r) => class(m, r),
        None => Congr::every(),
    }
}

fn sum(a: &Congr, b: &Congr) -> Congr
    ensures { result ≡ operators.class_sum a.now b.now }
{
    class_or(
        gcd(a.m.unsigned_abs(), b.m.unsigned_abs()),
        a.r.checked_add(b.r),
    )
}

fn difference(a: &Congr, b: &Congr) -> Congr
    ensures { result ≡ operators.class_difference a.now b.now }
{
    class_or(
        gcd(a.m.unsigned_abs(), b.m.unsigned_abs()),
        a.r.checked_sub(b.r),
    )
}

// A product, unless it is 2^127 or more in absolute value.
fn times(x: i128, y: i128) -> Option<i128>
    ensures { result ≡ operators.product_of x y }
{
    held(x.checked_mul(y))
}

// The congruence of a product, if the four products of its parts are there.
fn product_class(
    moduli: Option<i128>,
    left: Option<i128>,
    right: Option<i128>,
    rests: Option<i128>,
) -> Congr
    ensures { result ≡ operators.class_of_products moduli left right rests }
{
    match (moduli, left, right, rests) {
        (Some(p), Some(q), Some(s), Some(r)) => {
            let first = gcd(p.unsigned_abs(), q.unsigned_abs());
            class(gcd(first, s.unsigned_abs()), r)
        }
        _ => Congr::every(),
    }
}

fn product(a: &Congr, b: &Congr) -> Congr
    ensures { result ≡ operators.class_product a.now b.now }
{
    product_class(
        times(a.m, b.m),
        times(a.m, b.r),
        times(b.m, a.r),
        times(a.r, b.r),
    )
}

// Whether the divisor is a constant other than 0 that divides the modulus and the rest.
fn divides_all(a: &Congr, b: &Congr) -> bool
    ensures { result ≡ operators.is_divided a.now b.now }
{
    if b.m != 0 {
        false
    } else if b.r == 0 {
        false
    } else {
        let d = b.r.unsigned_abs();
        is_divisor(d, a.m.unsigned_abs()) && is_divisor(d, a.r.unsigned_abs())
    }
}

fn quotient(a: &Congr, b: &Congr) -> Congr
    ensures { result ≡ operators.class_quotient a.now b.now }
{
    if divides_all(a, b) {
        class(a.m.unsigned_abs() / b.r.unsigned_abs(), a.r / b.r)
    } else {
        Congr::every()
    }
}

fn rest(a: &Congr, b: &Congr) -> Congr
    ensures { result ≡ operators.class_rest a.now b.now }
{
    let moduli = gcd(a.m.unsigned_abs(), b.m.unsigned_abs());
    class(gcd(moduli, b.r.unsigned_abs()), a.r)
}

// The congruence of a modulus and a rest, if they are there.
fn doubled_class(m: Option<i128>, r: Option<i128>) -> Congr
    ensures { result ≡ operators.class_of_both m r }
{
    match (m, r) {
        (Some(m), Some(r)) => class(m.unsigned_abs(), r),
        _ => Congr::every(),
    }
}

// The power of two that a shift by a count multiplies with.
fn power(t: IntType, b: i128) -> i128
    requires { is_count t b ≡ true }
    ensures { result ≡ pos (2 ^ unsigned_abs b) }
{
    let _ = t;
    1 << b
}

fn doubled(t: IntType, a: &Congr, b: &Congr) -> Congr
    ensures { result ≡ operators.class_doubled t a.now b.now }
{
    if b.m == 0 && is_shift_count(t, b.r) {
        let power = power(t, b.r);
        doubled_class(times(a.m, power), times(a.r, power))
    } else {
        Congr::every()
    }
}

fn negative(a: &Congr) -> Congr
    ensures { result ≡ operators.class_negative a.now }
{
    class(a.m.unsigned_abs(), -a.r)
}

// What a number and its complement add up to.
fn total(t: IntType) -> i128
    ensures { result ≡ operators.complement_total t }
{
    let (_, high) = range(t);
    if is_signed(t) { -1 } else { high }
}

fn complement(t: IntType, a: &Congr) -> Congr
    ensures { result ≡ operators.class_complement t a.now }
{
    class_or(a.m.unsigned_abs(), total(t).checked_sub(a.r))
}

/// What an operator gives at members of two congruences, before the result is clamped to the type or wrapped. A unary operator doesn't use `b`.
pub fn binary(op: Op, t: IntType, a: &Congr, b: &Congr) -> Congr
    ensures { result ≡ operators.result_of op t a.now b.now }
{
    match op {
        Op::Add => sum(a, b),
        Op::Sub => difference(a, b),
        Op::Mul => product(a, b),
        Op::Div => quotient(a, b),
        Op::Rem => rest(a, b),
        Op::Shl => doubled(t, a, b),
        Op::Shr | Op::And | Op::Or | Op::Xor => Congr::every(),
        Op::Lt | Op::Gt | Op::Le | Op::Ge | Op::Eq | Op::Ne => Congr::every(),
        Op::Neg => negative(a),
        Op::BitNot => complement(t, a),
        Op::Not => Congr::every(),
    }
}

/// What a unary operator gives at members of a congruence, before the result is clamped to the type or wrapped. With a binary operator, what it gives
/// where the right operand is any number.
pub fn unary(op: Op, t: IntType, a: &Congr) -> Congr
    ensures { result ≡ operators.result_of op t a.now every }
{
    binary(op, t, a, &Congr::every())
}

/// The congruence after each number was shifted into the type by adding `added`, or where that is None, by a multiple of the type's size of its own.
pub fn wrap(t: IntType, a: &Congr, added: Option<i128>) -> Congr
    ensures { result ≡ operators.wrapped_class t a.now added }
{
    match added {
        Some(added) => class_or(a.m.unsigned_abs(), a.r.checked_add(added)),
        None => class(gcd(a.m.unsigned_abs(), size(t).unsigned_abs()), a.r),
    }
}
