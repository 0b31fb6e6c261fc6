// Operators on numbers of a type.

ghost use Rattle.std.specs.Prelude.{◌≡◌, ℤ, neg_ℤ, bit_and, bit_or, bit_xor};
ghost use Rattle.pk_ctypes.specs.Types.{InType};
ghost use Rattle.pk_ctypes.specs.Operators.{HasRight, is_count, is_below_zero, bitwise, complement, truth, fitted, value_of, result_type};

use crate::conversions::{convert, fits, is_signed, width};
use crate::faults::Fault;
use crate::types::{IntType, Op};

// A number in a type: a signed type has it or not, an unsigned one wraps it.
fn fit(fault: Fault, t: IntType, value: i128) -> Result<i128, Fault>
    ensures { result ≡ fitted fault t value }
{
    if !is_signed(t) {
        Ok(convert(t, value))
    } else if fits(t, value) {
        Ok(value)
    } else {
        Err(fault)
    }
}

fn sum(t: IntType, a: i128, b: i128) -> Result<i128, Fault>
    requires left { InType t a }
    requires right { InType t b }
    ensures { result ≡ value_of Op.Add t a b }
{
    fit(Fault::Overflow, t, a + b)
}

fn difference(t: IntType, a: i128, b: i128) -> Result<i128, Fault>
    requires left { InType t a }
    requires right { InType t b }
    ensures { result ≡ value_of Op.Sub t a b }
{
    fit(Fault::Overflow, t, a - b)
}

// The product of two unsigned numbers may pass 128 bits, of which each type's size is a part.
fn product(t: IntType, a: i128, b: i128) -> Result<i128, Fault>
    requires left { InType t a }
    requires right { InType t b }
    ensures { result ≡ value_of Op.Mul t a b }
{
    if is_signed(t) {
        fit(Fault::Overflow, t, a * b)
    } else {
        Ok(convert(t, a.wrapping_mul(b)))
    }
}

fn quotient(t: IntType, a: i128, b: i128) -> Result<i128, Fault>
    requires left { InType t a }
    requires right { InType t b }
    ensures { result ≡ value_of Op.Div t a b }
{
    if b == 0 {
        Err(Fault::DivZero)
    } else {
        fit(Fault::Overflow, t, a / b)
    }
}

fn rest(t: IntType, a: i128, b: i128) -> Result<i128, Fault>
    requires left { InType t a }
    requires right { InType t b }
    ensures { result ≡ value_of Op.Rem t a b }
{
    if b == 0 {
        Err(Fault::DivZero)
    } else if fits(t, a / b) {
        Ok(a % b)
    } else {
        Err(Fault::Overflow)
    }
}

/// Whether a number is a count of bits that are fewer than the type has, as a shift asks (C99 6.5.7).
pub fn is_shift_count(t: IntType, b: i128) -> bool
    ensures { result ≡ is_count t b }
{
    0 <= b && b < i128::from(width(t))
}

// Whether a number has to stay where it is, since it is signed and negative.
fn below_zero(t: IntType, a: i128) -> bool
    ensures { result ≡ is_below_zero t a }
{
    is_signed(t) && a < 0
}

fn shifted_left(t: IntType, a: i128, b: i128) -> Result<i128, Fault>
    requires { InType t a }
    ensures { result ≡ value_of Op.Shl t a b }
{
    if !is_shift_count(t, b) {
        Err(Fault::Shift)
    } else if below_zero(t, a) {
        Err(Fault::Shift)
    } else {
        fit(Fault::Shift, t, a << b)
    }
}

fn shifted_right(t: IntType, a: i128, b: i128) -> Result<i128, Fault>
    requires { InType t a }
    ensures { result ≡ value_of Op.Shr t a b }
{
    if is_shift_count(t, b) {
        Ok(a >> b)
    } else {
        Err(Fault::Shift)
    }
}

fn and(t: IntType, a: i128, b: i128) -> Result<i128, Fault>
    ensures { result ≡ fitted Fault.Overflow t (bitwise bit_and t a b) }
{
    Ok(convert(t, a & b))
}

fn or(t: IntType, a: i128, b: i128) -> Result<i128, Fault>
    ensures { result ≡ fitted Fault.Overflow t (bitwise bit_or t a b) }
{
    Ok(convert(t, a | b))
}

fn xor(t: IntType, a: i128, b: i128) -> Result<i128, Fault>
    ensures { result ≡ fitted Fault.Overflow t (bitwise bit_xor t a b) }
{
    Ok(convert(t, a ^ b))
}

fn bit_not(t: IntType, a: i128) -> Result<i128, Fault>
    ensures { result ≡ fitted Fault.Overflow t (complement t a) }
{
    Ok(convert(t, -1 - a))
}

fn negated(t: IntType, a: i128) -> Result<i128, Fault>
    requires { InType t a }
    ensures { result ≡ fitted Fault.Overflow t (neg_ℤ a) }
{
    fit(Fault::Overflow, t, -a)
}

// 1 where a comparison holds, else 0: each type has both.
fn compared(t: IntType, holds: bool) -> Result<i128, Fault>
    ensures { result ≡ fitted Fault.Overflow t (truth holds) }
{
    Ok(i128::from(holds))
}

/// The type of what an operator gives at operands of a type: a comparison and `!` give an int (C99 6.5.3.3, 6.5.8, 6.5.9).
pub fn result_type(op: Op, t: IntType) -> IntType
    ensures { result ≡ result_type op t }
{
    match op {
        Op::Lt | Op::Gt | Op::Le | Op::Ge | Op::Eq | Op::Ne | Op::Not => IntType::Int,
        _ => t,
    }
}

/// What an operator gives at operands of a type, or the fault at which the run stops (C99 6.5). A comparison and `!` give an int, the others a number of
/// type `t`. A shift's count `b` may be any number, and a unary operator doesn't use `b`.
pub fn apply(op: Op, t: IntType, a: i128, b: i128) -> Result<i128, Fault>
    requires left { InType t a }
    requires right { HasRight op t b }
    ensures { result ≡ value_of op t a b }
{
    match op {
        Op::Add => sum(t, a, b),
        Op::Sub => difference(t, a, b),
        Op::Mul => product(t, a, b),
        Op::Div => quotient(t, a, b),
        Op::Rem => rest(t, a, b),
        Op::Shl => shifted_left(t, a, b),
        Op::Shr => shifted_right(t, a, b),
        Op::And => and(t, a, b),
        Op::Or => or(t, a, b),
        Op::Xor => xor(t, a, b),
        Op::Lt => compared(t, a < b),
        Op::Gt => compared(t, a > b),
        Op::Le => compared(t, a <= b),
        Op::Ge => compared(t, a >= b),
        Op::Eq => compared(t, a == b),
        Op::Ne => compared(t, a != b),
        Op::Neg => negated(t, a),
        Op::BitNot => bit_not(t, a),
        Op::Not => compared(t, a == 0),
    }
}
