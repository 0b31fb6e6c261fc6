// Values that wait, the topmost last.

ghost use Rattle.std.specs.Prelude.{◌≡◌, ◌<◌, ◌-◌, ◌∷◌, [], ℤ, length, take, reverse, MatchOption, false, true, unsigned_abs};
ghost use Rattle.pk_graph.specs.Steps.{Numbers, number_at, is_true, is_index, all_in_type, are_any};
ghost use Rattle.pk_meaning.specs.Steps as steps;
ghost use Rattle.pk_meaning.specs.Steps.{Next};

use pk_ctypes::{Fault, IntType, Op, apply, conversion_law, convert, fits};
use std::alloc::AllocError;

pub fn top(values: &[i128]) -> Option<i128>
    ensures { MatchOption result (reverse values.now ≡ [])
        (λ v. reverse values.now ≡ v ∷ reverse (take (length values.now - 1) values.now)) }
{
    let count = values.len();
    if count < 1 {
        None
    } else {
        Some(values[count - 1])
    }
}

/// The two topmost, the lower one first.
pub fn top_two(values: &[i128]) -> Option<(i128, i128)>
    ensures { MatchOption result ((f : ℤ → ℤ → Numbers → Next) → steps.on_two (reverse values.now) f ≡ steps.Stuck)
        (λ p. reverse values.now ≡ p.1 ∷ p.0 ∷ reverse (take (length values.now - 2) values.now)) }
{
    let count = values.len();
    if count < 2 {
        None
    } else {
        Some((values[count - 2], values[count - 1]))
    }
}

pub fn top_three(values: &[i128]) -> Option<(i128, i128, i128)>
    ensures { MatchOption result ((f : ℤ → ℤ → ℤ → Numbers → Next) →
        steps.on_three (reverse values.now) f ≡ steps.Stuck)
        (λ p. reverse values.now ≡ p.2 ∷ p.1 ∷ p.0 ∷ reverse (take (length values.now - 3) values.now)) }
{
    let count = values.len();
    if count < 3 {
        None
    } else {
        Some((values[count - 3], values[count - 2], values[count - 1]))
    }
}

/// Without so many of the topmost.
pub fn without(values: &mut Vec<i128>, count: usize)
    ensures { values.new.items ≡ take (length values.old.items - count) values.old.items }
{
    let left = values.len().saturating_sub(count);
    values.truncate(left);
}

/// Where the value under so many others is.
pub fn below(values: &[i128], count: usize) -> Option<usize>
    ensures { MatchOption result ((f : ℤ → Numbers → Next) →
        steps.on_below count (reverse values.now) f ≡ steps.Stuck)
        (λ k. (k < length values.now) × ((f : ℤ → Numbers → Next) →
        steps.on_below count (reverse values.now) f
        ≡ f (number_at values.now k) (reverse (without_one k values.now)))) }
{
    if count < values.len() {
        Some(values.len() - 1 - count)
    } else {
        None
    }
}

ghost use Rattle.pk_runner_state.specs.Shown.{without_one};

/// Without the value at a place.
pub fn without_at(values: &mut Vec<i128>, place: usize)
    ensures { values.new.items ≡ without_one place values.old.items }
{
    if place < values.len() {
        values.remove(place);
    }
}

pub fn is_nonzero(number: &i128) -> bool
    ensures { result ≡ is_true number.now }
{
    *number != 0
}

// The conversion of a number.
fn converted(int_type: IntType, number: &i128) -> i128
    ensures { result ≡ wrapped int_type number.now }
{
    convert(int_type, *number)
}

// An operator at operands of its type.
fn both(op: Op, int_type: IntType, left: &i128, right: &i128) -> Result<i128, Fault>
    requires left { InType int_type left.now }
    requires right { HasRight op int_type right.now }
    ensures { result ≡ value_of op int_type left.now right.now }
{
    apply(op, int_type, *left, *right)
}

/// What an operator gives at the numbers of its operands.
pub fn operated(op: Op, int_type: IntType, left: &i128, right: &i128) -> Result<i128, Fault>
    ensures { result ≡ steps.operated op int_type left.now right.now }
{
    conversion_law();
    let left = converted(int_type, left);
    match op {
        Op::Shl => both(Op::Shl, int_type, &left, right),
        Op::Shr => both(Op::Shr, int_type, &left, right),
        Op::Add => both(Op::Add, int_type, &left, &converted(int_type, right)),
        Op::Sub => both(Op::Sub, int_type, &left, &converted(int_type, right)),
        Op::Mul => both(Op::Mul, int_type, &left, &converted(int_type, right)),
        Op::Div => both(Op::Div, int_type, &left, &converted(int_type, right)),
        Op::Rem => both(Op::Rem, int_type, &left, &converted(int_type, right)),
        Op::And => both(Op::And, int_type, &left, &converted(int_type, right)),
        Op::Or => both(Op::Or, int_type, &left, &converted(int_type, right)),
        Op::Xor => both(Op::Xor, int_type, &left, &converted(int_type, right)),
        Op::Lt => both(Op::Lt, int_type, &left, &converted(int_type, right)),
        Op::Gt => both(Op::Gt, int_type, &left, &converted(int_type, right)),
        Op::Le => both(Op::Le, int_type, &left, &converted(int_type, right)),
        Op::Ge => both(Op::Ge, int_type, &left, &converted(int_type, right)),
        Op::Eq => both(Op::Eq, int_type, &left, &converted(int_type, right)),
        Op::Ne => both(Op::Ne, int_type, &left, &converted(int_type, right)),
        Op::Neg => both(Op::Neg, int_type, &left, &converted(int_type, right)),
        Op::BitNot => both(Op::BitNot, int_type, &left, &converted(int_type, right)),
        Op::Not => both(Op::Not, int_type, &left, &converted(int_type, right)),
    }
}

/// What an operator gives at the number of its operand.
pub fn applied(op: Op, int_type: IntType, number: &i128) -> Result<i128, Fault>
    ensures { result ≡ value_of op int_type (wrapped int_type number.now) (wrapped int_type number.now) }
{
    conversion_law();
    let number = converted(int_type, number);
    apply(op, int_type, number, number)
}

ghost use Rattle.pk_ctypes.specs.Types.{InType};
ghost use Rattle.pk_ctypes.specs.Operators.{HasRight};
ghost use Rattle.pk_ctypes.specs.Types.{wrapped};
ghost use Rattle.pk_ctypes.specs.Operators.{value_of};

/// The place of an element, if there is one.
pub fn place_of(length: usize, index: &i128) -> Option<usize>
    ensures { MatchOption result (is_index length index.now ≡ false)
        (λ j. (is_index length index.now ≡ true) × (j ≡ unsigned_abs index.now)) }
{
    let index = *index;
    if 0 <= index && index < length as i128 {
        Some(index as usize)
    } else {
        None
    }
}

fn all_fit(int_type: IntType, numbers: &[i128]) -> bool
    ensures { result ≡ all_in_type int_type numbers.now }
{
    for k in 0..numbers.len() {
        if !fits(int_type, numbers[k]) {
            return false;
        }
    }
    true
}

/// Whether these are so many numbers of the type.
pub fn are_chosen(int_type: IntType, count: usize, numbers: &[i128]) -> bool
    ensures { result ≡ are_any int_type count numbers.now }
{
    if numbers.len() == count {
        all_fit(int_type, numbers)
    } else {
        false
    }
}
