// What constant expressions give.

ghost use Rattle.std.specs.Prelude.{◌≡◌};
ghost use Rattle.pk_typed.specs.Views.{value_tree, effect_tree};
ghost use Rattle.pk_ctypes.specs.Operators.{HasRight, right_number};
ghost use Rattle.pk_type_constant.specs.Constants as constants;

use pk_ctypes::{Fault, IntType, Op, apply, conversion_law, convert};
use pk_typed::{Effect, Value};

/// What evaluating an expression gives.
#[derive(Clone, Copy)]
pub enum Constant {
    Number(i128),
    /// An operation faults.
    Faulty(Fault),
    /// It reads or changes an object, or calls a function.
    NotConstant,
}

fn right_operand(op: Op, int_type: IntType, number: i128) -> i128
    ensures number { result ≡ right_number op int_type number }
    ensures fits { HasRight op int_type result }
{
    conversion_law();
    match op {
        Op::Shl | Op::Shr => number,
        Op::Add | Op::Sub | Op::Mul | Op::Div | Op::Rem => convert(int_type, number),
        Op::And | Op::Or | Op::Xor => convert(int_type, number),
        Op::Lt | Op::Gt | Op::Le | Op::Ge | Op::Eq | Op::Ne => convert(int_type, number),
        Op::Neg | Op::BitNot | Op::Not => convert(int_type, number),
    }
}

fn calculated(op: Op, int_type: IntType, left: Constant, right: Constant) -> Constant
    ensures { result ≡ constants.calculated op int_type left right }
{
    match left {
        Constant::Faulty(fault) => Constant::Faulty(fault),
        Constant::NotConstant => Constant::NotConstant,
        Constant::Number(a) => match right {
            Constant::Faulty(fault) => Constant::Faulty(fault),
            Constant::NotConstant => Constant::NotConstant,
            Constant::Number(b) => {
                conversion_law();
                let a = convert(int_type, a);
                let b = right_operand(op, int_type, b);
                match apply(op, int_type, a, b) {
                    Ok(number) => Constant::Number(number),
                    Err(fault) => Constant::Faulty(fault),
                }
            }
        },
    }
}

fn converted(int_type: IntType, value: Constant) -> Constant
    ensures { result ≡ constants.converted int_type value }
{
    match value {
        Constant::Number(number) => Constant::Number(convert(int_type, number)),
        Constant::Faulty(fault) => Constant::Faulty(fault),
        Constant::NotConstant => Constant::NotConstant,
    }
}

fn truth_of(value: Constant) -> Constant
    ensures { result ≡ constants.truth_of value }
{
    match value {
        Constant::Number(number) => Constant::Number(i128::from(number != 0)),
        Constant::Faulty(fault) => Constant::Faulty(fault),
        Constant::NotConstant => Constant::NotConstant,
    }
}

fn chosen(by: Constant, if_true: Constant, if_false: Constant) -> Constant
    ensures { result ≡ constants.chosen by if_true if_false }
{
    match by {
        Constant::Number(0) => if_false,
        Constant::Number(_) => if_true,
        Constant::Faulty(fault) => Constant::Faulty(fault),
        Constant::NotConstant => Constant::NotConstant,
    }
}

fn after(first: Constant, second: Constant) -> Constant
    ensures { result ≡ constants.with_number first (λ n. second) }
{
    match first {
        Constant::Number(_) => second,
        Constant::Faulty(fault) => Constant::Faulty(fault),
        Constant::NotConstant => Constant::NotConstant,
    }
}

/// The value of a constant expression, or the fault of an operation that it evaluates.
#[cycle(constants)]
#[tactic(auto, unfolding(pk_typed::specs::Views::value_tree, crate::specs::Constants::constant_value))]
pub fn constant_value(value: &Value) -> Constant
    ensures { result ≡ constants.constant_value (value_tree value.now) }
{
    match value {
        Value::Constant(_, number) => Constant::Number(*number),
        Value::Read(_) => Constant::NotConstant,
        Value::Assign(_, _, _) => Constant::NotConstant,
        Value::Update(_, _, _, _, _) => Constant::NotConstant,
        Value::Step { .. } => Constant::NotConstant,
        Value::Call { .. } => Constant::NotConstant,
        Value::Any(_, _) => Constant::NotConstant,
        Value::Unary(op, _, int_type, operand) => {
            let operand = constant_value(operand);
            calculated(*op, *int_type, operand, Constant::Number(0))
        }
        Value::Convert(int_type, operand) => {
            let operand = constant_value(operand);
            converted(*int_type, operand)
        }
        Value::Binary {
            operator,
            int_type,
            left,
            right,
            ..
        } => {
            let left = constant_value(left);
            let right = constant_value(right);
            calculated(*operator, *int_type, left, right)
        }
        Value::And { left, right } => {
            let left = constant_value(left);
            let right = constant_value(right);
            chosen(left, truth_of(right), Constant::Number(0))
        }
        Value::Or { left, right } => {
            let left = constant_value(left);
            let right = constant_value(right);
            chosen(left, Constant::Number(1), truth_of(right))
        }
        Value::Conditional {
            int_type,
            condition,
            if_true,
            if_false,
        } => {
            let condition = constant_value(condition);
            let if_true = constant_value(if_true);
            let if_false = constant_value(if_false);
            chosen(
                condition,
                converted(*int_type, if_true),
                converted(*int_type, if_false),
            )
        }
        Value::Then(first, second) => {
            let first = constant_effect(first);
            let second = constant_value(second);
            after(first, second)
        }
    }
}

/// The value of what a constant expression evaluates last, or the fault of an operation that it evaluates.
#[cycle(constants)]
#[tactic(auto, unfolding(pk_typed::specs::Views::effect_tree, crate::specs::Constants::constant_effect))]
pub fn constant_effect(effect: &Effect) -> Constant
    ensures { result ≡ constants.constant_effect (effect_tree effect.now) }
{
    match effect {
        Effect::Unused(value) => constant_value(value),
        Effect::Call { .. } => Constant::NotConstant,
        Effect::Assume(_, _) => Constant::NotConstant,
        Effect::Assert(_, _) => Constant::NotConstant,
        Effect::Abort(_) => Constant::NotConstant,
        Effect::Then(first, second) => {
            let first = constant_effect(first);
            let second = constant_effect(second);
            after(first, second)
        }
    }
}
