// What the tree of an expression is, and whether lowering it makes an edge.

ghost use Rattle.std.specs.Prelude.{◌≡◌, ◌||◌};
ghost use Rattle.pk_typed.specs.Views.{value_tree, effect_tree};
ghost use Rattle.pk_lower_row.specs.Shapes as shapes;

use crate::shapes::{
    Shape, converted_shape, fixed, is_plain, makes_at_place, operand_shape, operated_shape,
    shape_of_place, shape_of_step,
};
use pk_typed::{Effect, Value};

/// What the tree of an expression is.
pub fn shape_of(value: &Value) -> Shape
    ensures { result ≡ shapes.shape_of (value_tree value.now) }
{
    match value {
        Value::Constant(_, number) => fixed(number),
        Value::Read(place) => shape_of_place(place),
        Value::Assign(_, place, _) => shape_of_place(place),
        Value::Update(_, _, _, place, _) => shape_of_place(place),
        Value::Step {
            place,
            is_prefix,
            ..
        } => shape_of_step(place, *is_prefix),
        Value::Call { .. } => Shape::Named,
        Value::Any(_, _) => Shape::Temporary,
        Value::Unary(op, _, int_type, operand) => {
            operand_shape(*op, *int_type, operand.int_type(), shape_of(operand))
        }
        Value::Convert(int_type, operand) => {
            converted_shape(operand.int_type(), *int_type, shape_of(operand))
        }
        Value::Binary {
            operator,
            int_type,
            left,
            right,
            ..
        } => operated_shape(
            *operator,
            *int_type,
            left.int_type(),
            right.int_type(),
            shape_of(left),
            shape_of(right),
        ),
        Value::And { .. } => Shape::Temporary,
        Value::Or { .. } => Shape::Temporary,
        Value::Conditional { .. } => Shape::Temporary,
        Value::Then(_, second) => shape_of(second),
    }
}

/// Whether lowering the expression makes an edge.
#[cycle(makes)]
pub fn makes(value: &Value) -> bool
    ensures { result ≡ shapes.makes (value_tree value.now) }
{
    match value {
        Value::Constant(_, _) => false,
        Value::Read(place) => makes_at_place(place),
        Value::Assign(_, _, _) => true,
        Value::Update(_, _, _, _, _) => true,
        Value::Step { .. } => true,
        Value::Call { .. } => true,
        Value::Any(_, _) => true,
        Value::Unary(_, _, _, operand) => makes(operand),
        Value::Convert(_, operand) => makes(operand),
        Value::Binary { left, right, .. } => or(makes(left), makes(right)),
        Value::And { .. } => true,
        Value::Or { .. } => true,
        Value::Conditional { .. } => true,
        Value::Then(first, second) => or(makes_effect(first), makes(second)),
    }
}

#[cycle(makes)]
fn makes_effect(effect: &Effect) -> bool
    ensures { result ≡ shapes.makes_effect (effect_tree effect.now) }
{
    match effect {
        Effect::Unused(value) => or(makes(value), !is_plain(shape_of(value))),
        Effect::Call { .. } => true,
        Effect::Assume(_, _) => true,
        Effect::Assert(_, _) => true,
        Effect::Abort(_) => true,
        Effect::Then(first, second) => or(makes_effect(first), makes_effect(second)),
    }
}

fn or(first: bool, second: bool) -> bool
    ensures { result ≡ first || second }
{
    first || second
}
