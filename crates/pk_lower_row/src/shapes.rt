// What the tree of an expression is, and whether lowering it makes an edge: known before it is lowered.

ghost use Rattle.std.specs.Prelude.{◌≡◌, if◌then◌else◌, IfSome};
ghost use Rattle.pk_ctypes.specs.Types.{InType};
ghost use Rattle.pk_ctypes.specs.Operators.{HasRight};
ghost use Rattle.pk_typed.specs.Views.{place_tree};
ghost use Rattle.pk_lower_row.specs.declared.shapes.Shape.TheVariants.{Fixed, Temporary};
ghost use Rattle.pk_lower_row.specs.Shapes as shapes;

use pk_ctypes::{IntType, Op, apply, convert};
use pk_draft::{represents, right_type};
use pk_typed::Place;

/// What a tree is.
#[derive(Clone, Copy)]
pub enum Shape {
    /// A constant.
    Fixed(i128),
    Temporary,
    /// An object or a result.
    Named,
    Other,
}

/// How an operand's tree waits for a later one.
#[derive(Clone, Copy)]
pub enum Waiting {
    /// As it is.
    Loose,
    /// In a temporary, unless it is a constant or temporary.
    Strong,
    /// In a temporary, unless it is a constant or a variable.
    Weak,
}

/// The shape of a conversion of a tree of an expression of type `from`.
pub fn converted_shape(from: IntType, to: IntType, shape: Shape) -> Shape
    ensures { result ≡ shapes.converted_shape from to shape }
{
    match shape {
        Shape::Fixed(number) => Shape::Fixed(convert(to, number)),
        Shape::Temporary | Shape::Named | Shape::Other => {
            if represents(to, from) {
                shape
            } else {
                Shape::Other
            }
        }
    }
}

fn is_calm(shape: Shape) -> bool
    ensures { result ≡ shapes.is_calm shape }
{
    match shape {
        Shape::Fixed(_) | Shape::Temporary => true,
        Shape::Named | Shape::Other => false,
    }
}

pub fn is_plain(shape: Shape) -> bool
    ensures { result ≡ shapes.is_plain shape }
{
    match shape {
        Shape::Fixed(_) | Shape::Temporary | Shape::Named => true,
        Shape::Other => false,
    }
}

/// Whether a tree waits as it is.
pub fn stays(waiting: Waiting, shape: Shape) -> bool
    ensures { result ≡ shapes.stays waiting shape }
{
    match waiting {
        Waiting::Loose => true,
        Waiting::Strong => is_calm(shape),
        Waiting::Weak => is_plain(shape),
    }
}

pub fn strong_if(makes: bool) -> Waiting
    ensures { result ≡ shapes.strong_if makes }
{
    if makes {
        Waiting::Strong
    } else {
        Waiting::Loose
    }
}

pub fn strong_or_weak(makes: bool) -> Waiting
    ensures { result ≡ shapes.strong_or_weak makes }
{
    if makes {
        Waiting::Strong
    } else {
        Waiting::Weak
    }
}

fn number_in(shape: Shape) -> Option<i128>
    ensures { result ≡ shapes.number_in_shape shape }
{
    match shape {
        Shape::Fixed(number) => Some(number),
        Shape::Temporary | Shape::Named | Shape::Other => None,
    }
}

/// The shape of an operator with one operand, which has been converted to the type.
fn unary_shape(op: Op, int_type: IntType, operand: Shape) -> Shape
    requires { IfSome (shapes.number_in_shape operand) (InType int_type) }
    ensures { result ≡ shapes.unary_shape op int_type operand }
{
    match number_in(operand) {
        Some(number) => match apply(op, int_type, number, number) {
            Ok(value) => Shape::Fixed(value),
            Err(_) => Shape::Other,
        },
        None => Shape::Other,
    }
}

/// The shape of an operator whose operand has the type `from`.
pub fn operand_shape(op: Op, int_type: IntType, from: IntType, operand: Shape) -> Shape
    ensures { result ≡ shapes.unary_shape op int_type (shapes.converted_shape from int_type operand) }
{
    unary_shape(op, int_type, converted_shape(from, int_type, operand))
}

fn binary_shape(op: Op, int_type: IntType, left: Shape, right: Shape) -> Shape
    requires left { IfSome (shapes.number_in_shape left) (InType int_type) }
    requires right { IfSome (shapes.number_in_shape right) (HasRight op int_type) }
    ensures { result ≡ shapes.binary_shape op int_type left right }
{
    match (number_in(left), number_in(right)) {
        (Some(a), Some(b)) => match apply(op, int_type, a, b) {
            Ok(value) => Shape::Fixed(value),
            Err(_) => Shape::Other,
        },
        (Some(_), None) => Shape::Other,
        (None, _) => Shape::Other,
    }
}

/// The shape of an operator whose operands have the types `u` and `v`.
pub fn operated_shape(
    op: Op,
    int_type: IntType,
    u: IntType,
    v: IntType,
    left: Shape,
    right: Shape,
) -> Shape
    ensures { result ≡ shapes.operated_shape op int_type u v left right }
{
    let a = converted_shape(u, int_type, left);
    let b = converted_shape(v, right_type(op, v, int_type), right);
    binary_shape(op, int_type, a, b)
}

// What is read or was assigned.
pub fn shape_of_place(place: &Place) -> Shape
    ensures { result ≡ shapes.shape_of_place (place_tree place.now) }
{
    match place {
        Place::Scalar(_, _) => Shape::Named,
        Place::Element(_, _, _, _) => Shape::Temporary,
    }
}

/// What a stepped place gives: itself, or what it was before in a temporary.
pub fn shape_of_step(place: &Place, is_prefix: bool) -> Shape
    ensures { result ≡ if◌then◌else◌ is_prefix (shapes.shape_of_place (place_tree place.now)) Temporary }
{
    if is_prefix {
        shape_of_place(place)
    } else {
        Shape::Temporary
    }
}

pub fn fixed(number: &i128) -> Shape
    ensures { result ≡ Fixed number.now }
{
    Shape::Fixed(*number)
}

pub fn makes_at_place(place: &Place) -> bool
    ensures { result ≡ shapes.makes_at_place (place_tree place.now) }
{
    match place {
        Place::Scalar(_, _) => false,
        Place::Element(_, _, _, _) => true,
    }
}
