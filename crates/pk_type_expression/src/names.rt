// What an assignment may change.

ghost use Rattle.std.specs.Prelude.{◌≡◌};
ghost use Rattle.pk_type_scope.specs.Declarations as definitions;

use pk_ctypes::{IntType, Pos};
use pk_type_scope::Typing;
use pk_typed::Variable;

/// What an assignment may change: a scalar, or an element, with the place of its `[`.
#[derive(Clone, Copy)]
pub struct Target {
    pub variable: Variable,
    pub int_type: Option<IntType>,
    pub is_const: bool,
    pub bracket: Option<Pos>,
}

pub(crate) fn typing_of(int_type: Option<IntType>) -> Typing
    ensures { result ≡ definitions.typing_of int_type }
{
    match int_type {
        Some(t) => Typing::Integer(t),
        None => Typing::Unknown,
    }
}
