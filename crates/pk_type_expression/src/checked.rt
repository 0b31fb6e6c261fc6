// What is known of a checked expression.

ghost use Rattle.std.specs.Prelude.{◌≡◌, option_map};
ghost use Rattle.pk_typed.specs.Views.{value_tree, effect_tree};
ghost use Rattle.pk_type_expression.specs.Typed as typed;
ghost use Rattle.pk_type_expression.specs.Views.{known_of, evaluated_tree, operand_tree};

use crate::evaluated::{Evaluated, effect_of, value_of};
use crate::mentions::Mentions;
use crate::names::Target;
use pk_ctypes::IntType;
use pk_type_scope::Typing;
use pk_typed::{Effect, Value};

/// What is known of a checked expression. It has a tree where no rule leaves it without one.
#[derive(Drop)]
pub struct Checked {
    pub typing: Typing,
    pub target: Option<Target>,
    pub mentions: Mentions,
    pub tree: Option<Evaluated>,
}

/// A value with its type.
#[derive(Drop)]
pub struct Operand {
    pub int_type: IntType,
    pub tree: Box<Value>,
}

/// What is known of checked arguments: what each mentions, and their values where each has one.
#[derive(Drop)]
pub struct Arguments {
    pub mentions: Vec<Mentions>,
    pub values: Option<Vec<Value>>,
}

impl Checked {
    /// The value, where it has one.
    pub fn into_value(self) -> Option<Value>
        ensures { option_map value_tree result ≡ typed.value_of (known_of self).tree }
    {
        match value_of(self.tree) {
            None => None,
            Some(value) => Some(Box::into_inner(value)),
        }
    }

    /// Its evaluation, where its value isn't used.
    pub fn into_effect(self) -> Option<Effect>
        ensures { option_map effect_tree result ≡ typed.effect_of (known_of self).tree }
    {
        effect_of(self.tree)
    }
}

pub(crate) fn operand_of(typing: Typing, tree: Option<Evaluated>) -> Option<Operand>
    ensures { option_map operand_tree result ≡ typed.operand_of typing (option_map evaluated_tree tree) }
{
    match typing {
        Typing::Void => None,
        Typing::Integer(int_type) => match value_of(tree) {
            None => None,
            Some(tree) => Some(Operand { int_type, tree }),
        },
        Typing::Unknown => None,
    }
}
