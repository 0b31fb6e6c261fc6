// Typed expressions with a value and without one.

ghost use Rattle.std.specs.Prelude.{◌≡◌, option_map, IfOk};
ghost use Rattle.pk_typed.specs.Views.{place_tree, value_tree, effect_tree};
ghost use Rattle.pk_type_expression.specs.Typed as typed;
ghost use Rattle.pk_type_expression.specs.Views.{evaluated_tree};

use crate::boxes::boxed_option;
use pk_typed::{Effect, Place, Value};
use std::alloc::{AllocError, Global};

/// A typed expression: with a value, or without one.
#[derive(Drop)]
pub enum Evaluated {
    Value(Box<Value>),
    Effect(Box<Effect>),
}

#[tactic(auto, unfolding(crate::specs::Views::evaluated_tree))]
pub(crate) fn valued(alloc: Global, value: Option<Value>) -> Result<Option<Evaluated>, AllocError>
    ensures { IfOk result (λ e. option_map evaluated_tree e ≡ typed.valued (option_map value_tree value)) }
{
    match boxed_option(alloc, value)? {
        None => Ok(None),
        Some(value) => Ok(Some(Evaluated::Value(value))),
    }
}

#[tactic(auto, unfolding(crate::specs::Views::evaluated_tree))]
pub(crate) fn without_value(
    alloc: Global,
    effect: Option<Effect>,
) -> Result<Option<Evaluated>, AllocError>
    ensures { IfOk result (λ e. option_map evaluated_tree e ≡ option_map typed.effect (option_map effect_tree effect)) }
{
    match boxed_option(alloc, effect)? {
        None => Ok(None),
        Some(effect) => Ok(Some(Evaluated::Effect(effect))),
    }
}

/// The value, where there is one.
#[tactic(auto, unfolding(crate::specs::Views::evaluated_tree))]
pub(crate) fn value_of(tree: Option<Evaluated>) -> Option<Box<Value>>
    ensures { option_map (λ v. value_tree v.value) result ≡ typed.value_of (option_map evaluated_tree tree) }
{
    match tree {
        None => None,
        Some(Evaluated::Value(value)) => Some(value),
        Some(Evaluated::Effect(_)) => None,
    }
}

/// Its evaluation, where a value isn't used.
#[tactic(auto, unfolding(crate::specs::Views::evaluated_tree))]
pub(crate) fn effect_of(tree: Option<Evaluated>) -> Option<Effect>
    ensures { option_map effect_tree result ≡ typed.effect_of (option_map evaluated_tree tree) }
{
    match tree {
        None => None,
        Some(Evaluated::Value(value)) => Some(Effect::unused(Box::into_inner(value))),
        Some(Evaluated::Effect(effect)) => Some(Box::into_inner(effect)),
    }
}

#[tactic(auto, unfolding(pk_typed::specs::Views::value_tree))]
fn place_in(value: Value) -> Option<Place>
    ensures { option_map place_tree result ≡ typed.place_in (value_tree value) }
{
    match value {
        Value::Read(place) => Some(place),
        _ => None,
    }
}

/// The place that is read, where the tree is that.
pub(crate) fn place_of(tree: Option<Evaluated>) -> Option<Place>
    ensures { option_map place_tree result ≡ typed.place_of (option_map evaluated_tree tree) }
{
    match value_of(tree) {
        None => None,
        Some(value) => place_in(Box::into_inner(value)),
    }
}
