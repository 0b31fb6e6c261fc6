// What a call makes of its checked arguments.

ghost use Rattle.std.specs.Prelude.{◌≡◌, ◌++◌, ◌∷◌, [], Some, option_map, IfOk, OnOk};
ghost use Rattle.pk_typed.specs.Trees as tree;
ghost use Rattle.pk_typed.specs.Views.{value_tree, effect_tree, value_trees, optional_values};
ghost use Rattle.pk_type_expression.specs.Forms as forms;
ghost use Rattle.pk_type_expression.specs.Rules as rules;
ghost use Rattle.pk_type_expression.specs.Typed as typed;
ghost use Rattle.pk_type_expression.specs.Types as types;
ghost use Rattle.pk_type_scope.specs.Notes.{noted_in, with_failures};
ghost use Rattle.pk_type_expression.specs.Views.{evaluated_tree, mentioned_in, mentioned_in_each, values_in, known_of};

use crate::boxes::boxed_option;
use crate::checked::{Arguments, Checked};
use crate::evaluated::{Evaluated, value_of, valued, without_value};
use crate::mentions::{all_joined, some_clash};
use pk_ctypes::{IntType, Pos, Rule};
use pk_type_scope::{Callee, Declaration, Notes, Typing, is_function};
use pk_typed::{Effect, Value};
use std::alloc::{AllocError, Global};

impl Arguments {
    pub(crate) fn none(alloc: Global) -> Arguments
        ensures mentions { mentioned_in_each result ≡ [] }
        ensures values { values_in result ≡ Some tree.no_values }
    {
        Arguments {
            mentions: Vec::new(alloc),
            values: Some(Vec::new(alloc)),
        }
    }
}

#[tactic(auto, using(crate::proofs::ListLemmas::value_trees_push))]
fn with_value(
    values: Option<Vec<Value>>,
    value: Option<Box<Value>>,
) -> Result<Option<Vec<Value>>, AllocError>
    ensures { IfOk result (λ r.
        optional_values r ≡ forms.with_last (optional_values values) (option_map (λ v. value_tree v.value) value)) }
{
    match values {
        None => Ok(None),
        Some(mut values) => match value {
            None => Ok(None),
            Some(value) => {
                values.push(Box::into_inner(value))?;
                Ok(Some(values))
            }
        },
    }
}

/// One argument more.
pub(crate) fn with_argument(all: Arguments, argument: Checked) -> Result<Arguments, AllocError>
    ensures mentions { IfOk result
        (λ r. mentioned_in_each r ≡ mentioned_in_each all ++ mentioned_in argument.mentions ∷ []) }
    ensures values { IfOk result
        (λ r. values_in r ≡ forms.with_last (values_in all) (typed.value_of (known_of argument).tree)) }
{
    let values = with_value(all.values, value_of(argument.tree))?;
    let mut mentions = all.mentions;
    mentions.push(argument.mentions)?;
    Ok(Arguments { mentions, values })
}

fn takes_others(declared: Option<Declaration>, count: usize) -> bool
    ensures { result ≡ rules.takes_others declared count }
{
    match declared {
        None => false,
        Some(Declaration::Object(_)) => false,
        Some(Declaration::Enumerator(_)) => false,
        Some(Declaration::TypeName(_)) => false,
        Some(Declaration::Function(f)) => f.callee.arguments() != count,
    }
}

fn type_of_call(declared: Option<Declaration>) -> Typing
    ensures { result ≡ types.type_of_call declared }
{
    match declared {
        None => Typing::Unknown,
        Some(Declaration::Object(_)) => Typing::Unknown,
        Some(Declaration::Enumerator(_)) => Typing::Unknown,
        Some(Declaration::TypeName(_)) => Typing::Unknown,
        Some(Declaration::Function(f)) => f.callee.returns(),
    }
}

fn called(
    alloc: Global,
    returns: Typing,
    function: usize,
    site: usize,
    at: Pos,
    arguments: Vec<Value>,
) -> Result<Option<Evaluated>, AllocError>
    ensures { IfOk result
        (λ e. option_map evaluated_tree e ≡ typed.called returns function site at (value_trees arguments.items)) }
{
    match returns {
        Typing::Void => without_value(alloc, Some(Effect::call(function, site, at, arguments))),
        Typing::Integer(t) => valued(alloc, Some(Value::call(t, function, site, at, arguments))),
        Typing::Unknown => Ok(None),
    }
}

fn any(t: IntType, at: Pos, arguments: &[Value]) -> Option<Value>
    ensures { option_map value_tree result ≡ typed.if_none (value_trees arguments.now) (tree.any t at) }
{
    if arguments.is_empty() {
        Some(Value::any(t, at))
    } else {
        None
    }
}

fn abort(at: Pos, arguments: &[Value]) -> Option<Effect>
    ensures { option_map effect_tree result ≡ typed.if_none (value_trees arguments.now) (tree.abort at) }
{
    if arguments.is_empty() {
        Some(Effect::abort(at))
    } else {
        None
    }
}

// The one argument, if there is one alone.
fn only(arguments: Vec<Value>) -> Option<Value>
    ensures { option_map value_tree result ≡ typed.only (value_trees arguments.items) }
{
    let mut arguments = arguments;
    if arguments.len() != 1 {
        return None;
    }
    arguments.pop()
}

fn assumed(
    alloc: Global,
    at: Pos,
    condition: Option<Value>,
) -> Result<Option<Evaluated>, AllocError>
    ensures { IfOk result (λ e. option_map evaluated_tree e
        ≡ option_map (λ v. typed.effect (tree.assume at v)) (option_map value_tree condition)) }
{
    match boxed_option(alloc, condition)? {
        None => Ok(None),
        Some(condition) => without_value(alloc, Some(Effect::assume(at, condition))),
    }
}

fn asserted(
    alloc: Global,
    at: Pos,
    condition: Option<Value>,
) -> Result<Option<Evaluated>, AllocError>
    ensures { IfOk result (λ e. option_map evaluated_tree e
        ≡ option_map (λ v. typed.effect (tree.assert at v)) (option_map value_tree condition)) }
{
    match boxed_option(alloc, condition)? {
        None => Ok(None),
        Some(condition) => without_value(alloc, Some(Effect::assert(at, condition))),
    }
}

fn call_of(
    alloc: Global,
    callee: Callee,
    function: usize,
    site: usize,
    at: Pos,
    arguments: Vec<Value>,
) -> Result<Option<Evaluated>, AllocError>
    ensures { IfOk result
        (λ e. option_map evaluated_tree e ≡ typed.call_of callee function site at (value_trees arguments.items)) }
{
    match callee {
        Callee::Ordinary { returns, .. } => called(alloc, returns, function, site, at, arguments),
        Callee::Any(t) => valued(alloc, any(t, at, &arguments)),
        Callee::Assume => assumed(alloc, at, only(arguments)),
        Callee::Assert => asserted(alloc, at, only(arguments)),
        Callee::Abort => without_value(alloc, abort(at, &arguments)),
    }
}

fn typed_call(
    alloc: Global,
    declared: Option<Declaration>,
    site: usize,
    at: Pos,
    arguments: Option<Vec<Value>>,
) -> Result<Option<Evaluated>, AllocError>
    ensures { IfOk result (λ e. option_map evaluated_tree e
        ≡ typed.typed_call declared site at (optional_values arguments)) }
{
    match declared {
        None => Ok(None),
        Some(Declaration::Object(_)) => Ok(None),
        Some(Declaration::Enumerator(_)) => Ok(None),
        Some(Declaration::TypeName(_)) => Ok(None),
        Some(Declaration::Function(f)) => match arguments {
            None => Ok(None),
            Some(arguments) => call_of(alloc, f.callee, f.number, site, at, arguments),
        },
    }
}

/// A call, at its name; `site` is its number in its function.
pub(crate) fn call(
    alloc: Global,
    notes: &mut Notes,
    at: Pos,
    declared: Option<Declaration>,
    site: usize,
    arguments: Arguments,
) -> Result<Checked, AllocError>
    ensures notes { OnOk result (noted_in notes.new
        ≡ with_failures (noted_in notes.old) (forms.call_failures at declared (mentioned_in_each arguments))) }
    ensures known { IfOk result (λ c. known_of c
        ≡ forms.known_call at site declared (mentioned_in_each arguments) (values_in arguments)) }
{
    let clash = some_clash(alloc, &arguments.mentions)?;
    notes.fail_if(!is_function(declared), Rule::Undeclared, at);
    notes.fail_if(
        takes_others(declared, arguments.mentions.len()),
        Rule::Arguments,
        at,
    );
    notes.fail_if(clash, Rule::Unsequenced, at);
    let mentions = all_joined(alloc, &arguments.mentions)?;
    let tree = typed_call(alloc, declared, site, at, arguments.values)?;
    Ok(Checked {
        typing: type_of_call(declared),
        target: None,
        mentions,
        tree,
    })
}
