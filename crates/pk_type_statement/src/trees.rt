// Typed statements of their parts, where each part has a tree.

ghost use Rattle.std.specs.Prelude.{◌≡◌, option_map};
ghost use Rattle.pk_typed.specs.Trees as tree;
ghost use Rattle.pk_typed.specs.Views.{value_tree, effect_tree, statement_tree, item_trees};
ghost use Rattle.pk_type_expression.specs.Typed.{of_both};
ghost use Rattle.pk_type_statement.specs.Trees.{of_three};
ghost use Rattle.pk_type_statement.specs.Views.{value_in, statement_in};

use pk_ctypes::Pos;
use pk_typed::{Effect, Item, Statement, Value};

pub(crate) fn block(at: Pos, items: Option<Vec<Item>>) -> Option<Statement>
    ensures { option_map statement_tree result
        ≡ option_map (tree.block at) (option_map (λ v. item_trees v.items) items) }
{
    match items {
        None => None,
        Some(items) => Some(Statement::block(at, items)),
    }
}

pub(crate) fn effect(at: Pos, effect: Option<Effect>) -> Option<Statement>
    ensures { option_map statement_tree result
        ≡ option_map (tree.effect at) (option_map effect_tree effect) }
{
    match effect {
        None => None,
        Some(effect) => Some(Statement::effect(at, effect)),
    }
}

pub(crate) fn label(
    at: Pos,
    number: Option<usize>,
    body: Option<Box<Statement>>,
) -> Option<Statement>
    ensures { option_map statement_tree result ≡ of_both (tree.label at) number (statement_in body) }
{
    match number {
        None => None,
        Some(number) => match body {
            None => None,
            Some(body) => Some(Statement::label(at, number, body)),
        },
    }
}

pub(crate) fn case(at: Pos, number: usize, body: Option<Box<Statement>>) -> Option<Statement>
    ensures { option_map statement_tree result ≡ option_map (tree.case at number) (statement_in body) }
{
    match body {
        None => None,
        Some(body) => Some(Statement::case(at, number, body)),
    }
}

pub(crate) fn default(at: Pos, body: Option<Box<Statement>>) -> Option<Statement>
    ensures { option_map statement_tree result ≡ option_map (tree.default at) (statement_in body) }
{
    match body {
        None => None,
        Some(body) => Some(Statement::default(at, body)),
    }
}

pub(crate) fn if_then(
    at: Pos,
    condition: Option<Box<Value>>,
    body: Option<Box<Statement>>,
) -> Option<Statement>
    ensures { option_map statement_tree result
        ≡ of_both (tree.if_then at) (value_in condition) (statement_in body) }
{
    match condition {
        None => None,
        Some(condition) => match body {
            None => None,
            Some(body) => Some(Statement::if_then(at, Box::into_inner(condition), body)),
        },
    }
}

pub(crate) fn if_else(
    at: Pos,
    condition: Option<Box<Value>>,
    if_true: Option<Box<Statement>>,
    if_false: Option<Box<Statement>>,
) -> Option<Statement>
    ensures { option_map statement_tree result
        ≡ of_three (tree.if_else at) (value_in condition) (statement_in if_true) (statement_in if_false) }
{
    match condition {
        None => None,
        Some(condition) => match if_true {
            None => None,
            Some(if_true) => match if_false {
                None => None,
                Some(if_false) => Some(Statement::if_else(
                    at,
                    Box::into_inner(condition),
                    if_true,
                    if_false,
                )),
            },
        },
    }
}

pub(crate) fn while_loop(
    at: Pos,
    condition: Option<Box<Value>>,
    body: Option<Box<Statement>>,
) -> Option<Statement>
    ensures { option_map statement_tree result
        ≡ of_both (tree.while at) (value_in condition) (statement_in body) }
{
    match condition {
        None => None,
        Some(condition) => match body {
            None => None,
            Some(body) => Some(Statement::while_loop(at, Box::into_inner(condition), body)),
        },
    }
}

pub(crate) fn do_while(
    at: Pos,
    body: Option<Box<Statement>>,
    condition: Option<Box<Value>>,
) -> Option<Statement>
    ensures { option_map statement_tree result
        ≡ of_both (tree.do_while at) (statement_in body) (value_in condition) }
{
    match body {
        None => None,
        Some(body) => match condition {
            None => None,
            Some(condition) => Some(Statement::do_while(at, body, Box::into_inner(condition))),
        },
    }
}

pub(crate) fn goto(at: Pos, number: Option<usize>) -> Option<Statement>
    ensures { option_map statement_tree result ≡ option_map (tree.goto at) number }
{
    match number {
        None => None,
        Some(number) => Some(Statement::goto(at, number)),
    }
}

pub(crate) fn return_value(at: Pos, value: Option<Option<Value>>) -> Option<Statement>
    ensures { option_map statement_tree result
        ≡ option_map (tree.return at) (option_map (option_map value_tree) value) }
{
    match value {
        None => None,
        Some(value) => Some(Statement::return_value(at, value)),
    }
}
