// What declared objects begin with (C99 6.7.8).

ghost use Rattle.std.specs.Prelude.{◌≡◌, ◌<◌, ◌≤◌, length, MatchResult, true, false};
ghost use Rattle.pk_ctypes.specs.declared.places.Pos.{Pos};
ghost use Rattle.pk_ast.specs.Trees as tree;
ghost use Rattle.pk_ast.specs.Views.{expression_tree, expression_trees, initializer_item_tree, initializer_item_trees, initializer_tree};
ghost use Rattle.pk_grammar.specs.Outcomes.{nesting_limit};
ghost use Rattle.pk_grammar.specs.Machine.Running.{first_of_all, run, Fails};
ghost use Rattle.pk_grammar.specs.Machine.Signs.{is_fixed};
ghost use Rattle.pk_grammar.specs.Machine.States as states;
ghost use Rattle.pk_grammar.specs.Machine.Steps as steps;
ghost use Rattle.pk_parse.specs.Parts.{GoesOn, EndsItem, CanInitialize, items_state, with_items_more, row_state};

use pk_ast::{Expression, Initializer, InitializerItem};
use pk_ctypes::Pos;
use pk_grammar::{Fixed, ParseError};
use pk_lex::Token;
use pk_parse_expression::{Parser, keeping};

// What follows an item of a list in braces: a comma, and whether another one comes behind it. Otherwise the `}` was read too.
fn item_end<'a>(parser: Parser, tokens: &'a [Token]) -> Result<(bool, &'a [Token]), ParseError>
    ensures { MatchResult result
        (λ r. EndsItem parser.end tokens.now r.0 r.1.now × (length r.1.now < length tokens.now))
        (λ x. (is_fixed Fixed.CloseBrace (first_of_all parser.end tokens.now).kind ≡ false)
        × (is_fixed Fixed.Comma (first_of_all parser.end tokens.now).kind ≡ false)
        × (x ≡ ParseError.Syntax (first_of_all parser.end tokens.now).at)) }
{
    if let Some((_, last)) = parser.take(tokens, Fixed::CloseBrace) {
        return Ok((false, last));
    }
    let (_, next) = parser.expect(tokens, Fixed::Comma)?;
    if let Some((_, last)) = parser.take(next, Fixed::CloseBrace) {
        return Ok((false, last));
    }
    Ok((true, next))
}

// A value of a row, and whether another one comes. Otherwise the `}` was read too.
fn row_value<'a>(
    parser: Parser,
    tokens: &'a [Token],
    outside: u32,
) -> Result<(Expression, bool, &'a [Token]), ParseError>
    requires { outside ≤ nesting_limit }
    ensures { MatchResult result
        (λ r. ((d : states.Initializing) (at : Pos) (es : tree.ExpressionTrees) →
        steps.initializing_nesting d ≡ outside →
        run parser.end (states.operand outside (states.as_whole (states.as_row_item d at es))) tokens.now
        ≡ run parser.end (row_state r.1 d at (steps.first_item es (expression_tree r.0))
        (steps.more_items es (expression_tree r.0))) r.2.now) × GoesOn parser.end r.1 r.2.now
        × (length r.2.now < length tokens.now))
        (λ x. (d : states.Initializing) (at : Pos) (es : tree.ExpressionTrees) →
        steps.initializing_nesting d ≡ outside →
        Fails (run parser.end (states.operand outside (states.as_whole (states.as_row_item d at es)))
        tokens.now) x) }
{
    let (value, after) = parser.assignment(tokens, outside)?;
    let ((another, rest), value) = keeping(item_end(parser, after), value)?;
    Ok((value, another, rest))
}

// The values of a row after those that were read, and the `}`.
fn more_values<'a>(
    parser: Parser,
    another: bool,
    tokens: &'a [Token],
    outside: u32,
) -> Result<(Vec<Expression>, &'a [Token]), ParseError>
    requires limit { outside ≤ nesting_limit }
    requires value { GoesOn parser.end another tokens.now }
    ensures { MatchResult result
        (λ r. ((d : states.Initializing) (at : Pos) (e : tree.ExpressionTree) →
        steps.initializing_nesting d ≡ outside →
        run parser.end (row_state another d at e tree.no_expressions) tokens.now
        ≡ run parser.end (row_state false d at e (expression_trees r.0.items)) r.1.now)
        × (length r.1.now ≤ length tokens.now))
        (λ x. (d : states.Initializing) (at : Pos) (e : tree.ExpressionTree) →
        steps.initializing_nesting d ≡ outside →
        Fails (run parser.end (row_state another d at e tree.no_expressions) tokens.now) x) }
{
    let mut list = Vec::new(parser.alloc);
    let mut another = another;
    let mut rest = tokens;
    loop {
        if !another {
            return Ok((list, rest));
        }
        let (value, goes_on, after) = row_value(parser, rest, outside)?;
        list.push(value)?;
        another = goes_on;
        rest = after;
    }
}

// A row of values, of which the `{` at this place was read, and the `}`.
fn row<'a>(
    parser: Parser,
    at: Pos,
    tokens: &'a [Token],
    outside: u32,
) -> Result<(InitializerItem, &'a [Token]), ParseError>
    requires { outside ≤ nesting_limit }
    ensures { MatchResult result
        (λ r. ((d : states.Initializing) → steps.initializing_nesting d ≡ outside →
        run parser.end (states.at_row_item d at tree.no_expressions) tokens.now
        ≡ run parser.end (states.after_item (steps.with_item d (initializer_item_tree r.0))) r.1.now)
        × (length r.1.now ≤ length tokens.now))
        (λ x. (d : states.Initializing) → steps.initializing_nesting d ≡ outside →
        Fails (run parser.end (states.at_row_item d at tree.no_expressions) tokens.now) x) }
{
    let (first, another, following) = row_value(parser, tokens, outside)?;
    let ((more, rest), first) = keeping(more_values(parser, another, following, outside), first)?;
    let row = InitializerItem::row(parser.alloc, at, first, more)?;
    Ok((row, rest))
}

// A value, or a row of values in braces.
fn value_or_row<'a>(
    parser: Parser,
    tokens: &'a [Token],
    outside: u32,
) -> Result<(InitializerItem, &'a [Token]), ParseError>
    requires { outside ≤ nesting_limit }
    ensures { MatchResult result
        (λ r. ((d : states.Initializing) → CanInitialize parser.end d outside tokens.now →
        run parser.end (states.at_initializer_item d) tokens.now
        ≡ run parser.end (states.after_item (steps.with_item d (initializer_item_tree r.0))) r.1.now)
        × (length r.1.now ≤ length tokens.now))
        (λ x. (d : states.Initializing) → CanInitialize parser.end d outside tokens.now →
        Fails (run parser.end (states.at_initializer_item d) tokens.now) x) }
{
    if let Some((open, after)) = parser.take(tokens, Fixed::OpenBrace) {
        return row(parser, open.at, after, outside);
    }
    let (value, rest) = parser.assignment(tokens, outside)?;
    Ok((InitializerItem::value(value), rest))
}

// An item of an initializer's braces, and whether another one comes. Otherwise the `}` was read too.
fn item<'a>(
    parser: Parser,
    tokens: &'a [Token],
    outside: u32,
) -> Result<(InitializerItem, bool, &'a [Token]), ParseError>
    requires { outside ≤ nesting_limit }
    ensures { MatchResult result
        (λ r. ((d : states.Initializing) → CanInitialize parser.end d outside tokens.now →
        run parser.end (states.at_initializer_item d) tokens.now
        ≡ run parser.end (items_state r.1 (steps.with_item d (initializer_item_tree r.0))) r.2.now)
        × GoesOn parser.end r.1 r.2.now × (length r.2.now < length tokens.now))
        (λ x. (d : states.Initializing) → CanInitialize parser.end d outside tokens.now →
        Fails (run parser.end (states.at_initializer_item d) tokens.now) x) }
{
    let (item, after) = value_or_row(parser, tokens, outside)?;
    let ((another, rest), item) = keeping(item_end(parser, after), item)?;
    Ok((item, another, rest))
}

// The items of an initializer's braces after those that were read, and the `}`.
fn more_items<'a>(
    parser: Parser,
    another: bool,
    tokens: &'a [Token],
    outside: u32,
) -> Result<(Vec<InitializerItem>, &'a [Token]), ParseError>
    requires limit { outside ≤ nesting_limit }
    requires item { GoesOn parser.end another tokens.now }
    ensures { MatchResult result
        (λ r. ((d : states.Initialized) → steps.naming_nesting d.naming ≡ outside →
        run parser.end (items_state another d) tokens.now
        ≡ run parser.end (items_state false (with_items_more d (initializer_item_trees r.0.items))) r.1.now)
        × (length r.1.now ≤ length tokens.now))
        (λ x. (d : states.Initialized) → steps.naming_nesting d.naming ≡ outside →
        Fails (run parser.end (items_state another d) tokens.now) x) }
{
    let mut list = Vec::new(parser.alloc);
    let mut another = another;
    let mut rest = tokens;
    loop {
        if !another {
            return Ok((list, rest));
        }
        let (item, goes_on, after) = item(parser, rest, outside)?;
        list.push(item)?;
        another = goes_on;
        rest = after;
    }
}

/// What an object begins with, after the `=`.
pub fn value<'a>(
    parser: Parser,
    tokens: &'a [Token],
    outside: u32,
) -> Result<(Initializer, &'a [Token]), ParseError>
    requires { outside ≤ nesting_limit }
    ensures { MatchResult result
        (λ r. ((d : states.Naming) → steps.naming_nesting d ≡ outside →
        run parser.end (states.after_assign d) tokens.now
        ≡ run parser.end (states.after_initializer
        (steps.with_initializer d (Some (initializer_tree r.0)))) r.1.now) × (length r.1.now ≤ length tokens.now))
        (λ x. (d : states.Naming) → steps.naming_nesting d ≡ outside →
        Fails (run parser.end (states.after_assign d) tokens.now) x) }
{
    if let Some((open, after)) = parser.take(tokens, Fixed::OpenBrace) {
        let (first, another, following) = item(parser, after, outside)?;
        let ((more, rest), first) = keeping(
            more_items(parser, another, following, outside),
            first,
        )?;
        return Ok((Initializer::braced(open.at, first, more), rest));
    }
    let (value, rest) = parser.assignment(tokens, outside)?;
    Ok((Initializer::single(value), rest))
}
