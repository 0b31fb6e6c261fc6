// Enumerations (C99 6.7.2.2).

ghost use Rattle.std.specs.Prelude.{◌≡◌, ◌<◌, ◌≤◌, List, length, MatchResult, Option, option_map, true, false};
ghost use Rattle.pk_ast.specs.declared.declarations.Specifier.{Specifier};
ghost use Rattle.pk_ast.specs.declared.expressions.Identifier.{Identifier};
ghost use Rattle.pk_ast.specs.Lists.{one};
ghost use Rattle.pk_ast.specs.Trees as tree;
ghost use Rattle.pk_ast.specs.Views.{specifiers_tree, expression_tree, enumerator_tree, enumerator_trees, enumeration_tree};
ghost use Rattle.pk_grammar.specs.Outcomes.{nesting_limit};
ghost use Rattle.pk_grammar.specs.Machine.Running.{first_of_all, run, Fails};
ghost use Rattle.pk_grammar.specs.Machine.Signs.{is_fixed};
ghost use Rattle.pk_grammar.specs.Machine.States as states;
ghost use Rattle.pk_grammar.specs.Machine.Steps as steps;
ghost use Rattle.pk_parse.specs.Parts.{words_state, type_state, EndsType, braces_open, CanEnumerate, value_state, EndsValue, enumerator_state, with_enumerators, with_qualifiers, GoesOn};

use pk_ast::{Enumeration, Enumerator, Expression, Specifier, SpecifierWord, Specifiers};
use pk_grammar::{Fixed, ParseError, takes_braces};
use pk_lex::Token;
use pk_parse_expression::{Parser, identifier, keeping};

// The value that an enumerator is given, behind its name.
fn value<'a>(
    parser: Parser,
    tokens: &'a [Token],
    outside: u32,
) -> Result<(Option<Expression>, &'a [Token]), ParseError>
    requires { outside ≤ nesting_limit }
    ensures { MatchResult result
        (λ r. ((d : states.Enumerating) (id : Identifier) → steps.enumerating_nesting d ≡ outside →
        run parser.end (states.after_enumerator_name d id) tokens.now
        ≡ run parser.end (value_state d id (option_map expression_tree r.0)) r.1.now)
        × EndsValue parser.end (option_map expression_tree r.0) r.1.now × (length r.1.now ≤ length tokens.now))
        (λ x. (d : states.Enumerating) (id : Identifier) → steps.enumerating_nesting d ≡ outside →
        Fails (run parser.end (states.after_enumerator_name d id) tokens.now) x) }
{
    let Some((_, after)) = parser.take(tokens, Fixed::Assign) else {
        return Ok((None, tokens));
    };
    let (value, rest) = parser.conditional(after, outside)?;
    Ok((Some(value), rest))
}

// What follows an enumerator: a comma, and whether another one comes behind it. Otherwise the `}` was read too.
fn enumerator_end<'a>(
    parser: Parser,
    tokens: &'a [Token],
) -> Result<(bool, &'a [Token]), ParseError>
    ensures { MatchResult result
        (λ r. ((d : states.Enumerating) (id : Identifier) (e : Option tree.ExpressionTree) →
        steps.enumerating_nesting d ≤ nesting_limit → EndsValue parser.end e tokens.now →
        run parser.end (value_state d id e) tokens.now
        ≡ run parser.end (enumerator_state r.0 (steps.with_enumerator d id e)) r.1.now)
        × GoesOn parser.end r.0 r.1.now × (length r.1.now < length tokens.now))
        (λ x. (d : states.Enumerating) (id : Identifier) (e : Option tree.ExpressionTree) →
        steps.enumerating_nesting d ≤ nesting_limit → EndsValue parser.end e tokens.now →
        Fails (run parser.end (value_state d id e) tokens.now) x) }
{
    if let Some((_, last)) = parser.take(tokens, Fixed::CloseBrace) {
        return Ok((false, last));
    }
    let (_, next) = parser.expect(tokens, Fixed::Comma)?;
    if let Some((_, last)) = parser.take(next, Fixed::CloseBrace) {
        return Ok((false, last));
    }
    Ok((true, next))
}

// An enumerator, and whether another one comes. Otherwise the `}` was read too.
fn enumerator<'a>(
    parser: Parser,
    tokens: &'a [Token],
    outside: u32,
) -> Result<(Enumerator, bool, &'a [Token]), ParseError>
    requires { outside ≤ nesting_limit }
    ensures { MatchResult result
        (λ r. ((d : states.Enumerating) → CanEnumerate parser.end d outside tokens.now →
        run parser.end (states.at_enumerator d) tokens.now
        ≡ run parser.end (enumerator_state r.1
        (steps.with_enumerator d (enumerator_tree r.0).name (enumerator_tree r.0).value)) r.2.now)
        × GoesOn parser.end r.1 r.2.now × (length r.2.now < length tokens.now))
        (λ x. (d : states.Enumerating) → CanEnumerate parser.end d outside tokens.now →
        Fails (run parser.end (states.at_enumerator d) tokens.now) x) }
{
    let (token, after) = parser.expect(tokens, Fixed::Name)?;
    let (value, next) = value(parser, after, outside)?;
    let ((another, last), value) = keeping(enumerator_end(parser, next), value)?;
    Ok((Enumerator::new(identifier(token), value), another, last))
}

// The enumerators after those that were read, and the `}`.
fn more_enumerators<'a>(
    parser: Parser,
    another: bool,
    tokens: &'a [Token],
    outside: u32,
) -> Result<(Vec<Enumerator>, &'a [Token]), ParseError>
    requires limit { outside ≤ nesting_limit }
    requires enumerator { GoesOn parser.end another tokens.now }
    ensures { MatchResult result
        (λ r. ((d : states.Enumerated) → steps.enumeration_nesting d.site ≡ outside →
        run parser.end (enumerator_state another d) tokens.now
        ≡ run parser.end (enumerator_state false (with_enumerators d (enumerator_trees r.0.items))) r.1.now)
        × (length r.1.now ≤ length tokens.now))
        (λ x. (d : states.Enumerated) → steps.enumeration_nesting d.site ≡ outside →
        Fails (run parser.end (enumerator_state another d) tokens.now) x) }
{
    let mut list = Vec::new(parser.alloc);
    let mut another = another;
    let mut rest = tokens;
    loop {
        if !another {
            return Ok((list, rest));
        }
        let (enumerator, goes_on, after) = enumerator(parser, rest, outside)?;
        list.push(enumerator)?;
        another = goes_on;
        rest = after;
    }
}

// The `const`s behind the braces.
fn qualifiers<'a>(
    parser: Parser,
    tokens: &'a [Token],
) -> Result<(Vec<Specifier>, &'a [Token]), ParseError>
    ensures { MatchResult result
        (λ r. ((s : states.EnumerationSite) (specs : tree.OneOrMore Specifier) (e : tree.EnumerationTree) →
        steps.enumeration_nesting s ≤ nesting_limit → run parser.end (states.after_braces s specs e) tokens.now
        ≡ run parser.end (states.after_braces s specs (with_qualifiers e r.0.items)) r.1.now)
        × (is_fixed Fixed.Const (first_of_all parser.end r.1.now).kind ≡ false)
        × (length r.1.now ≤ length tokens.now))
        (λ x. x ≡ ParseError.Memory) }
{
    let mut list = Vec::new(parser.alloc);
    let mut rest = tokens;
    loop {
        let Some((token, after)) = parser.take(rest, Fixed::Const) else {
            return Ok((list, rest));
        };
        list.push(Specifier {
            word: SpecifierWord::Const,
            at: token.at,
        })?;
        rest = after;
    }
}

// The enumerators of an enumeration, after the `{`, the `}`, and the `const`s behind it.
fn braces<'a>(
    parser: Parser,
    tokens: &'a [Token],
    outside: u32,
) -> Result<(Enumeration, &'a [Token]), ParseError>
    requires { outside ≤ nesting_limit }
    ensures { MatchResult result
        (λ r. ((s : states.EnumerationSite) (specs : tree.OneOrMore Specifier) →
        steps.enumeration_nesting s ≡ outside →
        run parser.end (states.at_enumerator (braces_open s specs)) tokens.now
        ≡ run parser.end (states.after_braces s specs (enumeration_tree r.0)) r.1.now)
        × (is_fixed Fixed.Const (first_of_all parser.end r.1.now).kind ≡ false)
        × (length r.1.now ≤ length tokens.now))
        (λ x. (s : states.EnumerationSite) (specs : tree.OneOrMore Specifier) →
        steps.enumeration_nesting s ≡ outside →
        Fails (run parser.end (states.at_enumerator (braces_open s specs)) tokens.now) x) }
{
    let (first, another, following) = enumerator(parser, tokens, outside)?;
    let ((more, rest), first) = keeping(
        more_enumerators(parser, another, following, outside),
        first,
    )?;
    let ((qualifiers, last), (first, more)) = keeping(qualifiers(parser, rest), (first, more))?;
    Ok((Enumeration::new(first, more, qualifiers), last))
}

/// The words of a type, of which the first was read, and the braces of an enumeration behind them, where it has some.
pub fn type_words<'a>(
    parser: Parser,
    first: Specifier,
    tokens: &'a [Token],
    outside: u32,
) -> Result<(Specifiers, Option<Enumeration>, &'a [Token]), ParseError>
    requires { outside ≤ nesting_limit }
    ensures { MatchResult result
        (λ r. ((s : states.EnumerationSite) → steps.enumeration_nesting s ≡ outside →
        run parser.end (words_state s (one first)) tokens.now
        ≡ run parser.end (type_state s (specifiers_tree r.0) (option_map enumeration_tree r.1)) r.2.now)
        × EndsType parser.end (specifiers_tree r.0) (option_map enumeration_tree r.1) r.2.now
        × (length r.2.now ≤ length tokens.now))
        (λ x. (s : states.EnumerationSite) → steps.enumeration_nesting s ≡ outside →
        Fails (run parser.end (words_state s (one first)) tokens.now) x) }
{
    let (words, shape, rest) = parser.specifiers(first, tokens)?;
    if !takes_braces(shape) {
        return Ok((words, None, rest));
    }
    let Some((_, after)) = parser.take(rest, Fixed::OpenBrace) else {
        return Ok((words, None, rest));
    };
    let ((enumeration, last), words) = keeping(braces(parser, after, outside), words)?;
    Ok((words, Some(enumeration), last))
}
