// Declarations.

ghost use Rattle.std.specs.Prelude.{◌≡◌, ◌<◌, ◌≤◌, length, MatchOption, MatchResult, Option, option_map, ◌&&◌, not, true, false};
ghost use Rattle.std.specs.Option.{is_some};
ghost use Rattle.pk_ctypes.specs.declared.places.Pos.{Pos};
ghost use Rattle.pk_ast.specs.declared.declarations.Specifier.{Specifier};
ghost use Rattle.pk_ast.specs.declared.expressions.Identifier.{Identifier};
ghost use Rattle.pk_ast.specs.Lists.{one};
ghost use Rattle.pk_ast.specs.Trees as tree;
ghost use Rattle.pk_ast.specs.Views.{expression_tree, initializer_tree, dimensions_tree, declarator_tree, declarator_trees, declaration_tree};
ghost use Rattle.pk_grammar.specs.Outcomes.{nesting_limit};
ghost use Rattle.pk_grammar.specs.Machine.Running.{first_of_all, run, Fails};
ghost use Rattle.pk_grammar.specs.Machine.Signs.{is_fixed};
ghost use Rattle.pk_parse_expression.specs.Parsing.{Begins};
ghost use Rattle.pk_parse.specs.Parts.{type_state, length_state, IsLength, CanDeclare, IsInner, needs_name, AtNames, named_first, with_declarators, after_declaration};
ghost use Rattle.pk_grammar.specs.Machine.States as states;
ghost use Rattle.pk_grammar.specs.Machine.Steps as steps;

use crate::enumerations::type_words;
use crate::initializers::value;
use pk_ast::{
    Declaration, Declarator, Dimensions, Enumeration, Expression, Identifier, Initializer,
    Specifier,
};
use pk_grammar::{Fixed, ParseError};
use pk_lex::Token;
use pk_parse_expression::{Parser, identifier, keeping, nested};

// A length in brackets behind a declarator's name, or behind how many rows it has, where one comes.
fn length<'a>(
    parser: Parser,
    tokens: &'a [Token],
    outside: u32,
) -> Result<(Option<Expression>, &'a [Token]), ParseError>
    requires { outside ≤ nesting_limit }
    ensures { MatchResult result
        (λ r. IsLength parser.end outside tokens.now (option_map expression_tree r.0) r.1.now
        × (length r.1.now ≤ length tokens.now))
        (λ x. (d : states.Declaring) (id : Identifier) (rows : Option tree.ExpressionTree) →
        steps.site_nesting d.site ≡ outside → Fails (run parser.end (length_state d id rows) tokens.now) x) }
{
    let Some((open, after)) = parser.take(tokens, Fixed::OpenBracket) else {
        return Ok((None, tokens));
    };
    let inside = nested(open.at, outside, 1)?;
    let (length, rest) = parser.conditional(after, inside)?;
    let ((_, last), length) = keeping(parser.expect(rest, Fixed::CloseBracket), length)?;
    Ok((Some(length), last))
}

// The length of an array, or how many rows and columns it has.
fn dimensions<'a>(
    parser: Parser,
    tokens: &'a [Token],
    outside: u32,
) -> Result<(Option<Dimensions>, &'a [Token]), ParseError>
    requires { outside ≤ nesting_limit }
    ensures { MatchResult result
        (λ r. ((d : states.Declaring) (id : Identifier) → CanDeclare parser.end d id outside tokens.now →
        run parser.end (states.after_name d id) tokens.now
        ≡ run parser.end (states.after_columns
        (record { declaring = d; name = id; dimensions = option_map dimensions_tree r.0 })) r.1.now)
        × (length r.1.now ≤ length tokens.now))
        (λ x. (d : states.Declaring) (id : Identifier) → CanDeclare parser.end d id outside tokens.now →
        Fails (run parser.end (states.after_name d id) tokens.now) x) }
{
    let (rows, after) = length(parser, tokens, outside)?;
    let Some(rows) = rows else {
        return Ok((None, after));
    };
    let ((columns, rest), rows) = keeping(length(parser, after, outside), rows)?;
    Ok((Some(Dimensions::new(rows, columns)), rest))
}

// What an object begins with, where it is given.
fn initializer<'a>(
    parser: Parser,
    tokens: &'a [Token],
    outside: u32,
) -> Result<(Option<Initializer>, &'a [Token]), ParseError>
    requires { outside ≤ nesting_limit }
    ensures { MatchResult result
        (λ r. ((d : states.Naming) → steps.naming_nesting d ≡ outside →
        run parser.end (states.after_columns d) tokens.now
        ≡ run parser.end (states.after_initializer
        (steps.with_initializer d (option_map initializer_tree r.0))) r.1.now)
        × (length r.1.now ≤ length tokens.now))
        (λ x. (d : states.Naming) → steps.naming_nesting d ≡ outside →
        Fails (run parser.end (states.after_columns d) tokens.now) x) }
{
    let Some((_, after)) = parser.take(tokens, Fixed::Assign) else {
        return Ok((None, tokens));
    };
    let (value, rest) = value(parser, after, outside)?;
    Ok((Some(value), rest))
}

// A declared object, of which the name was read.
fn declarator<'a>(
    parser: Parser,
    name: Identifier,
    tokens: &'a [Token],
    outside: u32,
) -> Result<(Declarator, &'a [Token]), ParseError>
    requires { outside ≤ nesting_limit }
    ensures { MatchResult result
        (λ r. ((d : states.Declaring) → CanDeclare parser.end d name outside tokens.now →
        run parser.end (states.after_name d name) tokens.now
        ≡ run parser.end (states.after_initializer (steps.with_declarator d (declarator_tree r.0))) r.1.now)
        × (length r.1.now ≤ length tokens.now))
        (λ x. (d : states.Declaring) → CanDeclare parser.end d name outside tokens.now →
        Fails (run parser.end (states.after_name d name) tokens.now) x) }
{
    let (dimensions, after) = dimensions(parser, tokens, outside)?;
    let ((initializer, rest), dimensions) = keeping(
        initializer(parser, after, outside),
        dimensions,
    )?;
    Ok((Declarator::new(name, dimensions, initializer), rest))
}

/// The objects of a declaration, of which the first one's name was read, and the `;`.
pub fn declarators<'a>(
    parser: Parser,
    name: Identifier,
    tokens: &'a [Token],
    outside: u32,
) -> Result<(Vec<Declarator>, &'a [Token]), ParseError>
    requires { outside ≤ nesting_limit }
    ensures { MatchResult result
        (λ r. ((d : states.Declaring) → CanDeclare parser.end d name outside tokens.now →
        run parser.end (states.after_name d name) tokens.now
        ≡ run parser.end (after_declaration (with_declarators d (declarator_trees r.0.items))) r.1.now)
        × (length r.1.now < length tokens.now))
        (λ x. (d : states.Declaring) → CanDeclare parser.end d name outside tokens.now →
        Fails (run parser.end (states.after_name d name) tokens.now) x) }
{
    let mut list = Vec::with_capacity(parser.alloc, 1)?;
    let mut next_name = name;
    let mut rest = tokens;
    loop {
        let (declarator, after) = declarator(parser, next_name, rest, outside)?;
        list.push(declarator)?;
        if let Some((_, last)) = parser.take(after, Fixed::Semicolon) {
            return Ok((list, last));
        }
        let (_, next) = parser.expect(after, Fixed::Comma)?;
        let (token, following) = parser.expect(next, Fixed::Name)?;
        next_name = identifier(token);
        rest = following;
    }
}

// The `;`, where it comes first behind an enumeration that may stand alone.
fn end_alone<'a>(parser: Parser, alone: bool, tokens: &'a [Token]) -> Option<(Token, &'a [Token])>
    ensures { MatchOption result
        (is_fixed Fixed.Semicolon (first_of_all parser.end tokens.now).kind ≡ true → alone ≡ false)
        (λ r. Begins Fixed.Semicolon tokens.now r.0 r.1.now × (alone ≡ true)) }
{
    if alone {
        parser.take(tokens, Fixed::Semicolon)
    } else {
        None
    }
}

/// The objects that are declared with a type, and the `;`; none, where it is an enumeration that may stand alone.
pub fn declared<'a>(
    parser: Parser,
    alone: bool,
    tokens: &'a [Token],
    outside: u32,
) -> Result<(Vec<Declarator>, &'a [Token]), ParseError>
    requires { outside ≤ nesting_limit }
    ensures { MatchResult result
        (λ r. ((s : states.Site) (specs : tree.OneOrMore Specifier) (e : Option tree.EnumerationTree) →
        AtNames parser.end s specs e alone outside tokens.now →
        run parser.end (type_state (states.in_declaration s) specs e) tokens.now
        ≡ run parser.end (after_declaration (with_declarators (named_first s specs e)
        (declarator_trees r.0.items))) r.1.now) × (length r.1.now < length tokens.now))
        (λ x. (s : states.Site) (specs : tree.OneOrMore Specifier) (e : Option tree.EnumerationTree) →
        AtNames parser.end s specs e alone outside tokens.now →
        Fails (run parser.end (type_state (states.in_declaration s) specs e) tokens.now) x) }
{
    if let Some((_, last)) = end_alone(parser, alone, tokens) {
        return Ok((Vec::new(parser.alloc), last));
    }
    let (token, after) = parser.expect(tokens, Fixed::Name)?;
    declarators(parser, identifier(token), after, outside)
}

// Whether an enumeration comes that may declare no name.
fn stands_alone(enumeration: &Option<Enumeration>, named: bool) -> bool
    ensures { result ≡ (is_some enumeration.now && not named) }
{
    enumeration.is_some() && !named
}

/// A declaration, of which the first word was read; a name has to be declared or not.
pub fn declaration<'a>(
    parser: Parser,
    first: Specifier,
    named: bool,
    tokens: &'a [Token],
    outside: u32,
) -> Result<(Declaration, &'a [Token]), ParseError>
    requires { outside ≤ nesting_limit }
    ensures { MatchResult result
        (λ r. ((s : states.Site) → IsInner s → named ≡ needs_name s → steps.site_nesting s ≡ outside →
        run parser.end (states.after_specifiers s (one first)) tokens.now
        ≡ run parser.end (steps.declared_at s (declaration_tree r.0)) r.1.now)
        × (length r.1.now < length tokens.now))
        (λ x. (s : states.Site) → IsInner s → named ≡ needs_name s → steps.site_nesting s ≡ outside →
        Fails (run parser.end (states.after_specifiers s (one first)) tokens.now) x) }
{
    let (words, enumeration, rest) = type_words(parser, first, tokens, outside)?;
    let alone = stands_alone(&enumeration, named);
    let ((declarators, last), (words, enumeration)) = keeping(
        declared(parser, alone, rest, outside),
        (words, enumeration),
    )?;
    let declaration = Declaration::new(parser.alloc, words, enumeration, declarators)?;
    Ok((declaration, last))
}
