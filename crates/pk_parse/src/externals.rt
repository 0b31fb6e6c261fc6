// External definitions.

ghost use Rattle.std.specs.Prelude.{◌≡◌, ◌≢◌, ◌<◌, ◌≤◌, ◌↔◌, List, [], ◌∷◌, ◌++◌, Option, Some, None, false, IsTrue, length, MatchOption, MatchResult, option_map};
ghost use Rattle.pk_ast.specs.Lists.{one};
ghost use Rattle.pk_ast.specs.Trees as tree;
ghost use Rattle.pk_ast.specs.Views.{specifiers_tree, expression_tree, enumeration_tree, block_tree, brackets_tree, parameter_tree, parameter_trees, typedef_tree, external_tree, external_trees};
ghost use Rattle.pk_grammar.specs.Grammar.{IsVoidAlone};
ghost use Rattle.pk_grammar.specs.Machine.Running.{trees, first_of_all, run, Fails};
ghost use Rattle.pk_grammar.specs.Machine.Signs as signs;
ghost use Rattle.pk_grammar.specs.Machine.States as states;
ghost use Rattle.pk_grammar.specs.Machine.Steps as steps;
ghost use Rattle.pk_parse.specs.Parts.{EndsType, IsName, bracket_purpose, next_bracket_state, bracketed, after_parameter, EndsParameter, after_function, after_type_names, with_names, storage_state};

use crate::declarations::{declarators, declared};
use crate::enumerations::type_words;
use crate::statements::block;
use pk_ast::{
    Block, Brackets, Declaration, Enumeration, Expression, External, Function, Identifier,
    Parameter, Specifier, Specifiers, Storage, Typedef,
};
use pk_grammar::{Fixed, ParseError, is, is_void_word, storage_word};
use pk_lex::{Kind, Token};
use pk_parse_expression::{Parser, identifier, keeping};

// Words of a type alone: neither a name nor brackets.
fn is_words_alone(p: &Parameter) -> bool
    ensures { IsTrue result ↔ ((parameter_tree p.now).name ≡ None) × ((parameter_tree p.now).brackets ≡ None) }
{
    match &p.brackets {
        Some(_) => false,
        None => p.name.is_none(),
    }
}

// The word `void` and nothing else, which is no parameter.
fn is_void_alone(p: &Parameter) -> bool
    ensures { IsTrue result ↔ IsVoidAlone (parameter_tree p.now) }
{
    is_words_alone(p) && p.specifiers.more.is_empty() && is_void_word(p.specifiers.first.word)
}

// A parameter's name behind the words of its type, where one comes.
fn parameter_name<'a>(parser: Parser, tokens: &'a [Token]) -> (Option<Identifier>, &'a [Token])
    ensures name { IsName parser.end tokens.now result.0 result.1.now }
    ensures rest { length result.1.now ≤ length tokens.now }
{
    match parser.take(tokens, Fixed::Name) {
        Some((token, rest)) => (Some(identifier(token)), rest),
        None => (None, tokens),
    }
}

// A length in the brackets of a parameter, or its columns, and the `]`.
fn closed_length<'a>(
    parser: Parser,
    tokens: &'a [Token],
) -> Result<(Expression, &'a [Token]), ParseError>
    ensures { MatchResult result
        (λ r. ((d : states.Receiving) (before : Option (Option tree.ExpressionTree)) →
        run parser.end (states.operand 2 (states.as_whole (bracket_purpose d before))) tokens.now
        ≡ run parser.end (next_bracket_state d before (expression_tree r.0)) r.1.now)
        × (length r.1.now ≤ length tokens.now))
        (λ x. (d : states.Receiving) (before : Option (Option tree.ExpressionTree)) →
        Fails (run parser.end (states.operand 2 (states.as_whole (bracket_purpose d before))) tokens.now) x) }
{
    let (length, rest) = parser.conditional(tokens, 2)?;
    let ((_, last), length) = keeping(parser.expect(rest, Fixed::CloseBracket), length)?;
    Ok((length, last))
}

// A parameter's length, after the `[`, which may be left out, and the `]`.
fn open_length<'a>(
    parser: Parser,
    tokens: &'a [Token],
) -> Result<(Option<Expression>, &'a [Token]), ParseError>
    ensures { MatchResult result
        (λ r. ((d : states.Receiving) → run parser.end (states.parameter_bracket d) tokens.now
        ≡ run parser.end (states.parameter_length d (option_map expression_tree r.0)) r.1.now)
        × (length r.1.now ≤ length tokens.now))
        (λ x. (d : states.Receiving) → Fails (run parser.end (states.parameter_bracket d) tokens.now) x) }
{
    if let Some((_, last)) = parser.take(tokens, Fixed::CloseBracket) {
        return Ok((None, last));
    }
    let (length, last) = closed_length(parser, tokens)?;
    Ok((Some(length), last))
}

// A parameter's columns, where it has some.
fn columns<'a>(
    parser: Parser,
    tokens: &'a [Token],
) -> Result<(Option<Expression>, &'a [Token]), ParseError>
    ensures { MatchResult result
        (λ r. ((d : states.Receiving) (l : Option tree.ExpressionTree) →
        run parser.end (states.parameter_length d l) tokens.now
        ≡ run parser.end (bracketed d l (option_map expression_tree r.0)) r.1.now)
        × (length r.1.now ≤ length tokens.now))
        (λ x. (d : states.Receiving) (l : Option tree.ExpressionTree) →
        Fails (run parser.end (states.parameter_length d l) tokens.now) x) }
{
    let Some((_, after)) = parser.take(tokens, Fixed::OpenBracket) else {
        return Ok((None, tokens));
    };
    let (columns, last) = closed_length(parser, after)?;
    Ok((Some(columns), last))
}

// A parameter's brackets, of which the first `[` was read.
fn brackets<'a>(parser: Parser, tokens: &'a [Token]) -> Result<(Brackets, &'a [Token]), ParseError>
    ensures { MatchResult result
        (λ r. ((d : states.Receiving) → run parser.end (states.parameter_bracket d) tokens.now
        ≡ run parser.end (states.parameter_end d.head d.before
        (steps.with_brackets d (Some (brackets_tree r.0)))) r.1.now)
        × (length r.1.now ≤ length tokens.now))
        (λ x. (d : states.Receiving) → Fails (run parser.end (states.parameter_bracket d) tokens.now) x) }
{
    let (length, after) = open_length(parser, tokens)?;
    let ((columns, rest), length) = keeping(columns(parser, after), length)?;
    Ok((Brackets::new(length, columns), rest))
}

// A parameter, of which the first word was read.
fn parameter<'a>(
    parser: Parser,
    first: Specifier,
    tokens: &'a [Token],
) -> Result<(Parameter, &'a [Token]), ParseError>
    ensures { MatchResult result
        (λ r. ((h : states.Head) (ps : List tree.ParameterTree) →
        run parser.end (states.parameter_specifiers h ps (one first)) tokens.now
        ≡ run parser.end (after_parameter h ps (parameter_tree r.0)) r.1.now)
        × EndsParameter parser.end (parameter_tree r.0) r.1.now
        × (length r.1.now ≤ length tokens.now))
        (λ x. (h : states.Head) (ps : List tree.ParameterTree) →
        Fails (run parser.end (states.parameter_specifiers h ps (one first)) tokens.now) x) }
{
    let (words, rest) = parser.whole_specifiers(first, tokens)?;
    let (name, after_name) = parameter_name(parser, rest);
    let Some((_, after)) = parser.take(after_name, Fixed::OpenBracket) else {
        return Ok((Parameter::new(words, name, None), after_name));
    };
    let ((brackets, last), words) = keeping(brackets(parser, after), words)?;
    Ok((Parameter::new(words, name, Some(brackets)), last))
}

// A function's parameters, after the `(`, and the `)`.
fn parameters<'a>(
    parser: Parser,
    tokens: &'a [Token],
) -> Result<(Vec<Parameter>, &'a [Token]), ParseError>
    ensures { MatchResult result
        (λ r. ((h : states.Head) → run parser.end (states.parameters_open h) tokens.now
        ≡ run parser.end (states.parameters_closed h (parameter_trees r.0.items)) r.1.now)
        × (length r.1.now ≤ length tokens.now))
        (λ x. (h : states.Head) → Fails (run parser.end (states.parameters_open h) tokens.now) x) }
{
    let mut list = Vec::new(parser.alloc);
    if let Some((_, last)) = parser.take(tokens, Fixed::CloseParenthesis) {
        return Ok((list, last));
    }
    let mut rest = tokens;
    loop {
        let Some((word, after)) = parser.specifier(rest) else {
            return Err(ParseError::Syntax {
                at: parser.place(rest),
            });
        };
        let (parameter, next) = parameter(parser, word, after)?;
        if let Some((_, last)) = parser.take(next, Fixed::CloseParenthesis) {
            if !list.is_empty() || !is_void_alone(&parameter) {
                list.push(parameter)?;
            }
            return Ok((list, last));
        }
        let (_, following) = parser.expect(next, Fixed::Comma)?;
        list.push(parameter)?;
        rest = following;
    }
}

// A function's body, or the `;` in place of it.
fn body<'a>(parser: Parser, tokens: &'a [Token]) -> Result<(Option<Block>, &'a [Token]), ParseError>
    ensures { MatchResult result
        (λ r. ((h : states.Head) (ps : List tree.ParameterTree) →
        run parser.end (states.parameters_closed h ps) tokens.now
        ≡ run parser.end (after_function h ps (option_map block_tree r.0)) r.1.now)
        × (length r.1.now ≤ length tokens.now))
        (λ x. (h : states.Head) (ps : List tree.ParameterTree) →
        Fails (run parser.end (states.parameters_closed h ps) tokens.now) x) }
{
    if let Some((_, last)) = parser.take(tokens, Fixed::Semicolon) {
        return Ok((None, last));
    }
    let (open, after) = parser.expect(tokens, Fixed::OpenBrace)?;
    let (block, last) = block(parser, open.at, after, 1)?;
    Ok((Some(block), last))
}

// `static` or `extern`, where it comes first.
fn storage<'a>(parser: Parser, tokens: &'a [Token]) -> (Option<Storage>, &'a [Token])
    ensures reads { (before : List tree.ExternalTree) →
        run parser.end (states.top before) tokens.now ≡ run parser.end (storage_state before result.0) result.1.now }
    ensures rest { MatchOption result.0 ((signs.storage_word (first_of_all parser.end tokens.now).kind ≡ None)
        × (result.1.now ≡ tokens.now)) (λ s. length result.1.now < length tokens.now) }
{
    let Some((token, rest)) = tokens.split_first() else {
        return (None, tokens);
    };
    match storage_word(token.kind) {
        Some(word) => (Some(Storage { word, at: token.at }), rest),
        None => (None, tokens),
    }
}

// The names of a declaration of type names after those that were read, and the `;`.
fn more_names<'a>(
    parser: Parser,
    tokens: &'a [Token],
) -> Result<(Vec<Identifier>, &'a [Token]), ParseError>
    ensures { MatchResult result
        (λ r. ((before : List tree.ExternalTree) (d : tree.TypedefTree) →
        run parser.end (states.after_type_name before d.specifiers d.enumeration d.names) tokens.now
        ≡ run parser.end (after_type_names before (with_names d r.0.items)) r.1.now)
        × (length r.1.now < length tokens.now))
        (λ x. (before : List tree.ExternalTree) (d : tree.TypedefTree) →
        Fails (run parser.end (states.after_type_name before d.specifiers d.enumeration d.names) tokens.now) x) }
{
    let mut list = Vec::new(parser.alloc);
    let mut rest = tokens;
    loop {
        if let Some((_, last)) = parser.take(rest, Fixed::Semicolon) {
            return Ok((list, last));
        }
        let (_, next) = parser.expect(rest, Fixed::Comma)?;
        let (token, after) = parser.expect(next, Fixed::Name)?;
        list.push(identifier(token))?;
        rest = after;
    }
}

// A declaration of type names, after its `typedef`.
fn typedef<'a>(parser: Parser, tokens: &'a [Token]) -> Result<(Typedef, &'a [Token]), ParseError>
    ensures { MatchResult result
        (λ r. ((before : List tree.ExternalTree) → run parser.end (states.after_typedef before) tokens.now
        ≡ run parser.end (after_type_names before (typedef_tree r.0)) r.1.now)
        × (length r.1.now < length tokens.now))
        (λ x. (before : List tree.ExternalTree) →
        Fails (run parser.end (states.after_typedef before) tokens.now) x) }
{
    let Some((word, after_word)) = parser.specifier(tokens) else {
        return Err(ParseError::Syntax {
            at: parser.place(tokens),
        });
    };
    let (words, enumeration, after_words) = type_words(parser, word, after_word, 0)?;
    let ((token, after_name), held) = keeping(
        parser.expect(after_words, Fixed::Name),
        (words, enumeration),
    )?;
    let ((more, last), (words, enumeration)) = keeping(more_names(parser, after_name), held)?;
    let typedef = Typedef::new(parser.alloc, words, enumeration, identifier(token), more)?;
    Ok((typedef, last))
}

// A function, or a declaration of objects, behind the words of its type.
fn specified<'a>(
    parser: Parser,
    storage: Option<Storage>,
    words: Specifiers,
    tokens: &'a [Token],
) -> Result<(External, &'a [Token]), ParseError>
    requires { EndsType parser.end (specifiers_tree words) None tokens.now }
    ensures { MatchResult result
        (λ r. ((before : List tree.ExternalTree) →
        run parser.end (states.after_specifiers (states.outside before storage) (specifiers_tree words)) tokens.now
        ≡ run parser.end (states.top (before ++ external_tree r.0 ∷ [])) r.1.now)
        × (length r.1.now < length tokens.now))
        (λ x. (before : List tree.ExternalTree) →
        Fails (run parser.end (states.after_specifiers (states.outside before storage) (specifiers_tree words))
        tokens.now) x) }
{
    let (token, after_name) = parser.expect(tokens, Fixed::Name)?;
    let name = identifier(token);
    let Some((_, after_open)) = parser.take(after_name, Fixed::OpenParenthesis) else {
        let (declarators, last) = declarators(parser, name, after_name, 0)?;
        let declaration = Declaration::new(parser.alloc, words, None, declarators)?;
        return Ok((External::declaration(storage, declaration), last));
    };
    let (parameters, after_close) = parameters(parser, after_open)?;
    let (body, last) = body(parser, after_close)?;
    let function = Function::new(storage, words, name, parameters, body);
    Ok((External::function(function), last))
}

// A declaration of objects, behind the enumeration that is their type.
fn enumerated<'a>(
    parser: Parser,
    storage: Option<Storage>,
    words: Specifiers,
    enumeration: Enumeration,
    tokens: &'a [Token],
) -> Result<(External, &'a [Token]), ParseError>
    requires { EndsType parser.end (specifiers_tree words) (Some (enumeration_tree enumeration)) tokens.now }
    ensures { MatchResult result
        (λ r. ((before : List tree.ExternalTree) →
        run parser.end (states.after_braces (states.in_declaration (states.outside before storage))
        (specifiers_tree words) (enumeration_tree enumeration)) tokens.now
        ≡ run parser.end (states.top (before ++ external_tree r.0 ∷ [])) r.1.now)
        × (length r.1.now < length tokens.now))
        (λ x. (before : List tree.ExternalTree) →
        Fails (run parser.end (states.after_braces (states.in_declaration (states.outside before storage))
        (specifiers_tree words) (enumeration_tree enumeration)) tokens.now) x) }
{
    let ((declarators, last), enumeration) = keeping(
        declared(parser, true, tokens, 0),
        enumeration,
    )?;
    let declaration = Declaration::new(parser.alloc, words, Some(enumeration), declarators)?;
    Ok((External::declaration(storage, declaration), last))
}

// A function, or a declaration of objects.
fn function_or_objects<'a>(
    parser: Parser,
    tokens: &'a [Token],
) -> Result<(External, &'a [Token]), ParseError>
    requires no_end { (first_of_all parser.end tokens.now).kind ≢ Kind.End }
    requires no_typedef { signs.is_fixed Fixed.Typedef (first_of_all parser.end tokens.now).kind ≡ false }
    ensures { MatchResult result
        (λ r. ((before : List tree.ExternalTree) → run parser.end (states.top before) tokens.now
        ≡ run parser.end (states.top (before ++ external_tree r.0 ∷ [])) r.1.now)
        × (length r.1.now < length tokens.now))
        (λ x. (before : List tree.ExternalTree) → Fails (run parser.end (states.top before) tokens.now) x) }
{
    let (storage, after_storage) = storage(parser, tokens);
    let Some((word, after_word)) = parser.specifier(after_storage) else {
        return Err(ParseError::Syntax {
            at: parser.place(after_storage),
        });
    };
    let (words, enumeration, rest) = type_words(parser, word, after_word, 0)?;
    match enumeration {
        Some(enumeration) => enumerated(parser, storage, words, enumeration, rest),
        None => specified(parser, storage, words, rest),
    }
}

// An external definition.
fn external<'a>(parser: Parser, tokens: &'a [Token]) -> Result<(External, &'a [Token]), ParseError>
    requires { (first_of_all parser.end tokens.now).kind ≢ Kind.End }
    ensures { MatchResult result
        (λ r. ((before : List tree.ExternalTree) → run parser.end (states.top before) tokens.now
        ≡ run parser.end (states.top (before ++ external_tree r.0 ∷ [])) r.1.now)
        × (length r.1.now < length tokens.now))
        (λ x. (before : List tree.ExternalTree) → Fails (run parser.end (states.top before) tokens.now) x) }
{
    let Some((_, after)) = parser.take(tokens, Fixed::Typedef) else {
        return function_or_objects(parser, tokens);
    };
    let (typedef, last) = typedef(parser, after)?;
    Ok((External::type_names(typedef), last))
}

// The external definitions of a text, up to its end.
pub fn externals(parser: Parser, tokens: &[Token]) -> Result<Vec<External>, ParseError>
    ensures { MatchResult result
        (λ list. run parser.end (states.top []) tokens.now ≡ trees (external_trees list.items))
        (λ x. Fails (run parser.end (states.top []) tokens.now) x) }
{
    let mut list = Vec::new(parser.alloc);
    let mut rest = tokens;
    loop {
        if is(parser.kind(rest), Fixed::End) {
            return Ok(list);
        }
        let (external, after) = external(parser, rest)?;
        list.push(external)?;
        rest = after;
    }
}
