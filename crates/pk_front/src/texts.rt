// The way of a text to its call paths.

ghost use Rattle.std.specs.Prelude.{◌≡◌, ℕ, List, Ok, IfOk, IfErr};
ghost use Rattle.pk_calls.specs.Answers.{IsAnswer};
ghost use Rattle.pk_lex.specs.Tokens.{IsLexed};
ghost use Rattle.pk_ast.specs.Views as ast;
ghost use Rattle.pk_typed.specs.Views.{unit_tree};
ghost use Rattle.pk_front.specs.Texts.{HasTokens, HasTrees, HasUnit, HasPaths, IsLeft};

use crate::failures::{Refusal, TextError};
use pk_ast::Unit;
use pk_calls::{CallError, Paths, paths};
use pk_ctypes::Quantity;
use pk_grammar::ParseError;
use pk_lex::{LexError, Token, lex};
use pk_parse::parse;
use pk_type::check;
use pk_typed as typed;
use pk_typenames::mark;
use std::alloc::Global;

// The tokens of a text.
fn tokens_of(alloc: Global, text: &[u8]) -> Result<Vec<Token>, TextError>
    ensures lexed { IfOk result (λ tokens. IsLexed text.now tokens.items) }
    ensures left { (entry : List ℕ) → IfErr result (IsLeft text.now entry) }
{
    match lex(alloc, text) {
        Ok(tokens) => Ok(tokens),
        Err(LexError::Lexical { kind, at }) => Err(TextError::Refused(Refusal::Lexical {
            kind,
            at,
        })),
        Err(LexError::Memory) => Err(TextError::Memory),
    }
}

// The tokens of a text, with its type names marked.
fn marked_of(alloc: Global, text: &[u8]) -> Result<Vec<Token>, TextError>
    ensures read { IfOk result (λ tokens. HasTokens text.now tokens.items) }
    ensures left { (entry : List ℕ) → IfErr result (IsLeft text.now entry) }
{
    let mut tokens = tokens_of(alloc, text)?;
    mark(alloc, text, &mut tokens)?;
    Ok(tokens)
}

// The trees of a text.
fn trees_of(alloc: Global, text: &[u8]) -> Result<Unit, TextError>
    ensures parsed { IfOk result (λ unit. HasTrees text.now (ast.unit_tree unit)) }
    ensures left { (entry : List ℕ) → IfErr result (IsLeft text.now entry) }
{
    let tokens = marked_of(alloc, text)?;
    pk_parse::tokens_are_ended();
    match parse(alloc, &tokens) {
        Ok(unit) => Ok(unit),
        Err(ParseError::Unsupported { construct, at }) => {
            Err(TextError::Refused(Refusal::Unsupported { construct, at }))
        }
        Err(ParseError::Syntax { at }) => Err(TextError::Refused(Refusal::Syntax { at })),
        Err(ParseError::Nesting { .. }) => Err(TextError::Limit {
            what: Quantity::Nesting,
            number: 128,
        }),
        Err(ParseError::Memory) => Err(TextError::Memory),
    }
}

// The typed tree of a text.
fn unit_of(alloc: Global, text: &[u8]) -> Result<typed::Unit, TextError>
    ensures typed { IfOk result (λ unit. HasUnit text.now (unit_tree unit)) }
    ensures left { (entry : List ℕ) → IfErr result (IsLeft text.now entry) }
{
    let unit = trees_of(alloc, text)?;
    match check(alloc, text, &unit) {
        Ok(unit) => Ok(unit),
        Err(pk_type::Refusal::Type { rule, at }) => {
            Err(TextError::Refused(Refusal::Typing { rule, at }))
        }
        Err(pk_type::Refusal::Memory) => Err(TextError::Memory),
    }
}

// The call paths of a unit.
fn paths_of(alloc: Global, unit: &typed::Unit, entry: &str) -> Result<Paths, TextError>
    ensures called { IfOk result (λ paths. IsAnswer (unit_tree unit.now) entry.now (Ok paths)) }
    ensures left { (text : List ℕ) → HasUnit text (unit_tree unit.now) → IfErr result (IsLeft text entry.now) }
{
    match paths(alloc, unit, entry) {
        Ok(paths) => Ok(paths),
        Err(CallError::NoEntry { name }) => Err(TextError::Refused(Refusal::NoEntry { name })),
        Err(CallError::Recursion { cycle }) => Err(TextError::Refused(Refusal::Recursion {
            cycle,
        })),
        Err(CallError::UndefinedCall { name, at }) => {
            Err(TextError::Refused(Refusal::UndefinedCall { name, at }))
        }
        Err(CallError::Limit { what, number }) => Err(TextError::Limit { what, number }),
        Err(CallError::Memory) => Err(TextError::Memory),
    }
}

/// The typed tree of a text and its call paths from an entry, or why the text is refused.
pub fn front(alloc: Global, text: &[u8], entry: &str) -> Result<(typed::Unit, Paths), TextError>
    ensures paths { IfOk result (λ r. HasPaths text.now entry.now (unit_tree r.0) r.1) }
    ensures left { IfErr result (IsLeft text.now entry.now) }
{
    let unit = unit_of(alloc, text)?;
    let paths = paths_of(alloc, &unit, entry)?;
    Ok((unit, paths))
}
