// The tokens of a text.

ghost use Rattle.std.specs.Prelude.{◌≡◌, ◌+◌, ◌<◌, ◌≤◌, ◌^◌, length, IfOk, IfErr, MatchResult};
ghost use Rattle.pk_ctypes.specs.Places.{after_bytes};
ghost use Rattle.pk_lex.specs.Steps.{NoWhite, NoToken, IsFirstToken};
ghost use Rattle.pk_lex.specs.Tokens.{IsLexed};
ghost use Rattle.pk_lex.specs.Failures.{lexical_kind, IsRefused};
ghost use Rattle.pk_lex.specs.Laws.{TokensAreDetermined, SpansAreInOrder};

use crate::lines::{at_directive, begins, line_count};
use crate::numbers::at_number;
use crate::token::{Kind, LexError, LexicalKind, Token};
use crate::white::{at_block, white_count};
use crate::words::{kind, word_count};
use pk_ctypes::Pos;
use std::alloc::Global;

// What is wrong where no token begins.
fn wrong(text: &[u8]) -> LexicalKind
    ensures { result ≡ lexical_kind text.now }
{
    if at_block(text) {
        LexicalKind::Comment
    } else if begins(text, b'\'') {
        LexicalKind::Char
    } else if begins(text, b'"') {
        LexicalKind::String
    } else if at_number(text) {
        LexicalKind::Constant
    } else {
        LexicalKind::Byte
    }
}

// The kind of the token that begins at a place, and how many bytes it has.
fn token_at(front: &[u8], text: &[u8]) -> Result<(usize, Kind), LexicalKind>
    requires { NoWhite front.now text.now }
    ensures { MatchResult result (λ t. IsFirstToken front.now text.now t.0 t.1)
        (λ k. NoToken front.now text.now × (k ≡ lexical_kind text.now)) }
{
    if at_directive(front, text) {
        return Ok((line_count(text), Kind::Directive));
    }
    if at_block(text) {
        return Err(LexicalKind::Comment);
    }
    let Some(count) = word_count(text) else {
        return Err(wrong(text));
    };
    match kind(text.split_at(count).0) {
        Some(kind) => Ok((count, kind)),
        None => Err(wrong(text)),
    }
}

// The place after some bytes.
fn after(at: Pos, bytes: &[u8]) -> Pos
    requires line { at.line + length bytes.now < 2 ^ 64 }
    requires column { at.column + length bytes.now < 2 ^ 64 }
    ensures place { result ≡ after_bytes at bytes.now }
    ensures line_bound { result.line ≤ at.line + length bytes.now }
    ensures column_bound { result.column ≤ at.column + length bytes.now }
{
    let mut line = at.line;
    let mut column = at.column;
    for b in bytes {
        if *b == b'\n' {
            line += 1;
            column = 1;
        } else {
            column += 1;
        }
    }
    Pos { line, column }
}

/// The tokens of a text, and after them one of kind `End`; else the earliest place where no token begins.
pub fn lex(alloc: Global, text: &[u8]) -> Result<Vec<Token>, LexError>
    ensures tokens { IfOk result (λ tokens. IsLexed text.now tokens.items) }
    ensures refused { IfErr result (IsRefused text.now) }
{
    let mut tokens = Vec::new(alloc);
    let mut at = Pos { line: 1, column: 1 };
    let mut start = 0;
    while start < text.len() {
        let (front, rest) = text.split_at(start);
        if let Some(count) = white_count(front, rest) {
            at = after(at, rest.split_at(count).0);
            start += count;
            continue;
        }
        let (count, kind) = match token_at(front, rest) {
            Ok(found) => found,
            Err(kind) => return Err(LexError::Lexical { kind, at }),
        };
        let end = start + count;
        if tokens
            .push(Token {
                kind,
                start,
                end,
                at,
            })
            .is_err()
        {
            return Err(LexError::Memory);
        }
        at = after(at, rest.split_at(count).0);
        start = end;
    }
    let end = Token {
        kind: Kind::End,
        start,
        end: start,
        at,
    };
    if tokens.push(end).is_err() {
        return Err(LexError::Memory);
    }
    Ok(tokens)
}

/// A text is at most one list of tokens, or fails at most at one place, and not both.
pub fn tokens_are_determined()
    ensures { TokensAreDetermined }
{}

/// The span of each token lies in the text, and begins where the one before it ends or later.
pub fn spans_are_in_order()
    ensures { SpansAreInOrder }
{}
