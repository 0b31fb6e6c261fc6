// The type names of a text are marked.

ghost use Rattle.std.specs.Prelude.{◌≡◌, ◌↔◌, ◌⊎◌, ◌&&◌, [], OnOk, true, option_map, if◌then◌else◌};
ghost use Rattle.pk_typenames.specs.Steps as steps;
ghost use Rattle.pk_typenames.specs.TypeNames.{spelled, IsEnd, as_type_name, AreMarked};

use crate::spellings::Spellings;
use pk_constructs::braces_after;
use pk_lex::{Keyword, Kind, Punctuator, Token};
use std::alloc::{AllocError, Global};

// The bytes of a token in its text.
fn spelling(text: &[u8], token: Token) -> &[u8]
    ensures { result.now ≡ spelled text.now token }
{
    if token.start <= token.end && token.end <= text.len() {
        &text[token.start..token.end]
    } else {
        &text[..0]
    }
}

fn is_name(kind: Kind) -> bool
    ensures { (result ≡ true) ↔ (kind ≡ Kind.Name) }
{
    match kind {
        Kind::Name => true,
        _ => false,
    }
}

fn is_end(kind: Kind) -> bool
    ensures { (result ≡ true) ↔ IsEnd kind }
{
    match kind {
        Kind::Punctuator(Punctuator::Comma | Punctuator::Semicolon) => true,
        _ => false,
    }
}

// Whether a typedef is open after a token that stands outside all braces, or inside.
fn open_after(was: bool, outside: bool, kind: Kind) -> bool
    ensures { steps.OpenStep kind outside was result }
{
    match kind {
        Kind::Keyword(Keyword::Typedef) if outside => true,
        Kind::Punctuator(Punctuator::Semicolon) if outside => false,
        _ => was,
    }
}

fn is_outside(braces: usize) -> bool
    ensures { (result ≡ true) ↔ (braces ≡ 0) }
{
    braces == 0
}

// The name that a `,` or a `;` would declare next.
fn pending_after<'a>(named: bool, within: bool, outside: bool, name: &'a [u8]) -> Option<&'a [u8]>
    ensures { option_map (λ n. n.now) result ≡ steps.pending_after (named && within && outside) name.now }
{
    if named && within && outside {
        Some(name)
    } else {
        None
    }
}

// A token as the grammar sees it.
fn marked(token: Token, is_type_name: bool) -> Token
    ensures { result ≡ (if is_type_name then as_type_name token else token) }
{
    if is_type_name {
        Token {
            kind: Kind::TypeName,
            ..token
        }
    } else {
        token
    }
}

/// Marks the type names of a text, in place: each token stays the same but for its kind.
pub fn mark(alloc: Global, text: &[u8], tokens: &mut [Token]) -> Result<(), AllocError>
    ensures { OnOk result (AreMarked text.now [] tokens.old tokens.new) }
{
    let mut types = Spellings::new(alloc);
    let mut braces = 0;
    let mut within = false;
    let mut pending: Option<&[u8]> = None;
    for i in 0..tokens.len() {
        let token = tokens[i];
        let name = spelling(text, token);
        let named = is_name(token.kind);
        let known = types.has(named, name);
        types.note(is_end(token.kind), pending)?;
        let outside = is_outside(braces);
        pending = pending_after(named, within, outside, name);
        within = open_after(within, outside, token.kind);
        braces = braces_after(braces, token.kind);
        tokens[i] = marked(token, known);
    }
    Ok(())
}
