// Words: the longest at a place, and what it is.

ghost use Rattle.std.specs.Prelude.{◌≡◌, ◌≤◌, ◌↔◌, length, take, IsTrue, MatchOption, is_some};
ghost use Rattle.pk_lex.specs.Tables.{punctuator_of};
ghost use Rattle.pk_lex.specs.Words.{is_word, IsLongest, BeginsNone};
ghost use Rattle.pk_lex.specs.Numbers.{constant_of};
ghost use Rattle.pk_lex.specs.Kinds.{number_kind, kind_of};

use crate::bytes::{letter, split};
use crate::characters::{character, character_count, string_count};
use crate::lines::part_count;
use crate::numbers::{Constant, at_number, floating, integer, number_count};
use crate::tables::{keyword, punctuator};
use crate::token::Kind;

// Whether the first n bytes of a text are a punctuator.
fn is_punctuator(text: &[u8], n: usize) -> bool
    ensures { IsTrue result ↔ ((n ≤ length text.now) × IsTrue (is_some (punctuator_of (take n text.now)))) }
{
    n <= text.len() && punctuator(&text[..n]).is_some()
}

// How many bytes the longest punctuator has that begins a text.
fn punctuator_count(text: &[u8]) -> Option<usize>
    ensures { MatchOption result (BeginsNone (λ w. is_some (punctuator_of w)) text.now)
        (λ n. IsLongest (λ w. is_some (punctuator_of w)) text.now n) }
{
    if is_punctuator(text, 3) {
        Some(3)
    } else if is_punctuator(text, 2) {
        Some(2)
    } else if is_punctuator(text, 1) {
        Some(1)
    } else {
        None
    }
}

// How many bytes the longest word has that begins a text.
pub(crate) fn word_count(text: &[u8]) -> Option<usize>
    ensures { MatchOption result (BeginsNone is_word text.now) (λ n. IsLongest is_word text.now n) }
{
    let Some((b, rest)) = split(text) else {
        return None;
    };
    if letter(b) {
        Some(1 + part_count(rest))
    } else if at_number(text) {
        Some(number_count(text))
    } else if b == b'\'' {
        character_count(text)
    } else if b == b'"' {
        string_count(text)
    } else {
        punctuator_count(text)
    }
}

// What a number is.
fn kind_of_number(number: &[u8]) -> Option<Kind>
    ensures { result ≡ number_kind number.now (constant_of number.now) }
{
    match integer(number) {
        Some(Constant { value, ty }) => Some(Kind::Constant { ty, value }),
        None => {
            if floating(number) {
                Some(Kind::Floating)
            } else {
                None
            }
        }
    }
}

// What a word is.
pub(crate) fn kind(word: &[u8]) -> Option<Kind>
    requires { IsTrue (is_word word.now) }
    ensures { result ≡ kind_of word.now }
{
    let Some((b, _)) = split(word) else {
        return None;
    };
    if letter(b) {
        match keyword(word) {
            Some(k) => Some(Kind::Keyword(k)),
            None => Some(Kind::Name),
        }
    } else if at_number(word) {
        kind_of_number(word)
    } else if b == b'\'' {
        match character(word) {
            Some(value) => Some(Kind::Character(value)),
            None => None,
        }
    } else if b == b'"' {
        Some(Kind::StringLiteral)
    } else {
        match punctuator(word) {
            Some(p) => Some(Kind::Punctuator(p)),
            None => None,
        }
    }
}
