// Character constants and strings.

ghost use Rattle.std.specs.Prelude.{◌≡◌, false, pos, length, MatchOption, IfSome, FitsSigned};
ghost use Rattle.std.specs.Int.{w8};
ghost use Rattle.std.specs.List.{list_all, take_while};
ghost use Rattle.pk_ctypes.specs.declared.types.IntType.TheVariants.{Char};
ghost use Rattle.pk_ctypes.specs.Types.{wrapped};
ghost use Rattle.pk_lex.specs.Bytes.{is_digit_of};
ghost use Rattle.pk_lex.specs.Words.{IsLongest, BeginsNone};
ghost use Rattle.pk_lex.specs.Steps.{is_unquoted, quote_after_escape, quote_at};
ghost use Rattle.pk_lex.specs.Characters.{octal_code, hexadecimal_code, escape_code, code_of, between_quotes, is_character, character_of, is_rest_of_string, is_string};

use crate::bytes::{digit_of, hexadecimal_digit, split, value_of_digit};
use crate::numbers::value;
use pk_ctypes::look_up;

const SIMPLE_ESCAPES: [(&[u8], u8); 11] = [
    (b"'", 39),
    (b"\"", 34),
    (b"?", 63),
    (b"\\", 92),
    (b"a", 7),
    (b"b", 8),
    (b"f", 12),
    (b"n", 10),
    (b"r", 13),
    (b"t", 9),
    (b"v", 11),
];

fn are_octal_digits(bytes: &[u8]) -> bool
    ensures { result ≡ list_all (is_digit_of 8) bytes.now }
{
    bytes.iter().all(|b| digit_of(8, *b))
}

fn code_of_octal(digits: &[u8]) -> Option<u8>
    ensures { result ≡ octal_code digits.now }
{
    if 3 < digits.len() || !are_octal_digits(digits) {
        return None;
    }
    match value(8, digits) {
        Some(code) if code <= 255 => Some(code as u8),
        _ => None,
    }
}

fn code_of_hexadecimal(digits: &[u8]) -> Option<u8>
    ensures { result ≡ hexadecimal_code digits.now }
{
    match digits {
        [a] if hexadecimal_digit(*a) => Some(value_of_digit(*a) as u8),
        [a, b] if hexadecimal_digit(*a) && hexadecimal_digit(*b) => {
            Some((value_of_digit(*a) * 16 + value_of_digit(*b)) as u8)
        }
        _ => None,
    }
}

// The code that a backslash and these bytes stand for.
fn code_of_escape(bytes: &[u8]) -> Option<u8>
    ensures { result ≡ escape_code bytes.now }
{
    let (b, rest) = split(bytes)?;
    if digit_of(8, b) {
        code_of_octal(bytes)
    } else if b == b'x' {
        code_of_hexadecimal(rest)
    } else {
        look_up(&SIMPLE_ESCAPES, bytes)
    }
}

// The code of what stands between quotes.
fn code(inside: &[u8]) -> Option<u8>
    ensures { result ≡ code_of inside.now }
{
    let (b, rest) = split(inside)?;
    if b == b'\\' {
        code_of_escape(rest)
    } else if 32 <= b && b <= 126 && b != b'\'' && rest.is_empty() {
        Some(b)
    } else {
        None
    }
}

fn inside(word: &[u8]) -> &[u8]
    ensures { result.now ≡ between_quotes word.now }
{
    match word {
        [_, rest @ .., _] => rest,
        _ => &word[..0],
    }
}

// A code converted to char.
fn char_of(code: u8) -> i8
    ensures { result ≡ wrapped Char (pos code) }
{
    if code < 128 {
        code as i8
    } else {
        (code as i16 - 256) as i8
    }
}

// The value of a character constant.
#[tactic(auto, unfolding(crate::specs::Characters::character_of))]
pub(crate) fn character(word: &[u8]) -> Option<i8>
    ensures value { result ≡ character_of word.now }
    ensures fits { IfSome result (λ value. FitsSigned w8 value) }
{
    let Some(code) = code(inside(word)) else {
        return None;
    };
    Some(char_of(code))
}

fn unquoted_count(text: &[u8]) -> usize
    ensures { result ≡ length (take_while is_unquoted text.now) }
{
    text.iter().take_while(|b| **b != b'\'').count()
}

fn after_escape(text: &[u8]) -> usize
    ensures { result ≡ quote_after_escape text.now }
{
    match split(text) {
        None => 0,
        Some((_, rest)) => 1 + unquoted_count(rest),
    }
}

// How many bytes there are up to the quote that may close a character constant.
fn quote_count(text: &[u8]) -> usize
    ensures { result ≡ quote_at text.now }
{
    match split(text) {
        None => 0,
        Some((b, rest)) => {
            if b == b'\\' {
                1 + after_escape(rest)
            } else {
                unquoted_count(text)
            }
        }
    }
}

// How many bytes the character constant has that begins a text.
pub(crate) fn character_count(text: &[u8]) -> Option<usize>
    ensures { MatchOption result (BeginsNone is_character text.now) (λ n. IsLongest is_character text.now n) }
{
    let Some((b, rest)) = split(text) else {
        return None;
    };
    if b != b'\'' {
        return None;
    }
    let count = quote_count(rest);
    if rest.len() <= count {
        return None;
    }
    if rest[count] != b'\'' {
        return None;
    }
    if code(rest.split_at(count).0).is_some() {
        Some(count + 2)
    } else {
        None
    }
}

// How many bytes there are up to the quote that closes a string, with it.
fn close_count(text: &[u8]) -> Option<usize>
    ensures { MatchOption result (BeginsNone (is_rest_of_string false) text.now)
        (λ n. IsLongest (is_rest_of_string false) text.now n) }
{
    let mut escaped = false;
    for (i, b) in text.iter().enumerate() {
        if *b == b'\n' {
            return None;
        }
        if escaped {
            escaped = false;
        } else if *b == b'"' {
            return Some(i + 1);
        } else {
            escaped = *b == b'\\';
        }
    }
    None
}

// How many bytes the string has that begins a text.
pub(crate) fn string_count(text: &[u8]) -> Option<usize>
    ensures { MatchOption result (BeginsNone is_string text.now) (λ n. IsLongest is_string text.now n) }
{
    let Some((b, rest)) = split(text) else {
        return None;
    };
    if b != b'"' {
        return None;
    }
    let Some(count) = close_count(rest) else {
        return None;
    };
    Some(count + 1)
}
