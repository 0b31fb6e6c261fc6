// Line markers.

ghost use Rattle.std.specs.Prelude.{◌≡◌, ◌<◌, ◌^◌, IfOk, IfSome, length};
ghost use Rattle.std.specs.List.{take_while};
ghost use Rattle.std.specs.Option.{option_map};
ghost use Rattle.pk_lex.specs.Bytes.{is_digit};
ghost use Rattle.pk_origin.specs.Markers.{number_of, name_of, marker_behind, marker_in};

use crate::comments::after_blanks;
use crate::names::{is_digit_byte, name};
use std::alloc::{AllocError, Global};
use std::marker::Model;

/// What a line marker says: the number of the next line and the name of its file.
#[derive(Drop)]
pub struct Marker {
    pub line: u64,
    pub file: Vec<u8>,
}

impl Model for Marker {
    ghost use Rattle.pk_origin.specs.Markers.{MarkerOf};

    ghost Value = { MarkerOf };

    ghost view = { λ m. record { line = m.line; file = m.file.items } };
}

// The number that these digits write, where it is less than 2^31.
fn number(digits: &[u8]) -> Option<u64>
    ensures value { result ≡ number_of digits.now }
    ensures small { IfSome result (λ n. n < 2 ^ 31) }
{
    if digits.is_empty() {
        return None;
    }
    let mut n = 0u64;
    for b in digits {
        let next = 10 * n + b.saturating_sub(b'0') as u64;
        if next >= 2147483648 {
            return None;
        }
        n = next;
    }
    Some(n)
}

fn digit_count(text: &[u8]) -> usize
    ensures { result ≡ length (take_while is_digit text.now) }
{
    text.iter().take_while(|b| is_digit_byte(**b)).count()
}

// The name behind an opening quote.
fn quoted(alloc: Global, text: &[u8]) -> Result<Option<Vec<u8>>, AllocError>
    ensures { IfOk result (λ name. option_map (λ n. n.items) name ≡ name_of text.now) }
{
    match text {
        [] => Ok(None),
        [b, rest @ ..] => {
            if *b == b'"' {
                name(alloc, rest)
            } else {
                Ok(None)
            }
        }
    }
}

// What stands behind the `#`.
fn behind_mark(alloc: Global, text: &[u8]) -> Result<Option<Marker>, AllocError>
    ensures value { IfOk result (λ marker. marker ≡ marker_behind text.now) }
    ensures small { IfOk result (λ marker. IfSome marker (λ m. m.line < 2 ^ 31)) }
{
    let (digits, rest) = text.split_at(digit_count(text));
    let Some(line) = number(digits) else {
        return Ok(None);
    };
    match quoted(alloc, after_blanks(rest))? {
        Some(file) => Ok(Some(Marker { line, file })),
        None => Ok(None),
    }
}

/// What a line says, where it is a line marker.
pub fn read_marker(alloc: Global, line: &[u8]) -> Result<Option<Marker>, AllocError>
    ensures value { IfOk result (λ marker. marker ≡ marker_in line.now) }
    ensures small { IfOk result (λ marker. IfSome marker (λ m. m.line < 2 ^ 31)) }
{
    match after_blanks(line) {
        [] => Ok(None),
        [b, rest @ ..] => {
            if *b == b'#' {
                behind_mark(alloc, after_blanks(rest))
            } else {
                Ok(None)
            }
        }
    }
}
