// The names of files, as markers spell them.

ghost use Rattle.std.specs.Prelude.{◌≡◌, IfOk};
ghost use Rattle.std.specs.List.{list_all};
ghost use Rattle.std.specs.Option.{option_map};
ghost use Rattle.pk_lex.specs.Bytes.{is_digit};
ghost use Rattle.pk_origin.specs.Markers.{is_octal, escaped, meaning, is_flag, name_from};
ghost use Rattle.pk_origin.specs.declared.names.Spelled.TheVariants.{Plain};

use crate::comments::is_blank_byte;
use std::alloc::{AllocError, Global};

/// Where a place in a spelled name stands.
#[derive(Clone, Copy)]
pub(crate) enum Spelled {
    Plain,
    /// Behind a backslash.
    Escaped,
    /// Behind digits of base 8 that write this number, with so many left.
    Digits(u8, u8),
}

/// What a byte of a spelled name means.
#[derive(Clone, Copy)]
pub(crate) enum Meant {
    Ends,
    Fails,
    Gives(u8),
    Goes(Spelled),
}

fn is_octal_digit(b: u8) -> bool
    ensures { result ≡ is_octal b }
{
    b'0' <= b && b <= b'7'
}

fn unescaped(b: u8) -> u8
    ensures { result ≡ escaped b }
{
    if b == b'n' {
        b'\n'
    } else if b == b't' {
        b'\t'
    } else {
        b
    }
}

fn meaning(state: Spelled, b: u8) -> Meant
    ensures { result ≡ meaning state b }
{
    match state {
        Spelled::Plain => {
            if b == b'"' {
                Meant::Ends
            } else if b == b'\\' {
                Meant::Goes(Spelled::Escaped)
            } else {
                Meant::Gives(b)
            }
        }
        Spelled::Escaped => {
            if is_octal_digit(b) {
                Meant::Goes(Spelled::Digits(2, b - b'0'))
            } else {
                Meant::Gives(unescaped(b))
            }
        }
        Spelled::Digits(left, n) => {
            if is_octal_digit(b) && n < 32 {
                if left == 1 {
                    Meant::Gives(8 * n + (b - b'0'))
                } else {
                    Meant::Goes(Spelled::Digits(1, 8 * n + (b - b'0')))
                }
            } else {
                Meant::Fails
            }
        }
    }
}

/// Whether a byte is a digit.
pub(crate) fn is_digit_byte(b: u8) -> bool
    ensures { result ≡ is_digit b }
{
    b'0' <= b && b <= b'9'
}

fn are_flags(text: &[u8]) -> bool
    ensures { result ≡ list_all is_flag text.now }
{
    text.iter().all(|b| is_blank_byte(*b) || is_digit_byte(*b))
}

/// The name that a text spells up to its closing quote, behind which only flags stand.
pub(crate) fn name(alloc: Global, text: &[u8]) -> Result<Option<Vec<u8>>, AllocError>
    ensures { IfOk result (λ name. option_map (λ n. n.items) name ≡ name_from text.now Plain) }
{
    let mut name = Vec::new(alloc);
    let mut state = Spelled::Plain;
    for k in 0..text.len() {
        match meaning(state, text[k]) {
            Meant::Ends => {
                if are_flags(&text[k + 1..]) {
                    return Ok(Some(name));
                }
                return Ok(None);
            }
            Meant::Fails => return Ok(None),
            Meant::Gives(b) => {
                name.push(b)?;
                state = Spelled::Plain;
            }
            Meant::Goes(next) => state = next,
        }
    }
    Ok(None)
}
