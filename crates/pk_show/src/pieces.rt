// Pieces of lines.

ghost use Rattle.std.specs.Prelude.{◌≡◌, ◌^◌, ◌<◌, ℕ, MatchOption, IfSome, None, Some, length};
ghost use Rattle.std.specs.Fmt.{decimal};
ghost use Rattle.std.specs.List.{list_all};
ghost use Rattle.pk_lex.specs.Bytes.{is_letter, is_part, begins_with, same};
ghost use Rattle.pk_show.specs.Pieces.{strip, field_of, cut, magnitude_in, count_in, signed_in, is_identifier, negated, place_in, fault_in};

use itoa::Buffer;
use pk_ctypes::{Fault, Pos};

/// Whether these are the same bytes.
pub fn is_same(text: &[u8], other: &[u8]) -> bool
    ensures { result ≡ same text.now other.now }
{
    text == other
}

/// What stands behind a literal that a text begins with.
#[tactic(auto, unfolding(crate::specs::Pieces::strip))]
pub fn strip<'t>(text: &'t [u8], literal: &[u8]) -> Option<&'t [u8]>
    ensures { MatchOption result (strip literal.now text.now ≡ None)
        (λ rest. strip literal.now text.now ≡ Some rest.now) }
{
    text.strip_prefix(literal)
}

/// Whether this is the first byte.
pub fn is_first(literal: &[u8], b: u8) -> bool
    ensures { result ≡ begins_with b literal.now }
{
    match literal {
        [] => false,
        [first, ..] => *first == b,
    }
}

fn field_count(text: &[u8], literal: &[u8]) -> usize
    ensures { result ≡ length (field_of literal.now text.now) }
{
    text.iter().take_while(|b| !is_first(literal, **b)).count()
}

/// The field before a literal, and what stands behind it.
#[tactic(auto, unfolding(crate::specs::Pieces::cut))]
pub(crate) fn cut<'t>(text: &'t [u8], literal: &[u8]) -> Option<(&'t [u8], &'t [u8])>
    ensures { MatchOption result (cut literal.now text.now ≡ None)
        (λ p. cut literal.now text.now ≡ Some (p.0.now, p.1.now)) }
{
    let (field, rest) = text.split_at(field_count(text, literal));
    match strip(rest, literal) {
        Some(behind) => Some((field, behind)),
        None => None,
    }
}

fn is_written(number: u128, text: &[u8]) -> bool
    ensures { result ≡ same (decimal number) text.now }
{
    let mut buffer = Buffer::new();
    is_same(buffer.format(number).as_bytes(), text)
}

// The number of a numeral: whether it is written so isn't told.
fn parsed(text: &[u8]) -> Option<u128>
    ensures { (n : ℕ) → n < 2 ^ 127 → text.now ≡ decimal n → result ≡ Some n }
{
    match std::str::from_utf8(text) {
        Ok(text) => match text.parse::<u128>() {
            Ok(number) => Some(number),
            Err(_) => None,
        },
        Err(_) => None,
    }
}

// The number whose decimal digits a text is.
fn magnitude(text: &[u8]) -> Option<u128>
    ensures value { result ≡ magnitude_in text.now }
    ensures small { IfSome result (λ n. n < 2 ^ 127) }
{
    let number = parsed(text)?;
    if number < 1 << 127 && is_written(number, text) {
        Some(number)
    } else {
        None
    }
}

/// The count that a text is.
#[tactic(auto, unfolding(crate::specs::Pieces::count_in))]
pub fn count(text: &[u8]) -> Option<u64>
    ensures { result ≡ count_in text.now }
{
    let number = magnitude(text)?;
    if number < 1 << 64 {
        Some(number as u64)
    } else {
        None
    }
}

fn negated(number: u128) -> Option<i128>
    requires { number < 2 ^ 127 }
    ensures { result ≡ negated number }
{
    if number == 0 {
        None
    } else {
        Some(-(number as i128))
    }
}

/// The number that a text is.
#[tactic(auto, unfolding(crate::specs::Pieces::signed_in))]
pub fn signed(text: &[u8]) -> Option<i128>
    ensures { result ≡ signed_in text.now }
{
    if is_first(text, b'-') {
        negated(magnitude(&text[1..])?)
    } else {
        Some(magnitude(text)? as i128)
    }
}

fn is_letter_byte(b: u8) -> bool
    ensures { result ≡ is_letter b }
{
    (b'a' <= b && b <= b'z') || (b'A' <= b && b <= b'Z') || b == b'_'
}

/// Whether a byte may stand in an identifier.
pub fn is_part_byte(b: u8) -> bool
    ensures { result ≡ is_part b }
{
    is_letter_byte(b) || (b'0' <= b && b <= b'9')
}

fn are_parts(text: &[u8]) -> bool
    ensures { result ≡ list_all is_part text.now }
{
    text.iter().all(|b| is_part_byte(*b))
}

/// Whether a text is an identifier.
#[tactic(auto, unfolding(crate::specs::Pieces::is_identifier))]
pub fn is_name(text: &[u8]) -> bool
    ensures { result ≡ is_identifier text.now }
{
    match text {
        [] => false,
        [first, rest @ ..] => is_letter_byte(*first) && are_parts(rest),
    }
}

/// The place that two texts are.
#[tactic(auto, unfolding(crate::specs::Pieces::place_in))]
pub(crate) fn place(line: &[u8], column: &[u8]) -> Option<Pos>
    ensures { result ≡ place_in line.now column.now }
{
    let line = count(line)?;
    let column = count(column)?;
    Some(Pos { line, column })
}

/// The fault whose word a text is.
#[tactic(auto, unfolding(crate::specs::Pieces::fault_in))]
pub(crate) fn fault(text: &[u8]) -> Option<Fault>
    ensures { result ≡ fault_in text.now }
{
    if is_same(text, b"index") {
        Some(Fault::Index)
    } else if is_same(text, b"divzero") {
        Some(Fault::DivZero)
    } else if is_same(text, b"overflow") {
        Some(Fault::Overflow)
    } else if is_same(text, b"shift") {
        Some(Fault::Shift)
    } else if is_same(text, b"assert") {
        Some(Fault::Assert)
    } else {
        None
    }
}
