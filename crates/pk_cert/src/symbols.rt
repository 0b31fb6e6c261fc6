// The symbols of a line.

ghost use Rattle.std.specs.Prelude.{◌≡◌, ◌^◌, ◌-◌, ◌<◌, ◌≤◌, MatchResult, Some, length, slice_index, neg_ℤ, pos, if◌then◌else◌};
ghost use Rattle.pk_cert.specs.Beginnings.{TextsOf, IsStop};
ghost use Rattle.pk_cert.specs.Pieces.{value_of, IsDecimal, IsSymbolRead, BeginsAsNumber};
ghost use Rattle.pk_cert.specs.Rows.{IsSymbol, ended_text, end_of, seen};

use crate::numbers::{Decimal, count};
use crate::pieces::literal;
use crate::rows::Symbol;

// The greatest number of 39 digits.
fn longest() -> Decimal
    ensures is { IsDecimal result }
    ensures value { value_of result ≡ 10 ^ 39 - 1 }
    ensures some { 1 ≤ result.tens }
{
    Decimal {
        tens: 99_999_999_999_999_999_999_999_999_999_999_999_999,
        last: 9,
    }
}

// A number, with its sign or without.
fn seen(number: Decimal, negative: bool) -> Symbol
    requires { IsDecimal number }
    ensures { result ≡ seen (Some (if negative then neg_ℤ (pos (value_of number)) else pos (value_of number))) }
{
    let tens = 17_014_118_346_046_923_173_168_730_371_588_410_572;
    if number.tens > tens || (number.tens == tens && number.last > 7) {
        return Symbol::Far;
    }
    let value = (number.tens * 10 + number.last as u128) as i128;
    if negative {
        Symbol::Number(-value)
    } else {
        Symbol::Number(value)
    }
}

/// What ends a symbol behind which so many others stand: a space, or the line's end.
pub(crate) fn end_of(behind: usize) -> u8
    ensures { result ≡ end_of behind }
{
    if behind == 0 { b'\n' } else { b' ' }
}

// A `*`.
fn star(bytes: &[u8], bounds: usize, behind: usize) -> Result<(Symbol, usize), usize>
    requires star { behind < bounds }
    requires first { slice_index bytes.now 0 ≡ 42 }
    ensures { MatchResult result (λ r. IsSymbolRead bounds behind bytes.now r.0 r.1)
        (λ n. IsStop (TextsOf (IsSymbol bounds behind) (ended_text behind)) bytes.now n) }
{
    match literal(bytes, &[b'*', end_of(behind)]) {
        Ok(()) => Ok((Symbol::Star, 2)),
        Err(n) => Err(n),
    }
}

// A number below 0.
fn negative(bytes: &[u8], bounds: usize, behind: usize) -> Result<(Symbol, usize), usize>
    requires some { 0 < length bytes.now }
    requires first { slice_index bytes.now 0 ≡ 45 }
    ensures { MatchResult result (λ r. IsSymbolRead bounds behind bytes.now r.0 r.1)
        (λ n. IsStop (TextsOf (IsSymbol bounds behind) (ended_text behind)) bytes.now n) }
{
    match count(&bytes[1..], 1, longest(), end_of(behind)) {
        Ok((number, n)) => Ok((seen(number, true), n + 1)),
        Err(n) => Err(n + 1),
    }
}

// A number without a sign, where no `-` stands first, nor a `*` that could.
fn positive(bytes: &[u8], bounds: usize, behind: usize) -> Result<(Symbol, usize), usize>
    requires { BeginsAsNumber bounds behind bytes.now }
    ensures { MatchResult result (λ r. IsSymbolRead bounds behind bytes.now r.0 r.1)
        (λ n. IsStop (TextsOf (IsSymbol bounds behind) (ended_text behind)) bytes.now n) }
{
    match count(bytes, 0, longest(), end_of(behind)) {
        Ok((number, n)) => Ok((seen(number, false), n)),
        Err(n) => Err(n),
    }
}

/// The symbol that stands first, of a line that has so many bounds, behind which so many others stand; and how many bytes it and its end are.
pub(crate) fn symbol(bytes: &[u8], bounds: usize, behind: usize) -> Result<(Symbol, usize), usize>
    ensures { MatchResult result (λ r. IsSymbolRead bounds behind bytes.now r.0 r.1)
        (λ n. IsStop (TextsOf (IsSymbol bounds behind) (ended_text behind)) bytes.now n) }
{
    match bytes.first() {
        None => positive(bytes, bounds, behind),
        Some(b) => {
            if *b == b'*' && behind < bounds {
                star(bytes, bounds, behind)
            } else if *b == b'-' {
                negative(bytes, bounds, behind)
            } else {
                positive(bytes, bounds, behind)
            }
        }
    }
}
