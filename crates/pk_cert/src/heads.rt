// What stands before the cells.

ghost use Rattle.std.specs.Prelude.{◌≡◌, ◌<◌, ◌≤◌, ◌^◌, MatchResult, codes, drop};
ghost use Rattle.pk_cert.specs.Beginnings.{TextsOf, IsStop, IsFirstWrong};
ghost use Rattle.pk_cert.specs.Heads.{HasHead};
ghost use Rattle.pk_cert.specs.Pieces.{AreFirst, value_of, IsDecimal, IsBetween, counted, IsNumber, IsEntryRead, IsOctRead, IsSizeRead, FromEntry, FromOct, FromSize, IsHeadRead};

use crate::numbers::{Decimal, count};
use crate::pieces::{block, literal, name};

/// What stands before the cells of a certificate: the text that it is of, the size of the octagon, the entry, and how
/// many bytes all this is.
#[derive(Clone, Copy)]
pub struct Head<'t> {
    pub text: &'t [u8],
    pub oct: u32,
    pub entry: &'t [u8],
    pub len: usize,
}

/// The size of the octagon, how many bytes it and its end are, and how long the entry is.
#[derive(Clone, Copy)]
pub(crate) struct Places {
    pub oct: u32,
    pub oct_len: usize,
    pub entry_len: usize,
}

// The number that stands first, with a space behind it; and how many bytes these are.
fn number(bytes: &[u8], most: Decimal) -> Result<(u32, usize), usize>
    requires is { IsDecimal most }
    requires some { 1 ≤ most.tens }
    requires small { value_of most < 2 ^ 32 }
    ensures { MatchResult result (λ r. IsNumber (value_of most) bytes.now r.0 r.1)
        (λ n. IsStop (TextsOf (IsBetween 0 (value_of most)) (counted 32)) bytes.now n) }
{
    match count(bytes, 0, most, b' ') {
        Err(n) => Err(n),
        Ok((number, n)) => Ok((number.tens as u32 * 10 + number.last as u32, n)),
    }
}

// How long the entry is, where a text of so many bytes stands behind it.
fn from_entry(bytes: &[u8], size: usize) -> Result<usize, usize>
    ensures { MatchResult result (λ n. IsEntryRead size bytes.now n) (λ n. IsStop (FromEntry size) bytes.now n) }
{
    match name(bytes) {
        Err(n) => Err(n),
        Ok(n) => match block(&bytes[n + 1..], size) {
            Err(k) => Err(n + 1 + k),
            Ok(()) => Ok(n),
        },
    }
}

// From the octagon's size on.
fn from_oct(bytes: &[u8], size: usize) -> Result<Places, usize>
    ensures { MatchResult result (λ p. IsOctRead size bytes.now p) (λ n. IsStop (FromOct size) bytes.now n) }
{
    match number(bytes, Decimal { tens: 6, last: 4 }) {
        Err(n) => Err(n),
        Ok((oct, n)) => match from_entry(&bytes[n..], size) {
            Err(k) => Err(n + k),
            Ok(entry_len) => Ok(Places {
                oct,
                oct_len: n,
                entry_len,
            }),
        },
    }
}

// From the text's length on: that length, and how many bytes it and its end are.
fn from_size(bytes: &[u8]) -> Result<(usize, usize, Places), usize>
    ensures { MatchResult result (λ r. IsSizeRead bytes.now r.0 r.1 r.2) (λ n. IsStop FromSize bytes.now n) }
{
    match number(
        bytes,
        Decimal {
            tens: 419_430,
            last: 4,
        },
    ) {
        Err(n) => Err(n),
        Ok((size, n)) => match from_oct(&bytes[n..], size as usize) {
            Err(k) => Err(n + k),
            Ok(places) => Ok((size as usize, n, places)),
        },
    }
}

// The head of these parts.
#[tactic(auto, using(crate::proofs::Heading::head_fits))]
fn head_of(bytes: &[u8], size: usize, size_len: usize, places: Places) -> Head<'_>
    requires opening { AreFirst (codes "pikos-cert 1 ") bytes.now 13 }
    requires read { IsSizeRead (drop 13 bytes.now) size size_len places }
    ensures { IsHeadRead bytes.now result }
{
    let entry = 13 + size_len + places.oct_len;
    let text = entry + places.entry_len + 1;
    let name = &bytes[entry..entry + places.entry_len];
    let block = &bytes[text..text + size];
    Head {
        text: block,
        oct: places.oct,
        entry: name,
        len: text + size + 1,
    }
}

/// The head with which bytes begin, or the first byte with which none does.
pub fn read_head(bytes: &[u8]) -> Result<Head<'_>, usize>
    ensures { MatchResult result (λ h. IsHeadRead bytes.now h) (λ n. IsFirstWrong HasHead bytes.now n) }
{
    match literal(bytes, b"pikos-cert 1 ") {
        Err(n) => Err(n),
        Ok(()) => match from_size(&bytes[13..]) {
            Err(n) => Err(13 + n),
            Ok((size, n, places)) => Ok(head_of(bytes, size, n, places)),
        },
    }
}
