// Certificates, as they are read.

ghost use Rattle.std.specs.Prelude.{◌≡◌, ◌+◌, ◌<◌, ◌^◌, MatchResult, slice_index};
ghost use Rattle.pk_cert.specs.Beginnings.{TextsOf, IsStop, IsFirstWrong};
ghost use Rattle.pk_cert.specs.Heads.{head_view};
ghost use Rattle.pk_cert.specs.Rows.{IsLine, line_text, AreEach, IsSymbol, ended_text, text_of, AreLines, lines_text};
ghost use Rattle.pk_cert.specs.Pieces.{AreSymbolsRead, IsRowRead, AreRowsRead, IsHeadRead, StopsAt};
ghost use Rattle.pk_cert.specs.Certificates.{IsCertificate, AreRead, IsWrongAt};

use crate::failures::Unread;
use crate::heads::Head;
use crate::pieces::literal;
use crate::rows::{Row, Shape, Symbol};
use crate::symbols::symbol;
use std::alloc::Global;

// The symbols of a line that has so many.
fn symbols(
    alloc: Global,
    bytes: &[u8],
    bounds: usize,
    count: usize,
) -> Result<(Vec<Symbol>, usize), Unread>
    ensures { MatchResult result (λ r. AreSymbolsRead bounds count bytes.now r.0.items r.1)
        (λ e. StopsAt (TextsOf (AreEach count (IsSymbol bounds)) (text_of ended_text)) bytes.now e) }
{
    let mut symbols = Vec::new(alloc);
    let mut at = 0;
    for k in 0..count {
        match symbol(&bytes[at..], bounds, count - 1 - k) {
            Err(n) => return Err(Unread::Byte(at + n)),
            Ok((next, n)) => {
                symbols.push(next)?;
                at += n;
            }
        }
    }
    Ok((symbols, at))
}

// A line of symbols.
fn line(alloc: Global, bytes: &[u8], shape: Shape) -> Result<(Row, usize), Unread>
    requires size { shape.numbers + shape.bounds < 2 ^ 64 }
    requires first { slice_index bytes.now 0 ≡ 98 → ⊥ }
    ensures { MatchResult result (λ r. IsRowRead shape bytes.now r.0 r.1)
        (λ e. StopsAt (TextsOf (IsLine shape) line_text) bytes.now e) }
{
    let count = shape.numbers + shape.bounds;
    if count == 0 {
        return match literal(bytes, b"\n") {
            Err(n) => Err(Unread::Byte(n)),
            Ok(()) => Ok((Row::Symbols(Vec::new(alloc)), 1)),
        };
    }
    match symbols(alloc, bytes, shape.bounds, count) {
        Err(e) => Err(e),
        Ok((symbols, at)) => Ok((Row::Symbols(symbols), at)),
    }
}

// The line `bot`.
fn bottom(bytes: &[u8], shape: Shape) -> Result<(Row, usize), Unread>
    requires { slice_index bytes.now 0 ≡ 98 }
    ensures { MatchResult result (λ r. IsRowRead shape bytes.now r.0 r.1)
        (λ e. StopsAt (TextsOf (IsLine shape) line_text) bytes.now e) }
{
    match literal(bytes, b"bot\n") {
        Err(n) => Err(Unread::Byte(n)),
        Ok(()) => Ok((Row::Bottom, 4)),
    }
}

/// The line that stands first, and how many bytes it is, or the first byte with which no line of the shape goes on.
pub fn read_row(alloc: Global, bytes: &[u8], shape: Shape) -> Result<(Row, usize), Unread>
    requires { shape.numbers + shape.bounds < 2 ^ 64 }
    ensures { MatchResult result (λ r. IsRowRead shape bytes.now r.0 r.1)
        (λ e. StopsAt (TextsOf (IsLine shape) line_text) bytes.now e) }
{
    match bytes.first() {
        Some(b'b') => bottom(bytes, shape),
        _ => line(alloc, bytes, shape),
    }
}

// So many lines.
fn rows(
    alloc: Global,
    bytes: &[u8],
    shape: Shape,
    points: usize,
) -> Result<(Vec<Row>, usize), Unread>
    requires { shape.numbers + shape.bounds < 2 ^ 64 }
    ensures { MatchResult result (λ r. AreRowsRead shape points bytes.now r.0.items r.1)
        (λ e. StopsAt (TextsOf (AreLines shape points) lines_text) bytes.now e) }
{
    let mut rows = Vec::new(alloc);
    let mut at = 0;
    for k in 0..points {
        match read_row(alloc, &bytes[at..], shape) {
            Err(Unread::Byte(n)) => return Err(Unread::Byte(at + n)),
            Err(Unread::Memory) => return Err(Unread::Memory),
            Ok((row, n)) => {
                rows.push(row)?;
                at += n;
            }
        }
    }
    Ok((rows, at))
}

/// The lines of a certificate behind its head, one for each point, or the first byte with which no certificate of this
/// head goes on.
pub fn read(
    alloc: Global,
    bytes: &[u8],
    head: &Head<'_>,
    shape: Shape,
    points: usize,
) -> Result<Vec<Row>, Unread>
    requires size { shape.numbers + shape.bounds < 2 ^ 64 }
    requires head { IsHeadRead bytes.now head.now }
    ensures { MatchResult result (λ rows. AreRead shape points (head_view head.now) bytes.now rows.items)
        (λ e. IsWrongAt (IsCertificate shape points (head_view head.now)) bytes.now e) }
{
    match rows(alloc, &bytes[head.len..], shape, points) {
        Err(Unread::Byte(n)) => Err(Unread::Byte(head.len + n)),
        Err(Unread::Memory) => Err(Unread::Memory),
        Ok((rows, n)) => {
            if head.len + n < bytes.len() {
                Err(Unread::Byte(head.len + n))
            } else {
                Ok(rows)
            }
        }
    }
}
