// A line that is read beside the one before it.

ghost use Rattle.std.specs.Prelude.{◌≡◌, ◌-◌, ◌<◌, ◌≤◌, ℕ, true, take, slice_index, ℤ, List, Option, OnOk, IfOk, IfSome, None, length};
ghost use Rattle.pk_cert.specs.Rows.{symbols_text, line_text};
ghost use Rattle.pk_cert.specs.Pieces.{AreFirst};
ghost use Rattle.pk_cert_states.specs.Lines.{line_in};
ghost use Rattle.pk_cert_lines.specs.Symbols.{spaced};
ghost use Rattle.pk_cert_lines.specs.Told.{IsToldIn, IsTextOf};

use crate::guesses::symbols;
use crate::parts::{apart, end};
use crate::told::{Told, put_bounds, put_value};
use pk_cert_states::{Order, first_value, octagon, octagon_size};
use pk_state::Frame;
use std::alloc::{AllocError, Global};

// How many parts are read at most.
const MOST: usize = 8;

// Reads the numbers of a slot, if they may be such.
fn read_value(
    alloc: Global,
    told: &mut Told,
    frame: &Frame,
    order: &Order,
    x: usize,
    bytes: &[u8],
) -> Result<bool, AllocError>
    requires told { IsTextOf order.now frame.now told.old }
    requires many { length frame.now.types ≡ length order.now }
    requires place { x < length order.now }
    ensures { OnOk result (IsTextOf order.now frame.now told.new) }
{
    let four = symbols(alloc, bytes, 4)?;
    match first_value(&four, frame.int_type(x)) {
        None => Ok(false),
        Some((value, _)) => {
            put_value(alloc, told, frame, order, x, value)?;
            Ok(true)
        }
    }
}

// Reads the octagon's bounds, if they may be such.
fn read_bounds(
    alloc: Global,
    told: &mut Told,
    frame: &Frame,
    order: &Order,
    bytes: &[u8],
) -> Result<bool, AllocError>
    requires told { IsTextOf order.now frame.now told.old }
    requires many { length frame.now.types ≡ length order.now }
    ensures { OnOk result (IsTextOf order.now frame.now told.new) }
{
    let n = octagon_size(frame);
    let d = 2 * n as usize;
    let bounds = symbols(alloc, bytes, d * d)?;
    match octagon(alloc, &bounds, n)? {
        None => Ok(false),
        Some(octagon) => {
            let state = told.state.copy(alloc)?.with_bounds(alloc, 0, octagon)?;
            put_bounds(alloc, told, frame, order, state)?;
            Ok(true)
        }
    }
}

// Reads a part.
fn read_part(
    alloc: Global,
    told: &mut Told,
    frame: &Frame,
    order: &Order,
    p: usize,
    bytes: &[u8],
) -> Result<bool, AllocError>
    requires told { IsTextOf order.now frame.now told.old }
    requires many { length frame.now.types ≡ length order.now }
    ensures { OnOk result (IsTextOf order.now frame.now told.new) }
{
    if p < order.len() {
        read_value(alloc, told, frame, order, order.slot(p), bytes)
    } else {
        read_bounds(alloc, told, frame, order, bytes)
    }
}

// Reads the next part that differs, behind so many, and answers how many parts are as they stand, and how many bytes these are; none where no more is read.
fn read_next(
    alloc: Global,
    told: &mut Told,
    frame: &Frame,
    order: &Order,
    bytes: &[u8],
    from: usize,
    start: usize,
) -> Result<Option<(usize, usize)>, AllocError>
    requires told { IsTextOf order.now frame.now told.old }
    requires many { length frame.now.types ≡ length order.now }
    ensures { OnOk result (IsTextOf order.now frame.now told.new) }
{
    let (p, at) = apart(&told.text, &told.sizes, bytes, from, start);
    if bytes.len() < at || told.sizes.len() <= p {
        return Ok(None);
    }
    if !read_part(alloc, told, frame, order, p, &bytes[at..])? {
        return Ok(None);
    }
    if p < told.sizes.len() {
        Ok(Some((p + 1, end(&told.sizes, p, at))))
    } else {
        Ok(None)
    }
}

// Reads the parts that differ, if these are few.
fn read_parts(
    alloc: Global,
    told: &mut Told,
    frame: &Frame,
    order: &Order,
    bytes: &[u8],
) -> Result<(), AllocError>
    requires told { IsTextOf order.now frame.now told.old }
    requires many { length frame.now.types ≡ length order.now }
    ensures { OnOk result (IsTextOf order.now frame.now told.new) }
{
    let mut p = 0;
    let mut at = 0;
    for _ in 0..MOST {
        match read_next(alloc, told, frame, order, bytes, p, at)? {
            None => return Ok(()),
            Some((next, to)) => {
                p = next;
                at = to;
            }
        }
    }
    Ok(())
}

// Whether bytes begin with a text, but for a line's end at its end.
fn is_line(text: &[u8], bytes: &[u8]) -> bool
    requires some { 0 < length text.now }
    requires room { length text.now ≤ length bytes.now }
    ensures last { result ≡ true → slice_index bytes.now (length text.now - 1) ≡ 10 }
    ensures same { result ≡ true → take (length text.now - 1) text.now ≡ take (length text.now - 1) bytes.now }
{
    let n = text.len();
    bytes[n - 1] == b'\n' && text[..n - 1] == bytes[..n - 1]
}

// How many bytes the line of a text is, if it stands first.
fn line_len(text: &[u8], bytes: &[u8]) -> Option<usize>
    ensures { IfSome result (λ n. (zs : List (Option ℤ)) → text.now ≡ spaced zs →
        AreFirst (symbols_text zs) bytes.now n) }
{
    let n = text.len();
    if n == 0 {
        return None;
    }
    if bytes.len() < n {
        return None;
    }
    if is_line(text, bytes) { Some(n) } else { None }
}

/// Reads a line that differs in few parts from that of the state that was told last, whose place its state takes, and
/// answers how many bytes it is.
pub(crate) fn read_in(
    alloc: Global,
    told: &mut Told,
    frame: &Frame,
    order: &Order,
    bytes: &[u8],
) -> Result<Option<usize>, AllocError>
    requires told { IsToldIn order.now frame.now told.old }
    requires many { length frame.now.types ≡ length order.now }
    ensures told { OnOk result (IsToldIn order.now frame.now told.new) }
    ensures line { IfOk result (λ o. IfSome o (λ n.
        AreFirst (line_text (line_in order.now told.new.state.facts)) bytes.now n)) }
{
    if told.state.is_bottom() {
        return Ok(None);
    }
    read_parts(alloc, told, frame, order, bytes)?;
    Ok(line_len(&told.text, bytes))
}
