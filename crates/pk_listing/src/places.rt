// Places of a text at their origins, and its lines.

ghost use Rattle.std.specs.Prelude.{◌≡◌, ◌-◌, ◌<◌, ◌≤◌, ◌++◌, OnOk, length, map, take};
ghost use Rattle.std.specs.Option.{option_map};
ghost use Rattle.std.specs.Fmt.{decimal};
ghost use Rattle.pk_findings.specs.Texts.{file_of};
ghost use Rattle.pk_listing.specs.Places as places;

use itoa::Buffer;
use pk_ctypes::Pos;
use pk_findings::{Text, file_of, origin_at};
use pk_origin::Origin;
use pk_show::Path;
use std::alloc::{AllocError, Global};

/// Writes these bytes.
pub(crate) fn write(bytes: &mut Vec<u8>, more: &[u8]) -> Result<(), AllocError>
    ensures { OnOk result (bytes.new.items ≡ bytes.old.items ++ more.now) }
{
    bytes.extend_from_slice(more)
}

/// Writes a count.
pub(crate) fn write_count(bytes: &mut Vec<u8>, count: u64) -> Result<(), AllocError>
    ensures { OnOk result (bytes.new.items ≡ bytes.old.items ++ decimal count) }
{
    let mut buffer = Buffer::new();
    write(bytes, buffer.format(count).as_bytes())
}

fn write_file(
    alloc: Global,
    bytes: &mut Vec<u8>,
    text: &Text<'_>,
    origin: Origin,
) -> Result<(), AllocError>
    ensures { OnOk result (bytes.new.items ≡ bytes.old.items ++ file_of text.now origin) }
{
    let name = file_of(alloc, text, origin)?;
    write(bytes, &name)
}

fn write_origin(
    alloc: Global,
    bytes: &mut Vec<u8>,
    text: &Text<'_>,
    origin: Origin,
    column: u64,
) -> Result<(), AllocError>
    ensures { OnOk result (bytes.new.items ≡ bytes.old.items ++ places.origin_text text.now origin column) }
{
    write_file(alloc, bytes, text, origin)?;
    write(bytes, b":")?;
    write_count(bytes, origin.line)?;
    write(bytes, b":")?;
    write_count(bytes, column)?;
    Ok(())
}

/// Writes a place at its origin.
#[tactic(auto, unfolding(crate::specs::Places::place_text))]
pub(crate) fn write_place(
    alloc: Global,
    bytes: &mut Vec<u8>,
    text: &Text<'_>,
    at: Pos,
) -> Result<(), AllocError>
    ensures { OnOk result (bytes.new.items ≡ bytes.old.items ++ places.place_text text.now at) }
{
    write_origin(alloc, bytes, text, origin_at(text, at), at.column)
}

#[tactic(auto, unfolding(crate::specs::Places::line_text))]
fn write_line(
    alloc: Global,
    bytes: &mut Vec<u8>,
    text: &Text<'_>,
    at: Pos,
) -> Result<(), AllocError>
    ensures { OnOk result (bytes.new.items ≡ bytes.old.items ++ places.line_text text.now at) }
{
    let origin = origin_at(text, at);
    write_file(alloc, bytes, text, origin)?;
    write(bytes, b":")?;
    write_count(bytes, origin.line)
}

/// Writes a place at its origin, without its column where that isn't the file's.
pub(crate) fn write_head(
    alloc: Global,
    bytes: &mut Vec<u8>,
    has_column: bool,
    text: &Text<'_>,
    at: Pos,
) -> Result<(), AllocError>
    ensures { OnOk result (bytes.new.items ≡ bytes.old.items ++ places.head_text has_column text.now at) }
{
    if has_column {
        write_place(alloc, bytes, text, at)
    } else {
        write_line(alloc, bytes, text, at)
    }
}

fn blank_for(b: u8) -> u8
    ensures { result ≡ places.blank_for b }
{
    if b == b'\t' { b'\t' } else { b' ' }
}

fn write_blanks(bytes: &mut Vec<u8>, front: &[u8]) -> Result<(), AllocError>
    ensures { OnOk result (bytes.new.items ≡ bytes.old.items ++ map places.blank_for front.now) }
{
    for k in 0..front.len() {
        bytes.push(blank_for(front[k]))?;
    }
    Ok(())
}

#[tactic(auto, using(std::proofs::lemmas::List::take_all))]
fn front_of(line: &[u8], column: u64) -> &[u8]
    ensures { result.now ≡ take (column - 1) line.now }
{
    let end = column.saturating_sub(1) as usize;
    if end <= line.len() {
        line.split_at(end).0
    } else {
        line
    }
}

fn write_marked(bytes: &mut Vec<u8>, line: &[u8], column: u64) -> Result<(), AllocError>
    ensures { OnOk result (bytes.new.items ≡ bytes.old.items ++ places.marked_line line.now column) }
{
    write(bytes, b"    ")?;
    write(bytes, line)?;
    write(bytes, b"\n    ")?;
    write_blanks(bytes, front_of(line, column))?;
    write(bytes, b"^\n")?;
    Ok(())
}

#[tactic(auto, unfolding(crate::specs::Places::excerpt_of))]
fn write_excerpt(bytes: &mut Vec<u8>, line: &[u8], column: u64) -> Result<(), AllocError>
    ensures { OnOk result (bytes.new.items ≡ bytes.old.items ++ places.excerpt_of line.now column) }
{
    if line.len() <= 200 {
        write_marked(bytes, line, column)
    } else {
        Ok(())
    }
}

fn write_plain_line(bytes: &mut Vec<u8>, line: &[u8]) -> Result<(), AllocError>
    ensures { OnOk result (bytes.new.items ≡ bytes.old.items ++ places.plain_line line.now) }
{
    write(bytes, b"    ")?;
    write(bytes, line)?;
    write(bytes, b"\n")
}

#[tactic(auto, unfolding(crate::specs::Places::plain_of))]
fn write_plain(bytes: &mut Vec<u8>, line: &[u8]) -> Result<(), AllocError>
    ensures { OnOk result (bytes.new.items ≡ bytes.old.items ++ places.plain_of line.now) }
{
    if line.len() <= 200 {
        write_plain_line(bytes, line)
    } else {
        Ok(())
    }
}

fn write_expanded(
    bytes: &mut Vec<u8>,
    is_own: bool,
    own: &[u8],
    line: &[u8],
    column: u64,
) -> Result<(), AllocError>
    ensures { OnOk result (bytes.new.items ≡ bytes.old.items ++ places.expanded_of is_own own.now line.now column) }
{
    if is_own {
        write_excerpt(bytes, own, column)
    } else {
        write_plain(bytes, own)?;
        write_excerpt(bytes, line, column)
    }
}

/// Writes a line with a mark below one of its bytes: the file's own, where it is at hand, and also the preprocessed one
/// where it isn't the file's own up to the mark.
pub(crate) fn write_excerpt_with(
    bytes: &mut Vec<u8>,
    is_own: bool,
    own: Option<&[u8]>,
    line: &[u8],
    column: u64,
) -> Result<(), AllocError>
    ensures { OnOk result (bytes.new.items ≡ bytes.old.items
        ++ places.excerpt_with is_own (option_map (λ own. own.now) own.entry) line.now column) }
{
    match own {
        Some(own) => write_expanded(bytes, is_own, own, line, column),
        None => write_excerpt(bytes, line, column),
    }
}

// The function that runs behind so many calls.
fn function_at<'t>(path: &Path<'t>, k: usize) -> &'t [u8]
    requires { k ≤ length path.now.calls }
    ensures { result.now ≡ places.function_at path.now k }
{
    if k == 0 {
        path.entry
    } else {
        let call = &path.calls[k - 1];
        call.name
    }
}

fn place_of_call(path: &Path<'_>, k: usize) -> Pos
    requires { k < length path.now.calls }
    ensures { result ≡ (places.call_at path.now k).at }
{
    let call = &path.calls[k];
    call.at
}

fn write_caller(
    alloc: Global,
    bytes: &mut Vec<u8>,
    text: &Text<'_>,
    path: &Path<'_>,
    k: usize,
) -> Result<(), AllocError>
    requires { k < length path.now.calls }
    ensures { OnOk result (bytes.new.items ≡ bytes.old.items ++ places.caller_text text.now path.now k) }
{
    write(bytes, b", called from ")?;
    write(bytes, function_at(path, k))?;
    write(bytes, b" (")?;
    write_place(alloc, bytes, text, place_of_call(path, k))?;
    write(bytes, b")")?;
    Ok(())
}

fn write_callers(
    alloc: Global,
    bytes: &mut Vec<u8>,
    text: &Text<'_>,
    path: &Path<'_>,
) -> Result<(), AllocError>
    ensures { OnOk result (
        bytes.new.items ≡ bytes.old.items ++ places.callers_text text.now path.now (length path.now.calls)) }
{
    let mut left = path.calls.len();
    while 0 < left {
        left -= 1;
        write_caller(alloc, bytes, text, path, left)?;
    }
    Ok(())
}

/// Writes the function that runs, and the calls that lead to it.
#[tactic(auto, unfolding(crate::specs::Places::path_text))]
pub(crate) fn write_path(
    alloc: Global,
    bytes: &mut Vec<u8>,
    text: &Text<'_>,
    path: &Path<'_>,
) -> Result<(), AllocError>
    ensures { OnOk result (bytes.new.items ≡ bytes.old.items ++ places.path_text text.now path.now) }
{
    write(bytes, b"    in ")?;
    write(bytes, function_at(path, path.calls.len()))?;
    write_callers(alloc, bytes, text, path)
}
