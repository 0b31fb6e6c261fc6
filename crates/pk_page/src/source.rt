// The source of a text: its lines by the files that they come from, with operations marked.

ghost use Rattle.std.specs.Prelude.{[], ◌≡◌, ◌++◌, ◌+◌, ◌<◌, ◌^◌, IfOk, None, OnOk, length, map, slice_index_or};
ghost use Rattle.pk_lex.specs.Bytes.{same};
ghost use Rattle.pk_origin.specs.Origins.{first_origin};
ghost use Rattle.pk_findings.specs.Texts.{file_of};
ghost use Rattle.pk_html.specs.Parts.{parts_text};
ghost use Rattle.pk_page.specs.Marks.{AreMarks};
ghost use Rattle.pk_page.specs.Source.{line_in, bytes_parts, mark_at, is_marker, is_elsewhere, origin_parts, number_parts, shown_line, line_parts, lines_parts, source_parts};

use crate::lines::write_bytes;
use crate::marks::{Mark, Row, marks};
use pk_findings::{Operation, Text as Source, file_of};
use pk_html::{Part, Tag, Text, write};
use pk_origin::Origin;
use std::alloc::{AllocError, Global};

// Where line k comes from.
fn origin(text: &Source<'_>, k: usize) -> Origin
    ensures { result ≡ slice_index_or text.now.origins k first_origin }
{
    if k < text.origins.len() {
        text.origins[k]
    } else {
        Origin {
            marker: None,
            line: 1,
        }
    }
}

// Whether line k is a line marker: the line behind it comes from where it says.
fn is_marker(text: &Source<'_>, k: usize) -> bool
    requires { k < 2 ^ 63 }
    ensures { result ≡ is_marker text.now k }
{
    match origin(text, k + 1).marker {
        Some(j) => j == k,
        None => false,
    }
}

fn is_same_name(alloc: Global, text: &Source<'_>, a: Origin, b: Origin) -> Result<bool, AllocError>
    ensures { IfOk result (λ is_same. is_same ≡ same (file_of text.now a) (file_of text.now b)) }
{
    let name = file_of(alloc, text, a)?;
    let other = file_of(alloc, text, b)?;
    Ok(name.as_slice() == other.as_slice())
}

// Whether two lines come from the same file: names are compared where the markers aren't the same.
fn is_same_file(alloc: Global, text: &Source<'_>, a: Origin, b: Origin) -> Result<bool, AllocError>
    ensures { IfOk result (λ is_same. is_same ≡ same (file_of text.now a) (file_of text.now b)) }
{
    if a.marker == b.marker {
        Ok(true)
    } else {
        is_same_name(alloc, text, a, b)
    }
}

fn is_elsewhere(alloc: Global, text: &Source<'_>, k: usize) -> Result<bool, AllocError>
    ensures { IfOk result (λ b. b ≡ is_elsewhere text.now k) }
{
    if k == 0 {
        return Ok(true);
    }
    let is_same = is_same_file(alloc, text, origin(text, k), origin(text, k - 1))?;
    Ok(!is_same)
}

// The name of the file, where it isn't that of the line before.
#[tactic(auto, unfolding(crate::specs::Source::origin_parts))]
fn write_file(
    alloc: Global,
    bytes: &mut Vec<u8>,
    text: &Source<'_>,
    k: usize,
) -> Result<(), AllocError>
    ensures { OnOk result (bytes.new.items ≡ bytes.old.items ++ parts_text (origin_parts text.now k)) }
{
    if is_elsewhere(alloc, text, k)? {
        let file = file_of(alloc, text, origin(text, k))?;
        write(
            bytes,
            &[
                Part::Tag(Tag::OriginOpen),
                Part::Text(Text { bytes: &file }),
                Part::Tag(Tag::OriginEnd),
            ],
        )
    } else {
        Ok(())
    }
}

fn write_number(
    bytes: &mut Vec<u8>,
    number: u64,
    text: &Source<'_>,
    k: usize,
) -> Result<(), AllocError>
    requires { k < 2 ^ 63 }
    ensures { OnOk result (bytes.new.items ≡ bytes.old.items ++ parts_text (number_parts number text.now k)) }
{
    write(
        bytes,
        &[
            Part::Tag(Tag::LineOpen),
            Part::Count(number),
            Part::Tag(Tag::LinkLine),
            Part::Count(k as u64 + 1),
            Part::Tag(Tag::LineNumber),
            Part::Count(origin(text, k).line),
            Part::Tag(Tag::LineText),
        ],
    )
}

fn row_of(rows: &[Row], k: usize) -> &[Option<Mark>]
    requires { k < length rows.now }
    ensures { result.now ≡ slice_index_or rows.now k [] }
{
    let row = &rows[k];
    &row.marks
}

fn line_of<'a>(lines: &[&'a [u8]], k: usize) -> &'a [u8]
    requires { k < length lines.now }
    ensures { result.now ≡ line_in (map (λ line. line.now) lines.now) k }
{
    lines[k]
}

// The bytes of line k, with the marks of its operations.
fn write_marked(
    bytes: &mut Vec<u8>,
    lines: &[&[u8]],
    operations: &[Operation<'_>],
    rows: &[Row],
    k: usize,
) -> Result<(), AllocError>
    requires marks { AreMarks (map (λ line. line.now) lines.now) operations.now rows.now }
    requires within { k < length lines.now }
    ensures { OnOk result (bytes.new.items ≡ bytes.old.items ++ parts_text
        (bytes_parts (mark_at operations.now (k + 1)) 1 None (line_in (map (λ line. line.now) lines.now) k))) }
{
    write_bytes(bytes, row_of(rows, k), line_of(lines, k))
}

#[tactic(auto, unfolding(crate::specs::Source::shown_line))]
fn write_shown(
    bytes: &mut Vec<u8>,
    number: u64,
    text: &Source<'_>,
    operations: &[Operation<'_>],
    rows: &[Row],
    k: usize,
) -> Result<(), AllocError>
    requires marks { AreMarks text.now.lines operations.now rows.now }
    requires within { k < length text.now.lines }
    ensures { OnOk result (bytes.new.items
        ≡ bytes.old.items ++ parts_text (shown_line number text.now operations.now k)) }
{
    write_number(bytes, number, text, k)?;
    write_marked(bytes, &text.lines, operations, rows, k)?;
    write(bytes, &[Part::Tag(Tag::LineEnd)])
}

#[tactic(auto, unfolding(crate::specs::Source::line_parts))]
fn write_line(
    alloc: Global,
    bytes: &mut Vec<u8>,
    number: u64,
    text: &Source<'_>,
    operations: &[Operation<'_>],
    rows: &[Row],
    k: usize,
) -> Result<(), AllocError>
    requires marks { AreMarks text.now.lines operations.now rows.now }
    requires within { k < length text.now.lines }
    ensures { OnOk result (bytes.new.items
        ≡ bytes.old.items ++ parts_text (line_parts number text.now operations.now k)) }
{
    if is_marker(text, k) {
        return Ok(());
    }
    write_file(alloc, bytes, text, k)?;
    write_shown(bytes, number, text, operations, rows, k)
}

fn write_lines(
    alloc: Global,
    bytes: &mut Vec<u8>,
    number: u64,
    text: &Source<'_>,
    operations: &[Operation<'_>],
) -> Result<(), AllocError>
    ensures { OnOk result (bytes.new.items
        ≡ bytes.old.items ++ parts_text (lines_parts number text.now operations.now (length text.now.lines))) }
{
    let rows = marks(alloc, &text.lines, operations)?;
    for k in 0..text.lines.len() {
        write_line(alloc, bytes, number, text, operations, &rows, k)?;
    }
    Ok(())
}

/// Writes the source of a text.
#[tactic(auto, unfolding(crate::specs::Source::source_parts))]
pub(crate) fn write_source(
    alloc: Global,
    bytes: &mut Vec<u8>,
    number: u64,
    text: &Source<'_>,
    operations: &[Operation<'_>],
) -> Result<(), AllocError>
    ensures { OnOk result (bytes.new.items
        ≡ bytes.old.items ++ parts_text (source_parts number text.now operations.now)) }
{
    write(bytes, &[Part::Tag(Tag::SourceOpen)])?;
    write_lines(alloc, bytes, number, text, operations)
}
