// A line of the source, with its marks.

ghost use Rattle.std.specs.Prelude.{◌≡◌, ◌++◌, ◌-◌, OnOk, None, [], ◌∷◌, length, slice_index_or};
ghost use Rattle.pk_lex.specs.Bytes.{is_part};
ghost use Rattle.pk_html.specs.declared.parts.Part.TheVariants as part;
ghost use Rattle.pk_html.specs.Parts.{parts_text};
ghost use Rattle.pk_page.specs.Source.{goes_on, open_tag, end_tag, close, is_within, opening, opened_by, open_after, byte_parts, bytes_parts};

use crate::marks::Mark;
use pk_html::{Part, Tag, Text, write};
use std::alloc::AllocError;

/// A mark that is open, and the byte that it was opened for.
#[derive(Clone, Copy)]
pub(crate) struct Opened {
    mark: Mark,
    first: u8,
}

fn is_part(b: u8) -> bool
    ensures { result ≡ is_part b }
{
    (b'a' <= b && b <= b'z') || (b'A' <= b && b <= b'Z') || b == b'_' || (b'0' <= b && b <= b'9')
}

// Whether a byte goes on the word or the operator that a byte begins.
fn goes_on(first: u8, b: u8) -> bool
    ensures { result ≡ goes_on first b }
{
    if is_part(first) {
        is_part(b)
    } else {
        b == first || b == b'='
    }
}

fn open_tag(mark: Mark) -> Tag
    ensures { result ≡ open_tag mark }
{
    match mark {
        Mark::Safe => Tag::SafeOpen,
        Mark::Unknown => Tag::UnknownOpen,
        Mark::Unreachable => Tag::UnreachableOpen,
    }
}

fn end_tag(mark: Mark) -> Tag
    ensures { result ≡ end_tag mark }
{
    match mark {
        Mark::Safe => Tag::SafeEnd,
        Mark::Unknown => Tag::UnknownEnd,
        Mark::Unreachable => Tag::UnreachableEnd,
    }
}

fn close(bytes: &mut Vec<u8>, under: Option<Opened>) -> Result<(), AllocError>
    ensures { OnOk result (bytes.new.items ≡ bytes.old.items ++ parts_text (close under)) }
{
    match under {
        Some(opened) => write(bytes, &[Part::Tag(end_tag(opened.mark))]),
        None => Ok(()),
    }
}

fn is_within(under: Option<Opened>, b: u8) -> bool
    ensures { result ≡ is_within under b }
{
    match under {
        Some(opened) => goes_on(opened.first, b),
        None => false,
    }
}

fn write_opening(bytes: &mut Vec<u8>, mark: Option<Mark>) -> Result<(), AllocError>
    ensures { OnOk result (bytes.new.items ≡ bytes.old.items ++ parts_text (opening mark)) }
{
    match mark {
        Some(mark) => write(bytes, &[Part::Tag(open_tag(mark))]),
        None => Ok(()),
    }
}

fn opened_by(mark: Option<Mark>, b: u8) -> Option<Opened>
    ensures { result ≡ opened_by mark b }
{
    match mark {
        Some(mark) => Some(Opened { mark, first: b }),
        None => None,
    }
}

fn open_after(under: Option<Opened>, mark: Option<Mark>, b: u8) -> Option<Opened>
    ensures { result ≡ open_after under mark b }
{
    if is_within(under, b) {
        under
    } else {
        opened_by(mark, b)
    }
}

fn write_text(bytes: &mut Vec<u8>, b: u8) -> Result<(), AllocError>
    ensures { OnOk result (bytes.new.items ≡ bytes.old.items ++ parts_text (part.Text (b ∷ []) ∷ [])) }
{
    write(bytes, &[Part::Text(Text { bytes: &[b] })])
}

fn write_byte(
    bytes: &mut Vec<u8>,
    under: Option<Opened>,
    mark: Option<Mark>,
    b: u8,
) -> Result<(), AllocError>
    ensures { OnOk result (bytes.new.items ≡ bytes.old.items ++ parts_text (byte_parts under mark b)) }
{
    if !is_within(under, b) {
        close(bytes, under)?;
        write_opening(bytes, mark)?;
    }
    write_text(bytes, b)
}

/// Writes the bytes of a line, with these marks.
pub(crate) fn write_bytes(
    bytes: &mut Vec<u8>,
    marks: &[Option<Mark>],
    line: &[u8],
) -> Result<(), AllocError>
    requires { length marks.now ≡ length line.now }
    ensures { OnOk result (bytes.new.items ≡ bytes.old.items
        ++ parts_text (bytes_parts (λ column. slice_index_or marks.now (column - 1) None) 1 None line.now)) }
{
    let mut under = None;
    for k in 0..line.len() {
        write_byte(bytes, under, marks[k], line[k])?;
        under = open_after(under, marks[k], line[k]);
    }
    close(bytes, under)
}
