// What is said of an operation that is unknown.

ghost use Rattle.std.specs.Prelude.{◌≡◌, ◌-◌, ◌++◌, OnOk, drop, length, reverse, take};
ghost use Rattle.std.specs.Fmt.{decimal, signed_decimal};
ghost use Rattle.std.specs.List.{take_while};
ghost use Rattle.pk_lex.specs.Bytes.{begins_with, is_part};
ghost use Rattle.pk_findings.specs.Messages as messages;

use crate::operations::Operation;
use crate::texts::{Text, line_of};
use itoa::Buffer;
use pk_ctypes::{Fault, Pos};
use pk_show::{is_first, is_part_byte};
use std::alloc::AllocError;

// A line before a place and from there on.
#[tactic(auto, using(std::proofs::lemmas::List::take_all, std::proofs::lemmas::List::drop_all))]
fn parted(line: &[u8], column: u64) -> (&[u8], &[u8])
    ensures before { result.0.now ≡ take (column - 1) line.now }
    ensures rest { result.1.now ≡ drop (column - 1) line.now }
{
    let k = column.saturating_sub(1) as usize;
    if k <= line.len() {
        line.split_at(k)
    } else {
        (line, b"")
    }
}

fn name_length(front: &[u8]) -> usize
    ensures { result ≡ length (take_while is_part (reverse front.now)) }
{
    front.iter().rev().take_while(|b| is_part_byte(**b)).count()
}

// The name that stands right before.
#[tactic(auto, unfolding(crate::specs::Messages::name_in))]
fn name_in(front: &[u8]) -> &[u8]
    ensures { result.now ≡ messages.name_in front.now }
{
    front.split_at(front.len() - name_length(front)).1
}

fn is_plain(b: u8) -> bool
    ensures { result ≡ messages.is_plain b }
{
    !(b == b'[' || b == b']' || b == b'"' || b == b'\'')
}

fn plain_length(text: &[u8]) -> usize
    ensures { result ≡ length (take_while messages.is_plain text.now) }
{
    text.iter().take_while(|b| is_plain(**b)).count()
}

// An index in its brackets.
#[tactic(auto, unfolding(crate::specs::Messages::index_in))]
fn index_in(text: &[u8]) -> &[u8]
    ensures { result.now ≡ messages.index_in text.now }
{
    if !is_first(text, b'[') {
        return b"";
    }
    let size = plain_length(&text[1..]) + 1;
    if is_first(&text[size..], b']') {
        text.split_at(size + 1).0
    } else {
        b""
    }
}

fn is_element(name: &[u8], index: &[u8]) -> bool
    ensures { result ≡ messages.is_element name.now index.now }
{
    0 < name.len() && 0 < index.len()
}

fn write(bytes: &mut Vec<u8>, more: &[u8]) -> Result<(), AllocError>
    ensures { OnOk result (bytes.new.items ≡ bytes.old.items ++ more.now) }
{
    bytes.extend_from_slice(more)
}

fn write_element(bytes: &mut Vec<u8>, name: &[u8], index: &[u8]) -> Result<(), AllocError>
    ensures { OnOk result (bytes.new.items ≡ bytes.old.items ++ messages.element_words name.now index.now) }
{
    write(bytes, name)?;
    write(bytes, index)?;
    write(bytes, b" may be out of bounds: the index is in ")
}

fn write_index_words(
    bytes: &mut Vec<u8>,
    is_element: bool,
    name: &[u8],
    index: &[u8],
) -> Result<(), AllocError>
    ensures { OnOk result (bytes.new.items ≡ bytes.old.items ++ messages.index_words is_element name.now index.now) }
{
    if is_element {
        write_element(bytes, name, index)
    } else {
        write(bytes, b"the index may be out of bounds: it lies in ")
    }
}

fn write_words(bytes: &mut Vec<u8>, name: &[u8], index: &[u8]) -> Result<(), AllocError>
    ensures { OnOk result (bytes.new.items ≡ bytes.old.items ++ messages.words_of name.now index.now) }
{
    write_index_words(bytes, is_element(name, index), name, index)
}

fn write_index(bytes: &mut Vec<u8>, text: &Text<'_>, at: Pos) -> Result<(), AllocError>
    ensures { OnOk result (bytes.new.items
        ≡ bytes.old.items ++ messages.words_of (messages.name_in (messages.before_in text.now at))
        (messages.index_in (messages.from_in text.now at))) }
{
    let (front, rest) = parted(line_of(text, at), at.column);
    write_words(bytes, name_in(front), index_in(rest))
}

fn is_quotient(text: &Text<'_>, at: Pos) -> bool
    ensures { result ≡ messages.is_quotient text.now at }
{
    let (_, rest) = parted(line_of(text, at), at.column);
    is_first(rest, b'/') || is_first(rest, b'%')
}

fn overflow_words(is_quotient: bool) -> &'static [u8]
    ensures { result.now ≡ messages.overflow_words is_quotient }
{
    if is_quotient {
        b"the quotient may not fit its type: the divisor may be -1, and the dividend lies in "
    } else {
        b"the result may not fit its type: it lies in "
    }
}

#[tactic(auto, unfolding(crate::specs::Messages::wording))]
fn write_wording(
    bytes: &mut Vec<u8>,
    text: &Text<'_>,
    at: Pos,
    fault: Fault,
) -> Result<(), AllocError>
    ensures { OnOk result (bytes.new.items ≡ bytes.old.items ++ messages.wording text.now at fault) }
{
    match fault {
        Fault::Index => write_index(bytes, text, at),
        Fault::DivZero => write(bytes, b"the divisor may be 0: it lies in "),
        Fault::Overflow => write(bytes, overflow_words(is_quotient(text, at))),
        Fault::Shift => write(
            bytes,
            b"the shift may be undefined: its count, left operand or result lies in ",
        ),
        Fault::Assert => write(bytes, b"the assertion may fail: its value lies in "),
    }
}

fn write_number(bytes: &mut Vec<u8>, number: i128) -> Result<(), AllocError>
    ensures { OnOk result (bytes.new.items ≡ bytes.old.items ++ signed_decimal number) }
{
    let mut buffer = Buffer::new();
    write(bytes, buffer.format(number).as_bytes())
}

/// Writes a range.
#[tactic(auto, unfolding(crate::specs::Messages::range_text))]
pub fn write_range(bytes: &mut Vec<u8>, lo: i128, hi: i128) -> Result<(), AllocError>
    ensures { OnOk result (bytes.new.items ≡ bytes.old.items ++ messages.range_text lo hi) }
{
    write(bytes, b"[")?;
    write_number(bytes, lo)?;
    write(bytes, b",")?;
    write_number(bytes, hi)?;
    write(bytes, b"]")
}

#[tactic(auto, unfolding(crate::specs::Messages::plural))]
fn plural(count: u64) -> &'static [u8]
    ensures { result.now ≡ messages.plural count }
{
    if count == 1 {
        b" element"
    } else {
        b" elements"
    }
}

fn write_count(bytes: &mut Vec<u8>, count: u64) -> Result<(), AllocError>
    ensures { OnOk result (bytes.new.items ≡ bytes.old.items ++ decimal count) }
{
    let mut buffer = Buffer::new();
    write(bytes, buffer.format(count).as_bytes())
}

fn write_length(bytes: &mut Vec<u8>, count: u64) -> Result<(), AllocError>
    ensures { OnOk result (bytes.new.items ≡ bytes.old.items ++ messages.length_words count) }
{
    write(bytes, b", the array has ")?;
    write_count(bytes, count)?;
    write(bytes, plural(count))
}

fn write_elements(bytes: &mut Vec<u8>, elements: Option<u64>) -> Result<(), AllocError>
    ensures { OnOk result (bytes.new.items ≡ bytes.old.items ++ messages.elements_text elements) }
{
    match elements {
        None => Ok(()),
        Some(count) => write_length(bytes, count),
    }
}

/// Writes what is said of an operation that is unknown.
#[tactic(auto, unfolding(crate::specs::Messages::message))]
pub fn write_message(
    bytes: &mut Vec<u8>,
    text: &Text<'_>,
    operation: &Operation<'_>,
    lo: i128,
    hi: i128,
) -> Result<(), AllocError>
    ensures { OnOk result (bytes.new.items ≡ bytes.old.items ++ messages.message text.now operation.now lo hi) }
{
    write_wording(bytes, text, operation.at, operation.fault)?;
    write_range(bytes, lo, hi)?;
    write_elements(bytes, operation.elements)
}
