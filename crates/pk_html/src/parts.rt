// The parts of a page.

ghost use Rattle.std.specs.Prelude.{◌≡◌, ◌++◌, OnOk};
ghost use Rattle.std.specs.Fmt.{decimal, signed_decimal};
ghost use Rattle.pk_html.specs.Parts.{part_text, parts_text};

use crate::escapes::write_text;
use crate::tags::{Tag, text_of};
use itoa::Buffer;
use std::alloc::AllocError;
use std::marker::Model;

/// A text that is told.
#[derive(Drop)]
pub struct Text<'t> {
    pub bytes: &'t [u8],
}

impl<'t> Model for Text<'t> {
    ghost use Rattle.std.specs.Prelude.{List, ℕ};

    ghost Value = { List ℕ };

    ghost view = { λ t. t.bytes.now };
}

/// A part of a page.
#[derive(Drop)]
pub enum Part<'t> {
    Tag(Tag),
    Text(Text<'t>),
    Count(u64),
    Number(i128),
}

fn write_count(bytes: &mut Vec<u8>, count: u64) -> Result<(), AllocError>
    ensures { OnOk result (bytes.new.items ≡ bytes.old.items ++ decimal count) }
{
    let mut buffer = Buffer::new();
    bytes.extend_from_slice(buffer.format(count).as_bytes())
}

fn write_number(bytes: &mut Vec<u8>, number: i128) -> Result<(), AllocError>
    ensures { OnOk result (bytes.new.items ≡ bytes.old.items ++ signed_decimal number) }
{
    let mut buffer = Buffer::new();
    bytes.extend_from_slice(buffer.format(number).as_bytes())
}

fn write_part(bytes: &mut Vec<u8>, part: &Part<'_>) -> Result<(), AllocError>
    ensures { OnOk result (bytes.new.items ≡ bytes.old.items ++ part_text part.now) }
{
    match part {
        Part::Tag(tag) => bytes.extend_from_slice(text_of(*tag).as_bytes()),
        Part::Text(text) => write_text(bytes, text.bytes),
        Part::Count(count) => write_count(bytes, *count),
        Part::Number(number) => write_number(bytes, *number),
    }
}

/// Writes parts behind what stands there.
pub fn write(bytes: &mut Vec<u8>, parts: &[Part<'_>]) -> Result<(), AllocError>
    ensures { OnOk result (bytes.new.items ≡ bytes.old.items ++ parts_text parts.now) }
{
    for part in parts {
        write_part(bytes, part)?;
    }
    Ok(())
}
