// What stands before the cells.

ghost use Rattle.std.specs.Prelude.{◌≡◌, ◌++◌, OnOk};
ghost use Rattle.pk_cert.specs.Heads.{head_text};
ghost use Rattle.pk_cert.specs.Pieces.{counted, lined};
ghost use Rattle.pk_cert_cells.specs.Cells.{head_of};

use itoa::Buffer;
use std::alloc::AllocError;

// Writes a number, and a space.
fn write_count(bytes: &mut Vec<u8>, count: usize) -> Result<(), AllocError>
    ensures { OnOk result (bytes.new.items ≡ bytes.old.items ++ counted 32 count) }
{
    let mut buffer = Buffer::new();
    bytes.extend_from_slice(buffer.format(count).as_bytes())?;
    bytes.push(b' ')?;
    Ok(())
}

// Writes a text, and the line's end.
fn write_lined(bytes: &mut Vec<u8>, text: &[u8]) -> Result<(), AllocError>
    ensures { OnOk result (bytes.new.items ≡ bytes.old.items ++ lined text.now) }
{
    bytes.extend_from_slice(text)?;
    bytes.push(b'\n')?;
    Ok(())
}

/// Writes the head of a text, the size of the octagon and an entry.
pub(crate) fn write_head(
    bytes: &mut Vec<u8>,
    text: &[u8],
    oct: u32,
    entry: &[u8],
) -> Result<(), AllocError>
    ensures { OnOk result (bytes.new.items ≡ bytes.old.items ++ head_text (head_of text.now oct entry.now)) }
{
    bytes.extend_from_slice(b"pikos-cert 1 ")?;
    write_count(bytes, text.len())?;
    write_count(bytes, oct as usize)?;
    write_lined(bytes, entry)?;
    write_lined(bytes, text)?;
    Ok(())
}
