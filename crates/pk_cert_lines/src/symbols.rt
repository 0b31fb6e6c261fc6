// Symbols, each with a space behind it.

ghost use Rattle.std.specs.Prelude.{◌≡◌, ◌++◌, ◌∷◌, [], ℤ, OnOk};
ghost use Rattle.std.specs.Fmt.{signed_decimal};
ghost use Rattle.pk_cert.specs.Rows.{symbol_text};
ghost use Rattle.pk_cert_states.specs.Lines.{four_of};
ghost use Rattle.pk_cert_lines.specs.Symbols.{spaced};

use itoa::Buffer;
use pk_value::Value;
use std::alloc::AllocError;

fn write_number(bytes: &mut Vec<u8>, number: i128) -> Result<(), AllocError>
    ensures { OnOk result (bytes.new.items ≡ bytes.old.items ++ signed_decimal number) }
{
    let mut buffer = Buffer::new();
    bytes.extend_from_slice(buffer.format(number).as_bytes())
}

fn write_text(bytes: &mut Vec<u8>, symbol: Option<i128>) -> Result<(), AllocError>
    ensures { OnOk result (bytes.new.items ≡ bytes.old.items ++ symbol_text symbol) }
{
    match symbol {
        None => bytes.extend_from_slice(b"*"),
        Some(number) => write_number(bytes, number),
    }
}

/// Writes a number or `*`, and a space.
pub(crate) fn write_symbol(bytes: &mut Vec<u8>, symbol: Option<i128>) -> Result<(), AllocError>
    ensures { OnOk result (bytes.new.items ≡ bytes.old.items ++ spaced (symbol ∷ [])) }
{
    write_text(bytes, symbol)?;
    bytes.push(b' ')?;
    Ok(())
}

/// Writes the four numbers of a value.
pub(crate) fn write_value(bytes: &mut Vec<u8>, value: &Value) -> Result<(), AllocError>
    ensures { OnOk result (bytes.new.items ≡ bytes.old.items ++ spaced (four_of value.now)) }
{
    write_symbol(bytes, Some(value.interval.lo))?;
    write_symbol(bytes, Some(value.interval.hi))?;
    write_symbol(bytes, Some(value.congr.m))?;
    write_symbol(bytes, Some(value.congr.r))
}
