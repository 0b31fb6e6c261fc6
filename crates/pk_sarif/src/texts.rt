// The text of values, one behind the other.

ghost use Rattle.std.specs.Prelude.{◌≡◌, ◌++◌, OnOk, false};
ghost use Rattle.serde_json.specs.View.{view};
ghost use Rattle.serde_json.specs.Written.{compact_text, comma_if, has_float};

use serde_json::Value;
use std::alloc::{AllocError, Global};

/// Writes these bytes.
pub(crate) fn write(bytes: &mut Vec<u8>, more: &[u8]) -> Result<(), AllocError>
    ensures { OnOk result (bytes.new.items ≡ bytes.old.items ++ more.now) }
{
    bytes.extend_from_slice(more)
}

/// Writes the text of a value.
pub(crate) fn write_value(
    alloc: Global,
    bytes: &mut Vec<u8>,
    value: &Value,
) -> Result<(), AllocError>
    requires { has_float (view value.now) ≡ false }
    ensures { OnOk result (bytes.new.items ≡ bytes.old.items ++ compact_text (view value.now)) }
{
    let text = value.to_vec(alloc)?;
    write(bytes, &text)
}

fn write_comma(bytes: &mut Vec<u8>, later: bool) -> Result<(), AllocError>
    ensures { OnOk result (bytes.new.items ≡ bytes.old.items ++ comma_if later) }
{
    if later { write(bytes, b",") } else { Ok(()) }
}

/// Writes a value of an array, behind a comma where one stands before it.
pub(crate) fn write_item(
    alloc: Global,
    bytes: &mut Vec<u8>,
    later: bool,
    value: &Value,
) -> Result<(), AllocError>
    requires { has_float (view value.now) ≡ false }
    ensures { OnOk result (
        bytes.new.items ≡ bytes.old.items ++ (comma_if later ++ compact_text (view value.now))) }
{
    write_comma(bytes, later)?;
    write_value(alloc, bytes, value)
}
