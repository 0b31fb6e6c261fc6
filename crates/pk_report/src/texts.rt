// Pieces of text.

ghost use Rattle.std.specs.Prelude.{◌≡◌, ◌++◌, pos, OnOk, IfOk, string_bytes};
ghost use Rattle.std.specs.Fmt.{decimal, signed_decimal};
ghost use Rattle.pk_ctypes.specs.Places.{pos_text};
ghost use Rattle.pk_ctypes.specs.Words.{fault_text};

use pk_ctypes::{Fault, Pos};
use std::alloc::{AllocError, Global};

pub(crate) fn write_text(bytes: &mut Vec<u8>, text: &str) -> Result<(), AllocError>
    ensures { OnOk result (bytes.new.items ≡ bytes.old.items ++ text.now) }
{
    bytes.extend_from_slice(text.as_bytes())
}

fn number_text(alloc: Global, number: i128) -> Result<String, AllocError>
    ensures { IfOk result (λ text. string_bytes text ≡ signed_decimal number) }
{
    format!(in alloc; "{number}")
}

pub(crate) fn write_number(
    alloc: Global,
    bytes: &mut Vec<u8>,
    number: i128,
) -> Result<(), AllocError>
    ensures { OnOk result (bytes.new.items ≡ bytes.old.items ++ signed_decimal number) }
{
    let text = number_text(alloc, number)?;
    write_text(bytes, &text)
}

fn count_text(alloc: Global, count: usize) -> Result<String, AllocError>
    ensures { IfOk result (λ text. string_bytes text ≡ decimal count) }
{
    format!(in alloc; "{count}")
}

pub(crate) fn write_count(
    alloc: Global,
    bytes: &mut Vec<u8>,
    count: usize,
) -> Result<(), AllocError>
    ensures { OnOk result (bytes.new.items ≡ bytes.old.items ++ decimal count) }
{
    let text = count_text(alloc, count)?;
    write_text(bytes, &text)
}

fn place_text(alloc: Global, at: Pos) -> Result<String, AllocError>
    ensures { IfOk result (λ text. string_bytes text ≡ pos_text at) }
{
    format!(in alloc; "{at}")
}

pub(crate) fn write_place(alloc: Global, bytes: &mut Vec<u8>, at: Pos) -> Result<(), AllocError>
    ensures { OnOk result (bytes.new.items ≡ bytes.old.items ++ pos_text at) }
{
    let text = place_text(alloc, at)?;
    write_text(bytes, &text)
}

fn kind_text(alloc: Global, fault: Fault) -> Result<String, AllocError>
    ensures { IfOk result (λ text. string_bytes text ≡ fault_text fault) }
{
    format!(in alloc; "{fault}")
}

pub(crate) fn write_kind(alloc: Global, bytes: &mut Vec<u8>, fault: Fault) -> Result<(), AllocError>
    ensures { OnOk result (bytes.new.items ≡ bytes.old.items ++ fault_text fault) }
{
    let text = kind_text(alloc, fault)?;
    write_text(bytes, &text)
}
