// The text of an order.

ghost use Rattle.std.specs.Prelude.{◌≡◌, ◌++◌, IfOk, OnOk, string_bytes};
ghost use Rattle.std.specs.Fmt.{decimal};
ghost use Rattle.pk_linear.specs.Texts.{order_text, with_space, with_place};

use pk_plan::{Order, Place, Role};
use std::alloc::{AllocError, Global};

fn number_text(alloc: Global, number: u32) -> Result<String, AllocError>
    ensures { IfOk result (λ text. string_bytes text ≡ decimal number) }
{
    format!(in alloc; "{number}")
}

fn write_number(alloc: Global, bytes: &mut Vec<u8>, number: u32) -> Result<(), AllocError>
    ensures { OnOk result (bytes.new.items ≡ bytes.old.items ++ decimal number) }
{
    let text = number_text(alloc, number)?;
    bytes.extend_from_slice(text.as_bytes())
}

// Parts what follows from the text so far, if there is any.
fn write_space(bytes: &mut Vec<u8>) -> Result<(), AllocError>
    ensures { OnOk result (bytes.new.items ≡ with_space bytes.old.items) }
{
    if !bytes.is_empty() {
        bytes.push(b' ')?;
    }
    Ok(())
}

fn write_place(alloc: Global, bytes: &mut Vec<u8>, end: u32, place: Place) -> Result<(), AllocError>
    ensures { OnOk result (bytes.new.items ≡ with_place end bytes.old.items place) }
{
    match place.role {
        Role::Vertex => {
            if place.element == end {
                return Ok(());
            }
            write_space(bytes)?;
            write_number(alloc, bytes, place.element)
        }
        Role::Head => {
            write_space(bytes)?;
            bytes.push(b'(')?;
            write_number(alloc, bytes, place.element)
        }
        Role::Exit { .. } => {
            bytes.push(b')')?;
            Ok(())
        }
    }
}

/// The text of an order: points in decimal, parted by one space, a component in brackets. Exits and the last element, END, aren't
/// written.
pub fn line(alloc: Global, order: &Order) -> Result<Vec<u8>, AllocError>
    ensures { IfOk result (λ text. text.items ≡ order_text order.now) }
{
    let end = order.elements().saturating_sub(1);
    let mut bytes = Vec::new(alloc);
    for place in order.places() {
        write_place(alloc, &mut bytes, end, *place)?;
    }
    Ok(bytes)
}
