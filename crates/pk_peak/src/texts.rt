// The lines of an order.

ghost use Rattle.std.specs.Prelude.{◌≡◌, IfOk, string_bytes};
ghost use Rattle.pk_plan.specs.Linear.{IsLinear};
ghost use Rattle.pk_peak.specs.Texts.{order_lines as order_lines_of, peak_line as peak_line_of};

use crate::peaks::peak;
use pk_order::line;
use pk_plan::{Order, Plan};
use std::alloc::{AllocError, Global};

// The end of the line before, and the line of a peak without its own end.
fn peak_line(alloc: Global, peak: u32) -> Result<String, AllocError>
    ensures { IfOk result (λ text. string_bytes text ≡ peak_line_of peak) }
{
    format!(in alloc; "\npeak {peak}")
}

/// The line of an order, and that of its peak where it is asked for, without the end of the last.
pub fn order_lines(
    alloc: Global,
    plan: &Plan,
    order: &Order,
    with_peak: bool,
) -> Result<Vec<u8>, AllocError>
    requires linear { IsLinear plan.now order.now.order }
    requires elements { order.now.elements ≡ plan.now.elements }
    ensures { IfOk result (λ bytes. bytes.items ≡ order_lines_of plan.now order.now.order with_peak) }
{
    let mut bytes = line(alloc, order)?;
    if with_peak {
        let further = peak_line(alloc, peak(alloc, plan, order)?)?;
        bytes.extend_from_slice(further.as_bytes())?;
        return Ok(bytes);
    }
    Ok(bytes)
}
