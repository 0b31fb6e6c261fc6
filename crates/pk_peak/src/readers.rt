// Which item is the last that reads an item.

ghost use Rattle.std.specs.Prelude.{◌≡◌, ℕ, ◌<◌, IfOk, length, slice_index};
ghost use Rattle.std.specs.List.{range_with_len};
ghost use Rattle.pk_peak.specs.Readers.{AreLast};

use crate::items::Items;
use pk_plan::Plan;
use std::alloc::{AllocError, Global};

// The items themselves.
fn own(alloc: Global, count: usize) -> Result<Vec<usize>, AllocError>
    ensures { IfOk result (λ items. items.items ≡ range_with_len 0 count) }
{
    let mut items = Vec::with_capacity(alloc, count)?;
    for item in 0..count {
        items.push(item)?;
    }
    Ok(items)
}

/// The last reader of each item, or the item itself.
pub fn last_readers(alloc: Global, plan: &Plan, items: &Items) -> Result<Vec<usize>, AllocError>
    requires long { length items.now.of.items ≡ plan.now.elements }
    requires within { (e : ℕ) → e < plan.now.elements → slice_index items.now.of.items e < items.now.count }
    ensures { IfOk result
        (λ last. AreLast plan.now (λ e. slice_index items.now.of.items e) items.now.count last.items) }
{
    plan.axioms();
    let mut last = own(alloc, items.count)?;
    for b in 0..plan.elements() - 1 {
        let reader = items.of[b as usize];
        for a in plan.predecessors(b) {
            let read = items.of[*a as usize];
            last[read] = last[read].max(reader);
        }
    }
    Ok(last)
}
