// The peak of an order.

ghost use Rattle.std.specs.Prelude.{◌≡◌, ℕ, ◌<◌, ◌≤◌, IfOk, length, map, slice_index};
ghost use Rattle.std.specs.List.{range_with_len};
ghost use Rattle.pk_plan.specs.Linear.{IsLinear};
ghost use Rattle.pk_peak.specs.Peak.{peak_of};

use crate::items::numbered;
use crate::readers::last_readers;
use crate::stretches::{Stretch, most_covering};
use pk_plan::{Order, Plan};
use std::alloc::{AllocError, Global};

// While which items each point is kept: from its own to the last that reads it.
fn kept(
    alloc: Global,
    points: u32,
    of: &[usize],
    last: &[usize],
) -> Result<Vec<Stretch>, AllocError>
    requires long { points ≤ length of.now }
    requires within { (e : ℕ) → e < points → slice_index of.now e < length last.now }
    ensures { IfOk result (λ stretches. stretches.items ≡ map
        (λ e. record { from = slice_index of.now e; to = slice_index last.now (slice_index of.now e) })
        (range_with_len 0 points)) }
{
    let mut stretches = Vec::with_capacity(alloc, points as usize)?;
    for point in 0..points {
        let item = of[point as usize];
        stretches.push(Stretch {
            from: item,
            to: last[item],
        })?;
    }
    Ok(stretches)
}

/// The most points that are kept at once where the items of a linear order are gone through one after another, and an item is let
/// go of as soon as no later one reads it; in time and memory linear in elements and constraints.
pub fn peak(alloc: Global, plan: &Plan, order: &Order) -> Result<u32, AllocError>
    requires linear { IsLinear plan.now order.now.order }
    requires elements { order.now.elements ≡ plan.now.elements }
    ensures { IfOk result (λ most. most ≡ peak_of plan.now order.now.order) }
{
    plan.axioms();
    let items = numbered(alloc, order)?;
    let last = last_readers(alloc, plan, &items)?;
    let stretches = kept(alloc, plan.points(), &items.of, &last)?;
    most_covering(alloc, &stretches, items.count)
}
