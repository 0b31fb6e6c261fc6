// The items of a plan: their last elements, and their points.

ghost use Rattle.std.specs.Prelude.{◌≡◌, ℕ, ◌<◌, IfOk, length, slice_index};
ghost use Rattle.pk_items.specs.Items.{top_of, EndsItem, points_in};
ghost use Rattle.pk_items.specs.Tops.{AreTops, AreEnds};

use pk_plan::Plan;
use std::alloc::{AllocError, Global};

// Of each place of the listing the end of the longest component that begins there, or 0.
fn ends_from(alloc: Global, plan: &Plan) -> Result<Vec<u32>, AllocError>
    ensures { IfOk result (λ ends. AreEnds plan.now ends.items) }
{
    plan.axioms();
    let mut ends: Vec<u32> = vec![in alloc; 0; plan.elements() as usize]?;
    for component in plan.components() {
        let first = component.first as usize;
        ends[first] = ends[first].max(component.end);
    }
    Ok(ends)
}

/// The last element of each element's item; in time and memory linear in elements.
pub fn tops(alloc: Global, plan: &Plan) -> Result<Vec<u32>, AllocError>
    ensures { IfOk result (λ tops. AreTops plan.now tops.items) }
{
    plan.axioms();
    let ends = ends_from(alloc, plan)?;
    let listing = plan.listing();
    let mut tops = vec![in alloc; 0; plan.elements() as usize]?;
    let mut until: u32 = 0;
    for place in 0..plan.elements() {
        until = until.max(ends[place as usize]);
        tops[listing[place as usize] as usize] = listing[place.max(until) as usize];
    }
    Ok(tops)
}

/// The points of the item that an element ends, in order of number.
pub fn points_of(alloc: Global, plan: &Plan, x: u32) -> Result<Vec<u32>, AllocError>
    requires { EndsItem plan.now x }
    ensures { IfOk result (λ points. points.items ≡ points_in plan.now x) }
{
    plan.axioms();
    let mut points = Vec::new(alloc);
    if !plan.is_exit(x) {
        points.push(x)?;
        return Ok(points);
    }
    for e in plan.members(plan.component_of(x)) {
        if *e < plan.points() {
            points.push(*e)?;
        }
    }
    points.sort_unstable();
    Ok(points)
}
