// What items wait for.

ghost use Rattle.std.specs.Prelude.{◌≡◌, ◌<◌, ◌≤◌, ℕ, IfOk, IfSome, IfNone, All, length, slice_index, slice_index_or, false};
ghost use Rattle.pk_plan.specs.Plans.{place_of};
ghost use Rattle.pk_linear.specs.Waits.{AreLasts, WaitsFor, WaitsNoMore, IsPlaced, IsReadTo};

use pk_plan::Plan;
use std::alloc::{AllocError, Global};

// How far an item's constraints were read: up to a place of the plan's listing, and of the predecessors of the element there so
// many.
#[derive(Clone, Copy)]
pub struct Reading {
    pub place: u32,
    pub read: usize,
}

// The last place of each element's item.
pub fn last_places(alloc: Global, plan: &Plan) -> Result<Vec<u32>, AllocError>
    ensures { IfOk result (λ lasts. AreLasts plan.now lasts.items) }
{
    plan.axioms();
    let mut lasts = Vec::new(alloc);
    for element in 0..plan.elements() {
        lasts.push(plan.place(element))?;
    }
    for component in plan.components() {
        lasts[component.head as usize] = component.end;
    }
    Ok(lasts)
}

// How many of these elements come before the first, from the one numbered `read` on, that stands before `first` and isn't placed.
fn read_on(plan: &Plan, placed: &[bool], first: u32, inputs: &[u32], read: usize) -> usize
    requires inputs { All (λ a. a < plan.now.elements) inputs.now }
    requires placed { length placed.now ≡ plan.now.elements }
    ensures passed { (k : ℕ) → read ≤ k → k < result → k < length inputs.now →
        place_of plan.now (slice_index inputs.now k) < first → IsPlaced placed.now (slice_index inputs.now k) }
    ensures stops { result < length inputs.now → place_of plan.now (slice_index inputs.now result) < first }
    ensures unplaced { result < length inputs.now →
        slice_index_or placed.now (slice_index inputs.now result) false ≡ false }
{
    let mut next = read;
    while next < inputs.len() {
        let input = inputs[next];
        if plan.place(input) < first && !placed[input as usize] {
            return next;
        }
        next += 1;
    }
    next
}

// The first element, from where the reading stands, that an item waits for, and where the reading stands then.
pub fn next_wait(
    plan: &Plan,
    lasts: &[u32],
    placed: &[bool],
    item: u32,
    reading: Reading,
) -> (Reading, Option<u32>)
    requires lasts { AreLasts plan.now lasts.now }
    requires placed { length placed.now ≡ plan.now.elements }
    requires item { item < plan.now.elements }
    requires reading { IsReadTo plan.now placed.now item reading }
    ensures reading { IsReadTo plan.now placed.now item result.0 }
    ensures waits { IfSome result.1 (WaitsFor plan.now lasts.now item) }
    ensures unplaced { IfSome result.1 (λ a. slice_index_or placed.now a false ≡ false) }
    ensures ready { IfNone result.1 (WaitsNoMore plan.now lasts.now placed.now item) }
{
    plan.axioms();
    let first = plan.place(item);
    let last = lasts[item as usize];
    let mut place = reading.place;
    let mut read = reading.read;
    while place <= last {
        let inputs = plan.predecessors(plan.listing()[place as usize]);
        let next = read_on(plan, placed, first, inputs, read);
        if next < inputs.len() {
            return (Reading { place, read: next }, Some(inputs[next]));
        }
        place += 1;
        read = 0;
    }
    (Reading { place, read }, None)
}
