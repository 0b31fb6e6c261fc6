// How many workers pay.

ghost use Rattle.std.specs.Prelude.{◌≤◌, IfOk};

use pk_plan::Plan;
use pk_workers::Gate;
use std::alloc::{AllocError, Global};

// So few elements are run before a thread has begun.
const FEW: u32 = 128;

// So many elements for each one in the longest row pay a worker, which shares the board's words with the others.
const SHARE: u32 = 2;

// The longest row that ends before an element, by those that end with its predecessors.
fn row_before(plan: &Plan, lengths: &[u32], e: u32) -> u32 {
    let mut longest = 0;
    if e < plan.elements() {
        for u in plan.predecessors(e) {
            longest = longest.max(*lengths.get(*u as usize).unwrap_or(&0));
        }
    }
    longest
}

// How many elements stand in the longest row of a plan in which each waits for the one before it.
fn longest_row(alloc: Global, plan: &Plan) -> Result<u32, AllocError>
    ensures { IfOk result (λ n. 1 ≤ n) }
{
    let mut lengths = vec![in alloc; 0; plan.elements() as usize]?;
    let mut longest = 0;
    for e in plan.listing() {
        let length = row_before(plan, &lengths, *e).saturating_add(1);
        if let Some(place) = lengths.get_mut(*e as usize) {
            *place = length;
        }
        longest = longest.max(length);
    }
    Ok(longest.max(1))
}

/// How many of so many workers pay: all where the gate watches; one where a plan has few elements; and else by how many elements it has for
/// each one in its longest row, which is how many can be run at once on average. What is answered is the same whatever this gives.
pub fn paying_workers<G: Gate>(
    alloc: Global,
    gate: &G,
    plan: &Plan,
    workers: u32,
) -> Result<u32, AllocError>
    requires { 1 ≤ workers }
    ensures { IfOk result (λ n. (1 ≤ n) × (n ≤ workers)) }
{
    if workers == 1 || gate.watches() {
        return Ok(workers);
    }
    let elements = plan.elements();
    if elements < FEW {
        return Ok(1);
    }
    let at_once = elements / longest_row(alloc, plan)?;
    Ok((at_once / SHARE).max(1).min(workers))
}
