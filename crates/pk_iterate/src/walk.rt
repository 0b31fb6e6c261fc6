// The iteration on one thread.

ghost use Rattle.std.specs.Prelude.{◌≡◌, ◌-◌, ◌^◌, ◌<◌, ◌≤◌, IfOk, IfErr};
ghost use Rattle.pk_iterate.specs.Behaviour.{ReadsWithin, place_after, LeadsBackWithin};
ghost use Rattle.pk_iterate.specs.Answer.{IsResult, IsCause};

use crate::failure::Solve;
use crate::front::{first_front, run_place};
use crate::outcome::Cells;
use crate::systems::System;
use pk_plan::{Order, Role};
use std::alloc::Global;

/// Goes through the places of the order from the first, and back where an exit decides so, until none is left.
pub fn iterate<Y: System>(
    alloc: Global,
    system: &Y,
    order: &Order,
    max_runs: u64,
) -> Result<Cells<Y::Cell>, Solve>
    requires reads { ReadsWithin (Y.meaning system.now) order.now.elements }
    requires most { max_runs ≤ 549755813888 }
    ensures ok { IfOk result (λ it. IsResult (Y.meaning system.now) order.now.order order.now.elements max_runs it) }
    ensures err { IfErr result (IsCause (Y.meaning system.now) order.now.order order.now.elements max_runs) }
{
    let places = order.places();
    let mut front = first_front(alloc, system, order.elements())?;
    let mut inputs = Vec::new(alloc);
    let mut at = 0usize;
    while at < places.len() {
        let place = places[at];
        if front.runs[place.element as usize] == max_runs {
            return Err(Solve::RunLimit {
                element: place.element,
                run: max_runs + 1,
            });
        }
        let again = run_place(alloc, system, &mut front, &mut inputs, place)?;
        at = next_place(at, place.role, again);
    }
    Ok(Cells::new(front))
}

/// The place after this one.
fn next_place(at: usize, role: Role, again: bool) -> usize
    requires room { at < 2 ^ 64 - 1 }
    requires back { LeadsBackWithin at role }
    ensures { result ≡ place_after at role again }
{
    match role {
        Role::Exit { back } if again => at - back,
        _ => at + 1,
    }
}
