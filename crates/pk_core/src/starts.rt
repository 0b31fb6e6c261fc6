// The elements at the start.

ghost use Rattle.std.specs.Prelude.{◌≡◌, ◌<◌, IfOk, map};
ghost use Rattle.std.specs.List.{range_with_len};
ghost use Rattle.pk_plan.specs.Plans.{predecessors_of};
ghost use Rattle.pk_core.specs.Events.{start_status};
ghost use Rattle.pk_core.specs.Entries.{standing_of, first_standing};

use crate::entries::Entry;
use crate::events::Status;
use pk_iterate::System;
use pk_plan::Plan;
use std::alloc::{AllocError, Global};
use std::sync::Arc;

fn first_status(plan: &Plan, e: u32) -> Status
    requires { e < plan.now.elements }
    ensures { result ≡ start_status (predecessors_of plan.now e) }
{
    match plan.full(e) {
        0 => Status::Open,
        n => Status::Waiting(n),
    }
}

fn first_entry<Y: System>(
    alloc: Global,
    system: &Y,
    plan: &Plan,
    e: u32,
) -> Result<Entry<Y::Cell>, AllocError>
    requires { e < plan.now.elements }
    ensures { IfOk result (λ x. standing_of x ≡ first_standing (Y.meaning system.now) plan.now e) }
{
    let cell = system.first(alloc, e)?;
    Ok(Entry {
        status: first_status(plan, e),
        run: 0,
        cell: Arc::new(alloc, cell)?,
        sends: Vec::new(alloc),
    })
}

/// Each element with its first cell and no run; those without predecessors are open.
pub fn first_entries<Y: System>(
    alloc: Global,
    system: &Y,
    plan: &Plan,
) -> Result<Vec<Entry<Y::Cell>>, AllocError>
    ensures { IfOk result (λ v. map standing_of v.items
        ≡ map (first_standing (Y.meaning system.now) plan.now) (range_with_len 0 plan.now.elements)) }
{
    let mut entries = Vec::new(alloc);
    for e in 0..plan.elements() {
        entries.push(first_entry(alloc, system, plan, e)?)?;
    }
    Ok(entries)
}
