// Events that are drawn among those that are enabled.

ghost use Rattle.std.specs.Prelude.{◌<◌, All, IfOk, IfSome, IsTrue};
ghost use Rattle.pk_iterate.specs.Behaviour.{ReadsWithin};
ghost use Rattle.pk_core.specs.Steps.{IsAbout};

use Event::{Again, Claim, Finish, Offer, Send, Stable};
use pk_core::{Core, Event};
use pk_gen::{drawn, next};
use pk_iterate::System;
use pk_plan::Plan;
use std::alloc::{AllocError, Global};

/// A core that has no event left, and the events that led there.
#[derive(Drop)]
pub struct Drive<'a, Y: System> {
    pub core: Core<'a, Y>,
    pub events: Vec<Event>,
}

fn row_within(row: &[u32], elements: u32) -> bool
    ensures { IsTrue result → All (λ u. u < elements) row.now }
{
    match row {
        [] => true,
        [u, others @ ..] => *u < elements && row_within(others, elements),
    }
}

/// Whether elements read elements alone.
pub fn reads_within<Y: System>(system: &Y, elements: u32) -> bool
    ensures { IsTrue result → ReadsWithin (Y.meaning system.now) elements }
{
    for e in 0..elements {
        if !row_within(system.reads(e), elements) {
            return false;
        }
    }
    true
}

fn add_sends(events: &mut Vec<Event>, e: u32, successors: &[u32]) -> Result<(), AllocError> {
    for v in successors {
        events.push(Send(e, *v))?;
    }
    Ok(())
}

fn add_others(events: &mut Vec<Event>, e: u32) -> Result<(), AllocError> {
    events.extend_from_slice(&[Offer(e), Claim(e), Finish(e), Stable(e), Again(e)])
}

// Every event of a plan's elements.
fn all_events(alloc: Global, plan: &Plan) -> Result<Vec<Event>, AllocError> {
    let mut events = Vec::new(alloc);
    for e in 0..plan.elements() {
        add_others(&mut events, e)?;
        add_sends(&mut events, e, plan.successors(e))?;
    }
    Ok(events)
}

// Those of the events that are enabled.
fn enabled_among<Y: System>(
    alloc: Global,
    core: &Core<Y>,
    events: &[Event],
) -> Result<Vec<Event>, AllocError> {
    let mut enabled = Vec::new(alloc);
    for event in events {
        if core.enabled(*event)? {
            enabled.push(*event)?;
        }
    }
    Ok(enabled)
}

fn pick(events: &[Event], draw: u32) -> Option<Event> {
    if events.is_empty() {
        return None;
    }
    Some(events[draw as usize % events.len()])
}

/// Makes events that the generator draws from a seed, until none is enabled; nothing where that doesn't come.
pub fn driven<'a, Y: System>(
    alloc: Global,
    system: &'a Y,
    plan: &'a Plan,
    seed: u32,
) -> Result<Option<Drive<'a, Y>>, AllocError>
    requires seed { seed < 2147483648 }
    requires reads { ReadsWithin (Y.meaning system.now) plan.now.elements }
    ensures { IfOk result (λ made. IfSome made (λ d. IsAbout system.now plan.now d.core)) }
{
    let all = all_events(alloc, plan)?;
    let mut events = Vec::new(alloc);
    let mut core = Core::start(alloc, system, plan)?;
    let mut state = seed;
    for step in 0..100000u32 {
        state = next(state);
        let enabled = enabled_among(alloc, &core, &all)?;
        let event = match pick(&enabled, drawn(state)) {
            None => return Ok(Some(Drive { core, events })),
            Some(event) => event,
        };
        if !core.enabled(event)? {
            return Ok(None);
        }
        core.step(event)?;
        events.push(event)?;
    }
    Ok(None)
}
