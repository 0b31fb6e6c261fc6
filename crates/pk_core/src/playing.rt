// A list of events, one after another.

ghost use Rattle.std.specs.Prelude.{◌≡◌, ◌<◌, IfOk, IfErr};
ghost use Rattle.pk_plan.specs.Shape.{shape_of};
ghost use Rattle.pk_iterate.specs.Behaviour.{ReadsWithin};
ghost use Rattle.pk_core.specs.Events.{start, AllEnabled, played};
ghost use Rattle.pk_core.specs.Shown.{Shows};
ghost use Rattle.pk_core.specs.Steps.{IsAbout};
ghost use Rattle.pk_core.specs.Refusals.{IsRefusal};

use crate::cores::Core;
use crate::events::Event;
use pk_iterate::System;
use pk_plan::Plan;
use std::alloc::{AllocError, Global};

/// Why a list of events isn't played: the one at this place, counted from 0, isn't enabled, or memory was refused.
#[derive(Clone, Copy)]
pub enum PlayError {
    NotEnabled { place: usize },
    Memory,
}

impl From<AllocError> for PlayError {
    ghost use Rattle.pk_core.specs.declared.playing.PlayError.TheVariants.{Memory};

    ghost from_gives = { λ _ e. e ≡ Memory };

    fn from(_e: AllocError) -> PlayError {
        PlayError::Memory
    }
}

/// Plays the events from the start, each of which has to be enabled where it comes.
pub fn play<'a, Y: System>(
    alloc: Global,
    system: &'a Y,
    plan: &'a Plan,
    events: &[Event],
) -> Result<Core<'a, Y>, PlayError>
    requires { ReadsWithin (Y.meaning system.now) plan.now.elements }
    ensures about { IfOk result (IsAbout system.now plan.now) }
    ensures enabled { IfOk result
        (λ c. AllEnabled (Y.meaning system.now) (shape_of plan.now) (start (shape_of plan.now)) events.now) }
    ensures played { IfOk result
        (λ c. Shows (Y.meaning system.now) c
        (played (Y.meaning system.now) (shape_of plan.now) (start (shape_of plan.now)) events.now)) }
    ensures refused { IfErr result (IsRefusal (Y.meaning system.now) (shape_of plan.now) events.now) }
{
    let mut core = Core::start(alloc, system, plan)?;
    for (place, event) in events.iter().enumerate() {
        if !core.enabled(*event)? {
            return Err(PlayError::NotEnabled { place });
        }
        core.step(*event)?;
    }
    Ok(core)
}
