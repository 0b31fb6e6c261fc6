// The scheduler's core.

ghost use Rattle.std.specs.Prelude.{◌≡◌, ◌↔◌, ◌<◌, IsTrue, IfOk, OnOk, OnErr};
ghost use Rattle.std.specs.Arc.{arc_value};
ghost use Rattle.pk_plan.specs.Shape.{shape_of};
ghost use Rattle.pk_iterate.specs.Behaviour.{ReadsWithin};
ghost use Rattle.pk_core.specs.States.{State, cell_in, run_number};
ghost use Rattle.pk_core.specs.Events.{start, Enabled};
ghost use Rattle.pk_core.specs.Shown.{Shows};
ghost use Rattle.pk_core.specs.Steps.{CanStep, IsStep, IsAbout};

use crate::entries::Entry;
use crate::events::{Event, Status};
use crate::starts::first_entries;
use pk_iterate::System;
use pk_plan::Plan;
use std::alloc::{AllocError, Global};
use std::marker::Model;
use std::sync::Arc;

/// The elements of a plan, over a system whose cells they hold.
#[derive(Drop)]
pub struct Core<'a, Y: System> {
    pub(crate) alloc: Global,
    pub(crate) system: &'a Y,
    pub(crate) plan: &'a Plan,
    pub(crate) entries: Vec<Entry<Y::Cell>>,
}

impl<'a, Y: System> Model for Core<'a, Y> {
    ghost use Rattle.pk_core.specs.Shown.{CoreView};

    ghost Value = { CoreView Y Y.Cell };

    ghost use Rattle.std.specs.Prelude.{map};
    ghost use Rattle.pk_core.specs.Entries.{standing_of, AreKept};

    ghost view = { λ c. record {
      system = c.system.now;
      plan = c.plan.now;
      elements = map standing_of c.entries.items;
    } };

    ghost invariant = { λ c. AreKept (Y.meaning c.system.now) (Y.may_hold c.system.now) c.plan.now.elements
        (map standing_of c.entries.items) };
}

impl<'a, Y: System> Core<'a, Y> {
    /// The core at the start: elements without predecessors are open, all others wait.
    pub fn start(alloc: Global, system: &'a Y, plan: &'a Plan) -> Result<Core<'a, Y>, AllocError>
        requires { ReadsWithin (Y.meaning system.now) plan.now.elements }
        ensures about { IfOk result (IsAbout system.now plan.now) }
        ensures start { IfOk result (λ c. Shows (Y.meaning system.now) c (start (shape_of plan.now))) }
    {
        let entries = first_entries(alloc, system, plan)?;
        Ok(Core {
            alloc,
            system,
            plan,
            entries,
        })
    }

    /// Whether an event is enabled.
    pub fn enabled(&self, event: Event) -> Result<bool, AllocError>
        ensures { IfOk result (λ yes. (s : State Y.Cell) → Shows (Y.meaning self.now.system) self.now s
            → (IsTrue yes ↔ Enabled (Y.meaning self.now.system) (shape_of self.now.plan) s event)) }
    {
        match event {
            Event::Offer(e) => Ok(self.holds(e)),
            Event::Claim(e) => Ok(self.leaves_open(e)),
            Event::Finish(e) => Ok(self.holds(e) && !self.plan.is_exit(e)),
            Event::Send(u, v) => Ok(self.owes(u, v)),
            Event::Stable(x) => self.decides(x, false),
            Event::Again(x) => self.decides(x, true),
        }
    }

    /// Makes an event that is enabled.
    pub fn step(&mut self, event: Event) -> Result<(), AllocError>
        requires { CanStep (Y.meaning self.old.system) self.old event }
        ensures ok { OnOk result (IsStep (Y.meaning self.old.system) self.old event self.new) }
        ensures err { OnErr result (self.new ≡ self.old) }
    {
        match event {
            Event::Offer(e) => self.mark(e, Status::Open),
            Event::Claim(e) => self.mark(e, Status::Held),
            Event::Send(u, v) => self.tell(u, v),
            Event::Finish(e) => {
                let cell = self.applied(e)?;
                self.finish(e, cell)?;
            }
            Event::Stable(x) => {
                let cell = self.decided(x)?;
                self.finish(x, cell)?;
            }
            Event::Again(x) => {
                let cell = self.decided(x)?;
                self.go_back(x, cell);
            }
        }
        Ok(())
    }

    /// The cell of an element.
    pub fn cell(&self, e: u32) -> &Arc<Y::Cell>
        requires { e < self.now.plan.elements }
        ensures cell { (s : State Y.Cell) → Shows (Y.meaning self.now.system) self.now s
            → arc_value result.now ≡ cell_in (Y.meaning self.now.system) s e }
        ensures held { Y.may_hold self.now.system e (arc_value result.now) }
    {
        &self.entries[e as usize].cell
    }

    /// How often an element was run.
    pub fn run(&self, e: u32) -> u64
        requires { e < self.now.plan.elements }
        ensures { (s : State Y.Cell) → Shows (Y.meaning self.now.system) self.now s → result ≡ run_number (s e) }
    {
        self.entries[e as usize].run
    }
}
