// What is asked of a core's elements.

ghost use Rattle.std.specs.Prelude.{◌≡◌, ◌↔◌, ◌<◌, IsTrue, IfOk, map};
ghost use Rattle.std.specs.Arc.{arc_value};
ghost use Rattle.pk_plan.specs.Shape.{shape_of};
ghost use Rattle.pk_iterate.specs.Behaviour.{HoldEach, inputs_in, decided_cell, is_again};
ghost use Rattle.pk_core.specs.declared.events.Event.TheVariants.{Claim, Send};
ghost use Rattle.pk_core.specs.States.{State, inputs_of};
ghost use Rattle.pk_core.specs.Events.{IsHeld, Decides, Enabled};
ghost use Rattle.pk_core.specs.Shown.{Shows};
ghost use Rattle.pk_core.specs.Entries.{cells_of};

use crate::cores::Core;
use crate::entries::{is_held, is_open, shared};
use pk_iterate::{Decision, System};
use std::alloc::AllocError;
use std::sync::Arc;

fn is_again<C>(decision: &Decision<C>) -> bool
    ensures { result ≡ is_again decision.now }
{
    match decision {
        Decision::Stable(_) => false,
        Decision::Again(_) => true,
    }
}

fn cell_of<C>(decision: Decision<C>) -> C
    ensures { result ≡ decided_cell decision }
{
    match decision {
        Decision::Stable(cell) | Decision::Again(cell) => cell,
    }
}

impl<'a, Y: System> Core<'a, Y> {
    pub(crate) fn holds(&self, e: u32) -> bool
        ensures within { IsTrue result → e < self.now.plan.elements }
        ensures held { (s : State Y.Cell) → Shows (Y.meaning self.now.system) self.now s
            → (IsTrue result ↔ IsHeld (shape_of self.now.plan) s e) }
    {
        if e as usize >= self.entries.len() {
            return false;
        }
        is_held(self.entries[e as usize].status)
    }

    pub(crate) fn leaves_open(&self, e: u32) -> bool
        ensures { (s : State Y.Cell) → Shows (Y.meaning self.now.system) self.now s
            → (IsTrue result ↔ Enabled (Y.meaning self.now.system) (shape_of self.now.plan) s (Claim e)) }
    {
        if e as usize >= self.entries.len() {
            return false;
        }
        is_open(self.entries[e as usize].status)
    }

    pub(crate) fn owes(&self, u: u32, v: u32) -> bool
        ensures { (s : State Y.Cell) → Shows (Y.meaning self.now.system) self.now s
            → (IsTrue result ↔ Enabled (Y.meaning self.now.system) (shape_of self.now.plan) s (Send u v)) }
    {
        if u as usize >= self.entries.len() || v as usize >= self.entries.len() {
            return false;
        }
        self.entries[u as usize].sends.contains(&v)
    }

    pub(crate) fn inputs(&self, e: u32) -> Result<Vec<Arc<Y::Cell>>, AllocError>
        requires { e < self.now.plan.elements }
        ensures inputs { IfOk result (λ v. map arc_value v.items
            ≡ inputs_in (Y.meaning self.now.system) (cells_of self.now.elements) e) }
        ensures shown { (s : State Y.Cell) → Shows (Y.meaning self.now.system) self.now s
            → inputs_in (Y.meaning self.now.system) (cells_of self.now.elements) e
            ≡ inputs_of (Y.meaning self.now.system) s e }
        ensures held { HoldEach (Y.may_hold self.now.system) ((Y.meaning self.now.system).reads e)
            (inputs_in (Y.meaning self.now.system) (cells_of self.now.elements) e) }
    {
        shared(self.alloc, &self.entries, self.system.reads(e))
    }

    pub(crate) fn decision(&self, x: u32) -> Result<Decision<Y::Cell>, AllocError>
        requires { x < self.now.plan.elements }
        ensures decision { IfOk result (λ d. d
            ≡ (Y.meaning self.now.system).decide x
            (inputs_in (Y.meaning self.now.system) (cells_of self.now.elements) x)) }
        ensures shown { (s : State Y.Cell) → Shows (Y.meaning self.now.system) self.now s
            → inputs_in (Y.meaning self.now.system) (cells_of self.now.elements) x
            ≡ inputs_of (Y.meaning self.now.system) s x }
        ensures held { Y.may_hold self.now.system x
            (decided_cell ((Y.meaning self.now.system).decide x
            (inputs_in (Y.meaning self.now.system) (cells_of self.now.elements) x))) }
    {
        let inputs = self.inputs(x)?;
        self.system.decide(self.alloc, x, &inputs)
    }

    pub(crate) fn decides(&self, x: u32, again: bool) -> Result<bool, AllocError>
        ensures { IfOk result (λ yes. (s : State Y.Cell) → Shows (Y.meaning self.now.system) self.now s
            → (IsTrue yes ↔ Decides (Y.meaning self.now.system) (shape_of self.now.plan) s x again)) }
    {
        if !self.holds(x) {
            return Ok(false);
        }
        if !self.plan.is_exit(x) {
            return Ok(false);
        }
        let decision = self.decision(x)?;
        Ok(is_again(&decision) == again)
    }

    /// The cell that a run of e gives, where e is no exit.
    pub(crate) fn applied(&self, e: u32) -> Result<Arc<Y::Cell>, AllocError>
        requires { e < self.now.plan.elements }
        ensures cell { IfOk result (λ c. arc_value c
            ≡ (Y.meaning self.now.system).apply e
            (inputs_in (Y.meaning self.now.system) (cells_of self.now.elements) e)) }
        ensures shown { (s : State Y.Cell) → Shows (Y.meaning self.now.system) self.now s
            → inputs_in (Y.meaning self.now.system) (cells_of self.now.elements) e
            ≡ inputs_of (Y.meaning self.now.system) s e }
        ensures held { IfOk result (λ c. Y.may_hold self.now.system e (arc_value c)) }
    {
        let inputs = self.inputs(e)?;
        let cell = self.system.apply(self.alloc, e, &inputs)?;
        Ok(Arc::new(self.alloc, cell)?)
    }

    /// The cell that a run of the exit x gives.
    pub(crate) fn decided(&self, x: u32) -> Result<Arc<Y::Cell>, AllocError>
        requires { x < self.now.plan.elements }
        ensures cell { IfOk result (λ c. arc_value c
            ≡ decided_cell ((Y.meaning self.now.system).decide x
            (inputs_in (Y.meaning self.now.system) (cells_of self.now.elements) x))) }
        ensures shown { (s : State Y.Cell) → Shows (Y.meaning self.now.system) self.now s
            → inputs_in (Y.meaning self.now.system) (cells_of self.now.elements) x
            ≡ inputs_of (Y.meaning self.now.system) s x }
        ensures held { IfOk result (λ c. Y.may_hold self.now.system x (arc_value c)) }
    {
        let decision = self.decision(x)?;
        Ok(Arc::new(self.alloc, cell_of(decision))?)
    }
}
