// A system of equations, whose heads and exits go by the phases.

ghost use Rattle.std.specs.Prelude.{◌≡◌, IfOk};
ghost use Rattle.pk_phases.specs.Values.{next_value, decided_phase};
ghost use Rattle.pk_phases.specs.Equations.{value_of, phase_of, AreHeld};

use crate::equations::{Cell, Equate, Part};
use crate::phases::{Phase, asks, decision, first_phase};
use pk_iterate::{Decision, System};
use std::alloc::{AllocError, Global};
use std::sync::Arc;

/// Equations, iterated by the phases.
#[derive(Drop)]
pub struct Phased<E> {
    pub equations: E,
}

/// What the head's run makes of its value and the new one.
fn next<E: Equate>(
    alloc: Global,
    equations: &E,
    phase: Phase,
    old: &E::Value,
    new: &E::Value,
) -> Result<E::Value, AllocError>
    requires { AreHeld (E.held equations.now) old.now new.now }
    ensures { IfOk result (λ v. v ≡ next_value (E.meaning equations.now).ops phase old.now new.now) }
{
    match phase {
        Phase::Delay(_) => equations.joined(alloc, old, new),
        Phase::Up => equations.widen(alloc, old, new),
        Phase::Down(_) => equations.narrowed(alloc, old, new),
        Phase::Last => equations.widen(alloc, old, new),
    }
}

/// What the exit decides of its head's value and the new one.
fn decide_by<E: Equate>(
    alloc: Global,
    equations: &E,
    phase: Phase,
    old: &E::Value,
    new: &E::Value,
) -> Result<Decision<Phase>, AllocError>
    requires { AreHeld (E.held equations.now) old.now new.now }
    ensures { IfOk result (λ d.
        d ≡ decided_phase (E.meaning equations.now).ops (E.meaning equations.now).delay
        (E.meaning equations.now).narrow phase old.now new.now) }
{
    let below = equations.leq(new, old);
    let delay = equations.delay();
    let most = equations.narrow();
    if !asks(most, phase, below) {
        return Ok(decision(delay, most, phase, below, false));
    }
    let narrowed = equations.narrowed(alloc, old, new)?;
    let settled = equations.same(&narrowed, old);
    Ok(decision(delay, most, phase, below, settled))
}

/// The phase of an exit's cell.
fn phase_in<V>(cell: &Cell<V>) -> Phase
    ensures { result ≡ phase_of cell.now }
{
    match cell {
        Cell::Value(_) => Phase::Up,
        Cell::Exit(phase) => *phase,
    }
}

/// A head's run, of its exit's cell, its own and those of its sources.
fn head_cell<E: Equate>(
    alloc: Global,
    equations: &E,
    exit: &Cell<E::Value>,
    own: &Cell<E::Value>,
    new: &E::Value,
) -> Result<E::Value, AllocError>
    requires { AreHeld (E.held equations.now) (value_of (E.meaning equations.now).bottom own.now) new.now }
    ensures { IfOk result (λ v. v ≡ next_value (E.meaning equations.now).ops (phase_of exit.now)
        (value_of (E.meaning equations.now).bottom own.now) new.now) }
{
    match own {
        Cell::Value(old) => next(alloc, equations, phase_in(exit), old, new),
        Cell::Exit(_) => {
            let old = equations.bottom(alloc)?;
            next(alloc, equations, phase_in(exit), &old, new)
        }
    }
}

/// An exit's run, of its own cell, its head's and those of the head's sources.
fn exit_phase<E: Equate>(
    alloc: Global,
    equations: &E,
    own: &Cell<E::Value>,
    head: &Cell<E::Value>,
    new: &E::Value,
) -> Result<Decision<Phase>, AllocError>
    requires { AreHeld (E.held equations.now) (value_of (E.meaning equations.now).bottom head.now) new.now }
    ensures { IfOk result (λ d. d ≡ decided_phase (E.meaning equations.now).ops (E.meaning equations.now).delay
        (E.meaning equations.now).narrow (phase_of own.now)
        (value_of (E.meaning equations.now).bottom head.now) new.now) }
{
    match head {
        Cell::Value(old) => decide_by(alloc, equations, phase_in(own), old, new),
        Cell::Exit(_) => {
            let old = equations.bottom(alloc)?;
            decide_by(alloc, equations, phase_in(own), &old, new)
        }
    }
}

impl<E: Equate> System for Phased<E>
where
    E::Value: Send + Sync,
{
    ghost use Rattle.pk_phases.specs.Equations.{behaviour_of, may_hold_of};
    ghost use Rattle.pk_phases.specs.EquationsHeld.{equations_hold};

    type Cell = Cell<E::Value>;

    ghost meaning = { λ s. behaviour_of (E.meaning s.equations) };

    ghost may_hold = { λ s. may_hold_of (E.meaning s.equations) (E.held s.equations) };

    ghost first_held = { λ s e.
        (equations_hold (E.meaning s.equations) (E.held s.equations) (E.keeps s.equations)).first e };

    ghost apply_held = { λ s e cells h.
        (equations_hold (E.meaning s.equations) (E.held s.equations) (E.keeps s.equations)).apply e cells h };

    ghost decide_held = { λ s x cells h.
        (equations_hold (E.meaning s.equations) (E.held s.equations) (E.keeps s.equations)).decide x cells h };

    fn reads(&self, e: u32) -> &[u32] {
        self.equations.reads(e)
    }

    fn first(&self, alloc: Global, e: u32) -> Result<Self::Cell, AllocError> {
        match self.equations.part(e) {
            Part::Point | Part::HeadOf(_) => Ok(Cell::Value(self.equations.bottom(alloc)?)),
            Part::ExitOf(_) => Ok(Cell::Exit(first_phase(self.equations.delay()))),
        }
    }

    fn apply(
        &self,
        alloc: Global,
        e: u32,
        inputs: &[Arc<Self::Cell>],
    ) -> Result<Self::Cell, AllocError> {
        match self.equations.part(e) {
            Part::Point => Ok(Cell::Value(self.equations.new_value(alloc, e, inputs)?)),
            Part::HeadOf(_) => match inputs {
                [exit, own, sources @ ..] => {
                    let new = self.equations.new_value(alloc, e, sources)?;
                    Ok(Cell::Value(head_cell(alloc, &self.equations, exit, own, &new)?))
                }
                _ => Ok(Cell::Value(self.equations.bottom(alloc)?)),
            },
            Part::ExitOf(_) => Ok(Cell::Exit(Phase::Up)),
        }
    }

    fn decide(
        &self,
        alloc: Global,
        x: u32,
        inputs: &[Arc<Self::Cell>],
    ) -> Result<Decision<Self::Cell>, AllocError> {
        match self.equations.part(x) {
            Part::ExitOf(head) => match inputs {
                [own, old, sources @ ..] => {
                    let new = self.equations.new_value(alloc, head, sources)?;
                    match exit_phase(alloc, &self.equations, own, old, &new)? {
                        Decision::Stable(phase) => Ok(Decision::Stable(Cell::Exit(phase))),
                        Decision::Again(phase) => Ok(Decision::Again(Cell::Exit(phase))),
                    }
                }
                _ => Ok(Decision::Stable(Cell::Exit(Phase::Up))),
            },
            Part::Point | Part::HeadOf(_) => {
                Ok(Decision::Stable(Cell::Value(self.equations.bottom(alloc)?)))
            }
        }
    }

    fn is_unchanged(&self, _e: u32, old: &Self::Cell, new: &Self::Cell) -> bool {
        match old {
            Cell::Value(old) => match new {
                Cell::Value(new) => self.equations.is_unchanged(old, new),
                Cell::Exit(_) => false,
            },
            Cell::Exit(_) => false,
        }
    }
}
