// A system of whose items nothing is kept.

ghost use Rattle.std.specs.Prelude.{◌≡◌, IfOk, map, true};
ghost use Rattle.std.specs.Arc.{arc_value};

use pk_iterate::{Decision, System};
use pk_words::Parted;
use std::alloc::{AllocError, Global};
use std::sync::Arc;

/// A system, whose cells are all kept.
#[derive(Drop)]
pub struct Whole<'a, Y: System> {
    pub system: &'a Y,
}

impl<'a, Y: System> System for Whole<'a, Y> {
    type Cell = Y::Cell;

    ghost meaning = { λ s. Y.meaning s.system.now };

    ghost may_hold = { λ s. Y.may_hold s.system.now };

    ghost first_held = { λ s e. Y.first_held s.system.now e };

    ghost apply_held = { λ s e cells h. Y.apply_held s.system.now e cells h };

    ghost decide_held = { λ s x cells h. Y.decide_held s.system.now x cells h };

    fn reads(&self, e: u32) -> &[u32] {
        self.system.reads(e)
    }

    fn first(&self, alloc: Global, e: u32) -> Result<Y::Cell, AllocError> {
        self.system.first(alloc, e)
    }

    fn apply(&self, alloc: Global, e: u32, inputs: &[Arc<Y::Cell>]) -> Result<Y::Cell, AllocError> {
        self.system.apply(alloc, e, inputs)
    }

    fn decide(
        &self,
        alloc: Global,
        x: u32,
        inputs: &[Arc<Y::Cell>],
    ) -> Result<Decision<Y::Cell>, AllocError> {
        self.system.decide(alloc, x, inputs)
    }

    fn is_unchanged(&self, e: u32, old: &Y::Cell, new: &Y::Cell) -> bool {
        self.system.is_unchanged(e, old, new)
    }
}

/// Nothing is kept.
#[derive(Clone, Copy)]
pub struct Nothing {}

impl<'a, Y: System> Parted for Whole<'a, Y> {
    ghost use Rattle.pk_workers.specs.declared.whole.Nothing.{Nothing};

    type Part = Nothing;

    ghost part_of = { λ s points cells. record {} };

    fn part(
        &self,
        _alloc: Global,
        _points: &[u32],
        _cells: &[Arc<Y::Cell>],
    ) -> Result<Nothing, AllocError> {
        Ok(Nothing {})
    }
}
