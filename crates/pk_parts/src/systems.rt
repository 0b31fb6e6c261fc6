// The system that is iterated is that of the analysis; what is kept of an item is the pieces of its points.

use crate::kept::Kept;
use crate::reporting::Reporting;
use pk_iterate::{Decision, System};
use pk_phases::Cell;
use pk_state::State;
use pk_words::Parted;
use std::alloc::{AllocError, Global};
use std::sync::Arc;

impl<'f> System for Reporting<'f> {
    ghost use Rattle.pk_phases.specs.Equations.{behaviour_of, may_hold_of};
    ghost use Rattle.pk_phases.specs.EquationsHeld.{equations_hold};
    ghost use Rattle.pk_analysis.specs.Flows.{equations_of, IsOverFlow};
    ghost use Rattle.pk_analysis.specs.Keeping.{flow_keeps};

    type Cell = Cell<State<'f>>;

    ghost meaning = { λ r. behaviour_of (equations_of r.flow) };

    ghost may_hold = { λ r. may_hold_of (equations_of r.flow) (IsOverFlow r.flow) };

    ghost first_held = { λ r e.
        (equations_hold (equations_of r.flow) (IsOverFlow r.flow) (flow_keeps r.flow)).first e };

    ghost apply_held = { λ r e cells h.
        (equations_hold (equations_of r.flow) (IsOverFlow r.flow) (flow_keeps r.flow)).apply e cells h };

    ghost decide_held = { λ r x cells h.
        (equations_hold (equations_of r.flow) (IsOverFlow r.flow) (flow_keeps r.flow)).decide x cells h };

    fn reads(&self, e: u32) -> &[u32] {
        self.analysis().reads(e)
    }

    fn first(&self, alloc: Global, e: u32) -> Result<Cell<State<'f>>, AllocError> {
        self.analysis().first(alloc, e)
    }

    fn apply(
        &self,
        alloc: Global,
        e: u32,
        inputs: &[Arc<Cell<State<'f>>>],
    ) -> Result<Cell<State<'f>>, AllocError> {
        self.analysis().apply(alloc, e, inputs)
    }

    fn decide(
        &self,
        alloc: Global,
        x: u32,
        inputs: &[Arc<Cell<State<'f>>>],
    ) -> Result<Decision<Cell<State<'f>>>, AllocError> {
        self.analysis().decide(alloc, x, inputs)
    }

    fn is_unchanged(&self, e: u32, old: &Cell<State<'f>>, new: &Cell<State<'f>>) -> bool {
        self.analysis().is_unchanged(e, old, new)
    }
}

impl<'f> Parted for Reporting<'f> {
    ghost use Rattle.pk_parts.specs.Kept.{part_of};

    type Part = Kept;

    ghost part_of = { λ r points cells. part_of r points cells };

    fn part(
        &self,
        alloc: Global,
        points: &[u32],
        cells: &[Arc<Cell<State<'f>>>],
    ) -> Result<Kept, AllocError> {
        self.part_of(alloc, points, cells)
    }
}
