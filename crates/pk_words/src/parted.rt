// Systems of which something is kept once cells were let go of.

ghost use Rattle.std.specs.Prelude.{◌≡◌, ℕ, List, IfOk, map};
ghost use Rattle.std.specs.Arc.{arc_value};

use pk_iterate::System;
use std::alloc::{AllocError, Global};
use std::sync::Arc;

/// A system, and what is kept of an item of its plan once the item's cells are let go of.
pub trait Parted: System {
    ghost use Rattle.pk_iterate.specs.Behaviour.{HoldEach};

    type Part: Drop + Send + Sync;

    /// What is kept of an item, by its points in order of number and their last cells.
    ghost part_of: { Self → List ℕ → List Self.Cell → Self.Part };

    /// The part of the item that has these points, whose last cells these are.
    fn part(
        &self,
        alloc: Global,
        points: &[u32],
        cells: &[Arc<Self::Cell>],
    ) -> Result<Self::Part, AllocError>
        requires { HoldEach (Self.may_hold self.now) points.now (map arc_value cells.now) }
        ensures { IfOk result (λ p. p ≡ part_of self.now points.now (map arc_value cells.now)) };
}
