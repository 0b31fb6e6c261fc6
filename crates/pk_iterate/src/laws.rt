// Laws of the definitions, each over whatever system there is.

ghost use Rattle.pk_iterate.specs.Laws.{WithinIsWhole, CountsBeyondAreOver, RecursionIsDetermined, RunValuesAgree, CellsAreHeld};
ghost use Rattle.pk_iterate.specs.Settled.{WholeIsSettled};
ghost use Rattle.pk_iterate.specs.Ending.{TraceIsOne};
ghost use Rattle.pk_iterate.specs.BoundedTurns.{FallingTurnsEnd, DifferentStandOnce};

use crate::systems::System;

/// Where no element is run too often, no run is left.
pub fn within_is_whole<Y: System>(system: &Y)
    ensures { WithinIsWhole (Y.meaning system.now) }
{}

/// A count above the limit, however late, means that the limit is exceeded.
pub fn counts_beyond_are_over<Y: System>(system: &Y)
    ensures { CountsBeyondAreOver (Y.meaning system.now) }
{}

/// The rules determine their runs, which are those of the iteration run by run.
pub fn recursion_is_determined<Y: System>(system: &Y)
    ensures { RecursionIsDetermined (Y.meaning system.now) }
{}

/// What each run reads and gives, by the numbers of the runs.
pub fn run_values_agree<Y: System>(system: &Y)
    ensures { RunValuesAgree (Y.meaning system.now) }
{}

/// Each cell, and whatever is read, is one that its element may hold.
pub fn cells_are_held<Y: System>(system: &Y)
    ensures { CellsAreHeld (Y.meaning system.now) (Y.may_hold system.now) }
{}

/// When no run is left each element was run, and what stands ahead of it wasn't run since: each exit's last run found its component stable.
pub fn whole_is_settled<Y: System>(system: &Y)
    ensures { WholeIsSettled (Y.meaning system.now) }
{}

/// The whole trace is one, and an iteration's result is what it leaves.
pub fn trace_is_one<Y: System>(system: &Y)
    ensures { TraceIsOne (Y.meaning system.now) }
{}

/// Where a rank falls from turn to turn of each component, the recursion ends, and each entry has few turns.
pub fn falling_turns_end<Y: System>(system: &Y)
    ensures { FallingTurnsEnd (Y.meaning system.now) (Y.may_hold system.now) }
{}

/// Where the elements of an order's places differ from one another, each stands once.
pub fn different_stand_once()
    ensures { DifferentStandOnce }
{}
