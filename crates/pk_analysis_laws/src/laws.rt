// Laws of the analysis.

ghost use Rattle.pk_analysis_laws.specs.Ranks.States.{StatesAreRanked, StatesStay, WideningChainsEnd};
ghost use Rattle.pk_analysis_laws.specs.Turns.Ended.{AnalysesEnd, CellsAreStates, GraphChainsEnd, SmallBounds};
ghost use Rattle.pk_analysis_laws.specs.Turns.Counted.{LimitsAreLow, RunsAreFew};

use pk_iterate::System;

/// How often a state can still move is a rank of widening steps, at most the bound on chains.
pub fn states_are_ranked()
    ensures { StatesAreRanked }
{}

/// What is made of states whose classes are of their types is such a state, and so is each reduction.
pub fn states_stay()
    ensures { StatesStay }
{}

/// A widening step by a state that isn't below rises, and no list of such steps is longer than the bound on chains.
pub fn widening_chains_end()
    ensures { WideningChainsEnd }
{}

/// No list of widening steps of states over a graph is longer than the bound on chains with an octagon over each pack.
pub fn graph_chains_end()
    ensures { GraphChainsEnd }
{}

/// The bounds in numbers, for two scalars, seven thresholds and one variable in the octagon.
pub fn small_bounds()
    ensures { SmallBounds }
{}

/// What is known at each element, and what its equation gives, are states in which classes are of their variables' types.
pub fn cells_are_states()
    ensures { CellsAreStates }
{}

/// The analysis of every graph ends, and each entry of a component runs its head at most twice the bound on chains, the narrowing runs and two times.
pub fn analyses_end()
    ensures { AnalysesEnd }
{}

/// Where each entry of a component has few turns, each element is run at most the turns to the power of the order's depth.
pub fn runs_are_few<Y: System>(system: &Y)
    ensures { RunsAreFew (Y.meaning system.now) }
{}

/// So some element of a graph is run more often than the limit only where the limit is below that.
pub fn limits_are_low()
    ensures { LimitsAreLow }
{}
