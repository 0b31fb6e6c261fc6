// What the iteration leaves on one thread.

ghost use Rattle.std.specs.Prelude.{IfOk, IfErr};
ghost use Rattle.pk_graph.specs.Shown.{graph_view};
ghost use Rattle.pk_plan.specs.Order.{Level};
ghost use Rattle.pk_analysis_laws.specs.Systems.{IsSystem};
ghost use Rattle.pk_solver.specs.Bounds.{AreInRange};
ghost use Rattle.pk_solver.specs.Solved.{IsCause, IsOutcomeOf};

use crate::solving::{IterationOptions, SolverError};
use pk_analysis::Analysis;
use pk_analysis_fits::analyses_fit;
use pk_iterate::{Cells, Solve, iterate};
use pk_layout::fits_read_within;
use pk_linear::linear;
use pk_phases::Cell;
use pk_plan::Plan;
use pk_state::State;
use std::alloc::Global;

/// What the iteration over the plan's order leaves.
pub(crate) fn cells_by_order<'f>(
    alloc: Global,
    analysis: &Analysis<'f>,
    options: &IterationOptions,
    plan: &Plan,
) -> Result<Cells<Cell<State<'f>>>, SolverError>
    requires range { AreInRange options.now }
    requires system { (order : Level)
        × IsSystem (graph_view analysis.now.graph) options.now.analysis plan.now order analysis.now }
    ensures ok { IfOk result (IsOutcomeOf options.now.analysis plan.now analysis.now options.now.max_runs) }
    ensures err { IfErr result (IsCause (graph_view analysis.now.graph) options.now.analysis options.now.max_runs) }
{
    analyses_fit();
    fits_read_within(analysis);
    let order = linear(alloc, plan)?;
    match iterate(alloc, analysis, &order, options.max_runs) {
        Ok(cells) => Ok(cells),
        Err(Solve::RunLimit { .. }) => Err(SolverError::RunLimit),
        Err(Solve::Memory) => Err(SolverError::Memory),
    }
}
