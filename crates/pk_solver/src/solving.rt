// What the iteration leaves at each point of a graph.

ghost use Rattle.std.specs.Prelude.{◌≡◌, ◌≤◌, IfOk, IfErr};
ghost use Rattle.pk_graph.specs.Shown.{graph_view};
ghost use Rattle.pk_graph.specs.WellMade.{IsGraph};
ghost use Rattle.pk_plan.specs.Order.{Level};
ghost use Rattle.pk_analysis_laws.specs.Systems.{IsSystem};
ghost use Rattle.pk_solver.specs.Bounds.{AreInRange, most_elements, most_workers};
ghost use Rattle.pk_solver.specs.Prepared.{IsPrepared};
ghost use Rattle.pk_solver.specs.Solved.{AreCellsOver, AreOver, AreRawCells, AreStates, IsCause, IsOutcomeOf};

use crate::iterating::cells_by_order;
use crate::preparing::analysis_of;
use crate::widths::paying_workers;
use pk_analysis::{Analysis, Options, States, layouts_law};
use pk_analysis_fits::{analyses_fit, linear_orders_are_orders};
use pk_analysis_laws::analyses_end;
use pk_graph::Graph;
use pk_iterate::{Cells, Solve, cells_are_held};
use pk_phases::Cell;
use pk_plan::Plan;
use pk_state::{Frame, State};
use pk_workers::{Gate, run_workers};
use std::alloc::{AllocError, Global};
use std::sync::Wait;
use std::thread::Threads;

/// What an iteration is asked for.
#[derive(Drop)]
pub struct IterationOptions {
    pub analysis: Options,
    pub workers: u32,
    /// How often an element may be run.
    pub max_runs: u64,
}

/// Why nothing is left.
#[derive(Drop)]
pub enum SolverError {
    /// An element would be run more often than the limit.
    RunLimit,
    /// States would have more octagons than the limit.
    PackLimit,
    Memory,
}

impl From<AllocError> for SolverError {
    ghost use Rattle.std.specs.Prelude.{◌≡◌};
    ghost use Rattle.pk_solver.specs.declared.solving.SolverError.TheVariants.{Memory};

    ghost from_gives = { λ _ e. e ≡ Memory };

    fn from(_: AllocError) -> Self {
        SolverError::Memory
    }
}

// What workers leave.
fn cells_by_plan<'f, R: Threads + Wait + Sync, G: Gate + Sync>(
    rt: &R,
    alloc: Global,
    gate: &G,
    analysis: &Analysis<'f>,
    options: &IterationOptions,
    plan: &Plan,
    workers: u32,
) -> Result<Cells<Cell<State<'f>>>, SolverError>
    requires range { AreInRange options.now }
    requires workers { (1 ≤ workers) × (workers ≤ most_workers) }
    requires few { plan.now.elements ≤ most_elements }
    requires made { IsGraph (graph_view analysis.now.graph) }
    requires system { (order : Level)
        × IsSystem (graph_view analysis.now.graph) options.now.analysis plan.now order analysis.now }
    ensures ok { IfOk result (IsOutcomeOf options.now.analysis plan.now analysis.now options.now.max_runs) }
    ensures err { IfErr result (IsCause (graph_view analysis.now.graph) options.now.analysis options.now.max_runs) }
{
    analyses_fit();
    analyses_end();
    linear_orders_are_orders();
    match run_workers(rt, alloc, analysis, plan, workers, options.max_runs, gate) {
        Ok(cells) => Ok(cells),
        Err(Solve::RunLimit { .. }) => Err(SolverError::RunLimit),
        Err(Solve::Memory) => Err(SolverError::Memory),
    }
}

// What as many workers leave as pay. Where that is one, and nobody watches, it is the iteration on this thread.
fn cells_by<'f, R: Threads + Wait + Sync, G: Gate + Sync>(
    rt: &R,
    alloc: Global,
    gate: &G,
    analysis: &Analysis<'f>,
    options: &IterationOptions,
    plan: &Plan,
) -> Result<Cells<Cell<State<'f>>>, SolverError>
    requires range { AreInRange options.now }
    requires few { plan.now.elements ≤ most_elements }
    requires made { IsGraph (graph_view analysis.now.graph) }
    requires system { (order : Level)
        × IsSystem (graph_view analysis.now.graph) options.now.analysis plan.now order analysis.now }
    ensures ok { IfOk result (IsOutcomeOf options.now.analysis plan.now analysis.now options.now.max_runs) }
    ensures over { IfOk result (λ cells.
        AreCellsOver (graph_view analysis.now.graph) analysis.now.layout cells.cells) }
    ensures err { IfErr result (IsCause (graph_view analysis.now.graph) options.now.analysis options.now.max_runs) }
{
    cells_are_held(analysis);
    let workers = paying_workers(alloc, gate, plan, options.workers)?;
    if workers == 1 && !gate.watches() {
        cells_by_order(alloc, analysis, options, plan)
    } else {
        cells_by_plan(rt, alloc, gate, analysis, options, plan, workers)
    }
}

// What is left at each point, reduced.
fn states_by<'f, R: Threads + Wait + Sync, G: Gate + Sync>(
    rt: &R,
    alloc: Global,
    gate: &G,
    analysis: &Analysis<'f>,
    options: &IterationOptions,
    plan: &Plan,
) -> Result<States<'f>, SolverError>
    requires range { AreInRange options.now }
    requires few { plan.now.elements ≤ most_elements }
    requires made { IsGraph (graph_view analysis.now.graph) }
    requires system { (order : Level)
        × IsSystem (graph_view analysis.now.graph) options.now.analysis plan.now order analysis.now }
    ensures ok { IfOk result (λ states. AreStates (graph_view analysis.now.graph) options.now.analysis
        options.now.max_runs plan.now states) }
    ensures over { IfOk result (AreOver (graph_view analysis.now.graph)) }
    ensures err { IfErr result (IsCause (graph_view analysis.now.graph) options.now.analysis options.now.max_runs) }
{
    layouts_law();
    let cells = cells_by(rt, alloc, gate, analysis, options, plan)?;
    Ok(States::of(analysis, cells))
}

/// What the recursive iteration over the plan of a graph leaves at each point, reduced: the same for every number of workers.
pub fn states<'f, R: Threads + Wait + Sync, G: Gate + Sync>(
    rt: &R,
    alloc: Global,
    gate: &G,
    graph: &'f Graph,
    frame: &'f Frame,
    plan: &Plan,
    options: &IterationOptions,
) -> Result<States<'f>, SolverError>
    requires range { AreInRange options.now }
    requires prepared { IsPrepared (graph_view graph.now) options.now.analysis plan.now frame.now }
    ensures ok { IfOk result
        (AreStates (graph_view graph.now) options.now.analysis options.now.max_runs plan.now) }
    ensures over { IfOk result (AreOver (graph_view graph.now)) }
    ensures err { IfErr result (IsCause (graph_view graph.now) options.now.analysis options.now.max_runs) }
{
    let analysis = analysis_of(alloc, graph, frame, plan, options.analysis)?;
    let states = states_by(rt, alloc, gate, &analysis, options, plan);
    drop(analysis);
    states
}

/// What it leaves at each element of the plan, of which the points come first.
pub fn cells<'f, R: Threads + Wait + Sync, G: Gate + Sync>(
    rt: &R,
    alloc: Global,
    gate: &G,
    graph: &'f Graph,
    frame: &'f Frame,
    plan: &Plan,
    options: &IterationOptions,
) -> Result<Cells<Cell<State<'f>>>, SolverError>
    requires range { AreInRange options.now }
    requires prepared { IsPrepared (graph_view graph.now) options.now.analysis plan.now frame.now }
    ensures ok { IfOk result (λ cells.
        AreRawCells (graph_view graph.now) options.now.analysis options.now.max_runs cells.cells) }
    ensures over { IfOk result (λ cells. AreCellsOver (graph_view graph.now) frame.now cells.cells) }
    ensures err { IfErr result (IsCause (graph_view graph.now) options.now.analysis options.now.max_runs) }
{
    let analysis = analysis_of(alloc, graph, frame, plan, options.analysis)?;
    let cells = cells_by(rt, alloc, gate, &analysis, options, plan);
    drop(analysis);
    cells
}
