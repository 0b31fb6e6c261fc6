// The report on a graph by what workers keep of its items.

ghost use Rattle.std.specs.Prelude.{◌≡◌, ◌≤◌, IfOk, IfErr, length};
ghost use Rattle.pk_graph.specs.Shown.{graph_view};
ghost use Rattle.pk_graph.specs.WellMade.{IsGraph};
ghost use Rattle.pk_plan.specs.Order.{Level};
ghost use Rattle.pk_analysis_laws.specs.Systems.{IsSystem};
ghost use Rattle.pk_solver.specs.Bounds.{AreInRange, most_elements, most_points};
ghost use Rattle.pk_solver.specs.Solved.{IsCause};
ghost use Rattle.pk_order.specs.Ordered.{heads_of};
ghost use Rattle.pk_graph_report.specs.Reported.{IsReport};
ghost use Rattle.pk_parts.specs.Kept.{graph_in};
ghost use Rattle.pk_lean_report.specs.Items.{AreOfItems};

use pk_analysis::layouts_law;
use pk_analysis_fits::{analyses_fit, linear_orders_are_orders};
use pk_analysis_laws::analyses_end;
use pk_graph::Graph;
use pk_graph_report::heads;
use pk_items::every_top_is_outermost;
use pk_iterate::Solve;
use pk_parts::{Kept, Reporting};
use pk_plan::Plan;
use pk_solver::{IterationOptions, SolverError, analysis_of, paying_workers, prepare};
use pk_workers::{Gate, run_workers_lean};
use std::alloc::Global;
use std::sync::Wait;
use std::thread::Threads;

// What workers keep of the items of a plan.
fn kept_by<'f, R: Threads + Wait + Sync, G: Gate + Sync>(
    rt: &R,
    alloc: Global,
    gate: &G,
    reporting: &Reporting<'f>,
    options: &IterationOptions,
    plan: &Plan,
) -> Result<Vec<Kept>, SolverError>
    requires range { AreInRange options.now }
    requires few { plan.now.elements ≤ most_elements }
    requires made { IsGraph (graph_in reporting.now) }
    requires system { (order : Level)
        × IsSystem (graph_in reporting.now) options.now.analysis plan.now order reporting.now.flow }
    ensures ok { IfOk result
        (λ kept. AreOfItems options.now.analysis plan.now reporting.now options.now.max_runs kept.items) }
    ensures err { IfErr result (IsCause (graph_in reporting.now) options.now.analysis options.now.max_runs) }
{
    analyses_fit();
    analyses_end();
    linear_orders_are_orders();
    let workers = paying_workers(alloc, gate, plan, options.workers)?;
    match run_workers_lean(rt, alloc, reporting, plan, workers, options.max_runs, gate) {
        Ok(kept) => Ok(kept),
        Err(Solve::RunLimit { .. }) => Err(SolverError::RunLimit),
        Err(Solve::Memory) => Err(SolverError::Memory),
    }
}

// The report by what workers keep of the items of a plan, and its number of unknown verdicts.
fn report_by<'f, R: Threads + Wait + Sync, G: Gate + Sync>(
    rt: &R,
    alloc: Global,
    gate: &G,
    reporting: &Reporting<'f>,
    options: &IterationOptions,
    plan: &Plan,
) -> Result<(Vec<u8>, usize), SolverError>
    requires range { AreInRange options.now }
    requires few { plan.now.elements ≤ most_elements }
    requires made { IsGraph (graph_in reporting.now) }
    requires system { (order : Level)
        × IsSystem (graph_in reporting.now) options.now.analysis plan.now order reporting.now.flow }
    requires heads { reporting.now.heads ≡ heads_of plan.now }
    ensures ok { IfOk result (λ r. IsReport (graph_in reporting.now) options.now.analysis options.now.max_runs
        reporting.now.all r.1 r.0.items) }
    ensures err { IfErr result (IsCause (graph_in reporting.now) options.now.analysis options.now.max_runs) }
{
    every_top_is_outermost();
    let kept = kept_by(rt, alloc, gate, reporting, options, plan)?;
    let told = reporting.report(alloc, plan.elements() as usize, kept)?;
    Ok(told)
}

/// The report on a graph, of every point or of its heads, and its number of unknown verdicts: each cell is let go of as soon as nothing reads it
/// any more.
pub fn lean_report<R: Threads + Wait + Sync, G: Gate + Sync>(
    rt: &R,
    alloc: Global,
    gate: &G,
    graph: &Graph,
    options: &IterationOptions,
    all: bool,
) -> Result<(Vec<u8>, usize), SolverError>
    requires few { length (graph_view graph.now).points ≤ most_points }
    requires range { AreInRange options.now }
    ensures ok { IfOk result (λ r.
        IsReport (graph_view graph.now) options.now.analysis options.now.max_runs all r.1 r.0.items) }
    ensures err { IfErr result (IsCause (graph_view graph.now) options.now.analysis options.now.max_runs) }
{
    layouts_law();
    let (plan, frame) = prepare(alloc, graph, options)?;
    let heads = heads(alloc, &plan)?;
    let analysis = analysis_of(alloc, graph, &frame, &plan, options.analysis)?;
    let reporting = Reporting::new(alloc, graph, &frame, analysis, heads, all)?;
    let told = report_by(rt, alloc, gate, &reporting, options, &plan);
    drop(reporting);
    drop(plan);
    drop(frame);
    told
}
