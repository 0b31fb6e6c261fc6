// What is told of a graph.

ghost use Rattle.std.specs.Prelude.{◌≡◌, IfOk};
ghost use Rattle.pk_graph.specs.Shown.{graph_view};
ghost use Rattle.pk_graph.specs.Accesses.{accesses_of};
ghost use Rattle.pk_order.specs.Ordered.{heads_of};
ghost use Rattle.pk_report.specs.Reports.{checked_text, report_text, summary_text, unknown_in};
ghost use Rattle.pk_pieces.specs.Joined.{verdicts_of};
ghost use Rattle.pk_solver.specs.Solved.{AreOver};
ghost use Rattle.pk_graph_report.specs.Reported.{IsOrderText};

use crate::pieces::with_pieces;
use pk_analysis::{States, digraph};
use pk_graph::{Graph, accesses};
use pk_order::ordered;
use pk_peak::order_lines;
use pk_pieces::reports_are_joined;
use pk_plan::Plan;
use pk_report::{summary, unknown_count, write_first, write_valid};
use std::alloc::{AllocError, Global};

/// The heads of a plan's components, in rising order.
pub fn heads(alloc: Global, plan: &Plan) -> Result<Vec<u32>, AllocError>
    ensures { IfOk result (λ heads. heads.items ≡ heads_of plan.now) }
{
    let mut heads = Vec::with_capacity(alloc, plan.components().len())?;
    for component in plan.components() {
        heads.push(component.head)?;
    }
    Ok(heads)
}

/// The report on a graph by the reduced state of each point, of every point or of its heads, and its number of unknown verdicts.
pub fn report_of(
    alloc: Global,
    graph: &Graph,
    plan: &Plan,
    states: &States,
    all: bool,
) -> Result<(Vec<u8>, usize), AllocError>
    requires over { AreOver (graph_view graph.now) states.now }
    ensures bytes { IfOk result (λ r. r.0.items ≡ report_text all (graph_view graph.now) (heads_of plan.now)
        plan.now.elements states.now (accesses_of (graph_view graph.now))
        (verdicts_of (graph_view graph.now) states.now)) }
    ensures unknown { IfOk result (λ r. r.1 ≡ unknown_in (verdicts_of (graph_view graph.now) states.now)) }
{
    reports_are_joined();
    let heads = heads(alloc, plan)?;
    let accesses = accesses(alloc, graph)?;
    let mut first = Vec::new(alloc);
    write_first(alloc, &mut first, graph, plan.elements() as usize)?;
    let report = with_pieces(alloc, first, graph, &accesses, &heads, states, all)?;
    let told = report.end(alloc, graph, &accesses)?;
    Ok(told)
}

/// The summary of a made text of `text_length` bytes by the reduced state of each point, and its number of unknown verdicts.
pub fn summary_of(
    alloc: Global,
    graph: &Graph,
    plan: &Plan,
    states: &States,
    seed: usize,
    size: usize,
    text_length: usize,
) -> Result<(Vec<u8>, usize), AllocError>
    requires over { AreOver (graph_view graph.now) states.now }
    ensures bytes { IfOk result (λ r. r.0.items ≡ summary_text seed size text_length (graph_view graph.now)
        plan.now.elements (verdicts_of (graph_view graph.now) states.now)) }
    ensures unknown { IfOk result (λ r. r.1 ≡ unknown_in (verdicts_of (graph_view graph.now) states.now)) }
{
    reports_are_joined();
    let accesses = accesses(alloc, graph)?;
    let first = Vec::new(alloc);
    let report = with_pieces(alloc, first, graph, &accesses, &[], states, false)?;
    let verdicts = report.verdicts();
    let bytes = summary(
        alloc,
        seed,
        size,
        text_length,
        graph,
        plan.elements() as usize,
        verdicts,
    )?;
    Ok((bytes, unknown_count(verdicts)))
}

/// What is told of a graph by reduced states of its points that were checked, and the number of unknown verdicts.
pub fn checked_of(
    alloc: Global,
    graph: &Graph,
    states: &States,
) -> Result<(Vec<u8>, usize), AllocError>
    requires over { AreOver (graph_view graph.now) states.now }
    ensures bytes { IfOk result (λ r. r.0.items ≡ checked_text (graph_view graph.now)
        (accesses_of (graph_view graph.now)) (verdicts_of (graph_view graph.now) states.now)) }
    ensures unknown { IfOk result (λ r. r.1 ≡ unknown_in (verdicts_of (graph_view graph.now) states.now)) }
{
    reports_are_joined();
    let accesses = accesses(alloc, graph)?;
    let mut first = Vec::new(alloc);
    write_valid(alloc, &mut first, graph)?;
    let report = with_pieces(alloc, first, graph, &accesses, &[], states, false)?;
    let told = report.end(alloc, graph, &accesses)?;
    Ok(told)
}

/// The linear order of a graph's plan, and its peak where it is asked for, without the last line's end.
pub fn order_of(alloc: Global, graph: &Graph, with_peak: bool) -> Result<Vec<u8>, AllocError>
    ensures { IfOk result (λ bytes. IsOrderText (graph_view graph.now) with_peak bytes.items) }
{
    graph.well_made();
    let (plan, order) = ordered(alloc, &digraph(alloc, graph)?)?;
    order_lines(alloc, &plan, &order, with_peak)
}
