// The certificate of a text.

ghost use Rattle.std.specs.Prelude.{◌≡◌, ◌≤◌, false, IfOk, IfErr, length};
ghost use Rattle.pk_graph.specs.Shown.{graph_view};
ghost use Rattle.pk_solver.specs.Bounds.{AreInRange, most_points};
ghost use Rattle.pk_solver.specs.Prepared.{IsPrepared};
ghost use Rattle.pk_solver.specs.Solved.{AreCellsOver, AreRawCells};
ghost use Rattle.pk_text_graph.specs.Graphs.{HasGraph};
ghost use Rattle.pk_transfer.specs.Graphs.{layout_of};
ghost use Rattle.pk_cert_report.specs.Written.{IsCertified, IsUncertified};

use crate::causes::unanalysed_status;
use pk_cert_cells::{Unwritten, write};
use pk_graph::Graph;
use pk_iterate::Cells;
use pk_phases::Cell;
use pk_plan::Plan;
use pk_solver::{IterationOptions, cells, prepare};
use pk_state::{Frame, State};
use pk_status::Status;
use pk_text_graph::{graph_of_text, graphs_are_few};
use pk_workers::Gate;
use std::alloc::Global;
use std::sync::Wait;
use std::thread::Threads;

// The certificate of what the iteration left.
fn written<'f>(
    alloc: Global,
    graph: &Graph,
    frame: &'f Frame,
    text: &[u8],
    entry: &str,
    iteration: &IterationOptions,
    cells: &Cells<Cell<State<'f>>>,
) -> Result<Vec<u8>, Status>
    requires range { AreInRange iteration.now }
    requires of_text { HasGraph text.now entry.now (graph_view graph.now) }
    requires frame { frame.now ≡ layout_of (graph_view graph.now) iteration.now.analysis.oct }
    requires one_octagon { iteration.now.analysis.packs ≡ false }
    requires cells { AreRawCells (graph_view graph.now) iteration.now.analysis iteration.now.max_runs cells.now.cells }
    requires over { AreCellsOver (graph_view graph.now)
        (layout_of (graph_view graph.now) iteration.now.analysis.oct) cells.now.cells }
    ensures ok { IfOk result (λ bytes.
        IsCertified text.now entry.now iteration.now.analysis iteration.now.max_runs bytes.items) }
    ensures err { IfErr result (IsUncertified text.now entry.now iteration.now.analysis iteration.now.max_runs) }
{
    let oct = iteration.analysis.oct as u32;
    match write(alloc, graph, frame, text, oct, entry.as_bytes(), cells) {
        Ok(bytes) => Ok(bytes),
        Err(Unwritten::Limit) => Err(Status::CertLimit),
        Err(Unwritten::Memory) => Err(Status::Memory),
    }
}

// The certificate of a text's graph by its plan.
fn plan_certificate<'f, R: Threads + Wait + Sync, G: Gate + Sync>(
    rt: &R,
    alloc: Global,
    gate: &G,
    graph: &'f Graph,
    frame: &'f Frame,
    plan: &Plan,
    text: &[u8],
    entry: &str,
    iteration: &IterationOptions,
) -> Result<Vec<u8>, Status>
    requires range { AreInRange iteration.now }
    requires one_octagon { iteration.now.analysis.packs ≡ false }
    requires of_text { HasGraph text.now entry.now (graph_view graph.now) }
    requires prepared { IsPrepared (graph_view graph.now) iteration.now.analysis plan.now frame.now }
    ensures ok { IfOk result (λ bytes.
        IsCertified text.now entry.now iteration.now.analysis iteration.now.max_runs bytes.items) }
    ensures err { IfErr result (IsUncertified text.now entry.now iteration.now.analysis iteration.now.max_runs) }
{
    match cells(rt, alloc, gate, graph, frame, plan, iteration) {
        Ok(cells) => written(alloc, graph, frame, text, entry, iteration, &cells),
        Err(why) => Err(unanalysed_status(why, iteration.max_runs)),
    }
}

// The certificate of a text's graph.
fn graph_certificate<R: Threads + Wait + Sync, G: Gate + Sync>(
    rt: &R,
    alloc: Global,
    gate: &G,
    graph: &Graph,
    text: &[u8],
    entry: &str,
    iteration: &IterationOptions,
) -> Result<Vec<u8>, Status>
    requires few { length (graph_view graph.now).points ≤ most_points }
    requires range { AreInRange iteration.now }
    requires one_octagon { iteration.now.analysis.packs ≡ false }
    requires of_text { HasGraph text.now entry.now (graph_view graph.now) }
    ensures ok { IfOk result (λ bytes.
        IsCertified text.now entry.now iteration.now.analysis iteration.now.max_runs bytes.items) }
    ensures err { IfErr result (IsUncertified text.now entry.now iteration.now.analysis iteration.now.max_runs) }
{
    match prepare(alloc, graph, iteration) {
        Ok((plan, frame)) => plan_certificate(
            rt, alloc, gate, graph, &frame, &plan, text, entry, iteration,
        ),
        Err(why) => Err(unanalysed_status(why, iteration.max_runs)),
    }
}

/// The certificate of a text whose runs begin with a function, if it has one: of an analysis with one octagon.
pub fn certificate_of_text<R: Threads + Wait + Sync, G: Gate + Sync>(
    rt: &R,
    alloc: Global,
    gate: &G,
    text: &[u8],
    entry: &str,
    iteration: &IterationOptions,
) -> Result<Vec<u8>, Status>
    requires range { AreInRange iteration.now }
    requires one_octagon { iteration.now.analysis.packs ≡ false }
    ensures ok { IfOk result (λ bytes.
        IsCertified text.now entry.now iteration.now.analysis iteration.now.max_runs bytes.items) }
    ensures err { IfErr result (IsUncertified text.now entry.now iteration.now.analysis iteration.now.max_runs) }
{
    graphs_are_few();
    let graph = graph_of_text(alloc, text, entry)?;
    graph_certificate(rt, alloc, gate, &graph, text, entry, iteration)
}
