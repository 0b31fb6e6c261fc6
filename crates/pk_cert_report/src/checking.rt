// What a check of bytes tells.

ghost use Rattle.std.specs.Prelude.{◌≡◌, ◌<◌, ◌^◌, ℕ, IfOk, IfErr, length, map};
ghost use Rattle.std.specs.Arc.{arc_value};
ghost use Rattle.pk_graph.specs.Accesses.{accesses_of};
ghost use Rattle.pk_graph.specs.Shown.{graph_view};
ghost use Rattle.pk_transfer.specs.Graphs.{layout_of};
ghost use Rattle.pk_report.specs.Reports.{checked_text, unknown_in};
ghost use Rattle.pk_graph_report.specs.Reported.{verdicts_of};
ghost use Rattle.pk_text_graph.specs.Graphs.{HasGraph};
ghost use Rattle.pk_cert.specs.Heads.{head_view};
ghost use Rattle.pk_cert.specs.Pieces.{IsHeadRead};
ghost use Rattle.pk_cert_cells.specs.Reading.{AreReadCells};
ghost use Rattle.pk_cert_check.specs.Checked.{HoldStates, IsChecked};
ghost use Rattle.pk_cert_report.specs.Checked.{IsValid, IsInvalid, reduced_states, status_of_unfit};

use pk_analysis::{Analysis, States};
use pk_cert::{Head, read_head};
use pk_cert_cells::{Unfit, read_cells};
use pk_cert_check::first_failing;
use pk_cert_laws::read_cells_hold_states;
use pk_ctypes::Name;
use pk_graph::Graph;
use pk_graph_report::checked_of;
use pk_iterate::Cells;
use pk_phases::Cell;
use pk_state::{Frame, State};
use pk_status::Status;
use pk_text_graph::{graph_of_text, graphs_are_few};
use pk_transfer::{frame, graphs_law};
use std::alloc::{AllocError, Global};
use std::sync::Arc;

// How a check ends where the lines are no certificate of a graph with so few points.
fn unfit_status(why: Unfit) -> Status
    requires { (v : ℕ) → why ≡ Unfit.State v → v < 2 ^ 32 }
    ensures { result ≡ status_of_unfit why }
{
    match why {
        Unfit::Byte(n) => Status::CertByte { offset: n as u64 },
        Unfit::State(v) => Status::CertState { point: v as u32 },
        Unfit::Memory => Status::Memory,
    }
}

// The verdicts by cells that were read.
fn verdicts_by<'f>(
    alloc: Global,
    graph: &'f Graph,
    frame: &'f Frame,
    bytes: &[u8],
    head: &Head<'_>,
    cells: Cells<Cell<State<'f>>>,
) -> Result<(Vec<u8>, usize), AllocError>
    requires head { IsHeadRead bytes.now head.now }
    requires frame { frame.now ≡ layout_of (graph_view graph.now) head.now.oct }
    requires read { AreReadCells (graph_view graph.now) (head_view head.now) bytes.now cells.cells }
    ensures told { IfOk result (λ r. r.0.items ≡ checked_text (graph_view graph.now)
        (accesses_of (graph_view graph.now)) (verdicts_of (graph_view graph.now)
        (reduced_states (layout_of (graph_view graph.now) head.now.oct) cells.entry.cells))) }
    ensures counted { IfOk result (λ r. r.1 ≡ unknown_in (verdicts_of (graph_view graph.now)
        (reduced_states (layout_of (graph_view graph.now) head.now.oct) cells.entry.cells))) }
{
    graphs_law();
    read_cells_hold_states();
    let oct = head.oct as usize;
    let analysis = Analysis::of_points(alloc, graph, frame, oct)?;
    let states = States::of(&analysis, cells);
    checked_of(alloc, graph, &states)
}

// The first point whose equation isn't solved by cells, if there is one, and cells that hold the same states.
fn first_and_cells<'f>(
    alloc: Global,
    graph: &'f Graph,
    frame: &'f Frame,
    oct: usize,
    mut cells: Vec<Arc<Cell<State<'f>>>>,
) -> Result<(Option<u32>, Cells<Cell<State<'f>>>), AllocError>
    requires frame { frame.now ≡ layout_of (graph_view graph.now) oct }
    requires cells { HoldStates (layout_of (graph_view graph.now) oct) (length (graph_view graph.now).points)
        (map arc_value cells.items) }
    ensures first { IfOk result (λ r. IsChecked (graph_view graph.now) (layout_of (graph_view graph.now) oct)
        (map arc_value cells.entry.items) r.0) }
    ensures same { IfOk result (λ r. r.1.cells ≡ map arc_value cells.entry.items) }
{
    let found = first_failing(alloc, graph, frame, oct, &mut cells)?;
    Ok((found, Cells::of(cells, Vec::new(alloc))))
}

// The check of cells that were read.
fn check_cells<'f>(
    alloc: Global,
    graph: &'f Graph,
    frame: &'f Frame,
    bytes: &[u8],
    head: &Head<'_>,
    cells: Vec<Arc<Cell<State<'f>>>>,
) -> Result<(Vec<u8>, u64), Status>
    requires head { IsHeadRead bytes.now head.now }
    requires of_text { HasGraph head.now.text.now head.now.entry.now (graph_view graph.now) }
    requires frame { frame.now ≡ layout_of (graph_view graph.now) head.now.oct }
    requires read { AreReadCells (graph_view graph.now) (head_view head.now) bytes.now (map arc_value cells.items) }
    ensures ok { IfOk result (λ r. IsValid bytes.now r.1 r.0.items) }
    ensures err { IfErr result (IsInvalid bytes.now) }
{
    read_cells_hold_states();
    let (found, known) = first_and_cells(alloc, graph, frame, head.oct as usize, cells)?;
    match found {
        Some(v) => Err(Status::CertFails { point: v }),
        None => {
            let (told, unknown) = verdicts_by(alloc, graph, frame, bytes, head, known)?;
            Ok((told, unknown as u64))
        }
    }
}

// The check of what stands behind a head, over the graph of the text in it.
fn check_lines(
    alloc: Global,
    graph: &Graph,
    bytes: &[u8],
    head: &Head<'_>,
) -> Result<(Vec<u8>, u64), Status>
    requires head { IsHeadRead bytes.now head.now }
    requires of_text { HasGraph head.now.text.now head.now.entry.now (graph_view graph.now) }
    ensures ok { IfOk result (λ r. IsValid bytes.now r.1 r.0.items) }
    ensures err { IfErr result (IsInvalid bytes.now) }
{
    graphs_are_few();
    let frame = frame(alloc, graph, head.oct as usize)?;
    match read_cells(alloc, bytes, head, graph, &frame) {
        Ok(cells) => check_cells(alloc, graph, &frame, bytes, head, cells),
        Err(why) => Err(unfit_status(why)),
    }
}

// The name that a head has.
fn entry_of(alloc: Global, bytes: &[u8], head: &Head<'_>) -> Result<Name, AllocError>
    requires { IsHeadRead bytes.now head.now }
    ensures { IfOk result (λ name. name ≡ head.now.entry.now) }
{
    Name::new(alloc, head.entry)
}

// The check of bytes with a head.
fn check_head(alloc: Global, bytes: &[u8], head: &Head<'_>) -> Result<(Vec<u8>, u64), Status>
    requires { IsHeadRead bytes.now head.now }
    ensures ok { IfOk result (λ r. IsValid bytes.now r.1 r.0.items) }
    ensures err { IfErr result (IsInvalid bytes.now) }
{
    let entry = entry_of(alloc, bytes, head)?;
    let graph = graph_of_text(alloc, head.text, entry.as_str())?;
    check_lines(alloc, &graph, bytes, head)
}

/// The verdicts by the cells of a certificate, if these prove themselves, and how many are unknown; or why nothing is told.
pub fn check(alloc: Global, bytes: &[u8]) -> Result<(Vec<u8>, u64), Status>
    ensures ok { IfOk result (λ r. IsValid bytes.now r.1 r.0.items) }
    ensures err { IfErr result (IsInvalid bytes.now) }
{
    match read_head(bytes) {
        Ok(head) => check_head(alloc, bytes, &head),
        Err(n) => Err(Status::CertByte { offset: n as u64 }),
    }
}
