// Certificates, as they are written.

ghost use Rattle.std.specs.Prelude.{◌≡◌, ◌++◌, ◌≤◌, ℕ, OnOk, MatchResult, length, map};
ghost use Rattle.pk_graph.specs.Graphs.{kinds_of};
ghost use Rattle.pk_graph.specs.Shown.{graph_view};
ghost use Rattle.pk_transfer.specs.Graphs.{layout_of};
ghost use Rattle.pk_cert.specs.Rows.{line_text, lines_text};
ghost use Rattle.pk_cert_states.specs.Lines.{line_slots, line_of};
ghost use Rattle.pk_cert_lines.specs.Told.{IsTold};
ghost use Rattle.pk_cert_cells.specs.Cells.{state_in, facts_in, AreCells, head_of, cells_text, most_bytes, IsUnwritten};

use crate::failures::Unwritten;
use crate::heads::write_head;
use pk_cert_lines::{Told, told_of, write_line};
use pk_cert_states::Order;
use pk_graph::Graph;
use pk_iterate::Cells;
use pk_phases::Cell;
use pk_state::{Frame, State};
use std::alloc::{AllocError, Global};

/// How many bytes a certificate has at most.
pub const MOST_BYTES: usize = 67_108_864;

// Writes the line of a cell.
fn write_cell<'f>(
    alloc: Global,
    bytes: &mut Vec<u8>,
    graph: &Graph,
    frame: &Frame,
    order: &Order,
    told: &mut Told<'f>,
    cell: &Cell<State<'f>>,
) -> Result<(), AllocError>
    requires frame { (oct : ℕ) × (frame.now ≡ layout_of (graph_view graph.now) oct) }
    requires order { order.now ≡ line_slots (kinds_of (graph_view graph.now)) }
    requires told { IsTold (kinds_of (graph_view graph.now)) frame.now told.old }
    requires over { (state_in frame.now cell.now).layout ≡ frame.now }
    ensures told { OnOk result (IsTold (kinds_of (graph_view graph.now)) frame.now told.new) }
    ensures bytes { OnOk result (bytes.new.items ≡ bytes.old.items
        ++ line_text (line_of (kinds_of (graph_view graph.now)) (state_in frame.now cell.now).facts)) }
{
    match cell {
        Cell::Value(state) => write_line(alloc, bytes, graph, frame, order, told, state),
        Cell::Exit(_) => bytes.extend_from_slice(b"bot\n"),
    }
}

// Writes the line of each point, as long as these aren't too many bytes.
fn write_cells<'f>(
    alloc: Global,
    bytes: &mut Vec<u8>,
    graph: &Graph,
    frame: &Frame,
    order: &Order,
    told: &mut Told<'f>,
    cells: &Cells<Cell<State<'f>>>,
) -> Result<(), Unwritten>
    requires frame { (oct : ℕ) × (frame.now ≡ layout_of (graph_view graph.now) oct) }
    requires order { order.now ≡ line_slots (kinds_of (graph_view graph.now)) }
    requires told { IsTold (kinds_of (graph_view graph.now)) frame.now told.old }
    requires cells { AreCells frame.now (length (graph_view graph.now).points) cells.now.cells }
    ensures { let known = facts_in frame.now (length (graph_view graph.now).points) cells.now.cells in
        let all = bytes.old.items ++ lines_text (map (line_of (kinds_of (graph_view graph.now))) known) in
        MatchResult result (λ _. (bytes.new.items ≡ all) × (length all ≤ most_bytes)) (IsUnwritten all) }
{
    graph.well_made();
    for v in 0..graph.points() {
        if bytes.len() > MOST_BYTES {
            return Err(Unwritten::Limit);
        }
        write_cell(
            alloc,
            bytes,
            graph,
            frame,
            order,
            told,
            cells.cell(v as u32),
        )?;
    }
    if bytes.len() > MOST_BYTES {
        Err(Unwritten::Limit)
    } else {
        Ok(())
    }
}

/// The certificate of a text, the size of the octagon, an entry and what is known at each point of the text's graph, if
/// it has at most 67108864 bytes.
pub fn write<'f>(
    alloc: Global,
    graph: &Graph,
    frame: &'f Frame,
    text: &[u8],
    oct: u32,
    entry: &[u8],
    cells: &Cells<Cell<State<'f>>>,
) -> Result<Vec<u8>, Unwritten>
    requires frame { frame.now ≡ layout_of (graph_view graph.now) oct }
    requires cells { AreCells (layout_of (graph_view graph.now) oct) (length (graph_view graph.now).points)
        cells.now.cells }
    ensures { let all = cells_text (graph_view graph.now) (head_of text.now oct entry.now) cells.now.cells in
        MatchResult result (λ bytes. (bytes.items ≡ all) × (length all ≤ most_bytes)) (IsUnwritten all) }
{
    let order = Order::new(alloc, graph, frame)?;
    let mut told = told_of(alloc, graph, frame, &order, State::bottom(frame))?;
    let mut bytes = Vec::new(alloc);
    write_head(&mut bytes, text, oct, entry)?;
    match write_cells(alloc, &mut bytes, graph, frame, &order, &mut told, cells) {
        Err(e) => Err(e),
        Ok(()) => Ok(bytes),
    }
}
