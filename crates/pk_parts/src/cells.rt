// The pieces of points by their raw cells.

ghost use Rattle.std.specs.Prelude.{◌≡◌, ◌<◌, All, IfOk, None, length, map};
ghost use Rattle.std.specs.Arc.{arc_value};
ghost use Rattle.pk_graph.specs.Accesses.{accesses_of};
ghost use Rattle.pk_graph.specs.AccessViews.{access_views};
ghost use Rattle.pk_graph.specs.Graphs.{kinds_of};
ghost use Rattle.pk_graph.specs.Shown.{graph_view};
ghost use Rattle.pk_state.specs.Facts.{Stated};
ghost use Rattle.pk_transfer.specs.Trees.{IsOver};
ghost use Rattle.pk_phases.specs.declared.equations.Cell.{Cell};
ghost use Rattle.pk_phases.specs.Equations.{value_of};
ghost use Rattle.pk_analysis.specs.Flows.{reduced_over, stated};
ghost use Rattle.pk_report.specs.Reports.{AreHeads};
ghost use Rattle.pk_pieces.specs.Joined.{piece_by};
ghost use Rattle.pk_parts.specs.Cells.{piece_by_cell, pieces_by_cells};

use pk_graph::{Access, Graph};
use pk_phases::Cell;
use pk_pieces::{Piece, accesses_at, piece_by_state, piece_without_state};
use pk_state::{Frame, State};
use std::alloc::{AllocError, Global};
use std::sync::Arc;

// A cell's state, reduced.
fn reduced_state<'f>(
    alloc: Global,
    frame: &'f Frame,
    cell: &Cell<State<'f>>,
) -> Result<State<'f>, AllocError>
    requires { (value_of (stated frame.now None) cell.now).layout ≡ frame.now }
    ensures { IfOk result (λ s. s ≡ reduced_over frame.now cell.now) }
{
    match cell {
        Cell::Value(state) => state.reduce(alloc),
        Cell::Exit(_) => Ok(State::bottom(frame)),
    }
}

// The piece of a point, whose cell is reduced where it is needed.
fn piece_of_point<'f>(
    alloc: Global,
    graph: &Graph,
    frame: &'f Frame,
    accesses: &[Access<'_>],
    is_head: bool,
    all: bool,
    point: u32,
    cell: &Cell<State<'f>>,
) -> Result<Piece, AllocError>
    requires accesses { access_views accesses.now ≡ accesses_of (graph_view graph.now) }
    requires over { IsOver (kinds_of (graph_view graph.now)) frame.now }
    requires point { point < length (graph_view graph.now).points }
    requires held { (value_of (stated frame.now None) cell.now).layout ≡ frame.now }
    ensures { IfOk result
        (λ p. p ≡ piece_by all (graph_view graph.now) is_head (reduced_over frame.now cell.now) point) }
{
    let own = accesses_at(graph, accesses, point as usize);
    if let Some(piece) = piece_without_state(alloc, own, point, is_head, all) {
        return Ok(piece);
    }
    let state = reduced_state(alloc, frame, cell)?;
    let piece = piece_by_state(alloc, graph, own, &state, point, is_head, all)?;
    Ok(piece)
}

fn piece_by_cell<'f>(
    alloc: Global,
    graph: &Graph,
    frame: &'f Frame,
    accesses: &[Access<'_>],
    heads: &[u32],
    marks: &[bool],
    all: bool,
    point: u32,
    cell: &Cell<State<'f>>,
) -> Result<Piece, AllocError>
    requires accesses { access_views accesses.now ≡ accesses_of (graph_view graph.now) }
    requires over { IsOver (kinds_of (graph_view graph.now)) frame.now }
    requires marks { AreHeads (length (graph_view graph.now).points) heads.now marks.now }
    requires held { (value_of (stated frame.now None) cell.now).layout ≡ frame.now }
    ensures { IfOk result
        (λ p. p ≡ piece_by_cell all (graph_view graph.now) frame.now heads.now point cell.now) }
{
    let at = point as usize;
    if at < graph.points() {
        let piece = piece_of_point(alloc, graph, frame, accesses, marks[at], all, point, cell)?;
        return Ok(piece);
    }
    Ok(Piece::nothing(alloc, point))
}

/// The pieces of points, by their cells.
pub(crate) fn pieces_by_cells<'f>(
    alloc: Global,
    graph: &Graph,
    frame: &'f Frame,
    accesses: &[Access<'_>],
    heads: &[u32],
    marks: &[bool],
    all: bool,
    points: &[u32],
    cells: &[Arc<Cell<State<'f>>>],
) -> Result<Vec<Piece>, AllocError>
    requires accesses { access_views accesses.now ≡ accesses_of (graph_view graph.now) }
    requires over { IsOver (kinds_of (graph_view graph.now)) frame.now }
    requires marks { AreHeads (length (graph_view graph.now).points) heads.now marks.now }
    requires size { length points.now ≡ length cells.now }
    requires held { All (λ (c : Cell Stated). (value_of (stated frame.now None) c).layout ≡ frame.now)
        (map arc_value cells.now) }
    ensures { IfOk result (λ pieces. pieces.items
        ≡ pieces_by_cells all (graph_view graph.now) frame.now heads.now points.now (map arc_value cells.now)) }
{
    let mut pieces = Vec::with_capacity(alloc, points.len())?;
    for k in 0..points.len() {
        let piece = piece_by_cell(
            alloc, graph, frame, accesses, heads, marks, all, points[k], &cells[k],
        )?;
        pieces.push(piece)?;
    }
    Ok(pieces)
}
