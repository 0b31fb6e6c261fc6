// The pieces of a graph's points.

ghost use Rattle.std.specs.Prelude.{◌≡◌, ◌<◌, IfOk, length};
ghost use Rattle.pk_graph.specs.Accesses.{accesses_of};
ghost use Rattle.pk_graph.specs.AccessViews.{access_views};
ghost use Rattle.pk_graph.specs.Shown.{graph_view};
ghost use Rattle.pk_report.specs.Reports.{state_at};
ghost use Rattle.pk_pieces.specs.Joined.{piece_by, pieces_of};
ghost use Rattle.pk_pieces.specs.Reports.{IsSoFar};
ghost use Rattle.pk_solver.specs.Solved.{AreOver};

use pk_analysis::States;
use pk_graph::{Access, Graph};
use pk_pieces::{Piece, Report, accesses_at, piece_by_state, piece_without_state};
use pk_report::head_marks;
use std::alloc::{AllocError, Global};

// The piece of a point, whose state is reduced for it alone, where it is needed.
fn piece_at(
    alloc: Global,
    graph: &Graph,
    accesses: &[Access<'_>],
    states: &States,
    point: usize,
    is_head: bool,
    all: bool,
) -> Result<Piece, AllocError>
    requires over { AreOver (graph_view graph.now) states.now }
    requires accesses { access_views accesses.now ≡ accesses_of (graph_view graph.now) }
    requires point { point < length (graph_view graph.now).points }
    ensures { IfOk result
        (λ p. p ≡ piece_by all (graph_view graph.now) is_head (state_at states.now point) point) }
{
    graph.well_made();
    let own = accesses_at(graph, accesses, point);
    let number = point as u32;
    if let Some(piece) = piece_without_state(alloc, own, number, is_head, all) {
        return Ok(piece);
    }
    let state = states.state(alloc, point)?;
    let piece = piece_by_state(alloc, graph, own, &state, number, is_head, all)?;
    Ok(piece)
}

/// A report with this first line and the pieces of all points, each of which is let go of once it is told.
pub(crate) fn with_pieces(
    alloc: Global,
    first: Vec<u8>,
    graph: &Graph,
    accesses: &[Access<'_>],
    heads: &[u32],
    states: &States,
    all: bool,
) -> Result<Report, AllocError>
    requires over { AreOver (graph_view graph.now) states.now }
    requires accesses { access_views accesses.now ≡ accesses_of (graph_view graph.now) }
    ensures { IfOk result (IsSoFar first.items (pieces_of all (graph_view graph.now) heads.now states.now)) }
{
    let marks = head_marks(alloc, heads, states.len())?;
    let mut report = Report::new(alloc, first);
    for point in 0..states.len() {
        let piece = piece_at(alloc, graph, accesses, states, point, marks[point], all)?;
        report.add(&piece)?;
    }
    Ok(report)
}
