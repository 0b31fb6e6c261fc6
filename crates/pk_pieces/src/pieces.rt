// The piece of a point.

ghost use Rattle.std.specs.Prelude.{◌≡◌, ◌<◌, ◌||◌, true, not, nat_eq, is_some, All, IfOk, IfSome, length, map};
ghost use Rattle.pk_graph.specs.Accesses.{AccessOf};
ghost use Rattle.pk_graph.specs.AccessViews.{access_view, access_views};
ghost use Rattle.pk_graph.specs.Graphs.{GraphOf, kinds_of};
ghost use Rattle.pk_graph.specs.Shown.{graph_view};
ghost use Rattle.pk_state.specs.Facts.{Stated};
ghost use Rattle.pk_transfer.specs.Trees.{IsOver};
ghost use Rattle.pk_transfer.specs.Trees as layouts;
ghost use Rattle.pk_verdict.specs.Verdicts.{IsTypedOperation};
ghost use Rattle.pk_report.specs.Reports.{told_if};
ghost use Rattle.pk_report.specs.Values.{HasSlots};
ghost use Rattle.pk_pieces.specs.Accesses.{accesses_at};
ghost use Rattle.pk_pieces.specs.Joined.{piece_by, verdict_by};
ghost use Rattle.pk_pieces.specs.Pieces.{nothing_of};

use pk_graph::{Access, Graph, Verdict};
use pk_report::{is_told, write_point};
use pk_state::State;
use pk_transfer::graphs_law;
use pk_verdict::{accesses_law, verdict};
use std::alloc::{AllocError, Global};
use std::marker::Model;

/// What is told of a point: its lines, of which there are none where it isn't told, and the verdict on each of its accesses.
#[derive(Drop)]
pub struct Piece {
    point: u32,
    lines: Vec<u8>,
    verdicts: Vec<Verdict>,
}

impl Model for Piece {
    ghost use Rattle.pk_pieces.specs.Pieces.{PieceOf};

    ghost Value = { PieceOf };

    ghost view = { λ p. record { point = p.point; lines = p.lines.items; verdicts = p.verdicts.items } };
}

impl Piece {
    /// That of a point of which nothing is told.
    pub fn nothing(alloc: Global, point: u32) -> Piece
        ensures { result ≡ nothing_of point }
    {
        Piece {
            point,
            lines: Vec::new(alloc),
            verdicts: Vec::new(alloc),
        }
    }

    pub fn point(&self) -> u32
        ensures { result ≡ self.now.point }
    {
        self.point
    }

    pub fn lines(&self) -> &[u8]
        ensures { result.now ≡ self.now.lines }
    {
        &self.lines
    }

    /// The verdict on each access of the point.
    pub fn verdicts(&self) -> &[Verdict]
        ensures { result.now ≡ self.now.verdicts }
    {
        &self.verdicts
    }
}

// The lines of a point, if it is told.
fn lines_of(
    alloc: Global,
    graph: &Graph,
    state: &State,
    point: usize,
    is_head: bool,
    all: bool,
) -> Result<Vec<u8>, AllocError>
    requires point { point < length (graph_view graph.now).points }
    requires slots { HasSlots (graph_view graph.now) state.now.layout }
    ensures { IfOk result (λ lines. lines.items ≡ told_if all (graph_view graph.now) state.now is_head point) }
{
    let mut lines = Vec::new(alloc);
    if is_told(is_head, all) {
        write_point(alloc, &mut lines, graph, state, point, is_head)?;
        return Ok(lines);
    }
    Ok(lines)
}

// The verdict on an access.
#[tactic(auto, unfolding(pk_graph::specs::AccessViews::access_view))]
fn verdict_on(alloc: Global, state: &State, access: &Access<'_>) -> Result<Verdict, AllocError>
    requires { IsTypedOperation (layouts.kinds_of state.now.layout) (access_view access.now).operation }
    ensures { IfOk result (λ v. v ≡ verdict_by state.now (access_view access.now)) }
{
    let found = verdict(alloc, state, &access.operation)?;
    Ok(found)
}

// The verdicts on accesses of one point.
fn verdicts_on(
    alloc: Global,
    state: &State,
    accesses: &[Access<'_>],
) -> Result<Vec<Verdict>, AllocError>
    requires { All (λ (a : AccessOf). IsTypedOperation (layouts.kinds_of state.now.layout) a.operation)
        (access_views accesses.now) }
    ensures { IfOk result (λ list. list.items ≡ map (verdict_by state.now) (access_views accesses.now)) }
{
    let mut list = Vec::with_capacity(alloc, accesses.len())?;
    for k in 0..accesses.len() {
        let found = verdict_on(alloc, state, &accesses[k])?;
        list.push(found)?;
    }
    Ok(list)
}

/// The piece of a point, by its reduced state. These are its accesses.
pub fn piece_by_state(
    alloc: Global,
    graph: &Graph,
    accesses: &[Access<'_>],
    state: &State,
    point: u32,
    is_head: bool,
    all: bool,
) -> Result<Piece, AllocError>
    requires point { point < length (graph_view graph.now).points }
    requires accesses { access_views accesses.now ≡ accesses_at (graph_view graph.now) point }
    requires over { IsOver (kinds_of (graph_view graph.now)) state.now.layout }
    ensures { IfOk result (λ p. p ≡ piece_by all (graph_view graph.now) is_head state.now point) }
{
    graphs_law();
    accesses_law();
    graph.well_made();
    let lines = lines_of(alloc, graph, state, point as usize, is_head, all)?;
    let verdicts = verdicts_on(alloc, state, accesses)?;
    Ok(Piece {
        point,
        lines,
        verdicts,
    })
}

/// The piece of a point that isn't told and has no access, so that it needs no state; none of another.
pub fn piece_without_state(
    alloc: Global,
    accesses: &[Access<'_>],
    point: u32,
    is_head: bool,
    all: bool,
) -> Option<Piece>
    ensures piece { IfSome result (λ p. (g : GraphOf) (s : Stated) → access_views accesses.now ≡ accesses_at g point →
        p ≡ piece_by all g is_head s point) }
    ensures some { is_some result ≡ not ((is_head || all) || not (nat_eq (length accesses.now) 0)) }
{
    if is_told(is_head, all) || !accesses.is_empty() {
        return None;
    }
    Some(Piece::nothing(alloc, point))
}
