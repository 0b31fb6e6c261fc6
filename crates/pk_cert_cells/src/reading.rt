// The cells of a certificate, as they are read.

ghost use Rattle.std.specs.Prelude.{◌≡◌, ◌++◌, ◌∷◌, [], ◌+◌, ◌<◌, ◌^◌, ℕ, List, OnOk, MatchResult, MatchOption, length, map};
ghost use Rattle.std.specs.Arc.{arc_value};
ghost use Rattle.pk_graph.specs.Kinds.{Kinds};
ghost use Rattle.pk_graph.specs.Graphs.{kinds_of};
ghost use Rattle.pk_graph.specs.Shown.{graph_view};
ghost use Rattle.pk_transfer.specs.Graphs.{layout_of};
ghost use Rattle.pk_cert.specs.Beginnings.{TextsOf};
ghost use Rattle.pk_cert.specs.Heads.{head_view};
ghost use Rattle.pk_cert.specs.Rows.{Line, IsLine, line_text, AreLines, lines_text, row_view, seen_line};
ghost use Rattle.pk_cert.specs.Pieces.{IsHeadRead, StopsAt};
ghost use Rattle.pk_cert_states.specs.Lines.{line_slots, line_of, shape_of};
ghost use Rattle.pk_cert_lines.specs.Told.{IsTold};
ghost use Rattle.pk_cert_cells.specs.Reading.{AreReadCells, IsUnfit, AreCellsOf, AreCellsRead, IsNextRead};

use crate::failures::Unfit;
use pk_cert::{Head, Row, Shape, Unread, read_row};
use pk_cert_lines::{Told, read_alike, told_of};
use pk_cert_states::{Order, octagon_size, state_of};
use pk_graph::Graph;
use pk_phases::Cell;
use pk_state::{Frame, State};
use std::alloc::{AllocError, Global};
use std::sync::Arc;

// Has the next lines be read beside this one, if some run comes there.
fn keep<'f>(
    alloc: Global,
    graph: &Graph,
    frame: &'f Frame,
    order: &Order,
    told: &mut Told<'f>,
    state: &State<'f>,
) -> Result<(), AllocError>
    requires frame { (oct : ℕ) × (frame.now ≡ layout_of (graph_view graph.now) oct) }
    requires order { order.now ≡ line_slots (kinds_of (graph_view graph.now)) }
    requires told { IsTold (kinds_of (graph_view graph.now)) frame.now told.old }
    requires state { state.now.layout ≡ frame.now }
    ensures { OnOk result (IsTold (kinds_of (graph_view graph.now)) frame.now told.new) }
{
    if !state.is_bottom() {
        *told = told_of(alloc, graph, frame, order, state.copy(alloc)?)?;
    }
    Ok(())
}

// Adds the cell of a line that was read beside another, behind k lines, if each of these had one.
fn add_told<'f>(
    alloc: Global,
    cells: &mut Vec<Arc<Cell<State<'f>>>>,
    state: &State<'f>,
    k: usize,
) -> Result<(), AllocError>
    ensures { OnOk result ((ks : Kinds) (lines : List Line) → length lines ≡ k →
        AreCellsOf ks state.now.layout lines (map arc_value cells.old.items) →
        AreCellsOf ks state.now.layout (lines ++ line_of ks state.now.facts ∷ []) (map arc_value cells.new.items)) }
{
    if k != cells.len() {
        return Ok(());
    }
    state.is_stated();
    cells.push(Arc::new(alloc, Cell::Value(state.copy(alloc)?))?)?;
    Ok(())
}

// Adds the cell of the line behind k others, if each of these had one and this one has.
fn add_cell<'f>(
    alloc: Global,
    graph: &Graph,
    frame: &'f Frame,
    order: &Order,
    cells: &mut Vec<Arc<Cell<State<'f>>>>,
    told: &mut Told<'f>,
    row: &Row,
    k: usize,
) -> Result<(), AllocError>
    requires frame { (oct : ℕ) × (frame.now ≡ layout_of (graph_view graph.now) oct) }
    requires order { order.now ≡ line_slots (kinds_of (graph_view graph.now)) }
    requires told { IsTold (kinds_of (graph_view graph.now)) frame.now told.old }
    ensures told { OnOk result (IsTold (kinds_of (graph_view graph.now)) frame.now told.new) }
    ensures cells { let ks = kinds_of (graph_view graph.now) in
        let l = frame.now in
        OnOk result ((lines : List Line) (line : Line) → length lines ≡ k → row_view row.now ≡ seen_line line →
        AreCellsOf ks l lines (map arc_value cells.old.items) →
        AreCellsOf ks l (lines ++ line ∷ []) (map arc_value cells.new.items)) }
{
    if cells.len() != k {
        return Ok(());
    }
    match state_of(alloc, graph, frame, order, row, &told.state)? {
        None => Ok(()),
        Some(state) => {
            state.is_stated();
            keep(alloc, graph, frame, order, told, &state)?;
            cells.push(Arc::new(alloc, Cell::Value(state))?)?;
            Ok(())
        }
    }
}

// Adds the cell of the line that stands first, behind k others, and answers how many bytes the line is.
fn read_alone<'f>(
    alloc: Global,
    bytes: &[u8],
    graph: &Graph,
    frame: &'f Frame,
    order: &Order,
    shape: Shape,
    cells: &mut Vec<Arc<Cell<State<'f>>>>,
    told: &mut Told<'f>,
    k: usize,
) -> Result<usize, Unread>
    requires frame { (oct : ℕ) × (frame.now ≡ layout_of (graph_view graph.now) oct) }
    requires order { order.now ≡ line_slots (kinds_of (graph_view graph.now)) }
    requires size { shape.numbers + shape.bounds < 2 ^ 64 }
    requires told { IsTold (kinds_of (graph_view graph.now)) frame.now told.old }
    ensures told { OnOk result (IsTold (kinds_of (graph_view graph.now)) frame.now told.new) }
    ensures line { MatchResult result
        (λ n. IsNextRead (kinds_of (graph_view graph.now)) frame.now shape k bytes.now
        (map arc_value cells.old.items) (map arc_value cells.new.items) n)
        (λ e. StopsAt (TextsOf (IsLine shape) line_text) bytes.now e) }
{
    match read_row(alloc, bytes, shape) {
        Err(e) => Err(e),
        Ok((row, n)) => {
            add_cell(alloc, graph, frame, order, cells, told, &row, k)?;
            Ok(n)
        }
    }
}

// The same, beside the line before it where it differs in few parts.
fn read_next<'f>(
    alloc: Global,
    bytes: &[u8],
    graph: &Graph,
    frame: &'f Frame,
    order: &Order,
    shape: Shape,
    cells: &mut Vec<Arc<Cell<State<'f>>>>,
    told: &mut Told<'f>,
    k: usize,
) -> Result<usize, Unread>
    requires frame { (oct : ℕ) × (frame.now ≡ layout_of (graph_view graph.now) oct) }
    requires order { order.now ≡ line_slots (kinds_of (graph_view graph.now)) }
    requires size { shape.numbers + shape.bounds < 2 ^ 64 }
    requires shape { shape ≡ shape_of (kinds_of (graph_view graph.now)) frame.now }
    requires told { IsTold (kinds_of (graph_view graph.now)) frame.now told.old }
    ensures told { OnOk result (IsTold (kinds_of (graph_view graph.now)) frame.now told.new) }
    ensures line { MatchResult result
        (λ n. IsNextRead (kinds_of (graph_view graph.now)) frame.now shape k bytes.now
        (map arc_value cells.old.items) (map arc_value cells.new.items) n)
        (λ e. StopsAt (TextsOf (IsLine shape) line_text) bytes.now e) }
{
    match read_alike(alloc, graph, frame, order, told, bytes)? {
        None => read_alone(alloc, bytes, graph, frame, order, shape, cells, told, k),
        Some(n) => {
            told.state.is_stated();
            add_told(alloc, cells, &told.state, k)?;
            Ok(n)
        }
    }
}

// The cells of the first lines that are of states, and how many bytes the lines of all points are.
fn cells_of<'f>(
    alloc: Global,
    bytes: &[u8],
    graph: &Graph,
    frame: &'f Frame,
    order: &Order,
    shape: Shape,
) -> Result<(Vec<Arc<Cell<State<'f>>>>, usize), Unread>
    requires frame { (oct : ℕ) × (frame.now ≡ layout_of (graph_view graph.now) oct) }
    requires order { order.now ≡ line_slots (kinds_of (graph_view graph.now)) }
    requires size { shape.numbers + shape.bounds < 2 ^ 64 }
    requires shape { shape ≡ shape_of (kinds_of (graph_view graph.now)) frame.now }
    ensures { let points = length (graph_view graph.now).points in MatchResult result
        (λ r. AreCellsRead (kinds_of (graph_view graph.now)) frame.now shape points bytes.now
        (map arc_value r.0.items) r.1)
        (λ e. StopsAt (TextsOf (AreLines shape points) lines_text) bytes.now e) }
{
    let mut cells = Vec::new(alloc);
    let mut told = told_of(alloc, graph, frame, order, State::bottom(frame))?;
    let mut at = 0;
    for k in 0..graph.points() {
        match read_next(
            alloc,
            &bytes[at..],
            graph,
            frame,
            order,
            shape,
            &mut cells,
            &mut told,
            k,
        ) {
            Err(Unread::Byte(n)) => return Err(Unread::Byte(at + n)),
            Err(Unread::Memory) => return Err(Unread::Memory),
            Ok(n) => at += n,
        }
    }
    Ok((cells, at))
}

// How many numbers and bounds the lines of a graph have, if these can be counted.
fn shape(graph: &Graph, frame: &Frame, order: &Order) -> Option<Shape>
    requires frame { (oct : ℕ) × (frame.now ≡ layout_of (graph_view graph.now) oct) }
    requires order { order.now ≡ line_slots (kinds_of (graph_view graph.now)) }
    ensures { MatchOption result ℕ (λ s. (s ≡ shape_of (kinds_of (graph_view graph.now)) frame.now)
        × (s.numbers + s.bounds < 2 ^ 64)) }
{
    let _ = graph;
    let slots = order.len();
    if slots >= 1 << 31 {
        return None;
    }
    let d = 2 * octagon_size(frame) as usize;
    Some(Shape {
        numbers: 4 * slots,
        bounds: d * d,
    })
}

/// What is known at each point of a graph by the lines behind a certificate's head. A line is made a state when it is
/// read, and isn't kept; what it has of the one before it is shared and isn't parsed.
pub fn read_cells<'f>(
    alloc: Global,
    bytes: &[u8],
    head: &Head<'_>,
    graph: &Graph,
    frame: &'f Frame,
) -> Result<Vec<Arc<Cell<State<'f>>>>, Unfit>
    requires head { IsHeadRead bytes.now head.now }
    requires frame { frame.now ≡ layout_of (graph_view graph.now) head.now.oct }
    ensures { MatchResult result
        (λ cells. AreReadCells (graph_view graph.now) (head_view head.now) bytes.now (map arc_value cells.items))
        (IsUnfit (graph_view graph.now) (head_view head.now) bytes.now) }
{
    let order = Order::new(alloc, graph, frame)?;
    match shape(graph, frame, &order) {
        None => Err(Unfit::Memory),
        Some(shape) => match cells_of(alloc, &bytes[head.len..], graph, frame, &order, shape) {
            Err(Unread::Byte(n)) => Err(Unfit::Byte(head.len + n)),
            Err(Unread::Memory) => Err(Unfit::Memory),
            Ok((cells, n)) => {
                if head.len + n < bytes.len() {
                    Err(Unfit::Byte(head.len + n))
                } else if cells.len() < graph.points() {
                    Err(Unfit::State(cells.len()))
                } else {
                    Ok(cells)
                }
            }
        },
    }
}
