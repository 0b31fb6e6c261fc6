// The graph of a draft.

ghost use Rattle.std.specs.Prelude.{◌≡◌, ◌<◌, ℕ, All, IfOk, length, map};
ghost use Rattle.pk_graph.specs.Graphs.{edge_view, path_view};
ghost use Rattle.pk_graph.specs.Shown.{graph_view};
ghost use Rattle.pk_draft.specs.Shown.{drafted};
ghost use Rattle.pk_number.specs.Numbering.{numbered};
ghost use Rattle.pk_number.specs.Typed.{IsTypedDraft};
ghost use Rattle.pk_number.specs.Rows.{rows_view, row_at, AreBelow, IsDistinct, renumbered, placed_view, placed};

use crate::rows::rows_of;
use crate::walks::{numbers_of, walked};
use pk_draft::{Draft, Label};
use pk_graph::{Edge, Graph, Path, Point};
use std::alloc::{AllocError, Global};
use std::mem;

// Edges lead to points by their numbers.
fn renumber(edges: &mut [Edge], numbers: &[usize])
    requires { All (λ e. e.to < length numbers.now) (map edge_view edges.old) }
    ensures { map edge_view edges.new ≡ map (renumbered numbers.now) (map edge_view edges.old) }
{
    for k in 0..edges.len() {
        let to = edges[k].to;
        edges[k].to = numbers[to];
    }
}

#[tactic(auto, unfolding(crate::specs::Rows::placed_view))]
fn point_of(label: Label, edges: Vec<Edge>) -> Point
    ensures { placed_view result ≡ (record { label = label; edges = map edge_view edges.items }) }
{
    Point {
        at: label.at,
        path: label.path,
        scope: label.scope,
        edges,
    }
}

// The points of an order, whose edges lead to them by their numbers.
fn points_of(
    alloc: Global,
    labels: &[Label],
    mut rows: Vec<Vec<Edge>>,
    order: &[usize],
    numbers: &[usize],
) -> Result<Vec<Point>, AllocError>
    requires size { length rows.items ≡ length labels.now }
    requires below { AreBelow (length labels.now) order.now }
    requires distinct { IsDistinct order.now }
    requires ends { (p : ℕ) → All (λ e. e.to < length numbers.now) (row_at (rows_view rows.items) p) }
    ensures { IfOk result (λ points.
        map placed_view points.items ≡ map (placed labels.now (rows_view rows.items) numbers.now) order.now) }
{
    let mut points = Vec::with_capacity(alloc, order.len())?;
    for k in 0..order.len() {
        let point = order[k];
        let mut edges = mem::replace(&mut rows[point], Vec::new(alloc));
        renumber(&mut edges, numbers);
        points.push(point_of(labels[point], edges))?;
    }
    Ok(points)
}

/// The graph of a draft, whose points are numbered in depth-first preorder from the entry, each point's edges in the order in which they were made. Points that aren't reached are
/// dropped.
pub fn number(alloc: Global, paths: Vec<Path>, draft: Draft) -> Result<Graph, AllocError>
    requires { IsTypedDraft (length paths.items) (drafted draft) }
    ensures { IfOk result (λ graph. graph_view graph ≡ numbered (map path_view paths.items) (drafted draft)) }
{
    let parts = draft.parts();
    let count = parts.labels.len();
    let turns = parts.edges.len() + 2;
    let rows = rows_of(alloc, count, parts.edges)?;
    let order = walked(alloc, &rows, turns)?;
    let numbers = numbers_of(alloc, count, &order)?;
    let points = points_of(alloc, &parts.labels, rows, &order, &numbers)?;
    Ok(Graph::new(paths, parts.variables, parts.scopes, points))
}
