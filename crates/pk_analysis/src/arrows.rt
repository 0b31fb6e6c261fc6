// The edges that lead to each point.

ghost use Rattle.std.specs.Prelude.{◌≡◌, ◌<◌, ◌++◌, ◌∷◌, [], IfOk, OnOk, map, length, slice_set, replicate, All};
ghost use Rattle.pk_graph.specs.Graphs.{EdgeOf, edge_view};
ghost use Rattle.pk_graph.specs.Shown.{graph_view};
ghost use Rattle.pk_analysis.specs.Arrows.{arrows_along, rows_of, row_at, AreArrows, AreMore};

use pk_graph::{Edge, Graph};
use std::alloc::{AllocError, Global};

/// An edge: the point where it begins, and its number there.
#[derive(Clone, Copy)]
pub struct Arrow {
    pub from: u32,
    pub edge: usize,
}

// Adds an edge to those that lead to a point.
fn add(rows: &mut Vec<Vec<Arrow>>, to: usize, arrow: Arrow) -> Result<(), AllocError>
    requires { to < length rows.old.items }
    ensures { OnOk result (rows_of rows.new.items
        ≡ slice_set (rows_of rows.old.items) to (row_at (rows_of rows.old.items) to ++ arrow ∷ [])) }
{
    let row: &mut Vec<Arrow> = &mut rows[to];
    row.push(arrow)?;
    Ok(())
}

// Adds those that begin at a point.
#[tactic(auto, unfolding(pk_graph::specs::Graphs::edge_view))]
fn add_edges(rows: &mut Vec<Vec<Arrow>>, from: u32, edges: &[Edge]) -> Result<(), AllocError>
    requires { All (λ (e : EdgeOf). e.to < length rows.old.items) (map edge_view edges.now) }
    ensures { OnOk result (AreMore (λ v. arrows_along v from 0 (map edge_view edges.now))
        (rows_of rows.old.items) (rows_of rows.new.items)) }
{
    for edge in 0..edges.len() {
        add(rows, edges[edge].to, Arrow { from, edge })?;
    }
    Ok(())
}

// No edges to any of so many points.
fn none(alloc: Global, points: usize) -> Result<Vec<Vec<Arrow>>, AllocError>
    ensures { IfOk result (λ rows. rows_of rows.items ≡ replicate points []) }
{
    let mut rows = Vec::with_capacity(alloc, points)?;
    for _ in 0..points {
        rows.push(Vec::new(alloc))?;
    }
    Ok(rows)
}

/// For each point the edges that lead to it, in edge order.
pub fn arrows(alloc: Global, graph: &Graph) -> Result<Vec<Vec<Arrow>>, AllocError>
    ensures { IfOk result (λ rows. AreArrows (graph_view graph.now) (rows_of rows.items)) }
{
    graph.well_made();
    let mut rows = none(alloc, graph.points())?;
    for point in 0..graph.points() {
        add_edges(&mut rows, point as u32, graph.edges(point))?;
    }
    Ok(rows)
}
