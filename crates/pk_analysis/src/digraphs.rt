// The digraph of a graph.

ghost use Rattle.std.specs.Prelude.{◌≡◌, ◌<◌, ◌^◌, IfOk, map, All};
ghost use Rattle.pk_graph.specs.Graphs.{EdgeOf, edge_view};
ghost use Rattle.pk_graph.specs.Shown.{graph_view};
ghost use Rattle.pk_analysis.specs.Digraphs.{targets_of, digraph_of};

use pk_graph::{Edge, Graph};
use pk_plan::Digraph;
use std::alloc::{AllocError, Global};

// Where these edges lead.
#[tactic(auto, unfolding(pk_graph::specs::Graphs::edge_view))]
fn targets(alloc: Global, edges: &[Edge]) -> Result<Vec<u32>, AllocError>
    requires { All (λ (e : EdgeOf). e.to < 2 ^ 32) (map edge_view edges.now) }
    ensures { IfOk result (λ list. list.items ≡ targets_of (map edge_view edges.now)) }
{
    let mut list = Vec::with_capacity(alloc, edges.len())?;
    for edge in edges {
        list.push(edge.to as u32)?;
    }
    Ok(list)
}

/// The points, and for each edge one from the point where it begins to that to which it leads.
pub fn digraph(alloc: Global, graph: &Graph) -> Result<Digraph, AllocError>
    ensures { IfOk result (λ made. made ≡ digraph_of (graph_view graph.now)) }
{
    graph.well_made();
    let mut successors = Vec::with_capacity(alloc, graph.points())?;
    for point in 0..graph.points() {
        successors.push(targets(alloc, graph.edges(point))?)?;
    }
    Ok(Digraph::new(successors))
}
