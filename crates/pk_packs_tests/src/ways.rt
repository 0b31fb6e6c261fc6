// The way of a text to its packs.

use pk_graph::Graph;
use pk_order::planned;
use pk_packs::{PackError, Packs, packs};
use pk_plan::{Digraph, Plan};
use pk_text_graph::graph_of_text;
use std::alloc::{AllocError, Global};
use std::process::Abort;
use std::test::Fail;

// Adds an edge between vertices that there are.
fn join(rt: &impl Abort, made: &mut Digraph, from: u32, to: u32) -> Result<(), AllocError> {
    assert!(rt; from < made.vertices());
    assert!(rt; to < made.vertices());
    made.add_edge(from, to)
}

// The points, and the edges among them.
fn digraph(rt: &impl Abort, alloc: Global, graph: &Graph) -> Result<Digraph, Fail> {
    let points = u32::try_from(graph.points())?;
    let mut made = Digraph::with_vertices(alloc, points)?;
    for point in 0..points {
        for edge in graph.edges(point as usize) {
            join(rt, &mut made, point, u32::try_from(edge.to)?)?;
        }
    }
    Ok(made)
}

fn plan_of(rt: &impl Abort, alloc: Global, graph: &Graph) -> Result<Plan, Fail> {
    let made = digraph(rt, alloc, graph)?;
    assert!(rt; made.vertices() < 1 << 31);
    Ok(planned(alloc, &made)?)
}

/// The graph of a text.
pub fn graph_of(alloc: Global, text: &str) -> Result<Graph, Fail> {
    Ok(
        graph_of_text(alloc, text.as_bytes(), "main")
            .ok()
            .ok_or("no graph")?,
    )
}

/// The packs of a graph, each of at most so many variables.
pub fn packs_of(
    rt: &impl Abort,
    alloc: Global,
    graph: &Graph,
    most: usize,
) -> Result<Result<Packs, PackError>, Fail> {
    let plan = plan_of(rt, alloc, graph)?;
    assert!(rt; plan.points() as usize == graph.points());
    Ok(packs(alloc, graph, &plan, most))
}
