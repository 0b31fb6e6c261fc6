// What is known at the end of a line of instructions.

ghost use Rattle.std.specs.Prelude.{◌≡◌, ◌<◌, length, IfOk};
ghost use Rattle.pk_graph.specs.Shown.{graph_view};
ghost use Rattle.pk_transfer.specs.Graphs.{layout_of};

use pk_graph::Graph;
use pk_state::{Frame, State};
use pk_transfer::{graphs_law, transfer};
use std::alloc::Global;
use std::test::Fail;

// What is known after the one edge of a point, which leads to the next point.
fn passed<'f>(
    alloc: Global,
    graph: &Graph,
    oct: usize,
    point: usize,
    state: &State<'f>,
) -> Result<State<'f>, Fail>
    requires point { point < length (graph_view graph.now).points }
    requires layout { state.now.layout ≡ layout_of (graph_view graph.now) oct }
    ensures { IfOk result (λ s. s.layout ≡ state.now.layout) }
{
    let _ = oct;
    graphs_law();
    graph.well_made();
    let edges = graph.edges(point);
    if edges.len() != 1 {
        return Err("no line".into());
    }
    let edge = &edges[0];
    if edge.to != point.wrapping_add(1) {
        return Err("no line".into());
    }
    Ok(transfer(alloc, &edge.instr, state)?)
}

/// What is known before the result of the main function is set, which is three points before the end, reduced. Nothing is known at the start.
pub fn along<'f>(
    alloc: Global,
    graph: &Graph,
    oct: usize,
    frame: &'f Frame,
) -> Result<State<'f>, Fail>
    requires { frame.now ≡ layout_of (graph_view graph.now) oct }
    ensures { IfOk result (λ s. s.layout ≡ frame.now) }
{
    let mut state = State::top(alloc, frame)?;
    for point in 0..graph.points().saturating_sub(3) {
        state = passed(alloc, graph, oct, point, &state)?;
    }
    Ok(state.reduce(alloc)?)
}
