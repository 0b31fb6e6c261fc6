// The way of a text to its graph.

use pk_front::TextError;
use pk_graph::Graph;
use pk_text_graph::graph_of_text;
use std::alloc::Global;
use std::test::Fail;

fn is_limit(made: &Result<Graph, TextError>) -> bool {
    matches!(made, Err(TextError::Limit { .. }))
}

// The graph of a text, none where it has too many points.
pub fn graph_of(alloc: Global, text: &str) -> Result<Option<Graph>, Fail> {
    let made = graph_of_text(alloc, text.as_bytes(), "main");
    if is_limit(&made) {
        return Ok(None);
    }
    Ok(Some(made.ok().ok_or("no graph")?))
}
