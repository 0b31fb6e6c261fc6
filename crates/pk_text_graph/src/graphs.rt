// The graph of a text.

ghost use Rattle.std.specs.Prelude.{◌≡◌, IfOk, IfErr};
ghost use Rattle.pk_ctypes.specs.declared.words.Quantity.TheVariants.{Points};
ghost use Rattle.pk_graph.specs.Shown.{graph_view};
ghost use Rattle.pk_lower.specs.Answers.{point_limit};
ghost use Rattle.pk_text_graph.specs.Graphs.{HasGraph, HasNoGraph};

use pk_ctypes::Quantity;
use pk_draft::LowerError;
use pk_front::{TextError, front};
use pk_graph::Graph;
use pk_lower::{draft, graph_paths};
use pk_number::number;
use pk_welltyped_texts::drafts_of_texts_are_typed;
use std::alloc::Global;

// How many points a graph may have.
const POINT_LIMIT: u64 = 65536;

// A graph would have too many points.
fn too_many_points() -> TextError
    ensures { result ≡ TextError.Limit Points point_limit }
{
    TextError::Limit {
        what: Quantity::Points,
        number: POINT_LIMIT,
    }
}

/// The graph of a text whose runs begin with a function, or why it has none.
pub fn graph_of_text(alloc: Global, text: &[u8], entry: &str) -> Result<Graph, TextError>
    ensures graph { IfOk result (λ graph. HasGraph text.now entry.now (graph_view graph)) }
    ensures none { IfErr result (HasNoGraph text.now entry.now) }
{
    let (unit, paths) = front(alloc, text, entry)?;
    let draft = match draft(alloc, &unit, &paths) {
        Ok(draft) => draft,
        Err(LowerError::Limit) => {
            return Err(too_many_points());
        }
        Err(LowerError::Memory) => return Err(TextError::Memory),
    };
    let list = graph_paths(alloc, &unit, &paths)?;
    drafts_of_texts_are_typed();
    Ok(number(alloc, list, draft)?)
}
