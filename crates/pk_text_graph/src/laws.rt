// Laws of the graphs of texts.

ghost use Rattle.pk_text_graph.specs.Graphs.{GraphIsDetermined, GraphsAreFew, GraphsAreWellMade};

use pk_front::way_is_determined;
use pk_lower_laws::drafts_have_labels;
use pk_number::numbered_law;
use pk_welltyped_texts::{drafts_of_texts_are_typed, texts_are_well_typed};

/// A text and a function have one graph at most, or one cause why there is none, and not both; want of memory aside.
pub fn graph_is_determined()
    ensures { GraphIsDetermined }
{
    way_is_determined();
}

/// The graph of a text is well made.
pub fn graphs_are_well_made()
    ensures { GraphsAreWellMade }
{
    drafts_of_texts_are_typed();
    numbered_law();
}

/// The graph of a text has at most 65,536 points.
pub fn graphs_are_few()
    ensures { GraphsAreFew }
{
    texts_are_well_typed();
    drafts_of_texts_are_typed();
    drafts_have_labels();
}
