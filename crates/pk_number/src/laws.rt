// Laws of numbered drafts, over their definitions.

ghost use Rattle.std.specs.Prelude.{List, ℕ, length};
ghost use Rattle.pk_graph.specs.Graphs.{PathOf};
ghost use Rattle.pk_draft.specs.Drafts.{DraftOf};
ghost use Rattle.pk_number.specs.Typed.{IsTypedDraft};
ghost use Rattle.pk_number.specs.Ways.{IsNumbered};

/// The graph of a typed draft is a graph: each edge leads to one of its points. Each point is reached from point 0, and the ways from there are the draft's from its entry.
pub fn numbered_law()
    ensures { (paths : List PathOf) (d : DraftOf ℕ) → IsTypedDraft (length paths) d → IsNumbered paths d }
{}
