// Laws of what is folded in texts.

ghost use Rattle.pk_folded_texts.specs.Texts.{TextsFoldedHasNoAccess, TextsComputedAccessesAreEvaluated};

use pk_access_texts::{accesses_are_apart, operators_are_apart};
use pk_folded_laws::{computed_accesses_are_evaluated, folded_has_no_access};
use pk_type_laws::units_are_marked;
use pk_welltyped_texts::texts_are_well_typed;

/// What a run of a text's program begins to evaluate, of which the lowering knows the value, has no access in the text's graph.
pub fn texts_folded_has_no_access()
    ensures { TextsFoldedHasNoAccess }
{
    operators_are_apart();
    folded_has_no_access();
}

/// So an access whose operation a run of the program computes is one that a run of the graph evaluates.
pub fn texts_computed_accesses_are_evaluated()
    ensures { TextsComputedAccessesAreEvaluated }
{
    operators_are_apart();
    accesses_are_apart();
    texts_are_well_typed();
    units_are_marked();
    computed_accesses_are_evaluated();
}
