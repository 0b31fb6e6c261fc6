// Law of what runs of texts compute.

ghost use Rattle.pk_computed_texts.specs.Texts.{TextsComputedIsEvaluated};

use pk_computed_laws::computed_is_evaluated;
use pk_type_laws::units_are_marked;
use pk_welltyped_texts::texts_are_well_typed;

/// What a step of a run of a text's program computes a run of the text's graph evaluates at an access, but for operators on constants that don't fault.
pub fn texts_computed_is_evaluated()
    ensures { TextsComputedIsEvaluated }
{
    texts_are_well_typed();
    units_are_marked();
    computed_is_evaluated();
}
