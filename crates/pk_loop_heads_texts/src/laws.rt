// Laws of loops into which nothing jumps.

ghost use Rattle.pk_loop_heads_texts.specs.Laws.{TurnsOfTextsAreHeads};

use pk_loop_heads::loops_have_heads;
use pk_loop_texts::turns_of_texts_are_apart;
use pk_type_laws::units_are_marked;
use pk_welltyped_texts::texts_are_well_typed;

/// The one point at which such a loop of a path of a text's graph begins again is a head, if edges from two points lead there.
pub fn turns_of_texts_are_heads()
    ensures { TurnsOfTextsAreHeads }
{
    texts_are_well_typed();
    units_are_marked();
    turns_of_texts_are_apart();
    loops_have_heads();
}
