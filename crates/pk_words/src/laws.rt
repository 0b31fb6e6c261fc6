// Laws of the definitions, over whatever system there is.

ghost use Rattle.pk_words.specs.declared.slot.Slot.{Slot};
ghost use Rattle.pk_words.specs.Kinds.{HasValue, kind_of};
ghost use Rattle.pk_words.specs.Laws.{EveryBoardKeeps};

use crate::parted::Parted;

/// Between any two steps a board shows a state that keeps to the recursion, and an element has one Hold at most.
pub fn every_board_keeps<Y: Parted>(system: &Y)
    ensures { EveryBoardKeeps {C = Y.Cell} {S = Slot Y.Cell Y.Part} (Y.meaning system.now) (HasValue kind_of) }
{}
