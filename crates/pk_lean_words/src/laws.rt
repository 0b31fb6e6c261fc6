// Laws of the definitions, over whatever system there is.

ghost use Rattle.pk_words.specs.declared.slot.Slot.{Slot};
ghost use Rattle.pk_words.specs.Kinds.{kind_of};
ghost use Rattle.pk_lean_words.specs.Laws.{EveryBoardLetsGo};

use pk_words::Parted;

/// Between any two steps a slot has its cell until its reader's item is over; then it has none, and the item's part is there.
pub fn every_board_lets_go<Y: Parted>(system: &Y)
    ensures { EveryBoardLetsGo {C = Y.Cell} {P = Y.Part} {S = Slot Y.Cell Y.Part} (Y.meaning system.now) kind_of }
{}
