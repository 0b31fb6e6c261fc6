// The rule of a board's table.

use crate::parted::Parted;
use crate::slot::Slot;
use crate::subject::Subject;
use crate::view::View;
use atomic_table::TableRule;

/// Words, slots and views show a state of the core, which events have led to; and each slot has its cell until its reader's item is
/// over.
pub struct Rule;

impl<'a, Y: Parted> TableRule<Slot<Y::Cell, Y::Part>, View, Subject<'a, Y>> for Rule {
    ghost use Rattle.pk_words.specs.Kinds.{kind_of, IsLeanBoard};
    ghost use Rattle.pk_words.specs.Views.{first_view};

    ghost holds = { λ k s. IsLeanBoard (Y.meaning k.system) k.wiring (record {
      lets_go = k.lean;
      part = Y.part_of k.system;
    }) kind_of s };

    ghost first = { λ k. first_view };
}
