// Laws of the definitions, over whatever system there is.

ghost use Rattle.pk_items.specs.Over.{DoneIsOver};
ghost use Rattle.pk_items.specs.Sweeping.{OthersAlwaysLeaveAlone};
ghost use Rattle.pk_items.specs.Laws.{EveryTopIsOutermost, ReadsAreNear};

use pk_iterate::System;

/// Each element is its item's last one, or lies in the component whose exit that is; and there is one such, which lies in no
/// component.
pub fn every_top_is_outermost()
    ensures { EveryTopIsOutermost }
{}

/// What an element reads lies in its item, or comes before it.
pub fn reads_are_near<Y: System>(system: &Y)
    ensures { ReadsAreNear (Y.meaning system.now) }
{}

/// Where an item's last element is done, all its elements have the recursion's last cells.
pub fn done_is_over<Y: System>(system: &Y)
    ensures { DoneIsOver (Y.meaning system.now) }
{}

/// While an item's last element is held, no other element is held that has to do with what the item's elements read.
pub fn others_leave_alone<Y: System>(system: &Y)
    ensures { OthersAlwaysLeaveAlone (Y.meaning system.now) }
{}
