// Laws of the definitions, over whatever system there is.

ghost use Rattle.pk_core.specs.Nested.{NestedMeetsAll};
ghost use Rattle.pk_core.specs.Promises.{EveryListKeeps};

use pk_iterate::System;

/// Every list of events keeps to the recursion, and makes no more runs.
pub fn every_list_keeps<Y: System>(system: &Y)
    ensures { EveryListKeeps (Y.meaning system.now) }
{}

/// A plan with a component in a component, an order of it, and a system that fits it and whose recursion ends.
pub fn nested_meets_all()
    ensures { NestedMeetsAll }
{}
