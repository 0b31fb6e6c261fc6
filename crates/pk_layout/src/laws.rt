// Laws of the definitions, over whatever system there is.

ghost use Rattle.pk_layout.specs.Exists.{FitsReadWithin, EveryPlanIsWired};

use pk_iterate::System;

/// What a system that fits a plan reads are elements of the plan.
pub fn fits_read_within<Y: System>(system: &Y)
    ensures { FitsReadWithin (Y.meaning system.now) }
{}

/// Every plan that a system fits can be wired, with any limit: what the rule of a board asks can be met.
pub fn every_plan_is_wired<Y: System>(system: &Y)
    ensures { EveryPlanIsWired (Y.meaning system.now) }
{}
