// Laws of the definitions, over whatever system there is.

ghost use Rattle.pk_release.specs.Laws.{ItemsAreTops, KeepsWithinPeak, EveryPlanHasALine, CellsAreKept, EdgesLeadFromItems};

use pk_iterate::System;

/// The items of a linear order are those of the plan.
pub fn items_are_tops()
    ensures { ItemsAreTops }
{}

/// Where an element was run only once all earlier items were over, no more points are kept than the peak.
pub fn keeps_within_peak<Y: System>(system: &Y)
    ensures { KeepsWithinPeak Y.Cell }
{}

/// A list of events leads through the items in their order, from the start to the end, and never keeps more points than the peak.
pub fn every_plan_has_a_line<Y: System>(system: &Y)
    ensures { EveryPlanHasALine (Y.meaning system.now) }
{}

/// Where whatever an element reads lies in its item, or in one from which a constraint leads into it, no more cells are left than
/// points are kept.
pub fn cells_are_kept<Y: System>(system: &Y)
    ensures { CellsAreKept (Y.meaning system.now) }
{}

/// In the plan of a digraph's nest the source of an edge lies in its target's item, or a constraint leads from its item to the target.
pub fn edges_lead_from_items()
    ensures { EdgesLeadFromItems }
{}
