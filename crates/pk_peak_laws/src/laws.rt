// Laws over the definitions of orders, of what is kept, and of analyses.

ghost use Rattle.pk_peak_laws.specs.Lines.{EveryOrderHasALine, AnalysesKeepWithinPeak};

use pk_iterate::System;

/// Over the order of a digraph a list of events leads through the items in their order, and never keeps more points than the peak.
pub fn every_order_has_a_line<Y: System>(system: &Y)
    ensures { EveryOrderHasALine (Y.meaning system.now) }
{}

/// So it is of every analysis, and no more cells are left than the peak.
pub fn analyses_keep_within_peak()
    ensures { AnalysesKeepWithinPeak }
{}
