// Laws over the definitions of plans, orders, systems and the scheduler's core.

ghost use Rattle.pk_analysis_fits.specs.Orders.{LinearOrdersAreOrders, EveryDigraphIsScheduled};
ghost use Rattle.pk_analysis_fits.specs.Systems.{EveryOrderKeeps, EndsAsIterated};
ghost use Rattle.pk_analysis_fits.specs.Analyses.{AnalysesFit, AnalysesKeep};

use pk_iterate::System;

/// The linear order of a plan is an order of it, element by element.
pub fn linear_orders_are_orders()
    ensures { LinearOrdersAreOrders }
{}

/// Every closed digraph with fewer than 2^31 vertices has a plan and an order of it.
pub fn every_digraph_is_scheduled()
    ensures { EveryDigraphIsScheduled }
{}

/// In the order of a digraph every list of events of a system that fits keeps to the recursion.
pub fn every_order_keeps<Y: System>(system: &Y)
    ensures { EveryOrderKeeps (Y.meaning system.now) }
{}

/// Once END is done the cells and the numbers of runs are those of the iteration.
pub fn ends_as_iterated<Y: System>(system: &Y)
    ensures { EndsAsIterated (Y.meaning system.now) }
{}

/// The analysis of a graph fits the plan of the graph's digraph.
pub fn analyses_fit()
    ensures { AnalysesFit }
{}

/// So every list of events of an analysis keeps to its recursion, and ends with its result.
pub fn analyses_keep()
    ensures { AnalysesKeep }
{}
