// Laws of existence, over the definitions.

ghost use Rattle.pk_order_laws.specs.Nests.{EveryDigraphHasANest};
ghost use Rattle.pk_order_laws.specs.Plans.{EveryNestHasAPlan};
ghost use Rattle.pk_order_laws.specs.Digraphs.{EveryDigraphHasAnOrder};
ghost use Rattle.pk_order_laws.specs.Orders.{EveryPlanHasALinearOrder};

/// Every digraph has a nest of its vertices.
pub fn every_digraph_has_a_nest()
    ensures { EveryDigraphHasANest }
{}

/// Every nest of a closed digraph with fewer than 2^31 vertices has a plan.
pub fn every_nest_has_a_plan()
    ensures { EveryNestHasAPlan }
{}

/// Every plan that meets the axioms has a linear order.
pub fn every_plan_has_a_linear_order()
    ensures { EveryPlanHasALinearOrder }
{}

/// Every closed digraph with fewer than 2^31 vertices has an order.
pub fn every_digraph_has_an_order()
    ensures { EveryDigraphHasAnOrder }
{}
