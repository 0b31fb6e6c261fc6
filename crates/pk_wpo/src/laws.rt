// Laws of the definitions.

ghost use Rattle.pk_wpo.specs.Same.{PlanIsDetermined};

use pk_plan::Digraph;

/// At most one plan of a digraph is one of a nest, up to the order of its listing.
pub fn plan_is_determined(graph: &Digraph)
    ensures { PlanIsDetermined graph.now }
{}
