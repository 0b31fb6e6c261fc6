// The plan of a digraph and its linear order.

ghost use Rattle.std.specs.Prelude.{◌≡◌, ◌+◌, ◌*◌, ◌<◌, ◌≤◌, ◌^◌, All, length, IfOk};
ghost use Rattle.pk_wpo.specs.Made.{Fits};
ghost use Rattle.pk_plan.specs.Linear.{GoesForward};
ghost use Rattle.pk_order.specs.Condition.{IsWeakTopologicalOrder};
ghost use Rattle.pk_order.specs.Ordered.{IsPlanned, IsOrdered, OrderIsDetermined, heads_of};

use pk_linear::linear;
use pk_nest::nest;
use pk_plan::{Digraph, Order, Plan};
use pk_wpo::plan;
use std::alloc::{AllocError, Global};

/// The plan of a digraph.
pub fn planned(alloc: Global, graph: &Digraph) -> Result<Plan, AllocError>
    requires few { length graph.now < 2 ^ 31 }
    ensures planned { IfOk result (IsPlanned graph.now) }
    ensures counted { IfOk result (λ plan. plan.elements ≡ length graph.now + length (heads_of plan) + 1) }
    ensures heads { IfOk result (λ plan. All (λ h. h < length graph.now) (heads_of plan)) }
    ensures few { IfOk result (λ plan. plan.elements ≤ 2 * length graph.now + 1) }
    ensures fits { IfOk result (Fits graph.now) }
{
    let nest = nest(alloc, graph)?;
    let plan = plan(alloc, &nest, graph)?;
    plan.axioms();
    Ok(plan)
}

/// The plan of a digraph and its linear order.
pub fn ordered(alloc: Global, graph: &Digraph) -> Result<(Plan, Order), AllocError>
    requires few { length graph.now < 2 ^ 31 }
    ensures ordered { IfOk result (λ made. IsOrdered graph.now made.0 made.1.order) }
    ensures elements { IfOk result (λ made. made.1.elements ≡ made.0.elements) }
    ensures counted { IfOk result (λ made. made.0.elements ≡ length graph.now + length (heads_of made.0) + 1) }
    ensures heads { IfOk result (λ made. All (λ h. h < length graph.now) (heads_of made.0)) }
    ensures fits { IfOk result (λ made. Fits graph.now made.0) }
    ensures forward { IfOk result (λ made. GoesForward made.0 made.1.order) }
    ensures condition { IfOk result (λ made. IsWeakTopologicalOrder graph.now made.1.order) }
{
    let plan = planned(alloc, graph)?;
    let order = linear(alloc, &plan)?;
    Ok((plan, order))
}

/// A digraph has one order: the heads of its components, the number of its elements and their linear order.
pub fn order_is_determined()
    ensures { OrderIsDetermined }
{}
