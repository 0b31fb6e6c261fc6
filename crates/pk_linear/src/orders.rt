// The linear order of a plan.

ghost use Rattle.std.specs.Prelude.{◌≡◌, IfOk};
ghost use Rattle.pk_plan.specs.Linear.{IsLinear, GoesForward};

use crate::progress::Progress;
use pk_plan::{Order, Plan};
use std::alloc::{AllocError, Global};

/// The linear order of a plan: at each level, and in each component after its head, the least ready item comes next. An item is
/// a vertex or a component, and is ready when all that constrains it from elsewhere at the level was placed.
pub fn linear(alloc: Global, plan: &Plan) -> Result<Order, AllocError>
    ensures elements { IfOk result (λ o. o.elements ≡ plan.now.elements) }
    ensures linear { IfOk result (λ o. IsLinear plan.now o.order) }
    ensures forward { IfOk result (λ o. GoesForward plan.now o.order) }
{
    plan.axioms();
    let mut progress = Progress::start(alloc, plan)?;
    for item in 0..plan.elements() {
        progress.look_at(plan, item)?;
    }
    while let Some(element) = progress.ready.pop_first() {
        progress.place(alloc, plan, element)?;
    }
    Ok(Order::new(plan.elements(), progress.places))
}
