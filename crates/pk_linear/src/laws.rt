// What the definition of the linear order comes to.

ghost use Rattle.pk_plan.specs.Linear.{LinearIsDetermined};

use pk_plan::Plan;

/// At most one order of a plan is linear.
pub fn linear_is_determined(plan: &Plan)
    ensures { LinearIsDetermined plan.now }
{
    plan.axioms();
}
