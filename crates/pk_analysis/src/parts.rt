// What the elements of a plan are.

ghost use Rattle.std.specs.Prelude.{◌≡◌, IfOk};
ghost use Rattle.pk_analysis.specs.Parts.{AreParts};

use pk_phases::Part;
use pk_plan::Plan;
use std::alloc::{AllocError, Global};

/// For each element whether it is a point, a head or an exit.
pub fn parts(alloc: Global, plan: &Plan) -> Result<Vec<Part>, AllocError>
    ensures { IfOk result (λ parts. AreParts plan.now parts.items) }
{
    plan.axioms();
    let components = plan.components();
    let mut parts = vec![in alloc; Part::Point; plan.elements() as usize]?;
    let mut at = components.len();
    while at > 0 {
        at -= 1;
        let component = components[at];
        parts[component.exit as usize] = Part::ExitOf(component.head);
        parts[component.head as usize] = Part::HeadOf(component.exit);
    }
    Ok(parts)
}
