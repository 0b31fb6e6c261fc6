// How a component is gone through again.

ghost use Rattle.std.specs.Prelude.{◌≡◌, ◌-◌, ◌^◌, ◌<◌, IsTrue, Contains, Some, length, map, slice_get};
ghost use Rattle.std.specs.Arc.{arc_value};
ghost use Rattle.pk_core.specs.declared.entries.Entry.{Entry};
ghost use Rattle.pk_plan.specs.Plans.{members_of};
ghost use Rattle.pk_core.specs.Entries.{standing_of, armed, rearmed, restarted};

use crate::entries::{Entry, run, set_status};
use crate::events::Status;
use pk_plan::{Component, Plan};
use std::sync::Arc;

/// The status of a member of a component that is gone through again.
fn armed(plan: &Plan, component: &Component, e: u32) -> Status
    requires { e < plan.now.elements }
    ensures { result ≡ armed plan.now component.now e }
{
    if e == component.head {
        Status::Held
    } else {
        Status::Waiting(plan.inner(component, e))
    }
}

/// The members of a component wait for one another again, but its head is held.
fn rearm<C: Drop>(entries: &mut [Entry<C>], plan: &Plan, component: &Component)
    requires long { length entries.old ≡ plan.now.elements }
    requires component { Contains plan.now.components component.now }
    ensures { map standing_of entries.new
        ≡ rearmed plan.now component.now (members_of plan.now component.now) (map standing_of entries.old) }
{
    plan.axioms();
    for e in plan.members(component) {
        set_status(entries, *e, armed(plan, component, *e));
    }
}

/// The run of a component's exit after which the component is gone through again.
pub fn restart<C: Drop>(entries: &mut [Entry<C>], plan: &Plan, component: &Component, cell: Arc<C>)
    requires long { length entries.old ≡ plan.now.elements }
    requires component { Contains plan.now.components component.now }
    requires room { (x : Entry C) → slice_get entries.old component.now.exit ≡ Some x → x.run < 2 ^ 64 - 1 }
    ensures { map standing_of entries.new
        ≡ restarted plan.now component.now (arc_value cell) (map standing_of entries.old) }
{
    plan.axioms();
    let inner = plan.inner(component, component.exit);
    run(entries, component.exit, Status::Waiting(inner), cell);
    rearm(entries, plan, component);
}
