// How many members of a component constrain one of them, or its exit: all that constrain it, where none of these stands before
// the component.

ghost use Rattle.std.specs.Prelude.{◌≡◌, ◌<◌, ◌⊎◌, IfOk, Contains};
ghost use Rattle.pk_plan.specs.Plans.{Inside, inner_count};
ghost use Rattle.pk_board.specs.Earliest.{AreEarliest, earliest_of};

use pk_plan::{Component, Plan};
use std::alloc::{AllocError, Global};
use std::marker::Model;

/// For each element of a plan, the earliest place in the listing among the elements that constrain it.
#[derive(Drop)]
pub struct Earliest {
    places: Vec<u32>,
}

impl Model for Earliest {
    ghost use Rattle.std.specs.Prelude.{ℕ, List};

    ghost Value = { List ℕ };

    ghost view = { λ e. e.places.items };
}

/// The earliest place among the elements that constrain this one, and the number of elements where there are none.
fn earliest_place(plan: &Plan, e: u32) -> u32
    requires { e < plan.now.elements }
    ensures { result ≡ earliest_of plan.now e }
{
    plan.axioms();
    let mut least = plan.elements();
    for a in plan.predecessors(e) {
        least = least.min(plan.place(*a));
    }
    least
}

impl Earliest {
    /// The earliest places of a plan, in time linear in its constraints.
    pub fn of(alloc: Global, plan: &Plan) -> Result<Earliest, AllocError>
        ensures { IfOk result (AreEarliest plan.now) }
    {
        let mut places = Vec::with_capacity(alloc, plan.elements() as usize)?;
        for e in 0..plan.elements() {
            places.push(earliest_place(plan, e))?;
        }
        Ok(Earliest { places })
    }

    /// How many members of a component constrain one of them, or its exit. Those of a component that is entered elsewhere than at
    /// its head are counted.
    pub fn inner(&self, plan: &Plan, component: &Component, e: u32) -> u32
        requires earliest { AreEarliest plan.now self.now }
        requires component { Contains plan.now.components component.now }
        requires element { e < plan.now.elements }
        requires within { Inside plan.now component.now e ⊎ (e ≡ component.now.exit) }
        ensures { result ≡ inner_count plan.now component.now e }
    {
        plan.axioms();
        if component.first <= self.places[e as usize] {
            plan.full(e)
        } else {
            plan.inner(component, e)
        }
    }
}
