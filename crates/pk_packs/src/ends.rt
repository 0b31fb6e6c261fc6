// How far the components reach that begin at a place of a plan's listing or before.

ghost use Rattle.std.specs.Prelude.{◌≡◌, ◌<◌, ◌&&◌, IfOk};
ghost use Rattle.std.specs.List.{list_any};
ghost use Rattle.pk_plan.specs.declared.components.Component.{Component as OneComponent};
ghost use Rattle.pk_plan.specs.Plans.{is_inside};
ghost use Rattle.pk_packs.specs.Ends.{AreOwnEnds, AreEnds};

use pk_plan::Plan;
use std::alloc::{AllocError, Global};

// The furthest end of the components that begin at each place, 0 where none does.
fn own_ends(alloc: Global, plan: &Plan) -> Result<Vec<u32>, AllocError>
    ensures { IfOk result (λ ends. AreOwnEnds plan.now ends.items) }
{
    plan.axioms();
    let mut ends = vec![in alloc; 0u32; plan.elements() as usize]?;
    let components = plan.components();
    for number in 0..components.len() {
        let first = components[number].first as usize;
        ends[first] = ends[first].max(components[number].end);
    }
    Ok(ends)
}

/// The furthest end of the components that begin at each place or before, 0 where none does.
pub fn ends(alloc: Global, plan: &Plan) -> Result<Vec<u32>, AllocError>
    ensures { IfOk result (λ ends. AreEnds plan.now ends.items) }
{
    let own = own_ends(alloc, plan)?;
    let mut ends = Vec::new(alloc);
    let mut furthest = 0u32;
    for end in &own {
        furthest = furthest.max(*end);
        ends.push(furthest)?;
    }
    Ok(ends)
}

/// Whether a component holds both elements.
pub fn are_in_one(plan: &Plan, ends: &[u32], one: u32, other: u32) -> bool
    requires ends { AreEnds plan.now ends.now }
    requires one { one < plan.now.elements }
    requires other { other < plan.now.elements }
    ensures { result ≡ list_any (λ (c : OneComponent). is_inside plan.now c one && is_inside plan.now c other)
        plan.now.components }
{
    plan.axioms();
    let place = plan.place(one);
    let other_place = plan.place(other);
    place.max(other_place) < ends[place.min(other_place) as usize]
}
