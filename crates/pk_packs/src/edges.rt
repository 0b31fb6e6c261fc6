// Marks of the variables that are asked for on edges of a pack.

ghost use Rattle.std.specs.Prelude.{◌≡◌, ◌<◌, ◌&&◌, not, map, All};
ghost use Rattle.std.specs.List.{list_any};
ghost use Rattle.pk_graph.specs.Graphs.{EdgeOf, edge_view};
ghost use Rattle.pk_graph.specs.OctagonVariables.{is_asked_by, AreMarked};
ghost use Rattle.pk_plan.specs.Plans.{is_inside};
ghost use Rattle.pk_packs.specs.Belongs.{lies_in_none};
ghost use Rattle.pk_packs.specs.Ends.{AreEnds};

use crate::ends::are_in_one;
use crate::marks::mark_taken;
use pk_graph::Edge;
use pk_plan::{Component, Plan};

/// Marks those of a member's edges that lead to a member.
pub fn mark_inside(marks: &mut [bool], edges: &[Edge], plan: &Plan, component: &Component)
    requires { All (λ (e : EdgeOf). e.to < plan.now.elements) (map edge_view edges.now) }
    ensures { AreMarked (λ x. list_any
        (λ (e : EdgeOf). is_inside plan.now component.now e.to && is_asked_by x e.instr)
        (map edge_view edges.now)) marks.old marks.new }
{
    plan.axioms();
    for number in 0..edges.len() {
        let leads_inside = plan.holds(component, edges[number].to as u32);
        mark_taken(marks, &edges[number], leads_inside);
    }
}

/// Marks those of a point's edges that lie in no component.
pub fn mark_outside(marks: &mut [bool], edges: &[Edge], plan: &Plan, ends: &[u32], from: u32)
    requires to { All (λ (e : EdgeOf). e.to < plan.now.elements) (map edge_view edges.now) }
    requires from { from < plan.now.elements }
    requires ends { AreEnds plan.now ends.now }
    ensures { AreMarked (λ x. list_any
        (λ (e : EdgeOf). lies_in_none plan.now from e && is_asked_by x e.instr)
        (map edge_view edges.now)) marks.old marks.new }
{
    plan.axioms();
    for number in 0..edges.len() {
        let is_outside = !are_in_one(plan, ends, from, edges[number].to as u32);
        mark_taken(marks, &edges[number], is_outside);
    }
}
