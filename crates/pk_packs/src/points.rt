// Marks of the variables that are asked for on the edges of a pack.

ghost use Rattle.std.specs.Prelude.{◌≡◌, ◌&&◌, length, Contains};
ghost use Rattle.std.specs.List.{list_any};
ghost use Rattle.pk_graph.specs.Shown.{graph_view};
ghost use Rattle.pk_graph.specs.Graphs.{EdgeOf, point_at};
ghost use Rattle.pk_graph.specs.OctagonVariables.{is_asked_by, is_asked_in, AreMarked};
ghost use Rattle.pk_plan.specs.Plans.{is_inside};
ghost use Rattle.pk_packs.specs.Belongs.{lies_in, lies_in_none};
ghost use Rattle.pk_packs.specs.Packs.{with_edges};
ghost use Rattle.pk_packs.specs.Ends.{AreEnds};

use crate::edges::{mark_inside, mark_outside};
use pk_graph::Graph;
use pk_plan::{Component, Plan};

// Marks those of a member's edges that lead to a member. An exit has no edges.
fn mark_member(marks: &mut [bool], graph: &Graph, plan: &Plan, component: &Component, member: usize)
    requires { plan.now.points ≡ length (graph_view graph.now).points }
    ensures { AreMarked (λ x. list_any
        (λ (e : EdgeOf). is_inside plan.now component.now e.to && is_asked_by x e.instr)
        (point_at (graph_view graph.now) member).edges) marks.old marks.new }
{
    graph.well_made();
    plan.axioms();
    if member < graph.points() {
        let edges = graph.edges(member);
        mark_inside(marks, edges, plan, component);
    }
}

/// Marks those of the edges with both ends in a component, by the component's members.
pub fn mark_component(marks: &mut [bool], graph: &Graph, plan: &Plan, component: &Component)
    requires points { plan.now.points ≡ length (graph_view graph.now).points }
    requires of { Contains plan.now.components component.now }
    ensures { AreMarked
        (λ x. is_asked_in x (with_edges (lies_in plan.now component.now) 0 (graph_view graph.now).points))
        marks.old marks.new }
{
    plan.axioms();
    let members = plan.members(component);
    for number in 0..members.len() {
        mark_member(marks, graph, plan, component, members[number] as usize);
    }
}

/// Marks those of the edges that lie in no component.
pub fn mark_rest(marks: &mut [bool], graph: &Graph, plan: &Plan, ends: &[u32])
    requires points { plan.now.points ≡ length (graph_view graph.now).points }
    requires ends { AreEnds plan.now ends.now }
    ensures { AreMarked
        (λ x. is_asked_in x (with_edges (lies_in_none plan.now) 0 (graph_view graph.now).points))
        marks.old marks.new }
{
    graph.well_made();
    plan.axioms();
    for point in 0..graph.points() {
        let edges = graph.edges(point);
        mark_outside(marks, edges, plan, ends, point as u32);
    }
}
