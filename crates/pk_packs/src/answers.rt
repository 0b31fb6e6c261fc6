// The packs of a graph's variables.

ghost use Rattle.std.specs.Prelude.{◌≡◌, ◌<◌, ◌≤◌, ◌↔◌, IfOk, length, Contains, Err};
ghost use Rattle.pk_graph.specs.Shown.{graph_view};
ghost use Rattle.pk_packs.specs.Belongs.{lies_in, lies_in_none};
ghost use Rattle.pk_packs.specs.Packs.{variables_over, packs_of, pack_limit, pack_count};

use crate::ends::ends;
use crate::failures::PackError;
use crate::listings::Packs;
use crate::marks::first_marked;
use crate::points::{mark_component, mark_rest};
use pk_graph::Graph;
use pk_octagons::Pack;
use pk_plan::{Component, Plan};
use std::alloc::{AllocError, Global};

// How many packs there may be.
const PACK_LIMIT: usize = 256;

// Pack 0.
fn rest_pack(alloc: Global, graph: &Graph, plan: &Plan, most: usize) -> Result<Pack, AllocError>
    requires { plan.now.points ≡ length (graph_view graph.now).points }
    ensures { IfOk result (λ pack. pack ≡ variables_over (graph_view graph.now) (lies_in_none plan.now) most) }
{
    let ends = ends(alloc, plan)?;
    let variables = graph.variables();
    let mut marks = vec![in alloc; false; variables.len()]?;
    mark_rest(&mut marks, graph, plan, &ends);
    Ok(Pack::new(first_marked(alloc, variables, &marks, most)?))
}

// The pack of a component.
fn component_pack(
    alloc: Global,
    graph: &Graph,
    plan: &Plan,
    component: &Component,
    most: usize,
) -> Result<Pack, AllocError>
    requires points { plan.now.points ≡ length (graph_view graph.now).points }
    requires of { Contains plan.now.components component.now }
    ensures { IfOk result
        (λ pack. pack ≡ variables_over (graph_view graph.now) (lies_in plan.now component.now) most) }
{
    let variables = graph.variables();
    let mut marks = vec![in alloc; false; variables.len()]?;
    mark_component(&mut marks, graph, plan, component);
    Ok(Pack::new(first_marked(alloc, variables, &marks, most)?))
}

/// The packs of a graph's variables by a plan of its digraph, each of at most `most` variables. `Limit` exactly where they would be more than 256.
pub fn packs(alloc: Global, graph: &Graph, plan: &Plan, most: usize) -> Result<Packs, PackError>
    requires { plan.now.points ≡ length (graph_view graph.now).points }
    ensures packs { IfOk result (λ packs. packs ≡ packs_of (graph_view graph.now) plan.now most) }
    ensures few { IfOk result (λ packs. pack_count plan.now ≤ pack_limit) }
    ensures limit { (result ≡ Err PackError.Limit) ↔ (pack_limit < pack_count plan.now) }
{
    let components = plan.components();
    if components.len() >= PACK_LIMIT {
        return Err(PackError::Limit);
    }
    let mut packs = Vec::new(alloc);
    packs.push(rest_pack(alloc, graph, plan, most)?)?;
    for component in components {
        packs.push(component_pack(alloc, graph, plan, component, most)?)?;
    }
    Ok(Packs::new(packs))
}
