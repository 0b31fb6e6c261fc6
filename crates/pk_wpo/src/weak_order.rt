// The plan of a digraph.

ghost use Rattle.std.specs.Prelude.{◌<◌, ◌^◌, IfOk, length};
ghost use Rattle.pk_plan.specs.Digraphs.{IsVertex};
ghost use Rattle.pk_plan.specs.Nests.{IsNest};
ghost use Rattle.pk_wpo.specs.Made.{IsPlanOf, Fits};

use crate::constraints::{add_end_constraints, add_head_constraints, edge_constraints};
use crate::layout::Layout;
use pk_plan::{Digraph, Nest, Plan, reversed};
use std::alloc::{AllocError, Global};

/// The plan of a digraph, by its nest.
pub fn plan(alloc: Global, nest: &Nest, graph: &Digraph) -> Result<Plan, AllocError>
    requires few { length graph.now < 2 ^ 31 }
    requires nest { IsNest graph.now (IsVertex graph.now) nest.now }
    ensures plan { IfOk result (IsPlanOf graph.now nest.now) }
    ensures fits { IfOk result (Fits graph.now) }
{
    graph.closed();
    let layout = Layout::new(alloc, graph, nest)?;
    layout.laid();
    let end = layout.end();
    let mut constraints = edge_constraints(alloc, &layout)?;
    add_head_constraints(alloc, &layout, &mut constraints)?;
    add_end_constraints(&mut constraints, end)?;
    let predecessors = reversed(alloc, &constraints)?;
    let successors = reversed(alloc, &predecessors)?;
    let components = layout.components(alloc)?;
    let (listing, places) = layout.into_lists();
    Ok(Plan::new(
        graph.vertices(),
        end + 1,
        predecessors,
        successors,
        listing,
        places,
        components,
    ))
}
