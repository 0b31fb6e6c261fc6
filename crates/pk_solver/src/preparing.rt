// What the iteration over a graph begins with: its plan, the frame of its states, and its equations.

ghost use Rattle.std.specs.Prelude.{◌≡◌, ◌≤◌, IfOk, IfErr, length};
ghost use Rattle.pk_graph.specs.Shown.{graph_view};
ghost use Rattle.pk_graph.specs.WellMade.{IsGraph};
ghost use Rattle.pk_plan.specs.Order.{Level};
ghost use Rattle.pk_order.specs.Ordered.{IsOrdered};
ghost use Rattle.pk_analysis.specs.Digraphs.{digraph_of};
ghost use Rattle.pk_analysis_laws.specs.Systems.{IsSystem};
ghost use Rattle.pk_solver.specs.Bounds.{AreInRange, most_elements, most_points};
ghost use Rattle.pk_solver.specs.Prepared.{IsPrepared};
ghost use Rattle.pk_solver.specs.Solved.{IsCause};

use crate::solving::{IterationOptions, SolverError};
use pk_analysis::{Analysis, Options, digraph, frame_for};
use pk_graph::Graph;
use pk_order::planned;
use pk_order_laws::every_plan_has_a_linear_order;
use pk_packs::PackError;
use pk_plan::Plan;
use pk_state::Frame;
use std::alloc::{AllocError, Global};

// The plan of a graph, of which there is a linear order.
fn plan_of(alloc: Global, graph: &Graph) -> Result<Plan, AllocError>
    requires few { length (graph_view graph.now).points ≤ most_points }
    ensures ordered { IfOk result
        (λ plan. (order : Level) × IsOrdered (digraph_of (graph_view graph.now)) plan order) }
    ensures few { IfOk result (λ plan. plan.elements ≤ most_elements) }
{
    every_plan_has_a_linear_order();
    graph.well_made();
    let points = digraph(alloc, graph)?;
    let plan = planned(alloc, &points)?;
    Ok(plan)
}

/// The plan of a graph, and the frame of its states.
pub fn prepare(
    alloc: Global,
    graph: &Graph,
    options: &IterationOptions,
) -> Result<(Plan, Frame), SolverError>
    requires few { length (graph_view graph.now).points ≤ most_points }
    requires range { AreInRange options.now }
    ensures ok { IfOk result (λ r. IsPrepared (graph_view graph.now) options.now.analysis r.0 r.1) }
    ensures err { IfErr result (IsCause (graph_view graph.now) options.now.analysis options.now.max_runs) }
{
    let plan = plan_of(alloc, graph)?;
    match frame_for(alloc, graph, &plan, options.analysis) {
        Ok(frame) => Ok((plan, frame)),
        Err(PackError::Limit) => Err(SolverError::PackLimit),
        Err(PackError::Memory) => Err(SolverError::Memory),
    }
}

/// The equations of a graph, with the heads and exits of its plan.
pub fn analysis_of<'f>(
    alloc: Global,
    graph: &'f Graph,
    frame: &'f Frame,
    plan: &Plan,
    options: Options,
) -> Result<Analysis<'f>, AllocError>
    requires prepared { IsPrepared (graph_view graph.now) options plan.now frame.now }
    ensures graph { IfOk result (λ analysis. graph_view analysis.graph ≡ graph_view graph.now) }
    ensures made { IfOk result (λ analysis. IsGraph (graph_view analysis.graph)) }
    ensures layout { IfOk result (λ analysis. analysis.layout ≡ frame.now) }
    ensures system { IfOk result (λ analysis. (order : Level)
        × IsSystem (graph_view analysis.graph) options plan.now order analysis) }
{
    graph.well_made();
    let analysis = Analysis::new(alloc, graph, frame, plan, options)?;
    Ok(analysis)
}
