// The frame of an analysis.

ghost use Rattle.std.specs.Prelude.{◌≡◌, ◌<◌, ◌≤◌, ◌^◌, ◌↔◌, IfOk, length, true, Err};
ghost use Rattle.pk_graph.specs.Shown.{graph_view};
ghost use Rattle.pk_transfer.specs.Graphs.{layout_over};
ghost use Rattle.pk_packs.specs.Packs.{packs_of, pack_count, pack_limit};
ghost use Rattle.pk_analysis.specs.Layouts.{layout_for, HasFewPacks};

use crate::analysis::Options;
use pk_graph::Graph;
use pk_packs::{PackError, packs};
use pk_plan::Plan;
use pk_state::Frame;
use pk_transfer::{frame, frame_over};
use std::alloc::Global;

// With an octagon over each pack.
fn packed(alloc: Global, graph: &Graph, plan: &Plan, oct: usize) -> Result<Frame, PackError>
    requires plan { plan.now.points ≡ length (graph_view graph.now).points }
    requires oct { oct < 2 ^ 31 }
    ensures frame { IfOk result
        (λ f. f ≡ layout_over (graph_view graph.now) (packs_of (graph_view graph.now) plan.now oct)) }
    ensures few { IfOk result (λ f. pack_count plan.now ≤ pack_limit) }
    ensures limit { (result ≡ Err PackError.Limit) ↔ (pack_limit < pack_count plan.now) }
{
    let packs = packs(alloc, graph, plan, oct)?;
    Ok(frame_over(alloc, graph, packs.into_packs())?)
}

/// The slots of a graph's variables, with an octagon over each of its packs by a plan, if they are asked for, else with one octagon.
/// `Limit` exactly where they are asked for and would be more than 256.
pub fn frame_for(
    alloc: Global,
    graph: &Graph,
    plan: &Plan,
    options: Options,
) -> Result<Frame, PackError>
    requires plan { plan.now.points ≡ length (graph_view graph.now).points }
    requires oct { options.oct < 2 ^ 31 }
    ensures frame { IfOk result (λ f. f ≡ layout_for (graph_view graph.now) plan.now options) }
    ensures few { IfOk result (λ f. HasFewPacks plan.now options) }
    ensures limit { (result ≡ Err PackError.Limit)
        ↔ ((options.packs ≡ true) × (pack_limit < pack_count plan.now)) }
{
    if options.packs {
        return packed(alloc, graph, plan, options.oct);
    }
    Ok(frame(alloc, graph, options.oct)?)
}
