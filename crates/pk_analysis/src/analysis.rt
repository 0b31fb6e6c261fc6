// The analysis of a graph, as a system that is iterated.

ghost use Rattle.std.specs.Prelude.{◌≡◌, ◌<◌, ◌≤◌, ◌^◌, IfOk, length, replicate, false};
ghost use Rattle.pk_graph.specs.Graphs.{kinds_of};
ghost use Rattle.pk_graph.specs.Shown.{graph_view};
ghost use Rattle.pk_transfer.specs.Graphs.{layout_of, layout_over};
ghost use Rattle.pk_transfer.specs.Trees.{IsOver};
ghost use Rattle.pk_phases.specs.declared.equations.Part.TheVariants.{Point};
ghost use Rattle.pk_analysis.specs.Layouts.{layout_for, HasFewPacks};
ghost use Rattle.pk_analysis.specs.Made.{IsAnalysisOf, IsFlowOf};

use crate::arrows::arrows;
use crate::flow::Flow;
use crate::laws::layouts_law;
use crate::parts::parts;
use crate::reads::reads;
use crate::starts::start;
use pk_graph::Graph;
use pk_iterate::{Decision, System};
use pk_phases::{Cell, Part, Phased};
use pk_plan::Plan;
use pk_state::{Frame, State};
use pk_thresh::thresholds;
use pk_transfer::graphs_law;
use std::alloc::{AllocError, Global};
use std::marker::Model;
use std::sync::Arc;

/// How often a component's head joins before it widens, how often it is narrowed, over how many variables an octagon is at most, and
/// whether there is one for each pack of variables.
#[derive(Clone, Copy)]
pub struct Options {
    pub delay: u32,
    pub narrow: u32,
    pub oct: usize,
    pub packs: bool,
}

/// The equations of a graph's points, iterated by the phases.
#[derive(Drop)]
pub struct Analysis<'g> {
    pub(crate) phased: Phased<Flow<'g>>,
}

impl<'g> Model for Analysis<'g> {
    ghost use Rattle.pk_analysis.specs.Flows.{Flow};
    ghost use Rattle.pk_graph.specs.contracts.graphs.Graph as made;
    ghost use Rattle.std.specs.Coded.{codes};

    ghost Value = { Flow };

    ghost coded = { Prim.hlevel (codes, made.the_row.coded) };

    ghost view = { λ a. a.phased.equations };
}

// The analysis of a graph with these heads and exits, over a layout of its variables.
fn analysed<'g>(
    alloc: Global,
    graph: &'g Graph,
    frame: &'g Frame,
    parts: Vec<Part>,
    options: Options,
) -> Result<Analysis<'g>, AllocError>
    requires points { length (graph_view graph.now).points ≤ length parts.items }
    requires few { length parts.items < 2 ^ 32 }
    requires frame { frame.now ≡ layout_over (graph_view graph.now) frame.now.packs }
    requires over { IsOver (kinds_of (graph_view graph.now)) frame.now }
    ensures { IfOk result (IsFlowOf (graph_view graph.now) parts.items frame.now options) }
{
    let thresholds = thresholds(alloc, graph)?;
    let arrows = arrows(alloc, graph)?;
    let reads = reads(alloc, &arrows, &parts)?;
    let start = start(alloc, graph, frame)?;
    Ok(Analysis {
        phased: Phased {
            equations: Flow {
                graph,
                frame,
                thresholds,
                parts,
                arrows,
                reads,
                start,
                delay: options.delay,
                narrow: options.narrow,
            },
        },
    })
}

impl<'g> Analysis<'g> {
    /// The analysis of a graph by a plan of its digraph, over the frame of its states.
    pub fn new(
        alloc: Global,
        graph: &'g Graph,
        frame: &'g Frame,
        plan: &Plan,
        options: Options,
    ) -> Result<Analysis<'g>, AllocError>
        requires plan { plan.now.points ≡ length (graph_view graph.now).points }
        requires frame { frame.now ≡ layout_for (graph_view graph.now) plan.now options }
        requires few { HasFewPacks plan.now options }
        ensures { IfOk result (IsAnalysisOf (graph_view graph.now) plan.now options) }
    {
        layouts_law();
        plan.axioms();
        let parts = parts(alloc, plan)?;
        analysed(alloc, graph, frame, parts, options)
    }

    /// The equations of a graph's points alone: no element is a head or an exit, so a run of a point gives what its
    /// equation gives. There is one octagon.
    pub fn of_points(
        alloc: Global,
        graph: &'g Graph,
        frame: &'g Frame,
        oct: usize,
    ) -> Result<Analysis<'g>, AllocError>
        requires frame { frame.now ≡ layout_of (graph_view graph.now) oct }
        ensures { IfOk result (IsFlowOf (graph_view graph.now) (replicate (length (graph_view graph.now).points) Point)
            (layout_of (graph_view graph.now) oct) (record { delay = 0; narrow = 0; oct = oct; packs = false })) }
    {
        graphs_law();
        graph.well_made();
        let parts = vec![in alloc; Part::Point; graph.points()]?;
        analysed(
            alloc,
            graph,
            frame,
            parts,
            Options {
                delay: 0,
                narrow: 0,
                oct,
                packs: false,
            },
        )
    }
}

impl<'g> System for Analysis<'g> {
    ghost use Rattle.pk_phases.specs.Equations.{behaviour_of, may_hold_of};
    ghost use Rattle.pk_phases.specs.EquationsHeld.{equations_hold};
    ghost use Rattle.pk_analysis.specs.Flows.{equations_of, IsOverFlow};
    ghost use Rattle.pk_analysis.specs.Keeping.{flow_keeps};

    type Cell = Cell<State<'g>>;

    ghost meaning = { λ a. behaviour_of (equations_of a) };

    ghost may_hold = { λ a. may_hold_of (equations_of a) (IsOverFlow a) };

    ghost first_held = { λ a e. (equations_hold (equations_of a) (IsOverFlow a) (flow_keeps a)).first e };

    ghost apply_held = { λ a e cells h.
        (equations_hold (equations_of a) (IsOverFlow a) (flow_keeps a)).apply e cells h };

    ghost decide_held = { λ a x cells h.
        (equations_hold (equations_of a) (IsOverFlow a) (flow_keeps a)).decide x cells h };

    fn reads(&self, e: u32) -> &[u32] {
        self.phased.reads(e)
    }

    fn first(&self, alloc: Global, e: u32) -> Result<Cell<State<'g>>, AllocError> {
        self.phased.first(alloc, e)
    }

    fn apply(
        &self,
        alloc: Global,
        e: u32,
        inputs: &[Arc<Cell<State<'g>>>],
    ) -> Result<Cell<State<'g>>, AllocError> {
        self.phased.apply(alloc, e, inputs)
    }

    fn decide(
        &self,
        alloc: Global,
        x: u32,
        inputs: &[Arc<Cell<State<'g>>>],
    ) -> Result<Decision<Cell<State<'g>>>, AllocError> {
        self.phased.decide(alloc, x, inputs)
    }

    fn is_unchanged(&self, e: u32, old: &Cell<State<'g>>, new: &Cell<State<'g>>) -> bool {
        self.phased.is_unchanged(e, old, new)
    }
}
