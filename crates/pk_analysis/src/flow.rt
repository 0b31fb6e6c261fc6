// The equations of a graph.

ghost use Rattle.std.specs.Prelude.{◌≡◌, IfOk, MatchOption, None};
ghost use Rattle.pk_graph.specs.Shown.{graph_view};
ghost use Rattle.pk_phases.specs.Equations.{value_of};
ghost use Rattle.pk_state.specs.Facts.{joined};
ghost use Rattle.pk_state.specs.Layouts.{Layout};
ghost use Rattle.pk_transfer.specs.Transfers.{transferred};
ghost use Rattle.pk_analysis.specs.Arrows.{arrows_at, instr_of, IsArrow};
ghost use Rattle.pk_analysis.specs.Flows.{stated, start_at};

use crate::arrows::Arrow;
use pk_graph::Graph;
use pk_phases::{Cell, Equate, Part};
use pk_state::{Frame, State};
use pk_transfer::{graphs_law, transfer};
use std::alloc::{AllocError, Global};
use std::marker::Model;
use std::sync::Arc;

/// The equations of a graph, with what is read of it often.
#[derive(Drop)]
pub struct Flow<'g> {
    pub(crate) graph: &'g Graph,
    pub(crate) frame: &'g Frame,
    pub(crate) thresholds: Vec<i128>,
    pub(crate) parts: Vec<Part>,
    pub(crate) arrows: Vec<Vec<Arrow>>,
    pub(crate) reads: Vec<Vec<u32>>,
    pub(crate) start: State<'g>,
    pub(crate) delay: u32,
    pub(crate) narrow: u32,
}

impl<'g> Model for Flow<'g> {
    ghost use Rattle.pk_graph.specs.Shown.{graph_view};
    ghost use Rattle.pk_analysis.specs.Arrows.{rows_of};
    ghost use Rattle.pk_analysis.specs.Flows.{Flow};
    ghost use Rattle.pk_analysis.specs.Reading.{IsIndexed};
    ghost use Rattle.pk_graph.specs.contracts.graphs.Graph as made;
    ghost use Rattle.std.specs.Coded.{codes};

    ghost Value = { Flow };

    ghost coded = { Prim.hlevel (codes, made.the_row.coded) };

    ghost view = { λ f. record {
      graph = f.graph.now;
      layout = f.frame.now;
      thresholds = f.thresholds.items;
      parts = f.parts.items;
      delay = f.delay;
      narrow = f.narrow;
    } };

    ghost invariant = { λ f. IsIndexed (graph_view f.graph.now) f.frame.now f.thresholds.items f.parts.items
        (rows_of f.arrows.items) (rows_of f.reads.items) f.start };
}

// What is known after an edge, of what is known before it.
fn passed<'g>(
    alloc: Global,
    flow: &Flow,
    arrow: Arrow,
    state: &State<'g>,
) -> Result<State<'g>, AllocError>
    requires arrow { IsArrow (graph_view flow.now.graph) arrow }
    requires layout { state.now.layout ≡ flow.now.layout }
    ensures { IfOk result (λ s. s ≡ stated flow.now.layout
        (transferred flow.now.layout state.now.facts (instr_of (graph_view flow.now.graph) arrow))) }
{
    graphs_law();
    flow.graph.well_made();
    let edges = flow.graph.edges(arrow.from as usize);
    let passed = transfer(alloc, &edges[arrow.edge].instr, state)?;
    Ok(passed)
}

// The state of a cell, if some run comes there.
fn reached<'c, 'g>(cell: &'c Cell<State<'g>>) -> Option<&'c State<'g>>
    ensures { (l : Layout) → MatchOption result ((value_of (stated l None) cell.now).facts ≡ None)
        (λ s. s.now ≡ value_of (stated l None) cell.now) }
{
    match cell {
        Cell::Value(state) => { if state.is_bottom() { None } else { Some(state) } }
        Cell::Exit(_) => None,
    }
}

// What is known where either is: the other where no run comes to the one.
fn joined_with<'g>(
    alloc: Global,
    state: State<'g>,
    next: State<'g>,
) -> Result<State<'g>, AllocError>
    requires { next.layout ≡ state.layout }
    ensures { IfOk result (λ s. s ≡ stated state.entry.layout (joined state.entry.facts next.entry.facts)) }
{
    if state.is_bottom() {
        Ok(next)
    } else {
        state.join(alloc, &next)
    }
}

// What is known where also an edge leads to that begins at a cell's point: the same where no run comes there.
fn arrive<'g>(
    alloc: Global,
    flow: &Flow,
    arrow: Arrow,
    cell: &Cell<State<'g>>,
    state: State<'g>,
) -> Result<State<'g>, AllocError>
    requires arrow { IsArrow (graph_view flow.now.graph) arrow }
    requires held { (value_of (stated flow.now.layout None) cell.now).layout ≡ flow.now.layout }
    requires layout { state.layout ≡ flow.now.layout }
    ensures { IfOk result (λ s. s ≡ stated flow.now.layout (joined state.entry.facts (transferred flow.now.layout
        (value_of (stated flow.now.layout None) cell.now).facts (instr_of (graph_view flow.now.graph) arrow)))) }
{
    match reached(cell) {
        None => Ok(state),
        Some(before) => {
            let next = passed(alloc, flow, arrow, before)?;
            joined_with(alloc, state, next)
        }
    }
}

// What is known at a point before any edge: the start state at the entry.
fn begun<'g>(alloc: Global, flow: &Flow<'g>, v: u32) -> Result<State<'g>, AllocError>
    ensures { IfOk result (λ s. s ≡ stated flow.now.layout (start_at (graph_view flow.now.graph) flow.now.layout v)) }
{
    if v == 0 {
        flow.start.copy(alloc)
    } else {
        Ok(State::bottom(flow.frame))
    }
}

// The edges that lead to a point.
fn row<'r>(flow: &'r Flow, v: u32) -> &'r [Arrow]
    ensures { result.now ≡ arrows_at (graph_view flow.now.graph) v }
{
    flow.graph.well_made();
    if v as usize >= flow.arrows.len() {
        return &[];
    }
    flow.arrows[v as usize].as_slice()
}

impl<'g> Equate for Flow<'g> {
    ghost use Rattle.pk_analysis.specs.Flows.{equations_of, IsOverFlow};
    ghost use Rattle.pk_analysis.specs.Keeping.{flow_keeps};

    type Value = State<'g>;

    ghost meaning = { λ a. equations_of a };

    ghost held = { λ a e s. IsOverFlow a e s };

    ghost keeps = { λ a. flow_keeps a };

    fn part(&self, e: u32) -> Part {
        match self.parts.get(e as usize) {
            None => Part::Point,
            Some(part) => *part,
        }
    }

    fn reads(&self, e: u32) -> &[u32] {
        self.graph.well_made();
        if e as usize >= self.reads.len() {
            return &[];
        }
        self.reads[e as usize].as_slice()
    }

    fn delay(&self) -> u32 {
        self.delay
    }

    fn narrow(&self) -> u32 {
        self.narrow
    }

    fn bottom(&self, _: Global) -> Result<State<'g>, AllocError> {
        Ok(State::bottom(self.frame))
    }

    fn new_value(
        &self,
        alloc: Global,
        e: u32,
        cells: &[Arc<Cell<State<'g>>>],
    ) -> Result<State<'g>, AllocError> {
        let mut state = begun(alloc, self, e)?;
        let row = row(self, e);
        for i in 0..row.len() {
            state = arrive(alloc, self, row[i], &cells[i], state)?;
        }
        Ok(state)
    }

    fn leq(&self, new: &State<'g>, old: &State<'g>) -> bool {
        new.is_stated();
        old.is_stated();
        new.leq(old)
    }

    fn same(&self, a: &State<'g>, b: &State<'g>) -> bool {
        a.equals(b)
    }

    fn is_unchanged(&self, old: &State<'g>, new: &State<'g>) -> bool {
        old.is_bottom() && new.is_bottom()
    }

    fn joined(
        &self,
        alloc: Global,
        old: &State<'g>,
        new: &State<'g>,
    ) -> Result<State<'g>, AllocError> {
        old.join(alloc, new)
    }

    fn widen(
        &self,
        alloc: Global,
        old: &State<'g>,
        new: &State<'g>,
    ) -> Result<State<'g>, AllocError> {
        old.widen(alloc, new, &self.thresholds)
    }

    fn narrowed(
        &self,
        alloc: Global,
        old: &State<'g>,
        new: &State<'g>,
    ) -> Result<State<'g>, AllocError> {
        old.narrow(alloc, new)
    }
}
