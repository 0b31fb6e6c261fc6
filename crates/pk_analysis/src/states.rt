// What is known at each point of a graph.

ghost use Rattle.std.specs.Prelude.{◌≡◌, ◌<◌, ◌≤◌, IfOk, length, map, take, All, None, Some, slice_get};
ghost use Rattle.pk_graph.specs.Shown.{graph_view};
ghost use Rattle.pk_phases.specs.Equations.{value_of};
ghost use Rattle.pk_analysis.specs.Flows.{stated, reduced_cell, reduced_over};

use crate::analysis::Analysis;
use pk_iterate::Cells;
use pk_phases::Cell;
use pk_state::{Frame, State};
use std::alloc::{AllocError, Global};
use std::marker::Model;

/// What is known at each point of a graph: the cells of an iteration, each of which is reduced when it is asked for.
#[derive(Drop)]
pub struct States<'g> {
    frame: &'g Frame,
    points: u32,
    cells: Cells<Cell<State<'g>>>,
}

impl<'g> Model for States<'g> {
    ghost use Rattle.std.specs.Prelude.{List, map, take};
    ghost use Rattle.pk_state.specs.Facts.{Stated};
    ghost use Rattle.pk_analysis.specs.Flows.{reduced_over, ArePointCells};

    ghost Value = { List Stated };

    ghost view = { λ s. map (reduced_over s.frame.now) (take s.points s.cells.cells) };

    ghost invariant = { λ s. ArePointCells s.frame.now s.points s.cells.cells };
}

// A cell's state, reduced.
fn reduced_state<'g>(
    alloc: Global,
    frame: &'g Frame,
    cell: &Cell<State<'g>>,
) -> Result<State<'g>, AllocError>
    requires { (value_of (stated frame.now None) cell.now).layout ≡ frame.now }
    ensures { IfOk result (λ s. s ≡ reduced_over frame.now cell.now) }
{
    match cell {
        Cell::Value(state) => state.reduce(alloc),
        Cell::Exit(_) => Ok(State::bottom(frame)),
    }
}

impl<'g> States<'g> {
    /// What is known at the points of an analysis, by the cells of an iteration.
    pub fn of(analysis: &Analysis<'g>, cells: Cells<Cell<State<'g>>>) -> States<'g>
        requires points { length (graph_view analysis.now.graph).points ≤ length cells.cells }
        requires held { All (λ c. (value_of (stated analysis.now.layout None) c).layout ≡ analysis.now.layout)
            cells.cells }
        ensures { result
            ≡ map (reduced_cell analysis.now) (take (length (graph_view analysis.now.graph).points) cells.entry.cells) }
    {
        let flow = &analysis.phased.equations;
        flow.graph.well_made();
        States {
            frame: flow.frame,
            points: flow.graph.points() as u32,
            cells,
        }
    }

    /// How many points there are.
    pub fn len(&self) -> usize
        ensures { result ≡ length self.now }
    {
        self.points as usize
    }

    /// What is known at a point.
    pub fn state(&self, alloc: Global, point: usize) -> Result<State<'g>, AllocError>
        requires { point < length self.now }
        ensures { IfOk result (λ s. slice_get self.now point ≡ Some s) }
    {
        let cell = self.cells.cell(point as u32);
        let state = reduced_state(alloc, self.frame, cell)?;
        Ok(state)
    }
}
