// What an iteration ends with.

ghost use Rattle.std.specs.Prelude.{◌≡◌, ◌<◌, length, map, slice_get, slice_index, Some};
ghost use Rattle.std.specs.Arc.{arc_value};

use crate::front::Front;
use std::marker::Model;
use std::sync::Arc;

/// Each element's cell, and how often it was run.
#[derive(Drop)]
pub struct Cells<C> {
    cells: Vec<Arc<C>>,
    runs: Vec<u64>,
}

impl<C> Model for Cells<C> {
    ghost use Rattle.std.specs.Prelude.{map};
    ghost use Rattle.std.specs.Arc.{arc_value};
    ghost use Rattle.pk_iterate.specs.Outcome.{Outcome};

    ghost Value = { Outcome C };

    ghost view = { λ s. record { cells = map arc_value s.cells.items; runs = s.runs.items } };
}

impl<C> Cells<C> {
    /// What the iteration left.
    pub(crate) fn new(front: Front<C>) -> Self
        ensures cells { result.cells ≡ map arc_value front.cells.items }
        ensures runs { result.runs ≡ front.runs.items }
    {
        let Front {
            cells,
            runs,
            times: _,
        } = front;
        Cells { cells, runs }
    }

    /// These cells and numbers of runs, one for each element.
    pub fn of(cells: Vec<Arc<C>>, runs: Vec<u64>) -> Self
        ensures cells { result.cells ≡ map arc_value cells.items }
        ensures runs { result.runs ≡ runs.items }
    {
        Cells { cells, runs }
    }

    /// The cell of an element.
    pub fn cell(&self, e: u32) -> &Arc<C>
        requires { e < length self.now.cells }
        ensures { slice_get self.now.cells e ≡ Some (arc_value result.now) }
    {
        &self.cells[e as usize]
    }

    /// How often an element was run.
    pub fn run(&self, e: u32) -> u64
        requires { e < length self.now.runs }
        ensures { result ≡ slice_index self.now.runs e }
    {
        self.runs[e as usize]
    }
}
