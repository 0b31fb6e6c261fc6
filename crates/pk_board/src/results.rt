// The room for what a board ends with: the end takes no memory.

ghost use Rattle.std.specs.Prelude.{◌≡◌, ◌<◌, ◌++◌, ◌∷◌, [], IfOk, length};
ghost use Rattle.std.specs.Arc.{arc_value};

use pk_iterate::Cells;
use std::alloc::{AllocError, Global};
use std::marker::Model;
use std::sync::Arc;

/// Cells with their run numbers, and room for more.
#[derive(Drop)]
pub struct Results<C: Drop> {
    cells: Vec<Arc<C>>,
    runs: Vec<u64>,
    room: u32,
}

impl<C: Drop> Model for Results<C> {
    ghost use Rattle.std.specs.Prelude.{◌≡◌, ◌≤◌, length, map, vec_capacity};
    ghost use Rattle.std.specs.Arc.{arc_value};
    ghost use Rattle.pk_board.specs.Results.{ResultsView};

    ghost Value = { ResultsView C };

    ghost view = { λ r. record { cells = map arc_value r.cells.items; runs = r.runs.items; room = r.room } };

    ghost invariant = { λ r. (length r.runs.items ≡ length r.cells.items) × (r.room ≤ vec_capacity r.cells)
        × (r.room ≤ vec_capacity r.runs) };
}

/// Room for so many.
pub fn reserved<C: Drop>(alloc: Global, room: u32) -> Result<Results<C>, AllocError>
    ensures { IfOk result (λ r. r ≡ record { cells = []; runs = []; room = room }) }
{
    let cells = Vec::with_capacity(alloc, room as usize)?;
    let runs = Vec::with_capacity(alloc, room as usize)?;
    Ok(Results { cells, runs, room })
}

impl<C: Drop> Results<C> {
    /// One cell more, with its run number.
    pub fn add(&mut self, cell: Arc<C>, run: u64)
        requires { length self.old.cells < self.old.room }
        ensures { self.new ≡ record {
          cells = self.old.cells ++ arc_value cell ∷ [];
          runs = self.old.runs ++ run ∷ [];
          room = self.old.room;
        } }
    {
        self.cells.push_reserved(cell);
        self.runs.push_reserved(run);
    }

    /// All of them.
    pub fn into_cells(self) -> Cells<C>
        ensures cells { result.cells ≡ self.cells }
        ensures runs { result.runs ≡ self.runs }
    {
        let Results {
            cells,
            runs,
            room: _,
        } = self;
        Cells::of(cells, runs)
    }
}
