// Laws of what the iteration leaves.

ghost use Rattle.pk_solver.specs.Solved.{RawCellsAreDetermined, StatesAreDetermined};

use pk_order::order_is_determined;

/// A graph has one plan's heads and elements and one list of states, or some element is run too often, and not both.
pub fn states_are_determined()
    ensures { StatesAreDetermined }
{
    order_is_determined();
}

/// A graph has one list of raw cells, and its states are those of the points, reduced; or some element is run too often, and not both.
pub fn raw_cells_are_determined()
    ensures { RawCellsAreDetermined }
{
    order_is_determined();
}
