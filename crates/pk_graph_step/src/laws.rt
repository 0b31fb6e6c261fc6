// Laws of steps, over their definitions.

ghost use Rattle.pk_graph_step.specs.Laws.{StepsKeepStores};

use pk_ctypes::value_law;

/// A step over a typed instruction, from a store whose numbers lie in the variables' types, leads to such a store.
pub fn step_law()
    ensures { StepsKeepStores }
{
    value_law();
}
