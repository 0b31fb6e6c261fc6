// Laws of what is told of a graph.

ghost use Rattle.pk_graph_report.specs.Reported.{OneReport};

use pk_peak::order_lines_are_determined;
use pk_solver::states_are_determined;

/// A graph has at most one report, one summary and one order with its peak, and a report only where no element is run too
/// often and there aren't too many packs.
pub fn one_report()
    ensures { OneReport }
{
    states_are_determined();
    order_lines_are_determined();
}
