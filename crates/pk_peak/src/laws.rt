// Laws of the peak.

ghost use Rattle.pk_peak.specs.Texts.{OrderLinesAreDetermined};

use pk_order::order_is_determined;

/// A digraph has one order with one peak, and so its lines.
pub fn order_lines_are_determined()
    ensures { OrderLinesAreDetermined }
{
    order_is_determined();
}
