// Laws of the lines of states.

ghost use Rattle.pk_cert_states.specs.Laws.{FactsHaveLines, EveryLineIsSettled};

/// Facts of a graph's layout have a line of its shape, which no other facts have.
pub fn facts_have_lines()
    ensures { FactsHaveLines }
{}

/// Each line is that of a state over a graph's layout, or of none.
pub fn every_line_is_settled()
    ensures { EveryLineIsSettled }
{}
