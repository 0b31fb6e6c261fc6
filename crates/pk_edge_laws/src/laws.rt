// Laws of edges.

ghost use Rattle.pk_edge_laws.specs.Edges.{ExpressionsStay, StatementsStay, LoopsAreEntered};

/// The edges of an expression stay among new points, the current one, and the ends of a choice.
pub fn expressions_stay<V>()
    ensures { ExpressionsStay V }
{}

/// The edges of a statement in which nothing is jumped to stay among new points, the current one, and the exits.
pub fn statements_stay<V>()
    ensures { StatementsStay V }
{}

/// Of what the lowering of a loop adds, in which no case or default of a switch around it stands, edges lead into its points where it begins again alone.
pub fn loops_are_entered<V>()
    ensures { LoopsAreEntered V }
{}
