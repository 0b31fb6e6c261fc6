// Laws of the analysis.

ghost use Rattle.pk_analysis.specs.Layouts.{LayoutsAreOver};

/// The layout of a graph by a plan is one, over the table of the graph's variables.
pub fn layouts_law()
    ensures { LayoutsAreOver }
{}
