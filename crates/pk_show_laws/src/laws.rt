// Laws of reports as they are written and read.

ghost use Rattle.pk_show_laws.specs.Laws.{ReportsGiveTheirRows, GraphsAreTellable, FactsAreTellable, FirstWrongIsFirst};

use pk_show::{lines_are_read, reports_are_read};

/// A report that is written of a graph is read, and gives its rows: each head, point, variable, relation and access as it
/// is told, and the counts.
pub fn reports_give_their_rows()
    ensures { ReportsGiveTheirRows }
{
    lines_are_read();
    reports_are_read();
}

/// A graph that is well made can be told, where its names are identifiers, its callers come first and its places are in
/// range.
pub fn graphs_are_tellable()
    ensures { GraphsAreTellable }
{}

/// What is known at a point of a graph can be told: its numbers are in range.
pub fn facts_are_tellable()
    ensures { FactsAreTellable }
{}

/// Some report begins with the lines before the first wrong one of a text, and none with that line too.
pub fn first_wrong_is_first()
    ensures { FirstWrongIsFirst }
{
    lines_are_read();
}
