// Laws of reports on graphs of units.

ghost use Rattle.pk_read_back_laws.specs.Laws.{VerdictsAreTellable, GraphReportsAreReadBack, ReportsAreReadBack};

use pk_lower_laws::drafts_are_typed;
use pk_show_laws::reports_give_their_rows;

/// The bounds of an unknown verdict are within what is read back.
pub fn verdicts_are_tellable()
    ensures { VerdictsAreTellable }
{}

/// Every report on a graph whose names, callers and places can be told is read back, and gives its rows.
pub fn graph_reports_are_read_back()
    ensures { GraphReportsAreReadBack }
{
    reports_give_their_rows();
}

/// Every report on the graph of a well-typed unit is read back, where the unit's names are identifiers and its places are in range.
pub fn reports_are_read_back()
    ensures { ReportsAreReadBack }
{
    drafts_are_typed();
    graph_reports_are_read_back();
}
