// Laws of certificates and of their checks.

ghost use Rattle.pk_cert_report.specs.Causes.{OneCause};
ghost use Rattle.pk_cert_report.specs.Laws.{OneAnswerOfChecks, OneCertificate};

use pk_cert::{first_wrong_is_one, heads_are_told};
use pk_cert_cells::one_reading;
use pk_cert_check::one_check;
use pk_solver::{raw_cells_are_determined, states_are_determined};
use pk_text_graph::{graph_is_determined, graphs_are_well_made};
use pk_transfer::graphs_law;

/// A text that has no graph, or isn't analysed, has one cause of it.
pub fn one_cause()
    ensures { OneCause }
{
    graph_is_determined();
    states_are_determined();
}

/// A text has at most one certificate, or one cause why it has none, and not both.
pub fn one_certificate()
    ensures { OneCertificate }
{
    graph_is_determined();
    raw_cells_are_determined();
    states_are_determined();
}

/// A check of bytes tells one thing, or there is one cause why it tells nothing, and not both.
pub fn one_answer_of_checks()
    ensures { OneAnswerOfChecks }
{
    graph_is_determined();
    graphs_are_well_made();
    graphs_law();
    heads_are_told();
    first_wrong_is_one();
    one_reading();
    one_check();
}
