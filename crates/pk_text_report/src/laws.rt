// Laws of the answer.

ghost use Rattle.pk_text_report.specs.Answers.{MeansTellNothing, OneAnswer};

use pk_cert_report::{one_answer_of_checks, one_cause, one_certificate};
use pk_command::one_command;
use pk_graph_report::one_report;
use pk_text_graph::graph_is_determined;

/// Words and a text have at most one answer.
pub fn answer_law()
    ensures { OneAnswer }
{
    one_command();
    graph_is_determined();
    one_report();
    one_cause();
    one_certificate();
    one_answer_of_checks();
}

/// Words that differ in the number of workers and in whether cells are let go of have the same answers.
pub fn means_law()
    ensures { MeansTellNothing }
{
    one_command();
}
