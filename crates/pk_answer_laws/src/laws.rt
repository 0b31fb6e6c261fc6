// Laws of existence: reports, orders, replies, answers.

ghost use Rattle.pk_answer_laws.specs.Analyses.{EveryGraphIsOrdered, EveryGraphIsReported, EveryGraphIsSummed};
ghost use Rattle.pk_answer_laws.specs.Limits.{CutOffsAreLow, EnoughIsReported, EnoughIsSummed, EveryGraphHasLimits};
ghost use Rattle.pk_answer_laws.specs.Certificates.{CertificatesAreChecked};
ghost use Rattle.pk_answer_laws.specs.Rooms.{ShortGraphsHaveRoom};
ghost use Rattle.pk_answer_laws.specs.Answers.{ChecksAreAnswered, CommandsAreAnswered, OrdersAreAnswered, ShortGraphsAreAnswered, WordsAreAnswered, WordsForOrdersAreAnswered};

use pk_analysis_laws::limits_are_low;
use pk_cert::every_head_ends;
use pk_cert_cells::every_reading_ends;
use pk_cert_laws::{read_cells_are_checked, results_check_well};
use pk_command::taken_asks;
use pk_order::order_is_determined;
use pk_order_laws::every_digraph_has_an_order;
use pk_solver::raw_cells_are_determined;
use pk_text_graph::graphs_are_well_made;
use pk_text_laws::every_text_ends;
use pk_unit_texts::entries_are_names;

/// Memory has room for every graph with no list as long as 2^63.
pub fn short_graphs_have_room()
    ensures { ShortGraphsHaveRoom }
{}

/// Every graph has an order, and a peak of it.
pub fn every_graph_is_ordered()
    ensures { EveryGraphIsOrdered }
{
    every_digraph_has_an_order();
}

/// Every graph that memory has room for has a report, or too many packs, or some element would be run too often.
pub fn every_graph_is_reported()
    ensures { EveryGraphIsReported }
{
    every_digraph_has_an_order();
}

/// So it has a summary.
pub fn every_graph_is_summed()
    ensures { EveryGraphIsSummed }
{
    every_digraph_has_an_order();
}

/// Where the run limit is enough, it has a report, unless it has too many packs.
pub fn enough_is_reported()
    ensures { EnoughIsReported }
{
    every_graph_is_reported();
    limits_are_low();
}

/// So it has a summary.
pub fn enough_is_summed()
    ensures { EnoughIsSummed }
{
    every_graph_is_summed();
    limits_are_low();
}

/// For every graph some limit is enough, and so is each greater one.
pub fn every_graph_has_limits()
    ensures { EveryGraphHasLimits }
{
    every_digraph_has_an_order();
    order_is_determined();
}

/// So the run limit is told of a text only where it isn't enough for the text's graph.
pub fn cut_offs_are_low()
    ensures { CutOffsAreLow }
{
    limits_are_low();
    graphs_are_well_made();
}

/// An order asked of whatever text has a reply.
pub fn orders_are_answered()
    ensures { OrdersAreAnswered }
{
    every_graph_is_ordered();
    every_text_ends();
    graphs_are_well_made();
}

/// A check of whatever bytes has a reply.
pub fn checks_are_answered()
    ensures { ChecksAreAnswered }
{
    every_text_ends();
    graphs_are_well_made();
    every_head_ends();
    every_reading_ends();
    read_cells_are_checked();
}

/// Each command about a text whose graphs memory has room for has a reply.
pub fn commands_are_answered()
    ensures { CommandsAreAnswered }
{
    orders_are_answered();
    checks_are_answered();
    every_graph_is_reported();
    every_graph_is_summed();
    every_text_ends();
    graphs_are_well_made();
}

/// Words and such a text have an answer.
pub fn words_are_answered()
    ensures { WordsAreAnswered }
{
    commands_are_answered();
    taken_asks();
}

/// Words that ask for an order have an answer, whatever the text.
pub fn words_for_orders_are_answered()
    ensures { WordsForOrdersAreAnswered }
{
    orders_are_answered();
}

/// So have words and a text whose graphs have no list as long as 2^63.
pub fn short_graphs_are_answered()
    ensures { ShortGraphsAreAnswered }
{
    words_are_answered();
    short_graphs_have_room();
    graphs_are_well_made();
}

/// A certificate of a text is checked well, with the verdicts of the report by the same options.
pub fn certificates_are_checked()
    ensures { CertificatesAreChecked }
{
    results_check_well();
    raw_cells_are_determined();
    graphs_are_well_made();
    entries_are_names();
}
