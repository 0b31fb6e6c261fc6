// Laws of the cells of certificates.

ghost use Rattle.pk_cert_cells.specs.Laws.{WrittenIsRead, OneReading, EveryReadingEnds};

use pk_cert::{every_lines_end, first_wrong_is_one, heads_are_told, lines_are_told};
use pk_cert_states::{every_line_is_settled, facts_have_lines};

/// What is written of a graph's cells is read back, and nothing else is.
pub fn written_is_read()
    ensures { WrittenIsRead }
{
    heads_are_told();
    lines_are_told();
    first_wrong_is_one();
    facts_have_lines();
}

/// Bytes behind a head are read in one way.
pub fn one_reading()
    ensures { OneReading }
{
    heads_are_told();
    lines_are_told();
    first_wrong_is_one();
    facts_have_lines();
}

/// Bytes that begin with a head are the certificate of cells, or have a first wrong byte or a first point of no state.
pub fn every_reading_ends()
    ensures { EveryReadingEnds }
{
    every_lines_end();
    every_line_is_settled();
}
