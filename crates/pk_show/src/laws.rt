// Laws of lines and of reports.

ghost use Rattle.pk_show.specs.Laws.{AccessesAreRead, LinesAreRead, ReportsAreRead};

/// The text of an access is read, and gives back the access; a line that is read as an access is its text.
pub fn accesses_are_read()
    ensures { AccessesAreRead }
{}

/// The text of a call path, which has no blank, and of each other line, is read and gives it back.
pub fn lines_are_read()
    ensures { LinesAreRead }
{}

/// The text of a report's rows is read, and gives back the rows; a text that is read as rows is their text.
pub fn reports_are_read()
    ensures { ReportsAreRead }
{}
