// Places in a text.

ghost use Rattle.std.specs.Prelude.{◌↔◌, IsTrue};
ghost use Rattle.pk_ctypes.specs.Places.{Before};

use std::fmt;

/// A place in a text: line and column, counted in bytes from 1.
#[derive(Clone, Copy, Debug, PartialEq, Eq)]
pub struct Pos {
    pub line: u64,
    pub column: u64,
}

impl Pos {
    /// Whether a place stands before another: on an earlier line, or on the same line at an earlier column.
    pub fn is_before(self, other: Pos) -> bool
        ensures { IsTrue result ↔ Before self other }
    {
        self.line < other.line || self.line == other.line && self.column < other.column
    }
}

impl fmt::Display for Pos {
    ghost use Rattle.std.specs.declared.option.Option.TheVariants.{Some};
    ghost use Rattle.pk_ctypes.specs.Places.{pos_text};

    ghost output = { λ p. Some (pos_text p) };

    fn fmt<W: fmt::Write>(&self, f: &mut fmt::Formatter<W>) -> fmt::Result {
        let line = self.line;
        let column = self.column;
        write!(f, "{line}:{column}")
    }
}
