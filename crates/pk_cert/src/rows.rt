// Lines of cells, as values.

/// How many numbers a line has, and how many bounds behind them, each of which may be `*`.
#[derive(Clone, Copy)]
pub struct Shape {
    pub numbers: usize,
    pub bounds: usize,
}

/// A number or `*`.
#[derive(Clone, Copy)]
pub enum Symbol {
    Star,
    Number(i128),
    /// A number of which the value, without its sign, is 2^127 or more.
    Far,
}

/// A line of cells: `bot`, or its symbols.
#[derive(Drop)]
pub enum Row {
    Bottom,
    Symbols(Vec<Symbol>),
}
