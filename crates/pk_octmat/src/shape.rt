// What is left of a matrix.

/// What is left of a matrix.
#[derive(Clone, Copy)]
pub enum Shape {
    /// Its bounds.
    Kept,
    /// Nothing: no integers meet the bounds.
    Empty,
}
