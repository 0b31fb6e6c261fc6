// What is found of an access.

/// What is found of an access.
#[derive(Clone, Copy)]
pub enum Verdict {
    /// No run faults there.
    Safe,
    /// A run may fault there: the least and the greatest number of what decides it.
    Unknown { lo: i128, hi: i128 },
    /// No run comes there.
    Unreachable,
}
