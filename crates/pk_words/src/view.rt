// What a pass knows.

use std::collections::LinkedList;

/// What a pass knows. No value of it is made.
pub struct View {
    /// Its Holds: each an element and its run number.
    pub holds: LinkedList<(u32, u64)>,
    /// Its Sendings: each an element and how many of its sends were made.
    pub sends: LinkedList<(u32, usize)>,
    /// Its Resettings: each an exit and how many members of its component are still to be armed.
    pub resets: LinkedList<(u32, usize)>,
    /// The slots that are out with it.
    pub out: LinkedList<usize>,
    /// The words that it found, the newest first: each an element and its word.
    pub notes: LinkedList<(u32, u64)>,
    /// Whether it found the last element done.
    pub ended: bool,
    /// The stop words that it stored, the newest first.
    pub stops: LinkedList<u64>,
    /// The stop words that it found, the newest first.
    pub stop_notes: LinkedList<u64>,
    /// Whether no step was made on the board since it began, and there is no other pass.
    pub fresh: bool,
}
