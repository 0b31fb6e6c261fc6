// What words say: an element's run number and how it stands, and why a board is stopped.

ghost use Rattle.std.specs.Prelude.{◌≡◌, ◌+◌, ◌-◌, ◌*◌, ◌/◌, ◌%◌, ◌^◌, ◌<◌, ◌==◌, Some};
ghost use Rattle.pk_words.specs.Board.{why_of, NamesLimit};

use crate::why::Why;

/// An element's word is its run number times this, and how it stands: 0 where it is held, `OPEN`, `DONE`, or else how many elements
/// it waits for.
pub const RUN: u64 = 1048576;

pub const OPEN: u64 = 262144;

pub const DONE: u64 = 262145;

/// The run number of an element's word.
pub fn run_in(word: u64) -> u64
    ensures { result ≡ word / 1048576 }
{
    word / RUN
}

/// How an element stands by its word.
pub fn low_in(word: u64) -> u64
    ensures { result ≡ word % 1048576 }
{
    word % RUN
}

/// Whether an element's word says that it is open.
pub fn is_open(word: u64) -> bool
    ensures { result ≡ (word % 1048576 == 262144) }
{
    low_in(word) == OPEN
}

/// Whether an element's word says that it is done.
pub fn is_done(word: u64) -> bool
    ensures { result ≡ (word % 1048576 == 262145) }
{
    low_in(word) == DONE
}

/// The word of an element with this run number that stands so.
pub fn word_with(run: u64, low: u64) -> u64
    requires { (run < 2 ^ 43) × (low < 1048576) }
    ensures { result ≡ run * 1048576 + low }
{
    run * RUN + low
}

/// The stop word of a board with this limit of runs, where it is stopped.
pub fn stop_word(limit: u64, why: Why) -> u64
    requires { NamesLimit limit why }
    ensures { why_of limit result ≡ Some why }
{
    match why {
        Why::Memory => 1,
        Why::RunLimit { element, run: _ } => element as u64 + 2,
    }
}

/// Why a board with this limit of runs is stopped, by its stop word.
pub fn why_in(limit: u64, word: u64) -> Option<Why>
    requires { (limit < 2 ^ 64 - 1) × (word < 2 ^ 32 + 2) }
    ensures { result ≡ why_of limit word }
{
    match word {
        0 => None,
        1 => Some(Why::Memory),
        e => Some(Why::RunLimit {
            element: (e - 2) as u32,
            run: limit + 1,
        }),
    }
}
