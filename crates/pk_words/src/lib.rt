// The words of a board, its slots, and the rule that they keep.
#![tactic(auto)]

mod laws;
mod parted;
mod plays;
mod rule;
mod slot;
mod subject;
mod view;
mod why;
mod words;

pub use laws::every_board_keeps;
pub use parted::Parted;
pub use plays::{
    Parts, Tells, arm_head_told, arm_told, decrement_told, exchange_told, give_told, input_told,
    load_told, store_told, take_told,
};
pub use rule::Rule;
pub use slot::Slot;
pub use subject::Subject;
pub use view::View;
pub use why::Why;
pub use words::{DONE, OPEN, RUN, is_done, is_open, low_in, run_in, stop_word, why_in, word_with};
