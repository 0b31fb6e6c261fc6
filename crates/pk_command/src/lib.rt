//! The command line: which words are taken, and the command with its options that they give.
#![tactic(auto)]

mod asked;
mod definition;
mod laws;
mod reading;

pub use asked::{CertOptions, Command, GenOptions, OrderOptions, RunOptions, WordsError};
pub use laws::{
    cert_is_taken, cert_takes_no_flag, check_is_taken, check_takes_no_oct, gen_is_taken,
    gen_needs_options, one_command, order_is_taken, run_is_taken, taken_asks,
};
pub use reading::read_words;
