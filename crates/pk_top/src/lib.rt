//! The analyser, from its words and a source of text to a sink.
#![tactic(auto)]

mod top;

pub use pk_front::Refusal;
pub use pk_status::Status;
pub use pk_workers::{Gate, NoGate};
pub use top::pikos;
