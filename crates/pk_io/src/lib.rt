//! Sources and sinks of bytes that count their faults, and calls that read all of a source and
//! write all to a sink.
#![tactic(auto)]

mod all;
mod device;
mod memory;
mod standard;

pub use all::{ReadError, WriteFault, read_all, write_all};
pub use device::{Failed, Sink, Source};
pub use memory::{MemSink, MemSource};
pub use standard::{StdSink, StdSource};
