//! The outside of the runtime: where a script's bytes come from and where printed text goes.
//!
//! A [`Source`] gives bytes and a [`Sink`] takes them. Both count their faults, so that a contract
//! can say that a call failed only because the stream did. There are streams in memory, which fail
//! at the calls that they are told to, and adapters over std's readers and writers.
#![tactic(auto)]

mod errors;
mod memory;
mod sink;
mod source;
mod standard;
mod whole;

pub use errors::{Failed, NoMemory};
pub use memory::{MemorySink, MemorySource};
pub use sink::Sink;
pub use source::Source;
pub use standard::{StdSink, StdSource};
pub use whole::{ReadEnd, WriteFault, read_all, write_all};

#[cfg(test)]
mod tests;
