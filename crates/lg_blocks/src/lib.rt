//! How the statements of a script stand in blocks by indentation, and the reader of them.
#![tactic(auto)]

mod ends;
pub mod examples;
pub mod laws;
mod reader;
mod unfinished;

pub use ends::{FinishEnd, PushEnd};
pub use reader::Reader;

#[cfg(test)]
mod tests;
