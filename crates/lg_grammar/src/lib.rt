//! From the bytes of a script to its statements.
#![tactic(auto)]

mod ends;
pub mod examples;
pub mod laws;
mod lines;
mod scripts;

pub use ends::ScriptEnd;
pub use scripts::read_script;

#[cfg(test)]
mod tests;
