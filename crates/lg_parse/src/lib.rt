//! From the terminals of one line to its statement.
#![tactic(auto)]

mod brackets;
mod built;
mod calls;
mod cursor;
mod ends;
pub mod examples;
mod grammar;
mod indices;
mod joints;
mod keywords;
pub mod laws;
mod lists;
mod methods;
mod nodes;
mod operands;
mod operators;
mod parsed;
mod rules;
mod shapes;
mod statements;
mod suffixes;
mod terminals;
mod types;
mod words;

pub use ends::ParseEnd;
pub use statements::read_head;
pub use terminals::{Terminal, as_terminals};
pub use words::{Function, Keyword, Word};

#[cfg(test)]
mod tests;
