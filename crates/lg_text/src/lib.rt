//! The canonical text of scripts.
#![tactic(auto)]

pub mod examples;
mod expressions;
mod scripts;
mod words;

pub use scripts::text_of;

#[cfg(test)]
mod tests;
