//! The memory of the roots of arrays: the elements of each root, by its number.
//!
//! Contracts see which root there is at each number, its type, its shape and its numbers, and
//! nothing of how it is kept. What a view shows, and what is written through one, is told of that
//! alone.
#![tactic(auto)]

mod instances;
pub mod laws;

pub use instances::Instances;

#[cfg(test)]
mod tests;
