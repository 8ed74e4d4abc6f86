//! Views of a root as affine maps of a fixed size, which a step makes another view of.
//!
//! A chain of steps is kept as where the view begins in the root, and for each axis of the view the
//! root axis that it moves, with a stride. No call takes memory.
#![tactic(auto)]

mod axis;
mod chain;
pub mod laws;

pub use chain::{Chain, Strides};

#[cfg(test)]
mod tests;
