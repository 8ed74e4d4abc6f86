//! Shapes cut into tiles, so that several processors can share the work on an array.
//!
//! A [`Grid`] is a shape with a cut of each axis into parts. Its tiles are the combinations of the
//! parts, in row-major order, and the place of a tile in that order is its colour. The rule that
//! chooses the parts is this project's own.
#![tactic(auto)]

pub mod examples;
mod grid;
pub mod laws;

pub use grid::{Grid, colors, tiles};

#[cfg(test)]
mod tests;
