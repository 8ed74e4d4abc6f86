//! Shapes of arrays, how two of them broadcast, which steps an index of a view takes, and the rule
//! by which a shape is cut into tiles.
#![tactic(auto)]

mod examples;
mod filler;
mod index;
mod indexing;
mod joining;
mod shape;
mod step;

pub use examples::{faults_by_example, indices_by_example, steps_by_example};
pub use index::{IndexFault, IndexItem};
pub use indexing::apply_index;
pub use joining::{Mismatch, broadcast};
pub use shape::Shape;
pub use step::Step;

#[cfg(test)]
mod tests;
