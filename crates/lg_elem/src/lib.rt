//! The element types of arrays, and the operations on single elements.
#![tactic(auto)]

mod division;
mod dtype;
mod elem;
pub mod examples;
mod implementations;
pub mod kernels;
mod kinds;
pub mod laws;
mod operations;
mod power;
mod wrapping;

pub use dtype::DType;
pub use elem::Elem;
pub use kinds::{Binary, Compare, Flag, Unary};
pub use operations::{allowed_binary, allowed_unary, binary, compare, int_pow, unary};

#[cfg(test)]
mod tests;
