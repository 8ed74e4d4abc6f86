//! Elementwise operations on tiles.
//!
//! The operation, the types and the kinds of operand are looked at once for a tile. What runs for
//! each element is a loop over slices that is compiled for just these.
#![tactic(auto)]

mod binary;
mod columns;
mod compare;
pub mod examples;
mod loops;
mod making;
mod mapping;
mod operands;
mod operation;
mod select;
mod unary;

pub use mapping::map_tile;
pub use operation::{MapOp, Operand};

#[cfg(test)]
mod tests;
