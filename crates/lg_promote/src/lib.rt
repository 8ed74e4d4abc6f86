//! Which type two types have in common, which number a literal stands for at a type, and which
//! types are of the same kind.
#![tactic(auto)]

mod casting;
pub mod examples;
mod kind;
pub mod laws;
mod literals;
mod promotion;

pub use casting::same_kind;
pub use literals::{DoesNotFit, literal};
pub use promotion::{NoCommonType, promote};

#[cfg(test)]
mod tests;
