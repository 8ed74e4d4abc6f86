//! Division of elements by a number that stays, by a product with its reciprocal.
#![tactic(auto)]

mod divide;
mod divisor;
pub mod laws;
mod reciprocal;
mod signs;
mod whole;

pub use divide::Divide;
pub use divisor::Divisor;
pub use reciprocal::Reciprocal;
pub use whole::{divide_all, remainder_all};

#[cfg(test)]
mod tests;
