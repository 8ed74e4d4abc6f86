//! The roots of arrays by number, and views of them.
//!
//! A root is an array that owns its elements. An array of a script is a view of one: which root,
//! and which of its elements.
#![tactic(auto)]

mod stores;
mod view;

pub use stores::Stores;
pub use view::{Right, View, reachable};

#[cfg(test)]
mod tests;
