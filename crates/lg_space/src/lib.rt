//! Points and rectangles of indices, with up to four axes.
//!
//! Contracts see a point as the list of its coordinates, and a rectangle as the list of its ranges,
//! one for each axis. The indices of a rectangle have an order, in which the last axis runs
//! fastest, and so each has a place.
#![tactic(auto)]

mod cutting;
pub mod examples;
mod fixed;
pub mod laws;
mod point;
mod ranges;
mod rect;

pub use fixed::Rect;
pub use point::{MAX_AXES, Point};
pub use rect::AnyRect;

#[cfg(test)]
mod tests;
