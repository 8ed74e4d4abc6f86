//! Copies of elements between tiles: over a rectangle, through a view into a new tile, and from a
//! tile through a view.
//!
//! All are one copy by strides, which goes axis by axis and ends in runs. It tells for each place
//! of the target which element came there, and says nothing of the order.
#![tactic(auto)]

mod appending;
mod axes;
mod axis;
mod crossed;
mod gathering;
mod rectangle;
mod runs;
mod scattering;
mod through;

pub use gathering::{gather, gather_from};
pub use rectangle::copy_rect;
pub use scattering::scatter;

#[cfg(test)]
mod tests;
