//! Tiles: the elements of a rectangle of indices, in row-major order, with the element type known
//! to the compiler or not.
#![tactic(auto)]

mod any_tile;
mod choosing;
pub mod laws;
mod room;
mod section;
mod tile;
mod typed;

pub use any_tile::AnyTile;
pub use lg_elem::DType;
pub use room::{Room, Spares};
pub use section::{Section, section_of};
pub use tile::Tile;
pub use typed::TileElem;

#[cfg(test)]
mod tests;
