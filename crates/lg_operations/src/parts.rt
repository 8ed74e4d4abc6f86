//! What of an operation's inputs is read over one tile of the result.
ghost use Rattle.std.specs.Prelude.{◌≡◌, IfOk};
ghost use Rattle.lg_operations.specs.Lending.{IsLentOver};
ghost use Rattle.lg_operations.specs.Pieces.{part_tile, IsPartOf};

use crate::gathering::gather_part;
use crate::lending::Lent;
use lg_outside::NoMemory;
use lg_space::AnyRect;
use lg_tile::{AnyTile, Room, Tile};
use std::alloc::Global;

/// The elements of an input over a rectangle.
#[derive(Drop)]
pub enum Part<'a> {
    /// They are read where they lie.
    Lying(&'a AnyTile),

    /// They were gathered.
    Gathered(AnyTile),
}

impl Part<'_> {
    /// The tile that is read.
    pub fn tile(&self) -> &AnyTile
        ensures { result.now ≡ part_tile self.now }
    {
        match self {
            Part::Lying(tile) => tile,
            Part::Gathered(tile) => tile,
        }
    }

    /// Gives the memory of what was gathered back.
    pub fn give_back(self, room: Room<'_>) {
        if let Part::Gathered(tile) = self {
            room.keep(tile);
        }
    }
}

/// The elements of an input over a rectangle. Those of a view are gathered; in place of a number
/// there is a tile that is not read.
pub fn part_of<'a>(room: Room<'_>, lent: &Lent<'a>, rect: &AnyRect) -> Result<Part<'a>, NoMemory>
    requires { IsLentOver rect.now lent.now }
    ensures { IfOk result (λ part. IsPartOf rect.now lent.now (part_tile part)) }
{
    match lent {
        Lent::Number(_) => Ok(Part::Gathered(nothing(room.alloc()))),
        Lent::Tile(tile) => Ok(Part::Lying(tile)),
        Lent::Viewed(tile, chain) => Ok(Part::Gathered(gather_part(room, tile, chain, rect)?)),
    }
}

// A tile without elements. It takes no memory.
fn nothing(alloc: Global) -> AnyTile {
    AnyTile::Bool(Tile::new(AnyRect::new(&[(0, 0)]), Vec::new(alloc)))
}
