ghost use Rattle.std.specs.Prelude.{◌≡◌};
ghost use Rattle.lg_tile.specs.Tiles.{IsTyped, dtype_of};

use crate::{AnyTile, Tile};
use lg_elem::Elem;

/// An element type of tiles. Here stand the ways between a tile of this type and a tile of any
/// type, so that code over tiles is written once, for every element type.
pub trait TileElem: Elem + Drop {
    /// The tile as one of any type. It takes no memory.
    fn any(tile: Tile<Self>) -> AnyTile
        ensures { IsTyped Self.DTYPE Self.number tile result };

    /// The tile of this type that a tile of any type is, where it has this type.
    fn tile_of(any: &AnyTile) -> &Tile<Self>
        requires { dtype_of any.now ≡ Self.DTYPE }
        ensures { IsTyped Self.DTYPE Self.number result.now any.now };

    /// The same of a tile that is given away.
    fn into_tile(any: AnyTile) -> Tile<Self>
        requires { dtype_of any ≡ Self.DTYPE }
        ensures { IsTyped Self.DTYPE Self.number result any };
}

impl TileElem for bool {
    #[inline]
    fn any(tile: Tile<bool>) -> AnyTile
        ensures { IsTyped ⟦<bool as Elem>⟧.DTYPE ⟦<bool as Elem>⟧.number tile result }
    {
        AnyTile::Bool(tile)
    }

    #[inline]
    fn tile_of(any: &AnyTile) -> &Tile<bool>
        requires { dtype_of any.now ≡ ⟦<bool as Elem>⟧.DTYPE }
        ensures { IsTyped ⟦<bool as Elem>⟧.DTYPE ⟦<bool as Elem>⟧.number result.now any.now }
    {
        match any {
            AnyTile::Bool(tile) => tile,
            _ => unreachable!(),
        }
    }

    #[inline]
    fn into_tile(any: AnyTile) -> Tile<bool>
        requires { dtype_of any ≡ ⟦<bool as Elem>⟧.DTYPE }
        ensures { IsTyped ⟦<bool as Elem>⟧.DTYPE ⟦<bool as Elem>⟧.number result any }
    {
        match any {
            AnyTile::Bool(tile) => tile,
            _ => unreachable!(),
        }
    }
}

impl TileElem for i8 {
    #[inline]
    fn any(tile: Tile<i8>) -> AnyTile
        ensures { IsTyped ⟦<i8 as Elem>⟧.DTYPE ⟦<i8 as Elem>⟧.number tile result }
    {
        AnyTile::Int8(tile)
    }

    #[inline]
    fn tile_of(any: &AnyTile) -> &Tile<i8>
        requires { dtype_of any.now ≡ ⟦<i8 as Elem>⟧.DTYPE }
        ensures { IsTyped ⟦<i8 as Elem>⟧.DTYPE ⟦<i8 as Elem>⟧.number result.now any.now }
    {
        match any {
            AnyTile::Int8(tile) => tile,
            _ => unreachable!(),
        }
    }

    #[inline]
    fn into_tile(any: AnyTile) -> Tile<i8>
        requires { dtype_of any ≡ ⟦<i8 as Elem>⟧.DTYPE }
        ensures { IsTyped ⟦<i8 as Elem>⟧.DTYPE ⟦<i8 as Elem>⟧.number result any }
    {
        match any {
            AnyTile::Int8(tile) => tile,
            _ => unreachable!(),
        }
    }
}

impl TileElem for i16 {
    #[inline]
    fn any(tile: Tile<i16>) -> AnyTile
        ensures { IsTyped ⟦<i16 as Elem>⟧.DTYPE ⟦<i16 as Elem>⟧.number tile result }
    {
        AnyTile::Int16(tile)
    }

    #[inline]
    fn tile_of(any: &AnyTile) -> &Tile<i16>
        requires { dtype_of any.now ≡ ⟦<i16 as Elem>⟧.DTYPE }
        ensures { IsTyped ⟦<i16 as Elem>⟧.DTYPE ⟦<i16 as Elem>⟧.number result.now any.now }
    {
        match any {
            AnyTile::Int16(tile) => tile,
            _ => unreachable!(),
        }
    }

    #[inline]
    fn into_tile(any: AnyTile) -> Tile<i16>
        requires { dtype_of any ≡ ⟦<i16 as Elem>⟧.DTYPE }
        ensures { IsTyped ⟦<i16 as Elem>⟧.DTYPE ⟦<i16 as Elem>⟧.number result any }
    {
        match any {
            AnyTile::Int16(tile) => tile,
            _ => unreachable!(),
        }
    }
}

impl TileElem for i32 {
    #[inline]
    fn any(tile: Tile<i32>) -> AnyTile
        ensures { IsTyped ⟦<i32 as Elem>⟧.DTYPE ⟦<i32 as Elem>⟧.number tile result }
    {
        AnyTile::Int32(tile)
    }

    #[inline]
    fn tile_of(any: &AnyTile) -> &Tile<i32>
        requires { dtype_of any.now ≡ ⟦<i32 as Elem>⟧.DTYPE }
        ensures { IsTyped ⟦<i32 as Elem>⟧.DTYPE ⟦<i32 as Elem>⟧.number result.now any.now }
    {
        match any {
            AnyTile::Int32(tile) => tile,
            _ => unreachable!(),
        }
    }

    #[inline]
    fn into_tile(any: AnyTile) -> Tile<i32>
        requires { dtype_of any ≡ ⟦<i32 as Elem>⟧.DTYPE }
        ensures { IsTyped ⟦<i32 as Elem>⟧.DTYPE ⟦<i32 as Elem>⟧.number result any }
    {
        match any {
            AnyTile::Int32(tile) => tile,
            _ => unreachable!(),
        }
    }
}

impl TileElem for i64 {
    #[inline]
    fn any(tile: Tile<i64>) -> AnyTile
        ensures { IsTyped ⟦<i64 as Elem>⟧.DTYPE ⟦<i64 as Elem>⟧.number tile result }
    {
        AnyTile::Int64(tile)
    }

    #[inline]
    fn tile_of(any: &AnyTile) -> &Tile<i64>
        requires { dtype_of any.now ≡ ⟦<i64 as Elem>⟧.DTYPE }
        ensures { IsTyped ⟦<i64 as Elem>⟧.DTYPE ⟦<i64 as Elem>⟧.number result.now any.now }
    {
        match any {
            AnyTile::Int64(tile) => tile,
            _ => unreachable!(),
        }
    }

    #[inline]
    fn into_tile(any: AnyTile) -> Tile<i64>
        requires { dtype_of any ≡ ⟦<i64 as Elem>⟧.DTYPE }
        ensures { IsTyped ⟦<i64 as Elem>⟧.DTYPE ⟦<i64 as Elem>⟧.number result any }
    {
        match any {
            AnyTile::Int64(tile) => tile,
            _ => unreachable!(),
        }
    }
}

impl TileElem for u8 {
    #[inline]
    fn any(tile: Tile<u8>) -> AnyTile
        ensures { IsTyped ⟦<u8 as Elem>⟧.DTYPE ⟦<u8 as Elem>⟧.number tile result }
    {
        AnyTile::UInt8(tile)
    }

    #[inline]
    fn tile_of(any: &AnyTile) -> &Tile<u8>
        requires { dtype_of any.now ≡ ⟦<u8 as Elem>⟧.DTYPE }
        ensures { IsTyped ⟦<u8 as Elem>⟧.DTYPE ⟦<u8 as Elem>⟧.number result.now any.now }
    {
        match any {
            AnyTile::UInt8(tile) => tile,
            _ => unreachable!(),
        }
    }

    #[inline]
    fn into_tile(any: AnyTile) -> Tile<u8>
        requires { dtype_of any ≡ ⟦<u8 as Elem>⟧.DTYPE }
        ensures { IsTyped ⟦<u8 as Elem>⟧.DTYPE ⟦<u8 as Elem>⟧.number result any }
    {
        match any {
            AnyTile::UInt8(tile) => tile,
            _ => unreachable!(),
        }
    }
}

impl TileElem for u16 {
    #[inline]
    fn any(tile: Tile<u16>) -> AnyTile
        ensures { IsTyped ⟦<u16 as Elem>⟧.DTYPE ⟦<u16 as Elem>⟧.number tile result }
    {
        AnyTile::UInt16(tile)
    }

    #[inline]
    fn tile_of(any: &AnyTile) -> &Tile<u16>
        requires { dtype_of any.now ≡ ⟦<u16 as Elem>⟧.DTYPE }
        ensures { IsTyped ⟦<u16 as Elem>⟧.DTYPE ⟦<u16 as Elem>⟧.number result.now any.now }
    {
        match any {
            AnyTile::UInt16(tile) => tile,
            _ => unreachable!(),
        }
    }

    #[inline]
    fn into_tile(any: AnyTile) -> Tile<u16>
        requires { dtype_of any ≡ ⟦<u16 as Elem>⟧.DTYPE }
        ensures { IsTyped ⟦<u16 as Elem>⟧.DTYPE ⟦<u16 as Elem>⟧.number result any }
    {
        match any {
            AnyTile::UInt16(tile) => tile,
            _ => unreachable!(),
        }
    }
}

impl TileElem for u32 {
    #[inline]
    fn any(tile: Tile<u32>) -> AnyTile
        ensures { IsTyped ⟦<u32 as Elem>⟧.DTYPE ⟦<u32 as Elem>⟧.number tile result }
    {
        AnyTile::UInt32(tile)
    }

    #[inline]
    fn tile_of(any: &AnyTile) -> &Tile<u32>
        requires { dtype_of any.now ≡ ⟦<u32 as Elem>⟧.DTYPE }
        ensures { IsTyped ⟦<u32 as Elem>⟧.DTYPE ⟦<u32 as Elem>⟧.number result.now any.now }
    {
        match any {
            AnyTile::UInt32(tile) => tile,
            _ => unreachable!(),
        }
    }

    #[inline]
    fn into_tile(any: AnyTile) -> Tile<u32>
        requires { dtype_of any ≡ ⟦<u32 as Elem>⟧.DTYPE }
        ensures { IsTyped ⟦<u32 as Elem>⟧.DTYPE ⟦<u32 as Elem>⟧.number result any }
    {
        match any {
            AnyTile::UInt32(tile) => tile,
            _ => unreachable!(),
        }
    }
}

impl TileElem for u64 {
    #[inline]
    fn any(tile: Tile<u64>) -> AnyTile
        ensures { IsTyped ⟦<u64 as Elem>⟧.DTYPE ⟦<u64 as Elem>⟧.number tile result }
    {
        AnyTile::UInt64(tile)
    }

    #[inline]
    fn tile_of(any: &AnyTile) -> &Tile<u64>
        requires { dtype_of any.now ≡ ⟦<u64 as Elem>⟧.DTYPE }
        ensures { IsTyped ⟦<u64 as Elem>⟧.DTYPE ⟦<u64 as Elem>⟧.number result.now any.now }
    {
        match any {
            AnyTile::UInt64(tile) => tile,
            _ => unreachable!(),
        }
    }

    #[inline]
    fn into_tile(any: AnyTile) -> Tile<u64>
        requires { dtype_of any ≡ ⟦<u64 as Elem>⟧.DTYPE }
        ensures { IsTyped ⟦<u64 as Elem>⟧.DTYPE ⟦<u64 as Elem>⟧.number result any }
    {
        match any {
            AnyTile::UInt64(tile) => tile,
            _ => unreachable!(),
        }
    }
}
