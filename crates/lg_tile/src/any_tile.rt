ghost use Rattle.std.specs.Prelude.{◌≡◌, IfOk, length, map, replicate, slice_get, slice_set, Some};
ghost use Rattle.lg_elem.specs.Types.{IsNumber};
ghost use Rattle.lg_space.specs.Rectangle.{IsIn, place_in, volume_of};
ghost use Rattle.lg_tile.specs.Tile.{tile_items, tile_rect};
ghost use Rattle.lg_tile.specs.Tiles.{dtype_of, numbers, rect_of};

use crate::room::bytes_of;
use crate::{Room, Tile, TileElem, by_type, each};
use lg_elem::{DType, Elem};
use lg_outside::NoMemory;
use lg_space::{AnyRect, Point};
use std::alloc::Global;

/// A tile of one of the nine element types. Contracts see its type, its rectangle and the whole
/// numbers that its elements stand for.
#[derive(Drop)]
pub enum AnyTile {
    Bool(Tile<bool>),
    Int8(Tile<i8>),
    Int16(Tile<i16>),
    Int32(Tile<i32>),
    Int64(Tile<i64>),
    UInt8(Tile<u8>),
    UInt16(Tile<u16>),
    UInt32(Tile<u32>),
    UInt64(Tile<u64>),
}

impl AnyTile {
    /// A tile of this type with the same number at each index (NumPy's reference, "numpy.full"). It
    /// takes memory once, and the only error is that there is none.
    pub fn filled(alloc: Global, dtype: DType, rect: &AnyRect, x: i128) -> Result<AnyTile, NoMemory>
        requires { IsNumber dtype x }
        ensures dtype { IfOk result (λ tile. dtype_of tile ≡ dtype) }
        ensures rect { IfOk result (λ tile. rect_of tile ≡ rect.now) }
        ensures numbers { IfOk result (λ tile. numbers tile ≡ replicate (volume_of rect.now) x) }
    {
        by_type!(dtype, filled_with::<_>(alloc, rect, x))
    }

    /// The element type.
    pub fn dtype(&self) -> DType
        ensures { result ≡ dtype_of self.now }
    {
        each!(self, tile => element_type(tile))
    }

    /// The rectangle. There are as many elements as it has indices.
    pub fn rect(&self) -> &AnyRect
        ensures value { result.now ≡ rect_of self.now }
        ensures full { length (numbers self.now) ≡ volume_of (rect_of self.now) }
    {
        each!(self, tile => tile.rect())
    }

    /// The number of the element at an index.
    pub fn at(&self, p: &Point) -> i128
        requires { IsIn (rect_of self.now) p.now }
        ensures value { slice_get (numbers self.now) (place_in (rect_of self.now) p.now)
            ≡ Some result }
        ensures fits { IsNumber (dtype_of self.now) result }
    {
        each!(self, tile => number_at(tile, p))
    }

    /// Writes the element of a number at an index.
    pub fn set(&mut self, p: &Point, x: i128)
        requires inside { IsIn (rect_of self.old) p.now }
        requires number { IsNumber (dtype_of self.old) x }
        ensures dtype { dtype_of self.new ≡ dtype_of self.old }
        ensures rect { rect_of self.new ≡ rect_of self.old }
        ensures numbers { numbers self.new
            ≡ slice_set (numbers self.old) (place_in (rect_of self.old) p.now) x }
    {
        each!(self, tile => set_number(tile, p, x))
    }

    /// How many bytes its elements take.
    pub fn bytes(&self) -> u64 {
        bytes_of(self.dtype(), self.rect().volume())
    }

    /// A tile of the same type, rectangle and numbers. Its elements take the room that is given, and
    /// the only error is that there is none.
    pub fn copied(&self, room: Room<'_>) -> Result<AnyTile, NoMemory>
        ensures dtype { IfOk result (λ tile. dtype_of tile ≡ dtype_of self.now) }
        ensures rect { IfOk result (λ tile. rect_of tile ≡ rect_of self.now) }
        ensures numbers { IfOk result (λ tile. numbers tile ≡ numbers self.now) }
    {
        each!(self, tile => copy_of(tile, room))
    }
}

// The type of a typed tile's elements.
fn element_type<T: Elem>(_tile: &Tile<T>) -> DType
    ensures { result ≡ T.DTYPE }
{
    T::DTYPE
}

// The element of a number that the type has.
#[tactic(auto, using(crate::proofs::NumberLemmas::wrapped_number))]
fn element<T: Elem>(x: i128) -> T
    requires { IsNumber T.DTYPE x }
    ensures { T.number result ≡ x }
{
    T::wrap(x)
}

// A tile of a known type with the element of a number at each index.
fn filled_with<T: TileElem>(alloc: Global, rect: &AnyRect, x: i128) -> Result<AnyTile, NoMemory>
    requires { IsNumber T.DTYPE x }
    ensures dtype { IfOk result (λ tile. dtype_of tile ≡ T.DTYPE) }
    ensures rect { IfOk result (λ tile. rect_of tile ≡ rect.now) }
    ensures numbers { IfOk result (λ tile. numbers tile ≡ replicate (volume_of rect.now) x) }
{
    Ok(T::any(Tile::filled(alloc, rect, element(x))?))
}

// A copy of a typed tile.
fn copy_of<T: TileElem>(tile: &Tile<T>, room: Room<'_>) -> Result<AnyTile, NoMemory>
    ensures dtype { IfOk result (λ copy. dtype_of copy ≡ T.DTYPE) }
    ensures rect { IfOk result (λ copy. rect_of copy ≡ tile_rect tile.now) }
    ensures numbers { IfOk result (λ copy. numbers copy ≡ map T.number (tile_items tile.now)) }
{
    Ok(T::any(room.copy_of(tile)?))
}

// The number of a typed tile's element.
#[tactic(auto, using(crate::proofs::NumberLemmas::number_read))]
fn number_at<T: Elem>(tile: &Tile<T>, p: &Point) -> i128
    requires { IsIn (tile_rect tile.now) p.now }
    ensures value { slice_get (map T.number (tile_items tile.now))
        (place_in (tile_rect tile.now) p.now)
        ≡ Some result }
    ensures fits { IsNumber T.DTYPE result }
{
    tile.at(p).value()
}

// Writes the element of a number into a typed tile.
#[tactic(auto, using(crate::proofs::NumberLemmas::map_written))]
fn set_number<T: Elem>(tile: &mut Tile<T>, p: &Point, x: i128)
    requires inside { IsIn (tile_rect tile.old) p.now }
    requires number { IsNumber T.DTYPE x }
    ensures rect { tile_rect tile.new ≡ tile_rect tile.old }
    ensures numbers { map T.number (tile_items tile.new)
        ≡ slice_set (map T.number (tile_items tile.old)) (place_in (tile_rect tile.old) p.now) x }
{
    tile.set(p, element(x));
}
