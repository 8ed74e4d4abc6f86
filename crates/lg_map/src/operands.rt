//! The elements of an operand over a rectangle, as ones of the operation's type.
ghost use Rattle.std.specs.Prelude.{◌≡◌, ℕ, List, length, map, slice_get, Some, IfOk};
ghost use Rattle.lg_elem.specs.Types.{wrap};
ghost use Rattle.lg_space.specs.Rectangle.{volume_of};
ghost use Rattle.lg_tile.specs.Sections.{Covers};
ghost use Rattle.lg_tile.specs.Tile.{tile_items, tile_rect};
ghost use Rattle.lg_tile.specs.Tiles.{dtype_of, number_at, rect_of};
ghost use Rattle.lg_map.specs.Columns.{IsPartOf, Stands, item_at, listed, typed_at};
ghost use Rattle.lg_map.specs.Mapping.{HasInput, IsOperand, operand_at};

use crate::Operand;
use crate::columns::Values;
use crate::loops::converted;
use lg_outside::NoMemory;
use lg_space::AnyRect;
use lg_tile::{AnyTile, Room, Section, Tile, TileElem, each};
use std::alloc::Global;

/// The tile of an input.
pub fn input<'a>(inputs: &'a [&'a AnyTile], k: u32, rect: &AnyRect) -> &'a AnyTile
    requires { HasInput (map (λ input. input.now) inputs.now) rect.now k }
    ensures there { slice_get (map (λ input. input.now) inputs.now) k ≡ Some result.now }
    ensures covers { Covers (rect_of result.now) rect.now }
{
    inputs[k as usize]
}

/// The elements of an operand over a rectangle. Those of a tile of this type that has just this
/// rectangle are lent as they lie.
pub fn operand<'a, T: TileElem>(
    alloc: Global,
    inputs: &'a [&'a AnyTile],
    operand: &Operand,
    rect: &AnyRect,
) -> Result<Values<'a, T>, NoMemory>
    requires { IsOperand (map (λ input. input.now) inputs.now) rect.now operand.now }
    ensures { IfOk result (λ values. Stands T.DTYPE T.number values rect.now
        (operand_at (map (λ input. input.now) inputs.now) operand.now)) }
{
    match operand {
        Operand::Input(k) => Ok(elements(alloc, input(inputs, *k, rect), rect)?),
        Operand::Constant(x) => Ok(constant(*x)),
    }
}

// A number at each place.
fn constant<'a, T: TileElem>(x: i128) -> Values<'a, T>
    ensures { (rect : List (ℕ × ℕ)) → Stands T.DTYPE T.number result rect (λ index. x) }
{
    Values::Constant(T::wrap(x))
}

// The elements of a tile of any type.
fn elements<'a, T: TileElem>(
    alloc: Global,
    tile: &'a AnyTile,
    rect: &AnyRect,
) -> Result<Values<'a, T>, NoMemory>
    requires { Covers (rect_of tile.now) rect.now }
    ensures { IfOk result (λ values. Stands T.DTYPE T.number values rect.now (number_at tile.now)) }
{
    if tile.dtype() == T::DTYPE {
        return Ok(read(alloc, T::tile_of(tile), rect)?);
    }
    each!(tile, tile => cast(alloc, tile, rect))
}

// The elements of a tile of this type.
fn read<'a, T: TileElem>(
    alloc: Global,
    tile: &'a Tile<T>,
    rect: &AnyRect,
) -> Result<Values<'a, T>, NoMemory>
    requires { Covers (tile_rect tile.now) rect.now }
    ensures { IfOk result
        (λ values. Stands T.DTYPE T.number values rect.now (typed_at T.number tile.now)) }
{
    Ok(Values::Items(tile.section(alloc, rect)?))
}

/// The elements of a tile over a rectangle, which has this type.
pub fn part_of<'a, T: TileElem>(
    alloc: Global,
    tile: &'a AnyTile,
    rect: &AnyRect,
) -> Result<Section<'a, T>, NoMemory>
    requires typed { dtype_of tile.now ≡ T.DTYPE }
    requires covers { Covers (rect_of tile.now) rect.now }
    ensures { IfOk result (λ part. IsPartOf T.number part rect.now (number_at tile.now)) }
{
    Ok(T::tile_of(tile).section(alloc, rect)?)
}

// The elements of a tile of another type.
fn cast<'a, A: TileElem, T: TileElem>(
    alloc: Global,
    tile: &Tile<A>,
    rect: &AnyRect,
) -> Result<Values<'a, T>, NoMemory>
    requires { Covers (tile_rect tile.now) rect.now }
    ensures { IfOk result
        (λ values. Stands T.DTYPE T.number values rect.now (typed_at A.number tile.now)) }
{
    let section = tile.section(alloc, rect)?;
    let items = cast_items::<A, T>(Room::new(alloc), section.items(), rect)?.into_items();
    Ok(Values::Items(Section::Copied(items)))
}

/// A tile of the elements of a list over its rectangle, as ones of another type.
pub fn cast_items<A: TileElem, T: TileElem>(
    room: Room<'_>,
    items: &[A],
    rect: &AnyRect,
) -> Result<Tile<T>, NoMemory>
    requires { length items.now ≡ volume_of rect.now }
    ensures rect { IfOk result (λ tile. tile_rect tile ≡ rect.now) }
    ensures items { IfOk result (λ tile. map T.number (tile_items tile)
        ≡ listed (λ place. wrap T.DTYPE (item_at A.number items.now place)) (volume_of rect.now)) }
{
    let mut tile = room.tile(rect)?;
    cast_each(tile.items_mut(), items);
    Ok(tile)
}

// Puts each element, as one of another type, in its place.
fn cast_each<A: TileElem, T: TileElem>(out: &mut [T], items: &[A])
    requires { length items.now ≡ length out.old }
    ensures { map T.number out.new
        ≡ listed (λ place. wrap T.DTYPE (item_at A.number items.now place)) (length out.old) }
{
    converted::<A, T, _>(out, items);
}
