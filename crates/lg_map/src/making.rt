//! Operations that give an operand as it is, or take none.
ghost use Rattle.std.specs.Prelude.{◌≡◌, ℕ, ◌≤◌, [], length, map, IfOk, slice_index_or, pos, ◌+ℤ◌};
ghost use Rattle.lg_elem.specs.Types.{wrap};
ghost use Rattle.lg_space.specs.Rectangle.{volume_of};
ghost use Rattle.lg_space.specs.Stored.{MAX_VOLUME};
ghost use Rattle.lg_shape.specs.Shapes.{size_of, whole};
ghost use Rattle.lg_tile.specs.Sections.{Covers};
ghost use Rattle.lg_tile.specs.Tile.{tile_items, tile_rect};
ghost use Rattle.lg_tile.specs.Tiles.{dtype_of, number_at, rect_of};
ghost use Rattle.lg_map.specs.declared.operation.MapOp.TheVariants as ops;
ghost use Rattle.lg_map.specs.Columns.{IsCast, IsListed, listed};
ghost use Rattle.lg_map.specs.Mapping.{IsConstant, IsOperand, Maps, operand_at};

use crate::Operand;
use crate::loops::{counted, wrapped};
use crate::operands::{cast_items, input, part_of};
use lg_elem::Flag;
use lg_outside::NoMemory;
use lg_shape::Shape;
use lg_space::AnyRect;
use lg_tile::{AnyTile, Room, Tile, TileElem, by_type, section_of};

/// An operand as elements of a known type.
pub fn cast_tile<'a, T: TileElem>(
    room: Room<'_>,
    x: &Operand,
    inputs: &'a [&'a AnyTile],
    rect: &AnyRect,
) -> Result<(AnyTile, Flag), NoMemory>
    requires { IsOperand (map (λ input. input.now) inputs.now) rect.now x.now }
    ensures { IfOk result (Maps (ops.Cast x.now) T.DTYPE
        (map (λ input. input.now) inputs.now) rect.now) }
{
    let tile = cast_operand::<T>(room, x, inputs, rect)?;
    Ok((T::any(tile), Flag::Clear))
}

// An operand as elements of a known type, by its kind.
fn cast_operand<'a, T: TileElem>(
    room: Room<'_>,
    x: &Operand,
    inputs: &'a [&'a AnyTile],
    rect: &AnyRect,
) -> Result<Tile<T>, NoMemory>
    requires { IsOperand (map (λ input. input.now) inputs.now) rect.now x.now }
    ensures { IfOk result (λ tile. IsCast T.DTYPE T.number tile rect.now
        (operand_at (map (λ input. input.now) inputs.now) x.now)) }
{
    match x {
        Operand::Input(k) => Ok(cast_part::<T>(room, input(inputs, *k, rect), rect)?),
        Operand::Constant(x) => Ok(filled::<T>(room, *x, rect)?),
    }
}

// A part of a tile as elements of a known type.
fn cast_part<T: TileElem>(
    room: Room<'_>,
    tile: &AnyTile,
    rect: &AnyRect,
) -> Result<Tile<T>, NoMemory>
    requires { Covers (rect_of tile.now) rect.now }
    ensures { IfOk result
        (λ cast. IsCast T.DTYPE T.number cast rect.now (number_at tile.now)) }
{
    by_type!(tile.dtype(), cast_typed::<_, T>(room, tile, rect))
}

// A part of a tile of one known type as elements of another.
fn cast_typed<A: TileElem, T: TileElem>(
    room: Room<'_>,
    tile: &AnyTile,
    rect: &AnyRect,
) -> Result<Tile<T>, NoMemory>
    requires typed { dtype_of tile.now ≡ A.DTYPE }
    requires covers { Covers (rect_of tile.now) rect.now }
    ensures { IfOk result
        (λ cast. IsCast T.DTYPE T.number cast rect.now (number_at tile.now)) }
{
    let part = part_of::<A>(room.alloc(), tile, rect)?;
    Ok(cast_items::<A, T>(room, part.items(), rect)?)
}

/// The same number at each index, as elements of a known type.
pub fn fill_tile<T: TileElem>(
    room: Room<'_>,
    x: i128,
    rect: &AnyRect,
) -> Result<(AnyTile, Flag), NoMemory>
    ensures { IfOk result (Maps (ops.Fill x) T.DTYPE [] rect.now) }
{
    let tile = filled::<T>(room, x, rect)?;
    Ok((T::any(tile), Flag::Clear))
}

// A typed tile with the element of a number at each index.
fn filled<T: TileElem>(room: Room<'_>, x: i128, rect: &AnyRect) -> Result<Tile<T>, NoMemory>
    ensures { IfOk result (λ tile. IsCast T.DTYPE T.number tile rect.now (λ index. x)) }
{
    Ok(Tile::filled(room.alloc(), rect, T::wrap(x))?)
}

/// The numbers from this one on over one axis, as elements of a known type.
pub fn count_tile<T: TileElem>(
    room: Room<'_>,
    first: i128,
    rect: &AnyRect,
) -> Result<(AnyTile, Flag), NoMemory>
    requires number { IsConstant first }
    requires one { length rect.now ≡ 1 }
    ensures { IfOk result (Maps (ops.Count first) T.DTYPE [] rect.now) }
{
    let (low, _) = rect.range(0);
    let tile = count_from::<T>(room, first, low, rect)?;
    Ok((T::any(tile), Flag::Clear))
}

// The numbers from the one on that comes so many behind this one, place by place.
fn count_from<T: TileElem>(
    room: Room<'_>,
    first: i128,
    low: u64,
    rect: &AnyRect,
) -> Result<Tile<T>, NoMemory>
    requires { IsConstant first }
    ensures rect { IfOk result (λ tile. tile_rect tile ≡ rect.now) }
    ensures items { IfOk result (λ tile. map T.number (tile_items tile)
        ≡ listed (λ place. wrap T.DTYPE ((first +ℤ pos low) +ℤ pos place)) (volume_of rect.now)) }
{
    let mut tile = room.tile(rect)?;
    counted::<T>(tile.items_mut(), first, low);
    Ok(tile)
}

/// The numbers of an array over a part of its shape, as elements of a known type.
pub fn list_tile<T: TileElem>(
    room: Room<'_>,
    shape: &Shape,
    numbers: &[i128],
    rect: &AnyRect,
) -> Result<(AnyTile, Flag), NoMemory>
    requires full { length numbers.now ≡ size_of shape.now }
    requires small { size_of shape.now ≤ MAX_VOLUME }
    requires covers { Covers (whole shape.now) rect.now }
    ensures { IfOk result (IsListed T.DTYPE shape.now numbers.now rect.now) }
{
    let part = section_of(room.alloc(), numbers, &shape.whole(), rect)?;
    let tile = wrap_each::<T>(room, part.items(), rect)?;
    Ok((T::any(tile), Flag::Clear))
}

// A tile of the elements of a list of numbers.
fn wrap_each<T: TileElem>(
    room: Room<'_>,
    numbers: &[i128],
    rect: &AnyRect,
) -> Result<Tile<T>, NoMemory>
    requires { length numbers.now ≡ volume_of rect.now }
    ensures rect { IfOk result (λ tile. tile_rect tile ≡ rect.now) }
    ensures items { IfOk result (λ tile. map T.number (tile_items tile)
        ≡ listed (λ place. wrap T.DTYPE (slice_index_or numbers.now place (pos 0)))
        (volume_of rect.now)) }
{
    let mut tile = room.tile(rect)?;
    wrapped::<T>(tile.items_mut(), numbers);
    Ok(tile)
}
