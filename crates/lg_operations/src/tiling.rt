//! The evaluation of an operation on elements, tile after tile.
ghost use Rattle.std.specs.Prelude.{◌≡◌, ◌≤◌, [], ◌∷◌, ◌++◌, map, IfOk, OnOk};
ghost use Rattle.lg_space.specs.Rectangle.{combinations};
ghost use Rattle.lg_space.specs.Stored.{MAX_VOLUME};
ghost use Rattle.lg_shape.specs.Shapes.{size_of, whole};
ghost use Rattle.lg_map.specs.Mapping.{IsMap, Maps, first_flag};
ghost use Rattle.lg_operations.specs.Cutting.{InOrder};
ghost use Rattle.lg_operations.specs.Lending.{AreLentOver, Evaluates, Takes, lent_flags, lent_values};
ghost use Rattle.lg_operations.specs.Pieces.{tiles_of};

use crate::lending::Inputs;
use crate::parts::{Part, part_of};
use lg_elem::{DType, Flag};
use lg_map::{MapOp, map_tile};
use lg_outside::NoMemory;
use lg_part::{Grid, colors};
use lg_shape::Shape;
use lg_space::AnyRect;
use lg_tile::{AnyTile, Room, Spares, Tile, TileElem, by_type};

// About how many elements of a view are gathered at once, so that they are still in the cache when
// they are read.
const GATHERED: u64 = 32_768;

// How many tiles there are at most.
const MOST_TILES: u64 = 64;

/// The elements of an operation at all indices of a shape, and its first flag. The first axis is
/// cut into tiles, into more than are asked for where the elements of a view have to be gathered.
/// Where there are several, their elements lie one behind the other in the result.
pub fn evaluate(
    room: Room<'_>,
    pieces: u32,
    op: &MapOp,
    inputs: &Inputs<'_>,
    shape: &Shape,
    t: DType,
) -> Result<(AnyTile, Flag), NoMemory>
    requires some { 1 ≤ pieces }
    requires few { pieces ≤ 64 }
    requires small { size_of shape.now ≤ MAX_VOLUME }
    requires lent { AreLentOver (whole shape.now) inputs.now }
    requires takes { Takes op.now inputs.now (whole shape.now) t }
    ensures { IfOk result (Evaluates op.now t inputs.now (whole shape.now)) }
{
    let all = shape.whole();
    let grid = row_tiles(pieces_for(pieces, inputs, all.volume()), shape);
    if grid.count() == 1 {
        return evaluate_part(room, op, inputs, &all, t);
    }
    by_type!(t, in_rows::<_>(room, op, inputs, &all, &grid))
}

// Into how many tiles so many elements are cut.
fn pieces_for(pieces: u32, inputs: &Inputs<'_>, volume: u64) -> u32
    requires some { 1 ≤ pieces }
    requires few { pieces ≤ 64 }
    ensures some { 1 ≤ result }
    ensures few { result ≤ 64 }
{
    if !inputs.has_view() {
        return pieces;
    }
    pieces.max(volume.div_ceil(GATHERED).min(MOST_TILES) as u32)
}

// The tiles of a shape of which the first axis alone is cut.
fn row_tiles(pieces: u32, shape: &Shape) -> Grid
    requires some { 1 ≤ pieces }
    requires few { pieces ≤ 64 }
    requires small { size_of shape.now ≤ MAX_VOLUME }
    ensures { InOrder (combinations result) (whole shape.now) }
{
    let _shape = shape.extents();
    colors(pieces, shape, &[false, true, true, true])
}

// Tile after tile, each behind the ones before it.
fn in_rows<T: TileElem>(
    room: Room<'_>,
    op: &MapOp,
    inputs: &Inputs<'_>,
    all: &AnyRect,
    grid: &Grid,
) -> Result<(AnyTile, Flag), NoMemory>
    requires lent { AreLentOver all.now inputs.now }
    requires takes { Takes op.now inputs.now all.now T.DTYPE }
    requires cut { InOrder (combinations grid.now) all.now }
    ensures { IfOk result (Evaluates op.now T.DTYPE inputs.now all.now) }
{
    let mut items: Vec<T> = room.none_of(all.volume() as usize)?;
    let mut flag = Flag::Clear;
    // The memory of one tile serves the next.
    let spares = Spares::new();
    let own = Room::beside(room.alloc(), &spares);
    for color in 0..grid.count() {
        let next = append_tile(own, &mut items, op, inputs, &grid.tile(color))?;
        flag = first(flag, next);
    }
    Ok((T::any(Tile::new(*all, items)), flag))
}

// Appends the elements of a tile. Its flag is answered.
fn append_tile<T: TileElem>(
    room: Room<'_>,
    items: &mut Vec<T>,
    op: &MapOp,
    inputs: &Inputs<'_>,
    rect: &AnyRect,
) -> Result<Flag, NoMemory>
    requires lent { AreLentOver rect.now inputs.now }
    requires takes { Takes op.now inputs.now rect.now T.DTYPE }
    ensures numbers { OnOk result (map T.number items.new.items ≡ map T.number items.old.items
        ++ lent_values op.now T.DTYPE inputs.now rect.now) }
    ensures flag { IfOk result (λ flag. flag ≡ lent_flags op.now T.DTYPE inputs.now rect.now) }
{
    let (tile, flag) = evaluate_part(room, op, inputs, rect, T::DTYPE)?;
    items.extend_from_slice(T::tile_of(&tile).items())?;
    room.keep(tile);
    Ok(flag)
}

// The elements of one tile, of what is read over it.
fn evaluate_part(
    room: Room<'_>,
    op: &MapOp,
    inputs: &Inputs<'_>,
    rect: &AnyRect,
    t: DType,
) -> Result<(AnyTile, Flag), NoMemory>
    requires lent { AreLentOver rect.now inputs.now }
    requires takes { Takes op.now inputs.now rect.now t }
    ensures { IfOk result (Evaluates op.now t inputs.now rect.now) }
{
    let first = part_of(room, &inputs.first, rect)?;
    let second = part_of(room, &inputs.second, rect)?;
    let third = part_of(room, &inputs.third, rect)?;
    let answer = map_parts(room, op, (&first, &second, &third), rect, t);
    first.give_back(room);
    second.give_back(room);
    third.give_back(room);
    answer
}

// The elements of one tile, of three parts as the inputs.
fn map_parts(
    room: Room<'_>,
    op: &MapOp,
    parts: (&Part<'_>, &Part<'_>, &Part<'_>),
    rect: &AnyRect,
    t: DType,
) -> Result<(AnyTile, Flag), NoMemory>
    requires { IsMap op.now (tiles_of parts.0.now parts.1.now parts.2.now) rect.now t }
    ensures { IfOk result (Maps op.now t
        (tiles_of parts.entry.0.now parts.entry.1.now parts.entry.2.now) rect.now) }
{
    map_tile(
        room,
        op,
        &[parts.0.tile(), parts.1.tile(), parts.2.tile()],
        rect,
        t,
    )
}

// The first flag that is not clear.
fn first(flag: Flag, next: Flag) -> Flag
    ensures { result ≡ first_flag (flag ∷ next ∷ []) }
{
    if flag == Flag::Clear { next } else { flag }
}
