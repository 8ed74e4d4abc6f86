//! One of two operands, by a third.
ghost use Rattle.std.specs.Prelude.{◌≡◌, ℕ, ◌<◌, length, map, IfOk, if◌then◌else◌, pos};
ghost use Rattle.std.specs.Int.{from_bool};
ghost use Rattle.lg_elem.specs.Operations.{is_zero};
ghost use Rattle.lg_elem.specs.Types.{wrap};
ghost use Rattle.lg_space.specs.Rectangle.{volume_of};
ghost use Rattle.lg_tile.specs.Tile.{tile_items, tile_rect};
ghost use Rattle.lg_map.specs.declared.operation.MapOp.TheVariants as ops;
ghost use Rattle.lg_map.specs.Columns.{Fills, listed, number_in};
ghost use Rattle.lg_map.specs.Mapping.{IsOperand, Maps};

use crate::Operand;
use crate::columns::{Column, Constant, Values};
use crate::loops::chosen;
use crate::operands::operand;
use lg_elem::Flag;
use lg_outside::NoMemory;
use lg_space::AnyRect;
use lg_tile::{AnyTile, Room, Tile, TileElem};

/// The first operand where the choice is not 0, else the second, as elements of a known type.
pub fn select_tile<'a, T: TileElem>(
    room: Room<'_>,
    choice: &Operand,
    x: &Operand,
    y: &Operand,
    inputs: &'a [&'a AnyTile],
    rect: &AnyRect,
) -> Result<(AnyTile, Flag), NoMemory>
    requires choice { IsOperand (map (λ input. input.now) inputs.now) rect.now choice.now }
    requires first { IsOperand (map (λ input. input.now) inputs.now) rect.now x.now }
    requires second { IsOperand (map (λ input. input.now) inputs.now) rect.now y.now }
    ensures { IfOk result (Maps (ops.Select choice.now x.now y.now) T.DTYPE
        (map (λ input. input.now) inputs.now) rect.now) }
{
    let choice = operand::<bool>(room.alloc(), inputs, choice, rect)?;
    let x = operand::<T>(room.alloc(), inputs, x, rect)?;
    let y = operand::<T>(room.alloc(), inputs, y, rect)?;
    let tile = selected(room, &choice, &x, &y, rect)?;
    Ok((T::any(tile), Flag::Clear))
}

// The tile of the results.
fn selected<T: TileElem>(
    room: Room<'_>,
    choice: &Values<bool>,
    x: &Values<T>,
    y: &Values<T>,
    rect: &AnyRect,
) -> Result<Tile<T>, NoMemory>
    requires choice { Fills choice.now (volume_of rect.now) }
    requires first { Fills x.now (volume_of rect.now) }
    requires second { Fills y.now (volume_of rect.now) }
    ensures rect { IfOk result (λ tile. tile_rect tile ≡ rect.now) }
    ensures items { IfOk result (λ tile. map T.number (tile_items tile)
        ≡ listed (λ place.
        if is_zero (number_in (λ b. pos (from_bool b)) choice.now place)
        then wrap T.DTYPE (number_in T.number y.now place)
        else wrap T.DTYPE (number_in T.number x.now place)) (volume_of rect.now)) }
{
    let mut tile = room.tile(rect)?;
    select(tile.items_mut(), choice, x, y);
    Ok(tile)
}

// Picks the loop of the choice's kind.
fn select<T: TileElem>(out: &mut [T], choice: &Values<bool>, x: &Values<T>, y: &Values<T>)
    requires choice { Fills choice.now (length out.old) }
    requires first { Fills x.now (length out.old) }
    requires second { Fills y.now (length out.old) }
    ensures { map T.number out.new
        ≡ listed (λ place.
        if is_zero (number_in (λ b. pos (from_bool b)) choice.now place)
        then wrap T.DTYPE (number_in T.number y.now place)
        else wrap T.DTYPE (number_in T.number x.now place)) (length out.old) }
{
    match choice {
        Values::Items(choice) => select_by(out, choice.items(), x, y),
        Values::Constant(choice) => select_by(out, Constant(*choice), x, y),
    }
}

// Picks the loop of the operands' kinds.
fn select_by<T: TileElem, C: Column<bool>>(out: &mut [T], choice: C, x: &Values<T>, y: &Values<T>)
    requires choice { (place : ℕ) → place < length out.old → C.reaches choice place }
    requires first { Fills x.now (length out.old) }
    requires second { Fills y.now (length out.old) }
    ensures { map T.number out.new
        ≡ listed (λ place. if is_zero (C.number_of choice place)
        then wrap T.DTYPE (number_in T.number y.now place)
        else wrap T.DTYPE (number_in T.number x.now place)) (length out.old) }
{
    match (x, y) {
        (Values::Items(x), Values::Items(y)) => {
            chosen::<T, C, _, _>(out, choice, x.items(), y.items());
        }
        (Values::Items(x), Values::Constant(y)) => {
            chosen::<T, C, _, _>(out, choice, x.items(), Constant(*y));
        }
        (Values::Constant(x), Values::Items(y)) => {
            chosen::<T, C, _, _>(out, choice, Constant(*x), y.items());
        }
        (Values::Constant(x), Values::Constant(y)) => {
            chosen::<T, C, _, _>(out, choice, Constant(*x), Constant(*y));
        }
    }
}
