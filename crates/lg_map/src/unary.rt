//! Operations on one operand.
ghost use Rattle.std.specs.Prelude.{◌≡◌, ℕ, length, map, IfOk};
ghost use Rattle.lg_elem.specs.Operations.{unary_of};
ghost use Rattle.lg_elem.specs.Types.{wrap};
ghost use Rattle.lg_space.specs.Rectangle.{volume_of};
ghost use Rattle.lg_tile.specs.Tile.{tile_items, tile_rect};
ghost use Rattle.lg_map.specs.declared.operation.MapOp.TheVariants as ops;
ghost use Rattle.lg_map.specs.Columns.{Fills, listed, number_in};
ghost use Rattle.lg_map.specs.Mapping.{IsOperand, Maps};

use crate::Operand;
use crate::columns::{Constant, Values};
use crate::loops::each_one;
use crate::operands::operand;
use lg_elem::kernels::{Abs, Invert, Neg, UnaryKernel};
use lg_elem::{Flag, Unary};
use lg_outside::NoMemory;
use lg_space::AnyRect;
use lg_tile::{AnyTile, Room, Tile, TileElem};

/// The operation on one operand, with results of a known type.
pub fn unary_tile<'a, T: TileElem>(
    room: Room<'_>,
    op: Unary,
    x: &Operand,
    inputs: &'a [&'a AnyTile],
    rect: &AnyRect,
) -> Result<(AnyTile, Flag), NoMemory>
    requires { IsOperand (map (λ input. input.now) inputs.now) rect.now x.now }
    ensures { IfOk result (Maps (ops.Unary op x.now) T.DTYPE
        (map (λ input. input.now) inputs.now) rect.now) }
{
    let x = operand::<T>(room.alloc(), inputs, x, rect)?;
    let tile = applied(room, op, &x, rect)?;
    Ok((T::any(tile), Flag::Clear))
}

// The tile of the results.
fn applied<T: TileElem>(
    room: Room<'_>,
    op: Unary,
    x: &Values<T>,
    rect: &AnyRect,
) -> Result<Tile<T>, NoMemory>
    requires { Fills x.now (volume_of rect.now) }
    ensures rect { IfOk result (λ tile. tile_rect tile ≡ rect.now) }
    ensures items { IfOk result (λ tile. map T.number (tile_items tile)
        ≡ listed (λ place. unary_of op T.DTYPE (wrap T.DTYPE (number_in T.number x.now place)))
        (volume_of rect.now)) }
{
    let mut tile = room.tile(rect)?;
    apply(op, tile.items_mut(), x);
    Ok(tile)
}

// Picks the loop of the operation.
fn apply<T: TileElem>(op: Unary, out: &mut [T], x: &Values<T>)
    requires { Fills x.now (length out.old) }
    ensures { map T.number out.new
        ≡ listed (λ place. unary_of op T.DTYPE (wrap T.DTYPE (number_in T.number x.now place)))
        (length out.old) }
{
    match op {
        Unary::Neg => apply_by::<T, Neg>(out, x),
        Unary::Invert => apply_by::<T, Invert>(out, x),
        Unary::Abs => apply_by::<T, Abs>(out, x),
    }
}

// Picks the loop of the operand's kind.
fn apply_by<T: TileElem, K: UnaryKernel>(out: &mut [T], x: &Values<T>)
    requires { Fills x.now (length out.old) }
    ensures { map T.number out.new
        ≡ listed (λ place. unary_of K.kind T.DTYPE (wrap T.DTYPE (number_in T.number x.now place)))
        (length out.old) }
{
    match x {
        Values::Items(x) => each_one::<T, K, _>(out, x.items()),
        Values::Constant(x) => each_one::<T, K, _>(out, Constant(*x)),
    }
}
