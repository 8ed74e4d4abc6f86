//! Operations on two operands.
ghost use Rattle.std.specs.Prelude.{◌≡◌, ℕ, length, map, IfOk};
ghost use Rattle.std.specs.List.{list_any};
ghost use Rattle.lg_elem.specs.declared.kinds.Binary.TheVariants as kinds;
ghost use Rattle.lg_elem.specs.Operations.{divisor_flag_of, flag_of, is_negative, is_zero, power_flag_of, value_of};
ghost use Rattle.lg_elem.specs.Types.{wrap};
ghost use Rattle.lg_space.specs.Rectangle.{volume_of};
ghost use Rattle.lg_tile.specs.Tile.{tile_items, tile_rect};
ghost use Rattle.lg_map.specs.declared.operation.MapOp.TheVariants as ops;
ghost use Rattle.lg_map.specs.Columns.{Fills, listed, number_in};
ghost use Rattle.lg_map.specs.Mapping.{IsOperand, Maps, first_flag};

use crate::Operand;
use crate::columns::{Constant, Values};
use crate::loops::{any_negative, any_zero, both, divided, remainders};
use crate::operands::operand;
use lg_divide::Divide;
use lg_elem::kernels::{
    Add, BitAnd, BitOr, BitXor, FloorDiv, Kernel, Max, Min, Mul, Pow, Rem, Shl, Shr, Sub,
};
use lg_elem::{Binary, Flag};
use lg_outside::NoMemory;
use lg_space::AnyRect;
use lg_tile::{AnyTile, Room, Tile, TileElem};

/// The operation on two operands, with results of a known type.
pub fn binary_tile<'a, T: TileElem + Divide>(
    room: Room<'_>,
    op: Binary,
    x: &Operand,
    y: &Operand,
    inputs: &'a [&'a AnyTile],
    rect: &AnyRect,
) -> Result<(AnyTile, Flag), NoMemory>
    requires first { IsOperand (map (λ input. input.now) inputs.now) rect.now x.now }
    requires second { IsOperand (map (λ input. input.now) inputs.now) rect.now y.now }
    ensures { IfOk result (Maps (ops.Binary op x.now y.now) T.DTYPE
        (map (λ input. input.now) inputs.now) rect.now) }
{
    let x = operand::<T>(room.alloc(), inputs, x, rect)?;
    let y = operand::<T>(room.alloc(), inputs, y, rect)?;
    let tile = combined(room, op, &x, &y, rect)?;
    let flag = fault(op, &y, rect.volume() as usize);
    Ok((T::any(tile), flag))
}

// The tile of the results.
fn combined<T: TileElem + Divide>(
    room: Room<'_>,
    op: Binary,
    x: &Values<T>,
    y: &Values<T>,
    rect: &AnyRect,
) -> Result<Tile<T>, NoMemory>
    requires first { Fills x.now (volume_of rect.now) }
    requires second { Fills y.now (volume_of rect.now) }
    ensures rect { IfOk result (λ tile. tile_rect tile ≡ rect.now) }
    ensures items { IfOk result (λ tile. map T.number (tile_items tile)
        ≡ listed (λ place. value_of op T.DTYPE (wrap T.DTYPE (number_in T.number x.now place))
        (wrap T.DTYPE (number_in T.number y.now place))) (volume_of rect.now)) }
{
    let mut tile = room.tile(rect)?;
    combine(op, tile.items_mut(), x, y);
    Ok(tile)
}

// Picks the loop of the operation.
fn combine<T: TileElem + Divide>(op: Binary, out: &mut [T], x: &Values<T>, y: &Values<T>)
    requires first { Fills x.now (length out.old) }
    requires second { Fills y.now (length out.old) }
    ensures { map T.number out.new
        ≡ listed (λ place. value_of op T.DTYPE (wrap T.DTYPE (number_in T.number x.now place))
        (wrap T.DTYPE (number_in T.number y.now place))) (length out.old) }
{
    match op {
        Binary::Add => combine_by::<T, Add>(out, x, y),
        Binary::Sub => combine_by::<T, Sub>(out, x, y),
        Binary::Mul => combine_by::<T, Mul>(out, x, y),
        Binary::FloorDiv => divide(out, x, y),
        Binary::Rem => leave(out, x, y),
        Binary::Pow => combine_by::<T, Pow>(out, x, y),
        Binary::BitAnd => combine_by::<T, BitAnd>(out, x, y),
        Binary::BitOr => combine_by::<T, BitOr>(out, x, y),
        Binary::BitXor => combine_by::<T, BitXor>(out, x, y),
        Binary::Shl => combine_by::<T, Shl>(out, x, y),
        Binary::Shr => combine_by::<T, Shr>(out, x, y),
        Binary::Min => combine_by::<T, Min>(out, x, y),
        Binary::Max => combine_by::<T, Max>(out, x, y),
    }
}

// The quotients. Those by a number go by its reciprocal.
fn divide<T: TileElem + Divide>(out: &mut [T], x: &Values<T>, y: &Values<T>)
    requires first { Fills x.now (length out.old) }
    requires second { Fills y.now (length out.old) }
    ensures { map T.number out.new
        ≡ listed (λ place. value_of kinds.FloorDiv T.DTYPE
        (wrap T.DTYPE (number_in T.number x.now place))
        (wrap T.DTYPE (number_in T.number y.now place))) (length out.old) }
{
    match (x, y) {
        (Values::Items(x), Values::Constant(y)) => divided(out, x.items(), *y),
        _ => combine_by::<T, FloorDiv>(out, x, y),
    }
}

// What the quotients leave, in the same way.
fn leave<T: TileElem + Divide>(out: &mut [T], x: &Values<T>, y: &Values<T>)
    requires first { Fills x.now (length out.old) }
    requires second { Fills y.now (length out.old) }
    ensures { map T.number out.new
        ≡ listed (λ place. value_of kinds.Rem T.DTYPE
        (wrap T.DTYPE (number_in T.number x.now place))
        (wrap T.DTYPE (number_in T.number y.now place))) (length out.old) }
{
    match (x, y) {
        (Values::Items(x), Values::Constant(y)) => remainders(out, x.items(), *y),
        _ => combine_by::<T, Rem>(out, x, y),
    }
}

// Picks the loop of the operands' kinds.
fn combine_by<T: TileElem, K: Kernel>(out: &mut [T], x: &Values<T>, y: &Values<T>)
    requires first { Fills x.now (length out.old) }
    requires second { Fills y.now (length out.old) }
    ensures { map T.number out.new
        ≡ listed (λ place. value_of K.kind T.DTYPE (wrap T.DTYPE (number_in T.number x.now place))
        (wrap T.DTYPE (number_in T.number y.now place))) (length out.old) }
{
    match (x, y) {
        (Values::Items(x), Values::Items(y)) => both::<T, K, _, _>(out, x.items(), y.items()),
        (Values::Items(x), Values::Constant(y)) => {
            both::<T, K, _, _>(out, x.items(), Constant(*y));
        }
        (Values::Constant(x), Values::Items(y)) => {
            both::<T, K, _, _>(out, Constant(*x), y.items());
        }
        (Values::Constant(x), Values::Constant(y)) => {
            both::<T, K, _, _>(out, Constant(*x), Constant(*y));
        }
    }
}

// The first flag of the operation that is not clear, by the second operand alone.
fn fault<T: TileElem>(op: Binary, y: &Values<T>, count: usize) -> Flag
    requires { Fills y.now count }
    ensures { result ≡ first_flag (map (flag_of op)
        (listed (λ place. wrap T.DTYPE (number_in T.number y.now place)) count)) }
{
    match op {
        Binary::FloorDiv | Binary::Rem => divisor_fault(y, count),
        Binary::Pow => power_fault(y, count),
        _ => Flag::Clear,
    }
}

// The first flag of a division.
#[tactic(auto, using(crate::proofs::FlagLemmas::divisor_flags))]
fn divisor_fault<T: TileElem>(y: &Values<T>, count: usize) -> Flag
    requires { Fills y.now count }
    ensures { result ≡ first_flag (map divisor_flag_of
        (listed (λ place. wrap T.DTYPE (number_in T.number y.now place)) count)) }
{
    if has_zero(y, count) {
        Flag::Divisor
    } else {
        Flag::Clear
    }
}

// The first flag of a power.
#[tactic(auto, using(crate::proofs::FlagLemmas::power_flags))]
fn power_fault<T: TileElem>(y: &Values<T>, count: usize) -> Flag
    requires { Fills y.now count }
    ensures { result ≡ first_flag (map power_flag_of
        (listed (λ place. wrap T.DTYPE (number_in T.number y.now place)) count)) }
{
    if has_negative(y, count) {
        Flag::Power
    } else {
        Flag::Clear
    }
}

// Whether an element is 0.
fn has_zero<T: TileElem>(y: &Values<T>, count: usize) -> bool
    requires { Fills y.now count }
    ensures { result ≡ list_any is_zero
        (listed (λ place. wrap T.DTYPE (number_in T.number y.now place)) count) }
{
    match y {
        Values::Items(y) => any_zero::<T, _>(y.items(), count),
        Values::Constant(y) => any_zero::<T, _>(Constant(*y), count),
    }
}

// Whether an element is below 0.
fn has_negative<T: TileElem>(y: &Values<T>, count: usize) -> bool
    requires { Fills y.now count }
    ensures { result ≡ list_any is_negative
        (listed (λ place. wrap T.DTYPE (number_in T.number y.now place)) count) }
{
    match y {
        Values::Items(y) => any_negative::<T, _>(y.items(), count),
        Values::Constant(y) => any_negative::<T, _>(Constant(*y), count),
    }
}
