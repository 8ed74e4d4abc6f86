//! Comparisons, by the operands' own numbers.
ghost use Rattle.std.specs.Prelude.{◌≡◌, ℕ, List, length, map, IfOk, true, ℤ, pos};
ghost use Rattle.std.specs.Int.{from_bool};
ghost use Rattle.lg_elem.specs.declared.dtype.DType.TheVariants.{Bool as Truth};
ghost use Rattle.lg_elem.specs.Operations.{compare_of};
ghost use Rattle.lg_elem.specs.Types.{IsNumber};
ghost use Rattle.lg_space.specs.Rectangle.{volume_of};
ghost use Rattle.lg_tile.specs.Sections.{Covers};
ghost use Rattle.lg_tile.specs.Tile.{tile_items, tile_rect};
ghost use Rattle.lg_tile.specs.Tiles.{dtype_of, number_at, rect_of};
ghost use Rattle.lg_map.specs.declared.operation.MapOp.TheVariants as ops;
ghost use Rattle.lg_map.specs.Columns.{IsTruths, item_at, listed};
ghost use Rattle.lg_map.specs.Mapping.{IsConstant, IsOperand, Maps, operand_at};

use crate::Operand;
use crate::columns::Constant;
use crate::loops::compared;
use crate::operands::{input, part_of};
use lg_elem::kernels::{Eq, Ge, Gt, Le, Lt, Ne};
use lg_elem::{Compare, Flag};
use lg_outside::NoMemory;
use lg_space::AnyRect;
use lg_tile::{AnyTile, Room, Tile, TileElem, by_type};

/// The comparison of two operands.
pub fn compare_tile<'a>(
    room: Room<'_>,
    op: Compare,
    x: &Operand,
    y: &Operand,
    inputs: &'a [&'a AnyTile],
    rect: &AnyRect,
) -> Result<(AnyTile, Flag), NoMemory>
    requires first { IsOperand (map (λ input. input.now) inputs.now) rect.now x.now }
    requires second { IsOperand (map (λ input. input.now) inputs.now) rect.now y.now }
    ensures { IfOk result (Maps (ops.Compare op x.now y.now) Truth
        (map (λ input. input.now) inputs.now) rect.now) }
{
    let tile = truths(room, op, x, y, inputs, rect)?;
    Ok((bool::any(tile), Flag::Clear))
}

// The tile of the truth values, by the kinds of the operands.
fn truths<'a>(
    room: Room<'_>,
    op: Compare,
    x: &Operand,
    y: &Operand,
    inputs: &'a [&'a AnyTile],
    rect: &AnyRect,
) -> Result<Tile<bool>, NoMemory>
    requires first { IsOperand (map (λ input. input.now) inputs.now) rect.now x.now }
    requires second { IsOperand (map (λ input. input.now) inputs.now) rect.now y.now }
    ensures { IfOk result (λ tile. IsTruths tile rect.now op
        (operand_at (map (λ input. input.now) inputs.now) x.now)
        (operand_at (map (λ input. input.now) inputs.now) y.now)) }
{
    match (x, y) {
        (Operand::Input(x), Operand::Input(y)) => {
            let (x, y) = (input(inputs, *x, rect), input(inputs, *y, rect));
            Ok(compare_tiles(room, op, x, y, rect)?)
        }
        (Operand::Input(x), Operand::Constant(y)) => {
            Ok(compare_number(room, op, input(inputs, *x, rect), *y, rect)?)
        }
        (Operand::Constant(x), Operand::Input(y)) => {
            Ok(compare_from(room, op, *x, input(inputs, *y, rect), rect)?)
        }
        (Operand::Constant(x), Operand::Constant(y)) => {
            Ok(compare_numbers(room, op, *x, *y, rect)?)
        }
    }
}

// The comparison that says the same with its operands exchanged.
fn mirrored(op: Compare) -> Compare
    ensures { (x y : ℤ) → compare_of result y x ≡ compare_of op x y }
{
    match op {
        Compare::Eq => Compare::Eq,
        Compare::Ne => Compare::Ne,
        Compare::Lt => Compare::Gt,
        Compare::Le => Compare::Ge,
        Compare::Gt => Compare::Lt,
        Compare::Ge => Compare::Le,
    }
}

// A number and a tile of any type.
#[tactic(auto, using(crate::proofs::MapLemmas::mirrored_truths))]
fn compare_from(
    room: Room<'_>,
    op: Compare,
    x: i128,
    y: &AnyTile,
    rect: &AnyRect,
) -> Result<Tile<bool>, NoMemory>
    requires number { IsConstant x }
    requires covers { Covers (rect_of y.now) rect.now }
    ensures { IfOk result
        (λ tile. IsTruths tile rect.now op (λ index. x) (number_at y.now)) }
{
    Ok(compare_number(room, mirrored(op), y, x, rect)?)
}

// Two tiles of any types.
fn compare_tiles(
    room: Room<'_>,
    op: Compare,
    x: &AnyTile,
    y: &AnyTile,
    rect: &AnyRect,
) -> Result<Tile<bool>, NoMemory>
    requires first { Covers (rect_of x.now) rect.now }
    requires second { Covers (rect_of y.now) rect.now }
    ensures { IfOk result
        (λ tile. IsTruths tile rect.now op (number_at x.now) (number_at y.now)) }
{
    by_type!(x.dtype(), compare_left::<_>(room, op, x, y, rect))
}

// Two tiles, of which the first has a known type.
fn compare_left<A: TileElem>(
    room: Room<'_>,
    op: Compare,
    x: &AnyTile,
    y: &AnyTile,
    rect: &AnyRect,
) -> Result<Tile<bool>, NoMemory>
    requires typed { dtype_of x.now ≡ A.DTYPE }
    requires first { Covers (rect_of x.now) rect.now }
    requires second { Covers (rect_of y.now) rect.now }
    ensures { IfOk result
        (λ tile. IsTruths tile rect.now op (number_at x.now) (number_at y.now)) }
{
    by_type!(y.dtype(), compare_typed::<_, A>(room, op, x, y, rect))
}

// Two tiles of known types.
fn compare_typed<B: TileElem, A: TileElem>(
    room: Room<'_>,
    op: Compare,
    x: &AnyTile,
    y: &AnyTile,
    rect: &AnyRect,
) -> Result<Tile<bool>, NoMemory>
    requires left { dtype_of x.now ≡ A.DTYPE }
    requires right { dtype_of y.now ≡ B.DTYPE }
    requires first { Covers (rect_of x.now) rect.now }
    requires second { Covers (rect_of y.now) rect.now }
    ensures { IfOk result
        (λ tile. IsTruths tile rect.now op (number_at x.now) (number_at y.now)) }
{
    let x = part_of::<A>(room.alloc(), x, rect)?;
    let y = part_of::<B>(room.alloc(), y, rect)?;
    Ok(compare_lists::<A, B>(room, op, x.items(), y.items(), rect)?)
}

// The truth values of two lists.
fn compare_lists<A: TileElem, B: TileElem>(
    room: Room<'_>,
    op: Compare,
    x: &[A],
    y: &[B],
    rect: &AnyRect,
) -> Result<Tile<bool>, NoMemory>
    requires first { length x.now ≡ volume_of rect.now }
    requires second { length y.now ≡ volume_of rect.now }
    ensures rect { IfOk result (λ tile. tile_rect tile ≡ rect.now) }
    ensures items { IfOk result (λ tile. map (λ b. pos (from_bool b)) (tile_items tile)
        ≡ listed (λ place. pos (from_bool (compare_of op (item_at A.number x.now place)
        (item_at B.number y.now place)))) (volume_of rect.now)) }
{
    let mut tile = room.tile(rect)?;
    compare_each(op, tile.items_mut(), x, y);
    Ok(tile)
}

// Picks the loop of the comparison.
fn compare_each<A: TileElem, B: TileElem>(op: Compare, out: &mut [bool], x: &[A], y: &[B])
    requires first { length x.now ≡ length out.old }
    requires second { length y.now ≡ length out.old }
    ensures { map (λ b. pos (from_bool b)) out.new
        ≡ listed (λ place. pos (from_bool (compare_of op (item_at A.number x.now place)
        (item_at B.number y.now place)))) (length out.old) }
{
    match op {
        Compare::Eq => compared::<A, B, Eq, _, _>(out, x, y),
        Compare::Ne => compared::<A, B, Ne, _, _>(out, x, y),
        Compare::Lt => compared::<A, B, Lt, _, _>(out, x, y),
        Compare::Le => compared::<A, B, Le, _, _>(out, x, y),
        Compare::Gt => compared::<A, B, Gt, _, _>(out, x, y),
        Compare::Ge => compared::<A, B, Ge, _, _>(out, x, y),
    }
}

// A tile of any type and a number.
fn compare_number(
    room: Room<'_>,
    op: Compare,
    x: &AnyTile,
    y: i128,
    rect: &AnyRect,
) -> Result<Tile<bool>, NoMemory>
    requires covers { Covers (rect_of x.now) rect.now }
    requires number { IsConstant y }
    ensures { IfOk result
        (λ tile. IsTruths tile rect.now op (number_at x.now) (λ index. y)) }
{
    by_type!(x.dtype(), compare_typed_number::<_>(room, op, x, y, rect))
}

// A tile of a known type and a number.
fn compare_typed_number<A: TileElem>(
    room: Room<'_>,
    op: Compare,
    x: &AnyTile,
    y: i128,
    rect: &AnyRect,
) -> Result<Tile<bool>, NoMemory>
    requires typed { dtype_of x.now ≡ A.DTYPE }
    requires covers { Covers (rect_of x.now) rect.now }
    requires number { IsConstant y }
    ensures { IfOk result
        (λ tile. IsTruths tile rect.now op (number_at x.now) (λ index. y)) }
{
    let x = part_of::<A>(room.alloc(), x, rect)?;
    Ok(compare_items::<A>(room, op, x.items(), y, rect)?)
}

// The truth values of a list and a number. The number is compared as an element: of the same type
// where that has it, so that equal types are compared, else of one that has it.
fn compare_items<A: TileElem>(
    room: Room<'_>,
    op: Compare,
    x: &[A],
    y: i128,
    rect: &AnyRect,
) -> Result<Tile<bool>, NoMemory>
    requires full { length x.now ≡ volume_of rect.now }
    requires number { IsConstant y }
    ensures rect { IfOk result (λ tile. tile_rect tile ≡ rect.now) }
    ensures items { IfOk result (λ tile. map (λ b. pos (from_bool b)) (tile_items tile)
        ≡ listed (λ place. pos (from_bool (compare_of op (item_at A.number x.now place) y)))
        (volume_of rect.now)) }
{
    if has_number::<A>(y) {
        return compare_as::<A, A>(room, op, x, y, rect);
    }
    if y <= i128::from(i64::MAX) {
        return compare_as::<A, i64>(room, op, x, y, rect);
    }
    compare_as::<A, u64>(room, op, x, y, rect)
}

// Whether the type has the number.
fn has_number<B: TileElem>(y: i128) -> bool
    ensures { result ≡ true → IsNumber B.DTYPE y }
{
    B::wrap(y).value() == y
}

// The truth values of a list and a number that a type has.
#[tactic(auto, using(lg_elem::proofs::WrapLemmas::wrap_same))]
fn compare_as<A: TileElem, B: TileElem>(
    room: Room<'_>,
    op: Compare,
    x: &[A],
    y: i128,
    rect: &AnyRect,
) -> Result<Tile<bool>, NoMemory>
    requires full { length x.now ≡ volume_of rect.now }
    requires number { IsNumber B.DTYPE y }
    ensures rect { IfOk result (λ tile. tile_rect tile ≡ rect.now) }
    ensures items { IfOk result (λ tile. map (λ b. pos (from_bool b)) (tile_items tile)
        ≡ listed (λ place. pos (from_bool (compare_of op (item_at A.number x.now place) y)))
        (volume_of rect.now)) }
{
    let mut tile = room.tile(rect)?;
    compare_to(op, tile.items_mut(), x, element::<B>(y));
    Ok(tile)
}

// The element of a number that the type has.
#[tactic(auto, using(lg_elem::proofs::WrapLemmas::wrap_same))]
fn element<B: TileElem>(y: i128) -> B
    requires { IsNumber B.DTYPE y }
    ensures { B.number result ≡ y }
{
    B::wrap(y)
}

// Picks the loop of the comparison.
fn compare_to<A: TileElem, B: TileElem>(op: Compare, out: &mut [bool], x: &[A], y: B)
    requires { length x.now ≡ length out.old }
    ensures { map (λ b. pos (from_bool b)) out.new
        ≡ listed (λ place. pos (from_bool (compare_of op (item_at A.number x.now place)
        (B.number y)))) (length out.old) }
{
    match op {
        Compare::Eq => compared::<A, B, Eq, _, _>(out, x, Constant(y)),
        Compare::Ne => compared::<A, B, Ne, _, _>(out, x, Constant(y)),
        Compare::Lt => compared::<A, B, Lt, _, _>(out, x, Constant(y)),
        Compare::Le => compared::<A, B, Le, _, _>(out, x, Constant(y)),
        Compare::Gt => compared::<A, B, Gt, _, _>(out, x, Constant(y)),
        Compare::Ge => compared::<A, B, Ge, _, _>(out, x, Constant(y)),
    }
}

// Two numbers, which compare so at each index or at none.
fn compare_numbers(
    room: Room<'_>,
    op: Compare,
    x: i128,
    y: i128,
    rect: &AnyRect,
) -> Result<Tile<bool>, NoMemory>
    ensures { IfOk result (λ tile. IsTruths tile rect.now op (λ index. x) (λ index. y)) }
{
    Ok(Tile::filled(room.alloc(), rect, holds(op, x, y))?)
}

// Whether two numbers compare so.
fn holds(op: Compare, x: i128, y: i128) -> bool
    ensures { result ≡ compare_of op x y }
{
    match op {
        Compare::Eq => x <= y && y <= x,
        Compare::Ne => x < y || y < x,
        Compare::Lt => x < y,
        Compare::Le => x <= y,
        Compare::Gt => y < x,
        Compare::Ge => y <= x,
    }
}
