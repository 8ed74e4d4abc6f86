ghost use Rattle.std.specs.Prelude.{◌≡◌, ℕ, ◌≤◌, [], length, map, IfOk};
ghost use Rattle.lg_elem.specs.declared.dtype.DType.TheVariants.{Bool as Truth};
ghost use Rattle.lg_space.specs.Stored.{MAX_VOLUME};
ghost use Rattle.lg_shape.specs.Shapes.{size_of, whole};
ghost use Rattle.lg_tile.specs.Sections.{Covers};
ghost use Rattle.lg_map.specs.declared.operation.MapOp.TheVariants as ops;
ghost use Rattle.lg_map.specs.Columns.{IsListed};
ghost use Rattle.lg_map.specs.Mapping.{IsConstant, IsMap, IsOperand, Maps};

use crate::binary::binary_tile;
use crate::compare::compare_tile;
use crate::making::{cast_tile, count_tile, fill_tile, list_tile};
use crate::select::select_tile;
use crate::unary::unary_tile;
use crate::{MapOp, Operand};
use lg_elem::{Binary, DType, Flag, Unary};
use lg_outside::NoMemory;
use lg_shape::Shape;
use lg_space::AnyRect;
use lg_tile::{AnyTile, Room, by_type};

/// The tile over a rectangle that an elementwise operation gives, with elements of type `t`, and
/// the operation's flag: the first in row-major order that is not `Clear`, if there is one. Where
/// the flag of an index is not `Clear` its element is 0. Inputs are read at the indices of the
/// rectangle alone. The tile's elements take the room that is given. The only error is that there is
/// no memory.
pub fn map_tile(
    room: Room<'_>,
    op: &MapOp,
    inputs: &[&AnyTile],
    rect: &AnyRect,
    t: DType,
) -> Result<(AnyTile, Flag), NoMemory>
    requires { IsMap op.now (map (λ input. input.now) inputs.now) rect.now t }
    ensures { IfOk result (Maps op.now t (map (λ input. input.now) inputs.now) rect.now) }
{
    match op {
        MapOp::Unary(op, x) => Ok(unary(room, *op, x, inputs, rect, t)?),
        MapOp::Binary(op, x, y) => Ok(binary(room, *op, x, y, inputs, rect, t)?),
        MapOp::Compare(op, x, y) => Ok(compare_tile(room, *op, x, y, inputs, rect)?),
        MapOp::Select(choice, x, y) => Ok(select(room, choice, x, y, inputs, rect, t)?),
        MapOp::Cast(x) => Ok(cast(room, x, inputs, rect, t)?),
        MapOp::Fill(x) => Ok(fill(room, *x, rect, t)?),
        MapOp::Count(first) => Ok(count(room, *first, rect, t)?),
        MapOp::List(shape, numbers) => Ok(list(room, shape, numbers.as_slice(), rect, t)?),
    }
}

// Picks the result's type.
fn unary<'a>(
    room: Room<'_>,
    op: Unary,
    x: &Operand,
    inputs: &'a [&'a AnyTile],
    rect: &AnyRect,
    t: DType,
) -> Result<(AnyTile, Flag), NoMemory>
    requires { IsOperand (map (λ input. input.now) inputs.now) rect.now x.now }
    ensures { IfOk result
        (Maps (ops.Unary op x.now) t (map (λ input. input.now) inputs.now) rect.now) }
{
    by_type!(t, unary_tile::<_>(room, op, x, inputs, rect))
}

// Picks the result's type.
fn binary<'a>(
    room: Room<'_>,
    op: Binary,
    x: &Operand,
    y: &Operand,
    inputs: &'a [&'a AnyTile],
    rect: &AnyRect,
    t: DType,
) -> Result<(AnyTile, Flag), NoMemory>
    requires first { IsOperand (map (λ input. input.now) inputs.now) rect.now x.now }
    requires second { IsOperand (map (λ input. input.now) inputs.now) rect.now y.now }
    ensures { IfOk result
        (Maps (ops.Binary op x.now y.now) t (map (λ input. input.now) inputs.now) rect.now) }
{
    by_type!(t, binary_tile::<_>(room, op, x, y, inputs, rect))
}

// Picks the result's type.
fn select<'a>(
    room: Room<'_>,
    choice: &Operand,
    x: &Operand,
    y: &Operand,
    inputs: &'a [&'a AnyTile],
    rect: &AnyRect,
    t: DType,
) -> Result<(AnyTile, Flag), NoMemory>
    requires choice { IsOperand (map (λ input. input.now) inputs.now) rect.now choice.now }
    requires first { IsOperand (map (λ input. input.now) inputs.now) rect.now x.now }
    requires second { IsOperand (map (λ input. input.now) inputs.now) rect.now y.now }
    ensures { IfOk result (Maps (ops.Select choice.now x.now y.now) t
        (map (λ input. input.now) inputs.now) rect.now) }
{
    by_type!(t, select_tile::<_>(room, choice, x, y, inputs, rect))
}

// Picks the result's type.
fn cast<'a>(
    room: Room<'_>,
    x: &Operand,
    inputs: &'a [&'a AnyTile],
    rect: &AnyRect,
    t: DType,
) -> Result<(AnyTile, Flag), NoMemory>
    requires { IsOperand (map (λ input. input.now) inputs.now) rect.now x.now }
    ensures { IfOk result
        (Maps (ops.Cast x.now) t (map (λ input. input.now) inputs.now) rect.now) }
{
    by_type!(t, cast_tile::<_>(room, x, inputs, rect))
}

// Picks the result's type.
fn fill(room: Room<'_>, x: i128, rect: &AnyRect, t: DType) -> Result<(AnyTile, Flag), NoMemory>
    ensures { IfOk result (Maps (ops.Fill x) t [] rect.now) }
{
    by_type!(t, fill_tile::<_>(room, x, rect))
}

// Picks the result's type.
fn count(room: Room<'_>, first: i128, rect: &AnyRect, t: DType) -> Result<(AnyTile, Flag), NoMemory>
    requires number { IsConstant first }
    requires one { length rect.now ≡ 1 }
    ensures { IfOk result (Maps (ops.Count first) t [] rect.now) }
{
    by_type!(t, count_tile::<_>(room, first, rect))
}

// Picks the result's type.
fn list(
    room: Room<'_>,
    shape: &Shape,
    numbers: &[i128],
    rect: &AnyRect,
    t: DType,
) -> Result<(AnyTile, Flag), NoMemory>
    requires full { length numbers.now ≡ size_of shape.now }
    requires small { size_of shape.now ≤ MAX_VOLUME }
    requires covers { Covers (whole shape.now) rect.now }
    ensures { IfOk result (IsListed t shape.now numbers.now rect.now) }
{
    by_type!(t, list_tile::<_>(room, shape, numbers, rect))
}
