ghost use Rattle.std.specs.Prelude.{◌≡◌, ◌≤◌, [], length, map, pos, IfOk, IfSome, All};
ghost use Rattle.lg_space.specs.Stored.{MAX_VOLUME};
ghost use Rattle.lg_map.specs.Mapping.{IsMap};
ghost use Rattle.std.specs.Option.{option_copied};
ghost use Rattle.lg_elem.specs.declared.dtype.DType.TheVariants.{Int64};
ghost use Rattle.lg_shape.specs.Shapes.{size_of, whole};
ghost use Rattle.lg_meaning.specs.Weak.{number_of, integer};
ghost use Rattle.lg_meaning.specs.Creation.{full_static, shaped, type_or, arange_static, array_static, list_type, filled, counted as counted_from, listed as listed_as};
ghost use Rattle.lg_operations.specs.Operations.{weak_of, IsMade, IsRanged};
ghost use Rattle.lg_operations.specs.Ruling.{IsNew};

use crate::end::EvaluateEnd;
use crate::lending::{Inputs, Lent};
use crate::tiling::evaluate;
use crate::values::{Fresh, Weak};
use crate::weak::number;
use crate::written::{rule_of_counted, rule_of_full, rule_of_listed, shaped, type_or};
use lg_elem::DType;
use lg_map::MapOp;
use lg_shape::Shape;
use lg_store::Right;
use lg_tile::Room;
use sqlite_items::Items;
use std::alloc::{AllocError, Global};

/// An array of these extents with the same number everywhere (NumPy's reference, "numpy.full").
/// Where no type is written it is int64, or bool for a truth value.
///
/// # Errors
///
/// `Range` where the number does not fit the type, then `Shape` where an extent is below 0 or there
/// are too many axes, then `Limit`; and `NoMemory`.
pub fn full(
    room: Room<'_>,
    pieces: u32,
    extents: &[i128],
    x: Weak,
    dtype: Option<DType>,
) -> Result<Fresh, EvaluateEnd>
    requires some { 1 ≤ pieces }
    requires few { pieces ≤ 64 }
    requires ranged { IsRanged (weak_of x) }
    ensures { IsMade (full_static extents.now (weak_of x) dtype)
        (filled (number_of (weak_of x))) result }
{
    let (t, shape) = rule_of_full(extents, x, dtype)?;
    evaluate_new(room, pieces, &MapOp::Fill(number(x)), &shape, t)
}

/// An array of these extents with 0 everywhere, of int64 where no type is written (NumPy's
/// reference, "numpy.zeros").
///
/// # Errors
///
/// `Shape` where an extent is below 0 or there are too many axes, then `Limit`; and `NoMemory`.
pub fn zeros(
    room: Room<'_>,
    pieces: u32,
    extents: &[i128],
    dtype: Option<DType>,
) -> Result<Fresh, EvaluateEnd>
    requires some { 1 ≤ pieces }
    requires few { pieces ≤ 64 }
    ensures { IsMade (shaped (type_or dtype Int64) extents.now) (filled (pos 0)) result }
{
    let (t, shape) = shaped(type_or(dtype, DType::Int64), extents)?;
    evaluate_new(room, pieces, &MapOp::Fill(0), &shape, t)
}

/// The same with 1 everywhere (NumPy's reference, "numpy.ones").
///
/// # Errors
///
/// `Shape` where an extent is below 0 or there are too many axes, then `Limit`; and `NoMemory`.
pub fn ones(
    room: Room<'_>,
    pieces: u32,
    extents: &[i128],
    dtype: Option<DType>,
) -> Result<Fresh, EvaluateEnd>
    requires some { 1 ≤ pieces }
    requires few { pieces ≤ 64 }
    ensures { IsMade (shaped (type_or dtype Int64) extents.now) (filled (pos 1)) result }
{
    let (t, shape) = shaped(type_or(dtype, DType::Int64), extents)?;
    evaluate_new(room, pieces, &MapOp::Fill(1), &shape, t)
}

/// The numbers from one up to another, which is no longer among them (NumPy's reference,
/// "numpy.arange").
///
/// # Errors
///
/// `TypeKind` for bool, `Range` where the first or the last number does not fit the type, then
/// `Limit`; and `NoMemory`.
pub fn counted(
    room: Room<'_>,
    pieces: u32,
    from: i128,
    to: i128,
    dtype: DType,
) -> Result<Fresh, EvaluateEnd>
    requires some { 1 ≤ pieces }
    requires few { pieces ≤ 64 }
    requires first { IsRanged (integer from) }
    requires second { IsRanged (integer to) }
    ensures { IsMade (arange_static from to dtype) (counted_from from) result }
{
    let (t, shape) = rule_of_counted(from, to, dtype)?;
    evaluate_new(room, pieces, &MapOp::Count(from), &shape, t)
}

/// An array of these numbers, in row-major order of a shape (NumPy's reference, "numpy.array").
/// Where no type is written it is int64, or bool where all are truth values and there is one. No
/// shape is given where the written lists are not alike.
///
/// # Errors
///
/// `Range` where a number does not fit the type, then `Shape`, then `Limit`; and `NoMemory`.
pub fn listed(
    room: Room<'_>,
    pieces: u32,
    weaks: &[Weak],
    shape: Option<&[u64]>,
    dtype: Option<DType>,
) -> Result<Fresh, EvaluateEnd>
    requires some { 1 ≤ pieces }
    requires few { pieces ≤ 64 }
    requires ranged { All (λ w. IsRanged (weak_of w)) weaks.now }
    requires full { IfSome shape (λ shape. length weaks.now ≡ size_of shape.now) }
    ensures { IsMade (array_static (option_copied shape.entry)
        (map weak_of weaks.now) (type_or dtype (list_type (map weak_of weaks.now))))
        (listed_as (map (λ w. number_of (weak_of w)) weaks.now)) result }
{
    let (t, shape) = rule_of_listed(weaks, shape, dtype)?;
    let numbers = Items::from_vec(numbers_of(room.alloc(), weaks)?);
    evaluate_new(room, pieces, &MapOp::List(shape, numbers), &shape, t)
}

// A new array of an operation without operands, which may be written.
fn evaluate_new(
    room: Room<'_>,
    pieces: u32,
    op: &MapOp,
    shape: &Shape,
    t: DType,
) -> Result<Fresh, EvaluateEnd>
    requires some { 1 ≤ pieces }
    requires few { pieces ≤ 64 }
    requires small { size_of shape.now ≤ MAX_VOLUME }
    requires map { IsMap op.now [] (whole shape.now) t }
    ensures { IsNew op.now t shape.now result }
{
    let none = Inputs {
        first: Lent::Number(0),
        second: Lent::Number(0),
        third: Lent::Number(0),
    };
    let (tile, _) = evaluate(room, pieces, op, &none, shape, t)?;
    Ok(Fresh {
        tile,
        right: Right::Writable,
        fault: None,
    })
}

// The numbers that weak values count as.
fn numbers_of(alloc: Global, weaks: &[Weak]) -> Result<Vec<i128>, AllocError>
    ensures { IfOk result
        (λ numbers. numbers.items ≡ map (λ w. number_of (weak_of w)) weaks.now) }
{
    weaks.iter().map(|w| number(*w)).collect(alloc)
}
