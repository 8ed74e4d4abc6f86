//! What a target that is written takes of a value: the value's elements, repeated to the target's
//! shape, as elements of its type.
ghost use Rattle.std.specs.Prelude.{◌≡◌, ◌≤◌, ◌==◌, ◌++◌, map, replicate, reverse, IfOk, IsTrue, Ok};
ghost use Rattle.std.specs.List.{list_all};
ghost use Rattle.lg_elem.specs.Types.{wrap};
ghost use Rattle.lg_space.specs.Stored.{MAX_VOLUME};
ghost use Rattle.lg_shape.specs.Shapes.{size_of, whole};
ghost use Rattle.lg_tile.specs.Tiles.{dtype_of, numbers, rect_of};
ghost use Rattle.lg_meaning.specs.Assignments.{is_taken as is_taken_of, is_writable as is_writable_of, fills as fills_of, surplus};
ghost use Rattle.lg_meaning.specs.Static.{array_value, shape_of as shape_of_static};
ghost use Rattle.lg_meaning.specs.Value.{spread};
ghost use Rattle.lg_meaning.specs.Views.{broadcasts_to};
ghost use Rattle.lg_operations.specs.Lending.{SpreadsTo};
ghost use Rattle.lg_operations.specs.Views.{view_of};
ghost use Rattle.lg_operations.specs.Operations.{operand_static, operand_value, fresh_kind, fresh_value, right_for, IsReady, IsWhole};
ghost use Rattle.lg_operations.specs.Repeating.{repeats_axes};
ghost use Rattle.lg_operations.specs.Taking.{taking, update_rule, IsTakenBy};

use crate::end::EvaluateEnd;
use crate::lending::{Inputs, Lent, lend, numbers_fit};
use crate::reshaping::in_shape;
use crate::rules::{shape_in, shape_of};
use crate::tiling::evaluate;
use crate::values::{Fresh, Operand};
use crate::weak::number;
use crate::written::is_literal;
use lg_elem::DType;
use lg_map::MapOp;
use lg_meaning::FaultKind;
use lg_outside::NoMemory;
use lg_promote::same_kind;
use lg_shape::Shape;
use lg_store::{Right, View};
use lg_tile::{AnyTile, Room};

/// What a target of this type and shape takes of an operand.
///
/// # Errors
///
/// `Range` where a weak number does not fit the type, then `Shape` where the operand does not fill
/// the shape, and `NoMemory`.
pub fn taken(
    room: Room<'_>,
    pieces: u32,
    a: &Operand<'_>,
    t: DType,
    shape: &Shape,
) -> Result<Fresh, EvaluateEnd>
    requires some { 1 ≤ pieces }
    requires few { pieces ≤ 64 }
    requires ready { IsReady a.now }
    requires small { size_of shape.now ≤ MAX_VOLUME }
    ensures { IsTakenBy (taking t shape.now (operand_static a.now)) t shape.now
        (operand_value a.now) result }
{
    rule_of_taking(a, t, shape)?;
    let padded = padded(&shape_of(a), shape);
    let tile = cast(room, pieces, a, t, &padded)?;
    Ok(Fresh {
        tile: in_shape(tile, shape),
        right: Right::Writable,
        fault: a.fault(),
    })
}

/// The same of a new array, which is taken as it is where it has this type and shape.
///
/// # Errors
///
/// `Shape` where the array does not fill the shape, and `NoMemory`.
pub fn taken_fresh(
    room: Room<'_>,
    pieces: u32,
    fresh: Fresh,
    t: DType,
    shape: &Shape,
) -> Result<Fresh, EvaluateEnd>
    requires some { 1 ≤ pieces }
    requires few { pieces ≤ 64 }
    requires whole { IsWhole fresh.tile }
    requires small { size_of shape.now ≤ MAX_VOLUME }
    ensures { IsTakenBy (taking t shape.now (array_value (fresh_kind fresh))) t shape.now
        (fresh_value fresh) result }
{
    if fresh.tile.dtype() == t && shape_in(&fresh.tile).extents() == shape.extents() {
        numbers_fit(&fresh.tile);
        return Ok(fresh);
    }
    let operand = Operand::Array {
        tile: &fresh.tile,
        right: fresh.right,
        fault: fresh.fault,
    };
    taken(room, pieces, &operand, t, shape)
}

/// Whether an array that an operation made of a view can be written to the view.
///
/// # Errors
///
/// `ReadOnly` where the view cannot be written, then `TypeKind` where its type is of a lower kind,
/// then `Shape` where the array has another shape.
pub fn rule_of_update(fresh: &Fresh, target: &View) -> Result<(), FaultKind>
    ensures { result ≡ update_rule (view_of target.now).kind (fresh_kind fresh.now) }
{
    if !is_writable(target.right) {
        return Err(FaultKind::ReadOnly);
    }
    if !same_kind(fresh.tile.dtype(), target.dtype) {
        return Err(FaultKind::TypeKind);
    }
    if shape_in(&fresh.tile).extents() != target.chain.shape().extents() {
        return Err(FaultKind::Shape);
    }
    Ok(())
}

/// Whether what has this right may be written.
pub fn is_writable(right: Right) -> bool
    ensures { result ≡ is_writable_of (right_for right) }
{
    matches!(right, Right::Writable)
}

// Whether a target of this type and shape takes an operand.
fn rule_of_taking(a: &Operand<'_>, t: DType, shape: &Shape) -> Result<(), FaultKind>
    ensures { result ≡ taking t shape.now (operand_static a.now) }
{
    if !is_taken(t, a) {
        return Err(FaultKind::Range);
    }
    if !fills(&shape_of(a), shape) {
        return Err(FaultKind::Shape);
    }
    Ok(())
}

// Whether a weak number is a literal of the type; anything else is cast.
fn is_taken(t: DType, a: &Operand<'_>) -> bool
    ensures { result ≡ is_taken_of t (operand_static a.now) }
{
    match a {
        Operand::Weak(w) => is_literal(t, number(*w)),
        Operand::Array { .. } | Operand::View { .. } => true,
    }
}

// Whether a value of the one shape, without its surplus axes of one element, can be repeated to the
// other one.
fn fills(own: &Shape, shape: &Shape) -> bool
    ensures { result ≡ fills_of own.now shape.now }
{
    let (own, shape) = (own.extents(), shape.extents());
    let (surplus, own) = own.split_at(own.len().saturating_sub(shape.len()));
    are_ones(surplus) && can_repeat(own, shape)
}

fn are_ones(extents: &[u64]) -> bool
    ensures { result ≡ list_all (λ extent. extent == 1) extents.now }
{
    extents.iter().all(|extent| *extent == 1)
}

#[tactic(auto, using(crate::proofs::Exactly::repeats_shape))]
fn can_repeat(own: &[u64], shape: &[u64]) -> bool
    ensures { result ≡ broadcasts_to own.now shape.now }
{
    repeats(own, shape)
}

// Whether each axis, from the last one on, is as long as the other shape's, or has one element.
fn repeats(own: &[u64], shape: &[u64]) -> bool
    ensures { result ≡ repeats_axes (reverse own.now) (reverse shape.now) }
{
    match (own.split_last(), shape.split_last()) {
        (None, _) => true,
        (Some(_), None) => false,
        (Some((first, own)), Some((second, shape))) => {
            (*first == 1 || *first == *second) && repeats(own, shape)
        }
    }
}

// The shape with as many axes of one element in front as a value has surplus axes.
fn padded(own: &Shape, shape: &Shape) -> Shape
    ensures { result ≡ replicate (surplus own.now shape.now) 1 ++ shape.now }
{
    let surplus = own.extents().len().saturating_sub(shape.extents().len());
    let end = surplus + shape.extents().len();
    let mut extents = [1; 4];
    extents[surplus..end].copy_from_slice(shape.extents());
    Shape::new(&extents[..end])
}

// The elements of an operand over a shape to which it can be repeated, as elements of a type.
fn cast(
    room: Room<'_>,
    pieces: u32,
    a: &Operand<'_>,
    t: DType,
    shape: &Shape,
) -> Result<AnyTile, NoMemory>
    requires some { 1 ≤ pieces }
    requires few { pieces ≤ 64 }
    requires ready { IsReady a.now }
    requires small { size_of shape.now ≤ MAX_VOLUME }
    requires spreads { SpreadsTo (shape_of_static (operand_static a.now)) shape.now }
    ensures dtype { IfOk result (λ tile. dtype_of tile ≡ t) }
    ensures rect { IfOk result (λ tile. rect_of tile ≡ whole shape.now) }
    ensures numbers { IfOk result (λ tile. numbers tile
        ≡ map (wrap t) (spread shape.now (operand_value a.now))) }
{
    let first = lend(a, shape);
    let map = MapOp::Cast(first.operand(0));
    let inputs = Inputs {
        first,
        second: Lent::Number(0),
        third: Lent::Number(0),
    };
    let (tile, _) = evaluate(room, pieces, &map, &inputs, shape, t)?;
    Ok(tile)
}
