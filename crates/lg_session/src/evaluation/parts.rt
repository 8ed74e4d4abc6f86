//! The parts of a form that are several expressions, or that may be left out.
ghost use Rattle.std.specs.Prelude.{◌≡◌, ◌++◌, true, map, option_map, Some, Ok, OnOk};
ghost use Rattle.lg_tree.specs.View.{tree_of, item_of, shape_of, item_trees, maybe_tree, maybe_shape};
ghost use Rattle.lg_meaning.specs.Memory.{State};
ghost use Rattle.lg_session.specs.Standing.{StandsFor};
ghost use Rattle.lg_meaning.specs.Faults.{from_part, from_both, or_fault};
ghost use Rattle.lg_meaning.specs.Static.{integer_of, optional_integer};
ghost use Rattle.lg_session.specs.Values.{value_static, AreExtents};
ghost use Rattle.lg_session.specs.Parts.{item_list, is_typed_with, AreItems, IsItem, IsPart, AreAxes};
ghost use Rattle.lg_session.specs.Built.{is_built_maybe, is_built_axes, is_built_item, are_built_items, is_built_shape};

use crate::evaluation::evaluate;
use crate::session::Session;
use crate::value::Value;
use lg_meaning::FaultKind;
use lg_operations::{EvaluateEnd, Weak};
use lg_shape::IndexItem;
use lg_tile::Room;
use lg_tree::{Expr, Item, ShapeExpr};
use std::alloc::AllocError;

/// The extents of a shape, in the order in which they are written.
#[cycle(walk)]
#[tactic(auto, using(crate::proofs::BuiltLemmas::tree_built_at))]
pub(super) fn evaluate_extents(
    room: Room<'_>,
    session: &Session,
    shape: &ShapeExpr,
) -> Result<Vec<Value>, EvaluateEnd>
    requires { is_built_shape (shape_of shape.now) ≡ true }
    ensures { (state : State) → StandsFor session.now state
        → AreExtents (shape_of shape.now) state result }
{
    let mut extents = Vec::new(room.alloc());
    match shape {
        ShapeExpr::One(extent) => {
            let extent = evaluate(room, session, extent.get())?;
            extents.push(extent)?;
            Ok(extents)
        }
        ShapeExpr::Tuple(parts) => {
            for part in parts.as_slice() {
                let extent = evaluate(room, session, part)?;
                extents.push(extent)?;
            }
            Ok(extents)
        }
    }
}

/// The axes of a transpose, which may be left out.
#[cycle(walk)]
pub(super) fn evaluate_axes(
    room: Room<'_>,
    session: &Session,
    axes: &Option<ShapeExpr>,
) -> Result<Option<Vec<Value>>, EvaluateEnd>
    requires { is_built_axes (maybe_shape (option_map shape_of axes.now)) ≡ true }
    ensures { (state : State) → StandsFor session.now state
        → AreAxes (maybe_shape (option_map shape_of axes.now)) state result }
{
    match axes {
        Some(axes) => Ok(Some(evaluate_extents(room, session, axes)?)),
        None => Ok(None),
    }
}

/// The items of an index, in the order in which they are written: none where an expression in them
/// is no integer. Each expression is evaluated, also behind such a one.
#[cycle(walk)]
#[tactic(auto, using(crate::proofs::BuiltLemmas::item_built_at))]
pub(crate) fn evaluate_items(
    room: Room<'_>,
    session: &Session,
    items: &[Item],
) -> Result<Option<Vec<IndexItem>>, EvaluateEnd>
    requires { are_built_items (item_trees (map item_of items.now)) ≡ true }
    ensures { (state : State) → StandsFor session.now state
        → AreItems (item_trees (map item_of items.now)) state result }
{
    let mut numbers = Vec::new(room.alloc());
    let mut typed = true;
    for item in items {
        let read = evaluate_item(room, session, item)?;
        push_item(&mut numbers, &mut typed, read)?;
    }
    if !typed {
        return Ok(None);
    }
    Ok(Some(numbers))
}

// Appends what was read of an item. Where it is none, the items are not typed.
fn push_item(
    numbers: &mut Vec<IndexItem>,
    typed: &mut bool,
    read: Option<IndexItem>,
) -> Result<(), AllocError>
    ensures numbers { OnOk result (numbers.new.items ≡ numbers.old.items ++ item_list read) }
    ensures typed { typed.new ≡ is_typed_with typed.old read }
{
    match read {
        Some(item) => numbers.push(item)?,
        None => *typed = false,
    }
    Ok(())
}

// One item of an index: none where an expression in it is no integer.
#[cycle(walk)]
fn evaluate_item(
    room: Room<'_>,
    session: &Session,
    item: &Item,
) -> Result<Option<IndexItem>, EvaluateEnd>
    requires { is_built_item (item_of item.now) ≡ true }
    ensures { (state : State) → StandsFor session.now state
        → IsItem (item_of item.now) state result }
{
    match item {
        Item::At(at) => {
            let at = evaluate(room, session, at)?;
            Ok(place(&at))
        }
        Item::Slice { start, stop, step } => {
            let start = evaluate_part(room, session, start)?;
            let stop = evaluate_part(room, session, stop)?;
            let step = evaluate_part(room, session, step)?;
            Ok(slice(start, stop, step))
        }
        Item::NewAxis => Ok(Some(IndexItem::NewAxis)),
        Item::Ellipsis => Ok(Some(IndexItem::Ellipsis)),
    }
}

// A part of a slice, which may be left out: none where it is no integer.
#[cycle(walk)]
fn evaluate_part(
    room: Room<'_>,
    session: &Session,
    part: &Option<Expr>,
) -> Result<Option<Option<i128>>, EvaluateEnd>
    requires { is_built_maybe (maybe_tree (option_map tree_of part.now)) ≡ true }
    ensures { (state : State) → StandsFor session.now state
        → IsPart (maybe_tree (option_map tree_of part.now)) state result }
{
    match part {
        Some(part) => {
            let part = evaluate(room, session, part)?;
            Ok(given(&part))
        }
        None => Ok(Some(None)),
    }
}

// A value as a number in an index: no truth value, and no array.
fn whole_number(value: &Value) -> Option<i128>
    ensures { integer_of (value_static value.now) ≡ or_fault result FaultKind.TypeKind }
{
    match value {
        Value::Weak(Weak::Integer(x)) => Some(*x),
        _ => None,
    }
}

// A value as the item that picks a place: none where it is no integer.
fn place(value: &Value) -> Option<IndexItem>
    ensures { or_fault result FaultKind.TypeKind
        ≡ from_part (integer_of (value_static value.now)) (λ x. Ok (IndexItem.At x)) }
{
    Some(IndexItem::At(whole_number(value)?))
}

// A value as a part of a slice that is not left out: none where it is no integer.
fn given(value: &Value) -> Option<Option<i128>>
    ensures { or_fault result FaultKind.TypeKind ≡ optional_integer (Some (value_static value.now)) }
{
    Some(Some(whole_number(value)?))
}

// A slice of these parts: none where one of them is no integer.
fn slice(
    start: Option<Option<i128>>,
    stop: Option<Option<i128>>,
    step: Option<Option<i128>>,
) -> Option<IndexItem>
    ensures { or_fault result FaultKind.TypeKind ≡ from_part (or_fault start FaultKind.TypeKind)
        (λ x. from_both (or_fault stop FaultKind.TypeKind) (or_fault step FaultKind.TypeKind)
        (λ y z. Ok (IndexItem.Slice x y z))) }
{
    Some(IndexItem::Slice {
        start: start?,
        stop: stop?,
        step: step?,
    })
}
