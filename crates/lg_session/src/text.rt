//! The text that `print` writes: Python's text of numbers, truth values and nested lists of them.
ghost use Rattle.std.specs.Prelude.{◌≡◌, ◌++◌, ◌∷◌, [], ◌<◌, ◌*◌, ℕ, List, length, map, OnOk, IfOk};
ghost use Rattle.std.specs.Fmt.{signed_decimal};
ghost use Rattle.lg_shape.specs.Shapes.{size_of, whole};
ghost use Rattle.lg_tile.specs.Tile.{tile_items, tile_rect};
ghost use Rattle.lg_tile.specs.Tiles.{dtype_of, numbers};
ghost use Rattle.lg_meaning.specs.Weak.{number_of};
ghost use Rattle.lg_meaning.specs.Static.{weak_value};
ghost use Rattle.lg_meaning.specs.Text.{element_text, nested, printed, printed_type};
ghost use Rattle.lg_operations.specs.Operations.{weak_of, extents_of, operand_static, operand_value, IsReady, IsWhole};
ghost use Rattle.lg_session.specs.Texts.{comma, truth_text, IsPrinted};

use itoa::Buffer;
use lg_elem::{DType, Elem};
use lg_operations::{EvaluateEnd, Operand, Weak, gather, shape_in};
use lg_shape::Shape;
use lg_tile::{AnyTile, Room, Tile, TileElem, each};
use std::alloc::{AllocError, Global};

/// What `print` writes of an operand.
///
/// # Errors
///
/// The first fault of its elements, and `NoMemory`.
pub(crate) fn printed_operand(alloc: Global, operand: &Operand<'_>) -> Result<Vec<u8>, EvaluateEnd>
    requires { IsReady operand.now }
    ensures { IsPrinted (operand_static operand.now) (operand_value operand.now) result }
{
    match operand {
        Operand::Weak(w) => Ok(printed_weak(alloc, *w)?),
        Operand::Array { tile, fault, .. } => {
            if let Some(kind) = fault {
                return Err(EvaluateEnd::Fault(*kind));
            }
            Ok(printed_array(alloc, tile)?)
        }
        Operand::View { tile, chain, .. } => Ok(printed_array(
            alloc,
            &gather(Room::new(alloc), tile, chain)?,
        )?),
    }
}

// What `print` writes of a weak number.
fn printed_weak(alloc: Global, w: Weak) -> Result<Vec<u8>, AllocError>
    ensures { IfOk result (λ text. text.items
        ≡ printed (printed_type (weak_value (weak_of w))) [] (number_of (weak_of w) ∷ [])) }
{
    let mut text = Vec::new(alloc);
    match w {
        Weak::Integer(x) => push_number(&mut text, x)?,
        Weak::Truth(b) => push_truth(&mut text, b)?,
    }
    text.extend_from_slice(b"\n")?;
    Ok(text)
}

// What `print` writes of an array.
fn printed_array(alloc: Global, tile: &AnyTile) -> Result<Vec<u8>, AllocError>
    requires { IsWhole tile.now }
    ensures { IfOk result (λ text. text.items
        ≡ printed (dtype_of tile.now) (extents_of tile.now) (numbers tile.now)) }
{
    let mut text = Vec::new(alloc);
    push_array(&mut text, tile)?;
    text.extend_from_slice(b"\n")?;
    Ok(text)
}

// Appends an array.
fn push_array(text: &mut Vec<u8>, tile: &AnyTile) -> Result<(), AllocError>
    requires { IsWhole tile.now }
    ensures { OnOk result (text.new.items ≡ text.old.items
        ++ nested (dtype_of tile.now) (extents_of tile.now) (numbers tile.now)) }
{
    let shape = shape_in(tile);
    each!(tile, tile => push_tile(text, &shape, tile))
}

// Appends an array whose element type is known.
fn push_tile<T: TileElem>(
    text: &mut Vec<u8>,
    shape: &Shape,
    tile: &Tile<T>,
) -> Result<(), AllocError>
    requires { tile_rect tile.now ≡ whole shape.now }
    ensures { OnOk result (text.new.items ≡ text.old.items
        ++ nested T.DTYPE shape.now (map T.number (tile_items tile.now))) }
{
    push_nested(text, shape.extents(), tile.items())
}

// Appends an element, or a list with a member for each index of the first axis.
fn push_nested<T: Elem>(text: &mut Vec<u8>, extents: &[u64], items: &[T]) -> Result<(), AllocError>
    requires { length items.now ≡ size_of extents.now }
    ensures { OnOk result (text.new.items ≡ text.old.items
        ++ nested T.DTYPE extents.now (map T.number items.now)) }
{
    let Some((extent, inner)) = extents.split_first() else {
        return push_element(text, items[0]);
    };
    let count = *extent as usize;
    let size = row_size(items.len(), count);
    let mut rest = items;
    text.extend_from_slice(b"[")?;
    for row in 0..count {
        let (first, others) = rest.split_at(size);
        push_comma(text, row)?;
        push_nested(text, inner, first)?;
        rest = others;
    }
    text.extend_from_slice(b"]")
}

// How many elements each of so many rows has.
fn row_size(len: usize, count: usize) -> usize
    ensures { (size : ℕ) → 0 < count → len ≡ count * size → result ≡ size }
{
    if count == 0 { 0 } else { len / count }
}

// Appends what stands before a member: a comma and a blank, but nothing before the first.
fn push_comma(text: &mut Vec<u8>, row: usize) -> Result<(), AllocError>
    ensures { OnOk result (text.new.items ≡ text.old.items ++ comma row) }
{
    if row == 0 {
        return Ok(());
    }
    text.extend_from_slice(b", ")
}

// Appends an element.
fn push_element<T: Elem>(text: &mut Vec<u8>, element: T) -> Result<(), AllocError>
    ensures { OnOk result (text.new.items ≡ text.old.items
        ++ element_text T.DTYPE (T.number element)) }
{
    let number = element.value();
    match T::DTYPE {
        DType::Bool => push_truth(text, number != 0),
        _ => push_number(text, number),
    }
}

// Appends a truth value.
fn push_truth(text: &mut Vec<u8>, truth: bool) -> Result<(), AllocError>
    ensures { OnOk result (text.new.items ≡ text.old.items ++ truth_text truth) }
{
    if truth {
        text.extend_from_slice(b"True")
    } else {
        text.extend_from_slice(b"False")
    }
}

// Appends a number in decimal.
fn push_number(text: &mut Vec<u8>, number: i128) -> Result<(), AllocError>
    ensures { OnOk result (text.new.items ≡ text.old.items ++ signed_decimal number) }
{
    let mut buffer = Buffer::new();
    // The digits of a number of 64 bits are found faster.
    match i64::try_from(number) {
        Ok(number) => text.extend_from_slice(buffer.format(number).as_bytes()),
        Err(_) => text.extend_from_slice(buffer.format(number).as_bytes()),
    }
}
