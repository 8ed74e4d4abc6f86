//! The elements of a view, appended one behind the other in row-major order of its indices.

ghost use Rattle.std.specs.Prelude.{◌≡◌, ◌<◌, ◌≤◌, ◌+◌, ◌++◌, ◌∷◌, ◌⊎◌, [], ℕ, List, length, map, take, drop, replicate, slice_index_or, pos, IsTrue, IfOk, IfSome, OnOk};
ghost use Rattle.lg_space.specs.Rectangle.{IsIn, place_in, volume_of};
ghost use Rattle.lg_space.specs.Stored.{MAX_VOLUME};
ghost use Rattle.lg_shape.specs.Shapes.{size_of};
ghost use Rattle.lg_tile.specs.Tile.{tile_items, tile_rect};
ghost use Rattle.lg_tile.specs.Tiles.{dtype_of, number_at, rect_of};
ghost use Rattle.lg_xform.specs.Chains.{mapped};
ghost use Rattle.lg_copy.specs.Appending.{AllLie, AreRows, IsAppended, sizes_in};
ghost use Rattle.lg_copy.specs.Leading.{LeadsInto};

use crate::axis::further;
use lg_outside::NoMemory;
use lg_shape::Shape;
use lg_space::AnyRect;
use lg_tile::{AnyTile, Tile, TileElem};
use lg_xform::Chain;
use std::alloc::{AllocError, Global};

/// The elements to which the indices of a rectangle lead in a tile of the root, as a tile of that
/// rectangle.
pub(crate) fn append_typed<T: TileElem>(
    alloc: Global,
    root: &Tile<T>,
    chain: &Chain,
    rect: &AnyRect,
) -> Result<AnyTile, NoMemory>
    requires leads { LeadsInto chain.now rect.now (tile_rect root.now) }
    ensures dtype { IfOk result (λ out. dtype_of out ≡ T.DTYPE) }
    ensures rect { IfOk result (λ out. rect_of out ≡ rect.now) }
    ensures numbers { IfOk result (λ out. (index : List ℕ) → IsIn rect.now index
        → number_at out index
        ≡ slice_index_or (map T.number (tile_items root.now))
        (place_in (tile_rect root.now) (mapped chain.now index)) (pos 0)) }
{
    let mut items: Vec<T> = Vec::with_capacity(alloc, rect.volume() as usize)?;
    append_part(&mut items, root, chain, rect)?;
    Ok(T::any(Tile::new(*rect, items)))
}

// Appends the elements of a view at the indices of a rectangle to none.
fn append_part<T: TileElem>(
    out: &mut Vec<T>,
    root: &Tile<T>,
    chain: &Chain,
    rect: &AnyRect,
) -> Result<(), AllocError>
    requires leads { LeadsInto chain.now rect.now (tile_rect root.now) }
    requires none { out.old.items ≡ [] }
    ensures count { OnOk result (length out.new.items ≡ volume_of rect.now) }
    ensures numbers { OnOk result ((index : List ℕ) → IsIn rect.now index
        → slice_index_or (map T.number out.new.items) (place_in rect.now index) (pos 0)
        ≡ slice_index_or (map T.number (tile_items root.now))
        (place_in (tile_rect root.now) (mapped chain.now index)) (pos 0)) }
{
    if rect.volume() == 0 {
        return Ok(());
    }
    // What is known of every rectangle, its limits, is told with its ranges.
    let _limits = root.rect().ranges();
    let strides = chain.strides(root.rect(), rect);
    append_all(
        out,
        root.items(),
        strides.base as usize,
        &strides.axes,
        sizes_of(rect).extents(),
    )
}

// How many coordinates each axis of a rectangle has.
fn sizes_of(rect: &AnyRect) -> Shape
    ensures value { result ≡ sizes_in rect.now }
    ensures small { size_of result ≤ MAX_VOLUME }
{
    let ranges = rect.ranges();
    let mut sizes = [0; 4];
    for axis in 0..ranges.len() {
        sizes[axis] = ranges[axis].1 - ranges[axis].0;
    }
    Shape::new(&sizes[..ranges.len()])
}

// Appends the elements at all indices of a shape, in row-major order. The first index is at `base`,
// and each axis has a stride. What lies in the order of the rows is copied at once.
fn append_all<T: Copy>(
    out: &mut Vec<T>,
    items: &[T],
    base: usize,
    strides: &[i64],
    extents: &[u64],
) -> Result<(), AllocError>
    requires axes { length extents.now ≤ length strides.now }
    requires some { 0 < size_of extents.now }
    requires few { size_of extents.now ≤ MAX_VOLUME }
    requires small { length items.now ≤ MAX_VOLUME }
    requires lie { AllLie base strides.now extents.now (length items.now) }
    ensures { OnOk result
        (IsAppended items.now base strides.now extents.now out.old.items out.new.items) }
{
    if let Some(size) = rows_of(strides, extents) {
        return append_run(out, items, base, size as usize);
    }
    let Some((extent, extents)) = extents.split_first() else {
        out.push(items[base])?;
        return Ok(());
    };
    let Some((stride, strides)) = strides.split_first() else {
        return Ok(());
    };
    if extents.is_empty() {
        return append_axis(out, items, base, *stride, *extent);
    }
    for k in 0..*extent {
        let next = further(base, k as usize, *stride);
        append_all(out, items, next, strides, extents)?;
    }
    Ok(())
}

// Appends the elements of the last axis.
fn append_axis<T: Copy>(
    out: &mut Vec<T>,
    items: &[T],
    base: usize,
    stride: i64,
    extent: u64,
) -> Result<(), AllocError>
    requires some { 0 < extent }
    requires few { extent ≤ MAX_VOLUME }
    requires small { length items.now ≤ MAX_VOLUME }
    requires lie { AllLie base (stride ∷ []) (extent ∷ []) (length items.now) }
    ensures { OnOk result
        (IsAppended items.now base (stride ∷ []) (extent ∷ []) out.old.items out.new.items) }
{
    if stride == 0 {
        return append_same(out, items[base], extent as usize);
    }
    for k in 0..extent {
        out.push(items[further(base, k as usize, stride)])?;
    }
    Ok(())
}

// Appends the same element so many times.
fn append_same<T: Copy>(out: &mut Vec<T>, item: T, count: usize) -> Result<(), AllocError>
    requires { count ≤ MAX_VOLUME }
    ensures { OnOk result (out.new.items ≡ out.old.items ++ replicate count item) }
{
    out.resize(out.len() + count, item)?;
    Ok(())
}

// Appends elements that lie one behind the other.
fn append_run<T: Copy>(
    out: &mut Vec<T>,
    items: &[T],
    base: usize,
    count: usize,
) -> Result<(), AllocError>
    requires { base + count ≤ length items.now }
    ensures { OnOk result (out.new.items ≡ out.old.items ++ take count (drop base items.now)) }
{
    out.extend_from_slice(&items[base..base + count])?;
    Ok(())
}

// How many elements a shape has, where the strides are those of its row-major order.
fn rows_of(strides: &[i64], extents: &[u64]) -> Option<u64>
    requires some { 0 < size_of extents.now }
    requires small { size_of extents.now ≤ MAX_VOLUME }
    ensures size { IfSome result (λ size. size ≡ size_of extents.now) }
    ensures rows { IfSome result (λ size. AreRows strides.now extents.now) }
{
    let Some((extent, extents)) = extents.split_first() else {
        return Some(1);
    };
    let (stride, strides) = strides.split_first()?;
    let size = rows_of(strides, extents)?;
    if !is_row(*extent, *stride, size) {
        return None;
    }
    Some(*extent * size)
}

// Whether an axis has the stride of rows of this size, which one of one coordinate need not have.
fn is_row(extent: u64, stride: i64, size: u64) -> bool
    requires { size ≤ MAX_VOLUME }
    ensures { IsTrue result → (extent ≤ 1) ⊎ (stride ≡ pos size) }
{
    extent <= 1 || stride == size as i64
}
