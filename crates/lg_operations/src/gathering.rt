//! The elements of a view, gathered into a tile.
ghost use Rattle.std.specs.Prelude.{◌≡◌, ℕ, List, ◌≤◌, ◌<◌, ◌+◌, ◌⊎◌, ◌∷◌, ◌++◌, [], map, length, take, drop, replicate, slice_index_or, pos, ◌+ℤ◌, ◌*ℤ◌, ◌≤ℤ◌, IsTrue, IfOk, IfSome, OnOk};
ghost use Rattle.lg_space.specs.Rectangle.{IsIn, place_in, volume_of};
ghost use Rattle.lg_space.specs.Stored.{MAX_VOLUME};
ghost use Rattle.lg_shape.specs.Shapes.{size_of, whole};
ghost use Rattle.lg_shape.specs.Views.{whole_layout};
ghost use Rattle.lg_tile.specs.Sections.{Covers};
ghost use Rattle.lg_tile.specs.Tile.{tile_items, tile_rect};
ghost use Rattle.lg_tile.specs.Tiles.{dtype_of, numbers, number_at, rect_of};
ghost use Rattle.lg_xform.specs.Chains.{root_of, shape_of, layout_of};
ghost use Rattle.lg_operations.specs.Gathering.{AllLie, AreRows, IsGathered, number_through, seen_at, sizes_in};

use lg_outside::NoMemory;
use lg_shape::Shape;
use lg_space::AnyRect;
use lg_tile::{AnyTile, Room, Tile, TileElem, each};
use lg_xform::Chain;
use std::alloc::AllocError;

/// The elements of a view of a root whose elements are a tile, in row-major order of the view's
/// indices. Those of a whole root are copied at once.
pub fn gather(room: Room<'_>, tile: &AnyTile, chain: &Chain) -> Result<AnyTile, NoMemory>
    requires root { rect_of tile.now ≡ whole (root_of chain.now) }
    requires small { size_of (shape_of chain.now) ≤ MAX_VOLUME }
    ensures dtype { IfOk result (λ out. dtype_of out ≡ dtype_of tile.now) }
    ensures rect { IfOk result (λ out. rect_of out ≡ whole (shape_of chain.now)) }
    ensures numbers { IfOk result (λ out. numbers out
        ≡ map (λ place. slice_index_or (numbers tile.now) place (pos 0)) (layout_of chain.now).places) }
{
    // What is known of every rectangle, its limits, is told with its ranges.
    let _limits = tile.rect().ranges();
    if is_whole(chain) {
        return tile.copied(room);
    }
    let all = chain.shape().whole();
    gather_part(room, tile, chain, &all)
}

/// The elements of such a view at the indices of a rectangle, as a tile of the rectangle.
pub fn gather_part(
    room: Room<'_>,
    tile: &AnyTile,
    chain: &Chain,
    rect: &AnyRect,
) -> Result<AnyTile, NoMemory>
    requires root { rect_of tile.now ≡ whole (root_of chain.now) }
    requires within { Covers (whole (shape_of chain.now)) rect.now }
    ensures dtype { IfOk result (λ out. dtype_of out ≡ dtype_of tile.now) }
    ensures rect { IfOk result (λ out. rect_of out ≡ rect.now) }
    ensures numbers { IfOk result (λ out. (index : List ℕ) → IsIn rect.now index
        → number_at out index ≡ seen_at tile.now chain.now index) }
{
    each!(tile, tile => gather_typed(room, tile, chain, rect))
}

/// Whether a view is the whole of its root, index for index. `false` may be said of one whose
/// elements are the same nevertheless.
pub fn is_whole(chain: &Chain) -> bool
    requires { size_of (root_of chain.now) ≤ MAX_VOLUME }
    ensures { IsTrue result → layout_of chain.now ≡ whole_layout (root_of chain.now) }
{
    let (shape, root) = (chain.shape(), chain.root());
    shape.extents() == root.extents() && is_in_rows(chain, &root)
}

// Whether a view of the root's own shape leads each index to itself.
fn is_in_rows(chain: &Chain, root: &Shape) -> bool
    requires root { root_of chain.now ≡ root.now }
    requires shape { shape_of chain.now ≡ root.now }
    requires small { size_of root.now ≤ MAX_VOLUME }
    ensures { IsTrue result → layout_of chain.now ≡ whole_layout root.now }
{
    let all = root.whole();
    if all.volume() == 0 {
        return true;
    }
    // What is known of every chain is told with its root.
    let _root = chain.root();
    let strides = chain.strides(&all, &all);
    strides.base == 0 && rows_of(&strides.axes, root.extents()).is_some()
}

// How many elements a shape has, where the strides are those of its row-major order.
fn rows_of(strides: &[i64], extents: &[u64]) -> Option<u64>
    requires some { 0 < size_of extents.now }
    requires small { size_of extents.now ≤ MAX_VOLUME }
    ensures size { IfSome result (λ size. size ≡ size_of extents.now) }
    ensures rows { IfSome result (λ size. AreRows strides.now extents.now) }
{
    let Some((extent, extents)) = extents.split_first() else {
        return Some(1);
    };
    let (stride, strides) = strides.split_first()?;
    let size = rows_of(strides, extents)?;
    if !is_row(*extent, *stride, size) {
        return None;
    }
    Some(*extent * size)
}

// Whether an axis has the stride of rows of this size, which one of one coordinate need not have.
fn is_row(extent: u64, stride: i64, size: u64) -> bool
    requires { size ≤ MAX_VOLUME }
    ensures { IsTrue result → (extent ≤ 1) ⊎ (stride ≡ pos size) }
{
    extent <= 1 || stride == size as i64
}

fn gather_typed<T: TileElem>(
    room: Room<'_>,
    tile: &Tile<T>,
    chain: &Chain,
    rect: &AnyRect,
) -> Result<AnyTile, NoMemory>
    requires root { tile_rect tile.now ≡ whole (root_of chain.now) }
    requires within { Covers (whole (shape_of chain.now)) rect.now }
    ensures dtype { IfOk result (λ out. dtype_of out ≡ T.DTYPE) }
    ensures rect { IfOk result (λ out. rect_of out ≡ rect.now) }
    ensures numbers { IfOk result (λ out. (index : List ℕ) → IsIn rect.now index
        → number_at out index ≡ number_through (map T.number (tile_items tile.now)) chain.now index) }
{
    let mut items: Vec<T> = room.none_of(rect.volume() as usize)?;
    append_part(&mut items, tile, chain, rect)?;
    Ok(T::any(Tile::new(*rect, items)))
}

// Appends the elements of a view at the indices of a rectangle to none.
fn append_part<T: TileElem>(
    out: &mut Vec<T>,
    tile: &Tile<T>,
    chain: &Chain,
    rect: &AnyRect,
) -> Result<(), AllocError>
    requires root { tile_rect tile.now ≡ whole (root_of chain.now) }
    requires within { Covers (whole (shape_of chain.now)) rect.now }
    requires none { out.old.items ≡ [] }
    ensures count { OnOk result (length out.new.items ≡ volume_of rect.now) }
    ensures numbers { OnOk result ((index : List ℕ) → IsIn rect.now index
        → slice_index_or (map T.number out.new.items) (place_in rect.now index) (pos 0)
        ≡ number_through (map T.number (tile_items tile.now)) chain.now index) }
{
    if rect.volume() == 0 {
        return Ok(());
    }
    // What is known of every chain and of every rectangle is told with its root and its ranges.
    let _root = chain.root();
    let _limits = tile.rect().ranges();
    let strides = chain.strides(tile.rect(), rect);
    append_all(
        out,
        tile.items(),
        strides.base as usize,
        &strides.axes,
        sizes_of(rect).extents(),
    )
}

// How many coordinates each axis of a rectangle has.
fn sizes_of(rect: &AnyRect) -> Shape
    ensures value { result ≡ sizes_in rect.now }
    ensures small { size_of result ≤ MAX_VOLUME }
{
    let ranges = rect.ranges();
    let mut sizes = [0; 4];
    for axis in 0..ranges.len() {
        sizes[axis] = ranges[axis].1 - ranges[axis].0;
    }
    Shape::new(&sizes[..ranges.len()])
}

// Appends the elements at all indices of a shape, in row-major order. The first index is at `base`,
// and each axis has a stride.
fn append_all<T: Copy>(
    out: &mut Vec<T>,
    items: &[T],
    base: usize,
    strides: &[i64],
    extents: &[u64],
) -> Result<(), AllocError>
    requires axes { length extents.now ≤ length strides.now }
    requires some { 0 < size_of extents.now }
    requires few { size_of extents.now ≤ MAX_VOLUME }
    requires small { length items.now ≤ MAX_VOLUME }
    requires lie { AllLie base strides.now extents.now (length items.now) }
    ensures { OnOk result
        (IsGathered items.now base strides.now extents.now out.old.items out.new.items) }
{
    let Some((extent, extents)) = extents.split_first() else {
        out.push(items[base])?;
        return Ok(());
    };
    let Some((stride, strides)) = strides.split_first() else {
        return Ok(());
    };
    if extents.is_empty() {
        return append_axis(out, items, base, *stride, *extent);
    }
    for k in 0..*extent {
        let next = further(base, k, *stride);
        append_all(out, items, next, strides, extents)?;
    }
    Ok(())
}

// Appends the elements of the last axis.
fn append_axis<T: Copy>(
    out: &mut Vec<T>,
    items: &[T],
    base: usize,
    stride: i64,
    extent: u64,
) -> Result<(), AllocError>
    requires some { 0 < extent }
    requires few { extent ≤ MAX_VOLUME }
    requires small { length items.now ≤ MAX_VOLUME }
    requires lie { AllLie base (stride ∷ []) (extent ∷ []) (length items.now) }
    ensures { OnOk result
        (IsGathered items.now base (stride ∷ []) (extent ∷ []) out.old.items out.new.items) }
{
    if stride == 0 {
        return append_same(out, items[base], extent as usize);
    }
    if stride == 1 {
        return append_run(out, items, base, extent as usize);
    }
    for k in 0..extent {
        out.push(items[further(base, k, stride)])?;
    }
    Ok(())
}

// Appends the same element so many times.
fn append_same<T: Copy>(out: &mut Vec<T>, item: T, count: usize) -> Result<(), AllocError>
    requires { count ≤ MAX_VOLUME }
    ensures { OnOk result (out.new.items ≡ out.old.items ++ replicate count item) }
{
    out.resize(out.len() + count, item)?;
    Ok(())
}

// Appends elements that lie one behind the other.
fn append_run<T: Copy>(
    out: &mut Vec<T>,
    items: &[T],
    base: usize,
    count: usize,
) -> Result<(), AllocError>
    requires { base + count ≤ length items.now }
    ensures { OnOk result (out.new.items ≡ out.old.items ++ take count (drop base items.now)) }
{
    out.extend_from_slice(&items[base..base + count])?;
    Ok(())
}

// The place so many strides from another one.
fn further(base: usize, k: u64, stride: i64) -> usize
    requires base { base ≤ MAX_VOLUME }
    requires steps { k ≤ MAX_VOLUME }
    requires low { pos 0 ≤ℤ (pos base +ℤ (pos k *ℤ stride)) }
    requires high { (pos base +ℤ (pos k *ℤ stride)) ≤ℤ pos MAX_VOLUME }
    ensures { pos result ≡ pos base +ℤ (pos k *ℤ stride) }
{
    (base as i64 + k as i64 * stride) as usize
}
