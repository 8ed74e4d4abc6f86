//! Copies between tiles, with a view at either side.

ghost use Rattle.std.specs.Prelude.{◌≡◌, ◌≤◌, ℕ, List, length, map, take};
ghost use Rattle.lg_space.specs.Rectangle.{IsIn};
ghost use Rattle.lg_shape.specs.Shapes.{whole};
ghost use Rattle.lg_tile.specs.Tile.{tile_items, tile_rect};
ghost use Rattle.lg_tile.specs.Tiles.{dtype_of, numbers, rect_of};
ghost use Rattle.lg_xform.specs.Chains.{mapped, shape_of};
ghost use Rattle.lg_copy.specs.Copying.{AreSmall, Copied, axes_over};
ghost use Rattle.lg_copy.specs.Leading.{CopiedThrough, LeadsBoth, LeadsInto};

use crate::axes::copy_axes;
use crate::axis::Axis;
use lg_elem::Elem;
use lg_shape::Shape;
use lg_space::AnyRect;
use lg_tile::{AnyTile, Tile, TileElem, each};
use lg_xform::Chain;

/// Copies for each index of a rectangle the element to which the first view leads to the place to
/// which the second one leads.
pub(crate) fn copy_through<T: Elem + Drop>(
    source: &Tile<T>,
    first: &Chain,
    target: &mut Tile<T>,
    second: &Chain,
    rect: &AnyRect,
)
    requires reads { LeadsInto first.now rect.now (tile_rect source.now) }
    requires writes { LeadsInto second.now rect.now (tile_rect target.old) }
    ensures rect { tile_rect target.new ≡ tile_rect target.old }
    ensures copied { Copied (tile_items source.now) (tile_items target.old) (tile_items target.new)
        (λ s q. LeadsBoth (tile_rect source.now) first.now (tile_rect target.old) second.now
        rect.now s q) }
{
    if rect.volume() == 0 {
        return;
    }
    // What is known of every rectangle is told with its ranges.
    let _limits = source.rect().ranges();
    let _limits = target.rect().ranges();
    let from = first.strides(source.rect(), rect);
    let to = second.strides(target.rect(), rect);
    let axes = axes_of(rect, &from.axes, &to.axes);
    copy_axes(
        source.items(),
        from.base as usize,
        target.items_mut(),
        to.base as usize,
        &axes[..rect.axes()],
    );
}

// The axes of a copy over a rectangle.
fn axes_of(rect: &AnyRect, from: &[i64; 4], to: &[i64; 4]) -> [Axis; 4]
    ensures axes { take (length rect.now) result ≡ axes_over rect.now from.now to.now }
    ensures small { AreSmall (take (length rect.now) result) }
    ensures few { length rect.now ≤ 4 }
    ensures long { (length from.now ≡ 4) × (length to.now ≡ 4) × (length result ≡ 4) }
{
    let ranges = rect.ranges();
    let mut axes = [Axis {
        count: 0,
        from: 0,
        to: 0,
    }; 4];
    for axis in 0..ranges.len() {
        axes[axis] = Axis {
            count: (ranges[axis].1 - ranges[axis].0) as usize,
            from: from[axis],
            to: to[axis],
        };
    }
    axes
}

/// The view in which each index of a rectangle leads to itself.
pub(crate) fn identity(rect: &AnyRect) -> Chain
    ensures within { (index : List ℕ) → IsIn rect.now index
        → IsIn (whole (shape_of result)) index }
    ensures mapped { (index : List ℕ) → IsIn rect.now index → mapped result index ≡ index }
{
    let ranges = rect.ranges();
    let mut ends = [0; 4];
    for axis in 0..ranges.len() {
        ends[axis] = ranges[axis].1;
    }
    Chain::whole(&Shape::new(&ends[..ranges.len()]))
}

/// The same for tiles of one type.
pub(crate) fn copy_any(
    source: &AnyTile,
    first: &Chain,
    target: &mut AnyTile,
    second: &Chain,
    rect: &AnyRect,
)
    requires same { dtype_of source.now ≡ dtype_of target.old }
    requires reads { LeadsInto first.now rect.now (rect_of source.now) }
    requires writes { LeadsInto second.now rect.now (rect_of target.old) }
    ensures dtype { dtype_of target.new ≡ dtype_of target.old }
    ensures rect { rect_of target.new ≡ rect_of target.old }
    ensures copied { CopiedThrough (rect_of source.now) first.now (rect_of target.old) second.now
        rect.now (numbers source.now) (numbers target.old) (numbers target.new) }
{
    each!(target, into => copy_typed(source, first, into, second, rect))
}

// The same where the target's type is known.
fn copy_typed<T: TileElem>(
    source: &AnyTile,
    first: &Chain,
    target: &mut Tile<T>,
    second: &Chain,
    rect: &AnyRect,
)
    requires same { dtype_of source.now ≡ T.DTYPE }
    requires reads { LeadsInto first.now rect.now (rect_of source.now) }
    requires writes { LeadsInto second.now rect.now (tile_rect target.old) }
    ensures rect { tile_rect target.new ≡ tile_rect target.old }
    ensures copied { CopiedThrough (rect_of source.now) first.now (tile_rect target.old)
        second.now rect.now (numbers source.now) (map T.number (tile_items target.old))
        (map T.number (tile_items target.new)) }
{
    copy_through(T::tile_of(source), first, target, second, rect);
}
