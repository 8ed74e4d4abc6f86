ghost use Rattle.std.specs.Prelude.{◌≡◌, ◌≤◌, ◌<◌, ◌+◌, ℕ, List, length, pos, ◌+ℤ◌, slice_set, slice_index_or};
ghost use Rattle.lg_space.specs.Rectangle.{IsIn, volume_of, place_in};
ghost use Rattle.lg_space.specs.declared.point.TheConstants.{MAX_AXES};
ghost use Rattle.lg_space.specs.Stored.{MAX_END, MAX_VOLUME, IsStorable};
ghost use Rattle.lg_shape.specs.Shapes.{whole};
ghost use Rattle.lg_xform.specs.Copies.{along, first_of, next_of, IsStride};

use super::Chain;
use lg_space::{AnyRect, Point};

/// Where the indices of a rectangle of a view lie in a tile of its root: the first index at `base`,
/// counted in elements, and each further one on an axis by the axis's stride further. A stride may
/// be negative. An axis of one coordinate has the stride 0, and so has each entry behind the axes.
#[derive(Clone, Copy, Debug)]
pub struct Strides {
    /// The place of the first index.
    pub base: u64,

    /// How far it is from one coordinate of each axis to the next.
    pub axes: [i64; 4],
}

impl Chain {
    ghost use Rattle.lg_xform.specs.Chains.{shape_of, mapped};

    /// Where the indices of a rectangle of the view lie in a tile of the root that has them all.
    pub fn strides(&self, tile: &AnyRect, rect: &AnyRect) -> Strides
        requires within { (index : List ℕ) → IsIn rect.now index
            → IsIn (whole (shape_of self.now)) index }
        requires held { (index : List ℕ) → IsIn rect.now index
            → IsIn tile.now (mapped self.now index) }
        requires some { 0 < volume_of rect.now }
        ensures base { result.base ≡ place_in tile.now (mapped self.now (first_of rect.now)) }
        ensures places { (index : List ℕ) → IsIn rect.now index
            → pos (place_in tile.now (mapped self.now index))
            ≡ pos result.base +ℤ along result.axes rect.now index }
        ensures each { (axis : ℕ) → axis < 4 → IsStride
            (λ index. place_in tile.now (mapped self.now index)) rect.now axis
            (slice_index_or result.axes axis (pos 0)) }
    {
        let base = self.place_in_tile(tile, &first_index(rect));
        let mut axes = [0; 4];
        for axis in 0..rect.axes() {
            axes[axis] = self.stride(tile, rect, axis, base);
        }
        Strides { base, axes }
    }

    // The stride of one axis.
    fn stride(&self, tile: &AnyRect, rect: &AnyRect, axis: usize, base: u64) -> i64
        requires within { (index : List ℕ) → IsIn rect.now index
            → IsIn (whole (shape_of self.now)) index }
        requires held { (index : List ℕ) → IsIn rect.now index
            → IsIn tile.now (mapped self.now index) }
        requires some { 0 < volume_of rect.now }
        requires axis { axis < length rect.now }
        requires base { base ≡ place_in tile.now (mapped self.now (first_of rect.now)) }
        requires small { base < MAX_VOLUME }
        ensures { IsStride (λ index. place_in tile.now (mapped self.now index)) rect.now axis
            result }
    {
        let (low, end) = rect.range(axis);
        if end - low <= 1 {
            return 0;
        }
        let next = next_along(&first_index(rect), axis);
        self.place_in_tile(tile, &next) as i64 - base as i64
    }

    // The place in the tile of the root index that an index leads to.
    fn place_in_tile(&self, tile: &AnyRect, p: &Point) -> u64
        requires within { IsIn (whole (shape_of self.now)) p.now }
        requires held { IsIn tile.now (mapped self.now p.now) }
        ensures value { result ≡ place_in tile.now (mapped self.now p.now) }
        ensures small { result < MAX_VOLUME }
    {
        let place = tile.ravel(&self.map_point(p));
        // What is known of every rectangle, its limits, is told with its ranges.
        let _ranges = tile.ranges();
        prove!(place < tile.volume());
        place
    }
}

// The first index of a rectangle that has one.
fn first_index(rect: &AnyRect) -> Point
    ensures value { result ≡ first_of rect.now }
    ensures storable { IsStorable rect.now }
{
    let ranges = rect.ranges();
    let mut lows = [0; 4];
    for axis in 0..ranges.len() {
        lows[axis] = ranges[axis].0;
    }
    Point::new(&lows[..ranges.len()])
}

// The index one further on this axis.
fn next_along(index: &Point, axis: usize) -> Point
    requires axis { axis < length index.now }
    requires small { slice_index_or index.now axis 0 < MAX_END }
    ensures { result ≡ slice_set index.now axis (slice_index_or index.now axis 0 + 1) }
{
    let coordinates = index.coordinates();
    let mut next = [0; 4];
    next[..coordinates.len()].copy_from_slice(coordinates);
    next[axis] += 1;
    Point::new(&next[..coordinates.len()])
}
