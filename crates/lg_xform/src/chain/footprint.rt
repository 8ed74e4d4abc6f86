ghost use Rattle.std.specs.Prelude.{◌≡◌, ◌≤◌, ◌<◌, ◌-◌, ℕ, List, length, map};
ghost use Rattle.lg_space.specs.Rectangle.{IsIn, volume_of};
ghost use Rattle.lg_space.specs.Stored.{MAX_VOLUME, IsStorable};
ghost use Rattle.lg_shape.specs.Shapes.{size_of, whole};
ghost use Rattle.lg_xform.specs.Corners.{end_of, corner_of, boxed, empty_of};

use super::Chain;
use crate::axis::ViewAxis;
use lg_shape::Shape;
use lg_space::{AnyRect, Point};

impl Chain {
    ghost use Rattle.lg_xform.specs.Chains.{root_of, shape_of, axes_of, inner_of, mapped};
    ghost use Rattle.lg_xform.specs.Footprints.{IsTile, LeadsTo, IsFootprint, IsDense};

    /// The part of the root that a tile of the view leads to: the least rectangle that has it all.
    /// Where the view has no holes, it is exactly that part. For a tile without indices over a root
    /// without axes it is an empty range, since a rectangle without axes has an index.
    pub fn footprint(&self, tile: &AnyRect) -> AnyRect
        requires tile { IsTile (shape_of self.now) (inner_of self.now) tile.now }
        requires root { size_of (root_of self.now) ≤ MAX_VOLUME }
        ensures holds { (index : List ℕ) → IsIn tile.now index
            → IsIn result (mapped self.now index) }
        ensures low { 0 < volume_of tile.now
            → LeadsTo (mapped self.now) tile.now (map (λ (range : ℕ × ℕ). range.0) result) }
        ensures high { 0 < volume_of tile.now
            → LeadsTo (mapped self.now) tile.now (map (λ (range : ℕ × ℕ). range.1 - 1) result) }
        ensures exact { IsDense self.now → IsFootprint (mapped self.now) tile.now result }
        ensures empty { volume_of tile.now ≡ 0 → result ≡ empty_of (root_of self.now) }
        ensures inside { (at : List ℕ) → IsIn result at → IsIn (whole (root_of self.now)) at }
    {
        if tile.volume() == 0 {
            return empty(&self.root);
        }
        let low = self.map_point(&self.corner(tile, false));
        let high = self.map_point(&self.corner(tile, true));
        between(&low, &high)
    }

    // The index of the tile that leads to the nearest or to the farthest root index.
    fn corner(&self, tile: &AnyRect, far: bool) -> Point
        requires axes { length tile.now ≡ length (shape_of self.now) }
        requires some { 0 < volume_of tile.now }
        ensures { result ≡ corner_of far (axes_of self.now) tile.now }
    {
        let mut at = [0; 4];
        for k in 0..self.count {
            at[k] = end(&self.axes[k], tile.range(k), far);
        }
        Point::new(&at[..self.count])
    }
}

// The end of a range that is nearest or farthest on this axis.
fn end(axis: &ViewAxis, range: (u64, u64), far: bool) -> u64
    requires { 0 < range.1 }
    ensures { result ≡ end_of far axis.now.down range }
{
    match (far, axis.down) {
        (false, false) | (true, true) => range.0,
        _ => range.1 - 1,
    }
}

// A rectangle without indices, with the root's axes or with one.
fn empty(root: &Shape) -> AnyRect
    ensures { result ≡ empty_of root.now }
{
    let axes = root.extents().len();
    AnyRect::new(&[(0, 0); 4][..axes.max(1)])
}

// The rectangle from one point to the other, with both.
fn between(low: &Point, high: &Point) -> AnyRect
    requires same { length low.now ≡ length high.now }
    requires storable { IsStorable (boxed low.now high.now) }
    ensures { result ≡ boxed low.now high.now }
{
    let (lows, highs) = (low.coordinates(), high.coordinates());
    let mut ranges = [(0, 0); 4];
    for axis in 0..lows.len() {
        ranges[axis] = (lows[axis], highs[axis] + 1);
    }
    AnyRect::new(&ranges[..lows.len()])
}
