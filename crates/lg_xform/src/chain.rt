ghost use Rattle.std.specs.Prelude.{◌≡◌, ◌≤◌, ◌<◌, ◌-◌, ◌++◌, ℕ, List, length, map, take, replicate, false, slice_get, Some};
ghost use Rattle.lg_space.specs.declared.point.TheConstants.{MAX_AXES};
ghost use Rattle.lg_space.specs.Rectangle.{IsIn};
ghost use Rattle.lg_shape.specs.Shapes.{size_of, whole, place_of};
ghost use Rattle.lg_shape.specs.Stored.{IsShape};
ghost use Rattle.lg_shape.specs.Views.{whole_layout};
ghost use Rattle.lg_xform.specs.Moves.{extents_of, IsHeld, AreRooted};

mod footprint;
mod indexing;
mod repeating;
mod steps;
mod strides;

use crate::axis::ViewAxis;
use lg_shape::Shape;
use lg_space::Point;
pub use strides::Strides;

/// A view of a root, as an affine map from the view's indices to the root's: where the view begins,
/// and for each axis of the view the root axis that it moves, with a stride. Contracts see the
/// root's shape, the view's shape, the map and the flat places that the view has.
#[derive(Clone, Copy, Debug)]
pub struct Chain {
    root: Shape,
    from: [u64; 4],
    count: usize,
    axes: [ViewAxis; 4],
    ghost few: { count ≤ MAX_AXES },
    ghost rooted: { AreRooted (take count axes) },
    ghost shape: { IsShape (extents_of (take count axes)) },
    ghost root_shape: { IsShape root },
    ghost held: { IsHeld root from (take count axes) },
    ghost filled: { 0 < size_of (extents_of (take count axes)) → 0 < size_of root },
}

// An axis that moves nothing.
const FREE: ViewAxis = ViewAxis {
    extent: 1,
    root: 0,
    stride: 0,
    down: false,
    inner: false,
};

impl Chain {
    ghost use Rattle.lg_xform.specs.Chains.{root_of, shape_of, inner_of, mapped, layout_of};
    ghost use Rattle.lg_xform.specs.Footprints.{IsDense};

    /// The view of a whole root.
    pub fn whole(shape: &Shape) -> Chain
        ensures root { root_of result ≡ shape.now }
        ensures shape { shape_of result ≡ shape.now }
        ensures mapped { (index : List ℕ) → IsIn (whole shape.now) index
            → mapped result index ≡ index }
        ensures layout { layout_of result ≡ whole_layout shape.now }
        ensures inner { inner_of result ≡ replicate (length shape.now) false }
        ensures dense { IsDense result }
    {
        let extents = shape.extents();
        let mut axes = [FREE; 4];
        for axis in 0..extents.len() {
            axes[axis] = ViewAxis {
                extent: extents[axis],
                root: axis,
                stride: 1,
                down: false,
                inner: false,
            };
        }
        Chain {
            root: *shape,
            from: [0; 4],
            count: extents.len(),
            axes,
        }
    }

    /// The shape of the root, in which each index of the view leads to an index.
    pub fn root(&self) -> Shape
        ensures value { result ≡ root_of self.now }
        ensures shape { IsShape (root_of self.now) }
        ensures inside { (index : List ℕ) → IsIn (whole (shape_of self.now)) index
            → IsIn (whole (root_of self.now)) (mapped self.now index) }
    {
        self.root
    }

    /// The shape of the view.
    pub fn shape(&self) -> Shape
        ensures value { result ≡ shape_of self.now }
        ensures shape { IsShape (shape_of self.now) }
    {
        let mut extents = [0; 4];
        for axis in 0..self.count {
            extents[axis] = self.axes[axis].extent;
        }
        Shape::new(&extents[..self.count])
    }

    /// The index of the root that an index of the view leads to.
    pub fn map_point(&self, p: &Point) -> Point
        requires { IsIn (whole (shape_of self.now)) p.now }
        ensures value { result ≡ mapped self.now p.now }
        ensures inside { IsIn (whole (root_of self.now)) result }
        ensures place { slice_get (layout_of self.now).places (place_of (shape_of self.now) p.now)
            ≡ Some (place_of (root_of self.now) result) }
    {
        let index = p.coordinates();
        let mut at = self.from;
        for k in 0..self.count {
            let axis = self.axes[k];
            at[axis.root] += axis.steps(index[k]) * axis.stride;
        }
        Point::new(&at[..self.root.extents().len()])
    }

    /// The axes that a delinearize made, at their present places, but the first of them.
    pub fn whole_axes(&self) -> [bool; 4]
        ensures { result ≡ inner_of self.now ++ replicate (4 - length (inner_of self.now)) false }
    {
        let mut inner = [false; 4];
        for axis in 0..self.count {
            inner[axis] = self.axes[axis].inner;
        }
        inner
    }
}
