ghost use Rattle.std.specs.Prelude.{◌≡◌, ◌≤◌, ◌<◌, ◌+◌, ◌-◌, ◌*◌, ℕ, List, length, map, take, insert, remove, slice_index_or, IsPermutation, All, false, min};
ghost use Rattle.lg_space.specs.declared.point.TheConstants.{MAX_AXES};
ghost use Rattle.lg_space.specs.Stored.{MAX_END};
ghost use Rattle.lg_space.specs.Rectangle.{IsIn};
ghost use Rattle.lg_shape.specs.Shapes.{whole, size_of};
ghost use Rattle.lg_shape.specs.Views.{shape_after, index_before, stepped, all_stepped};
ghost use Rattle.lg_xform.specs.Moves.{rows_of};
ghost use Rattle.lg_xform.specs.declared.axis.ViewAxis.{ViewAxis};

use super::{Chain, FREE};
use crate::axis::ViewAxis;
use lg_shape::{Shape, Step};

impl Chain {
    ghost use Rattle.lg_shape.specs.declared.step.Step.{Step};
    ghost use Rattle.lg_xform.specs.Chains.{root_of, shape_of, inner_of, mapped, layout_of, inner_after, IsChainStep, IsStepped, AreChainSteps, all_inner};
    ghost use Rattle.lg_xform.specs.Footprints.{IsDense, IsDenseStep};

    /// The view that a step makes of this one. A delinearize is taken from the view of a whole root
    /// alone, and what splits an axis is followed by promotes and transposes alone.
    pub fn apply(&self, step: &Step) -> Chain
        requires { IsChainStep step.now (root_of self.now) (layout_of self.now)
            (inner_of self.now) }
        ensures root { root_of result ≡ root_of self.now }
        ensures shape { shape_of result ≡ shape_after step.now (shape_of self.now) }
        ensures mapped { (index : List ℕ) → IsIn (whole (shape_of result)) index
            → mapped result index ≡ mapped self.now (index_before step.now index) }
        ensures layout { layout_of result ≡ stepped step.now (layout_of self.now) }
        ensures inner { inner_of result ≡ inner_after step.now (inner_of self.now) }
        ensures dense { IsDense self.now → IsDenseStep step.now → IsDense result }
    {
        self.stepped(step)
    }

    /// The view after several steps, the first one first.
    pub fn apply_all(&self, steps: &[Step]) -> Chain
        requires { AreChainSteps steps.now (root_of self.now) (layout_of self.now)
            (inner_of self.now) }
        ensures root { root_of result ≡ root_of self.now }
        ensures layout { layout_of result ≡ all_stepped steps.now (layout_of self.now) }
        ensures inner { inner_of result ≡ all_inner steps.now (inner_of self.now) }
        ensures dense { IsDense self.now → All IsDenseStep steps.now → IsDense result }
    {
        let Some((step, steps)) = steps.split_first() else {
            return *self;
        };
        self.apply(step).apply_all(steps)
    }

    // The view after a step, by the kind of the step.
    fn stepped(&self, step: &Step) -> Chain
        requires { IsChainStep step.now (root_of self.now) (layout_of self.now)
            (inner_of self.now) }
        ensures { IsStepped step.now self.now result }
    {
        match *step {
            Step::Promote { axis, extent } => self.promote(axis as usize, extent),
            Step::Project { axis, index } => self.project(axis as usize, index),
            Step::Slice {
                axis,
                start,
                len,
                step,
            } => self.slice(axis as usize, start, len, step),
            Step::Transpose { axes } => self.transpose(&axes),
            Step::Delinearize { sizes } => self.delinearize(&sizes),
        }
    }

    // A new axis that moves nothing.
    fn promote(&self, axis: usize, extent: u64) -> Chain
        requires { IsChainStep (Step.Promote axis extent) (root_of self.now) (layout_of self.now)
            (inner_of self.now) }
        ensures { IsStepped (Step.Promote axis extent) self.now result }
    {
        Chain {
            root: self.root,
            from: self.from,
            count: self.count + 1,
            axes: with_axis(&self.axes, self.count, axis, ViewAxis { extent, ..FREE }),
        }
    }

    // The view begins where the axis has this index, and the axis is gone.
    fn project(&self, axis: usize, index: u64) -> Chain
        requires { IsChainStep (Step.Project axis index) (root_of self.now) (layout_of self.now)
            (inner_of self.now) }
        ensures { IsStepped (Step.Project axis index) self.now result }
    {
        let old = self.axes[axis];
        let mut from = self.from;
        from[old.root] += old.steps(index) * old.stride;
        Chain {
            root: self.root,
            from,
            count: self.count - 1,
            axes: without_axis(&self.axes, self.count, axis),
        }
    }

    // The view begins at the lowest place of the slice.
    fn slice(&self, axis: usize, start: u64, len: u64, step: i64) -> Chain
        requires { IsChainStep (Step.Slice axis start len step) (root_of self.now)
            (layout_of self.now) (inner_of self.now) }
        ensures { IsStepped (Step.Slice axis start len step) self.now result }
    {
        let old = self.axes[axis];
        let (ahead, new) = old.sliced(start, len, step);
        let mut from = self.from;
        from[old.root] += ahead;
        let mut axes = self.axes;
        axes[axis] = new;
        Chain {
            root: self.root,
            from,
            count: self.count,
            axes,
        }
    }

    // The axes in another order.
    fn transpose(&self, order: &[u8; 4]) -> Chain
        requires { IsChainStep (Step.Transpose order.now) (root_of self.now) (layout_of self.now)
            (inner_of self.now) }
        ensures { IsStepped (Step.Transpose order.now) self.now result }
    {
        Chain {
            root: self.root,
            from: self.from,
            count: self.count,
            axes: reordered(&self.axes, self.count, order),
        }
    }

    // The axes of a root that is split.
    fn delinearize(&self, sizes: &Shape) -> Chain
        requires { IsChainStep (Step.Delinearize sizes.now) (root_of self.now) (layout_of self.now)
            (inner_of self.now) }
        ensures { IsStepped (Step.Delinearize sizes.now) self.now result }
    {
        let extents = sizes.extents();
        Chain {
            root: self.root,
            from: [0; 4],
            count: extents.len(),
            axes: rows(extents),
        }
    }
}

// The axes with one more at this place.
fn with_axis(axes: &[ViewAxis; 4], count: usize, at: usize, new: ViewAxis) -> [ViewAxis; 4]
    requires at { at ≤ count }
    requires room { count < 4 }
    ensures { take (count + 1) result ≡ insert (take count axes.now) at new }
{
    let mut more = *axes;
    more[count] = new;
    more[at..count + 1].rotate_right(1);
    more
}

// The axes without the one at this place.
fn without_axis(axes: &[ViewAxis; 4], count: usize, at: usize) -> [ViewAxis; 4]
    requires at { at < count }
    requires few { count ≤ 4 }
    ensures { take (count - 1) result ≡ remove (take count axes.now) at }
{
    let mut fewer = *axes;
    fewer[at..count].rotate_left(1);
    fewer
}

// The axes in this order.
fn reordered(axes: &[ViewAxis; 4], count: usize, order: &[u8; 4]) -> [ViewAxis; 4]
    requires few { count ≤ 4 }
    requires below { (j : ℕ) → j < count → slice_index_or order.now j 0 < count }
    ensures { (j : ℕ) (none : ViewAxis) → j < count → slice_index_or result j none
        ≡ slice_index_or axes.now (slice_index_or order.now j 0) none }
{
    let mut turned = *axes;
    for j in 0..count {
        turned[j] = axes[order[j] as usize];
    }
    turned
}

// The axes into which the one axis of a root is split.
fn rows(sizes: &[u64]) -> [ViewAxis; 4]
    requires few { length sizes.now ≤ MAX_AXES }
    requires small { size_of sizes.now ≤ MAX_END }
    ensures { take (length sizes.now) result
        ≡ rows_of (min 1 (size_of sizes.now)) false sizes.now }
{
    let some = size(sizes) > 0;
    let mut axes = [FREE; 4];
    for axis in 0..sizes.len() {
        axes[axis] = ViewAxis {
            extent: sizes[axis],
            root: 0,
            stride: if some { size(&sizes[axis + 1..]) } else { 0 },
            down: false,
            inner: axis > 0,
        };
    }
    axes
}

// How many indices a shape has. An empty axis ends the product, since what comes behind it may be
// large.
fn size(extents: &[u64]) -> u64
    requires { size_of extents.now ≤ MAX_END }
    ensures { result ≡ size_of extents.now }
{
    let Some((extent, extents)) = extents.split_first() else {
        return 1;
    };
    if *extent == 0 {
        return 0;
    }
    extent * size(extents)
}
