//! Copies along all axes.

ghost use Rattle.std.specs.Prelude.{IsTrue, ◌≤◌, length};
ghost use Rattle.lg_space.specs.Stored.{MAX_VOLUME};
ghost use Rattle.lg_copy.specs.Copying.{AreSmall, Copied, Fits, Goes, IsSingle};

use crate::axis::Axis;
use crate::crossed::{copy_crossed, is_crossed};
use crate::runs::copy_run;

/// Copies the element of each index: one place in the source, and one in the target.
pub(crate) fn copy_axes<T: Copy>(
    source: &[T],
    from: usize,
    target: &mut [T],
    to: usize,
    axes: &[Axis],
)
    requires axes { AreSmall axes.now }
    requires source { length source.now ≤ MAX_VOLUME }
    requires target { length target.old ≤ MAX_VOLUME }
    requires fits { Fits from to axes.now (length source.now) (length target.old) }
    ensures { Copied source.now target.old target.new (λ s q. Goes from to axes.now s q) }
{
    let Some((axis, inner)) = axes.split_first() else {
        target[to] = source[from];
        return;
    };
    if inner.is_empty() {
        copy_run(source, from, target, to, axis);
        return;
    }
    if is_single(inner) {
        copy_run(source, from, target, to, axis);
        return;
    }
    if inner.len() == 1 && is_crossed(axis, &inner[0]) {
        copy_crossed(source, from, target, to, axis, &inner[0]);
        return;
    }
    for k in 0..axis.count {
        let (here, there) = axis.places(from, to, k);
        copy_axes(source, here, target, there, inner);
    }
}

// Whether there is one axis, with one coordinate.
fn is_single(axes: &[Axis]) -> bool
    ensures { IsTrue result → IsSingle axes.now }
{
    axes.len() == 1 && axes[0].count == 1
}
