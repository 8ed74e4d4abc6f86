//! Copies along one axis.

ghost use Rattle.std.specs.Prelude.{◌<◌, ◌≤◌, ◌+◌, length, pos};
ghost use Rattle.lg_space.specs.Stored.{MAX_VOLUME};
ghost use Rattle.lg_copy.specs.Copying.{Copied, FitsAlong, GoesAlong};

use crate::axis::{Axis, further};

/// Copies along one axis: whole where both sides lie side by side.
pub(crate) fn copy_run<T: Copy>(source: &[T], from: usize, target: &mut [T], to: usize, axis: &Axis)
    requires some { 0 < axis.now.count }
    requires count { axis.now.count ≤ MAX_VOLUME }
    requires source { length source.now ≤ MAX_VOLUME }
    requires target { length target.old ≤ MAX_VOLUME }
    requires fits { FitsAlong from to axis.now.count axis.now.from axis.now.to
        (length source.now) (length target.old) }
    ensures { Copied source.now target.old target.new
        (λ s q. GoesAlong from to axis.now.count axis.now.from axis.now.to s q) }
{
    if axis.to != 1 {
        copy_steps(source, from, target, to, axis);
        return;
    }
    if axis.from == 1 {
        copy_block(source, from, target, to, axis.count);
        return;
    }
    if axis.from == 0 {
        copy_same(source, from, target, to, axis.count);
        return;
    }
    copy_apart(source, from, target, to, axis.count, axis.from);
}

// Elements that lie side by side, to places side by side.
fn copy_block<T: Copy>(source: &[T], from: usize, target: &mut [T], to: usize, count: usize)
    requires source { from + count ≤ length source.now }
    requires target { to + count ≤ length target.old }
    ensures { Copied source.now target.old target.new
        (λ s q. GoesAlong from to count (pos 1) (pos 1) s q) }
{
    target[to..to + count].copy_from_slice(&source[from..from + count]);
}

// One element, to places side by side.
fn copy_same<T: Copy>(source: &[T], from: usize, target: &mut [T], to: usize, count: usize)
    requires some { 0 < count }
    requires fits { FitsAlong from to count (pos 0) (pos 1) (length source.now)
        (length target.old) }
    ensures { Copied source.now target.old target.new
        (λ s q. GoesAlong from to count (pos 0) (pos 1) s q) }
{
    let item = source[from];
    for k in 0..count {
        target[to + k] = item;
    }
}

// Elements that lie apart, to places side by side.
fn copy_apart<T: Copy>(
    source: &[T],
    from: usize,
    target: &mut [T],
    to: usize,
    count: usize,
    stride: i64,
)
    requires count { count ≤ MAX_VOLUME }
    requires source { length source.now ≤ MAX_VOLUME }
    requires fits { FitsAlong from to count stride (pos 1) (length source.now)
        (length target.old) }
    ensures { Copied source.now target.old target.new
        (λ s q. GoesAlong from to count stride (pos 1) s q) }
{
    for k in 0..count {
        target[to + k] = source[further(from, k, stride)];
    }
}

// Elements that lie apart, to places that lie apart.
fn copy_steps<T: Copy>(source: &[T], from: usize, target: &mut [T], to: usize, axis: &Axis)
    requires count { axis.now.count ≤ MAX_VOLUME }
    requires source { length source.now ≤ MAX_VOLUME }
    requires target { length target.old ≤ MAX_VOLUME }
    requires fits { FitsAlong from to axis.now.count axis.now.from axis.now.to
        (length source.now) (length target.old) }
    ensures { Copied source.now target.old target.new
        (λ s q. GoesAlong from to axis.now.count axis.now.from axis.now.to s q) }
{
    for k in 0..axis.count {
        let (here, there) = axis.places(from, to, k);
        target[there] = source[here];
    }
}
