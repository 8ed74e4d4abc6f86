//! Copies along two axes that lie crosswise: what is dense on one side is far apart on the other.
//! They go block by block, so that what was fetched is still at hand when its neighbours are copied.

ghost use Rattle.std.specs.Prelude.{◌≤◌, [], ◌∷◌, length};
ghost use Rattle.lg_space.specs.Stored.{MAX_VOLUME};
ghost use Rattle.lg_copy.specs.Copying.{AreSmall, Copied, Fits, Goes};

use crate::axis::Axis;
use crate::runs::copy_run;

// How many coordinates of each axis a block has.
const BLOCK: usize = 32;

/// Whether the outer axis is the denser one in the source or in the target, while the inner one is
/// not dense there.
pub(crate) fn is_crossed(outer: &Axis, inner: &Axis) -> bool {
    is_denser(outer.from, inner.from) || is_denser(outer.to, inner.to)
}

/// Whether the first stride moves, and not as far as the second one.
pub(crate) fn is_denser(first: i64, second: i64) -> bool {
    first != 0 && first.unsigned_abs() < second.unsigned_abs()
}

/// Copies along two axes, block by block. The runs go along the axis that is denser in the target.
pub(crate) fn copy_crossed<T: Copy>(
    source: &[T],
    from: usize,
    target: &mut [T],
    to: usize,
    outer: &Axis,
    inner: &Axis,
)
    requires axes { AreSmall (outer.now ∷ inner.now ∷ []) }
    requires source { length source.now ≤ MAX_VOLUME }
    requires target { length target.old ≤ MAX_VOLUME }
    requires fits { Fits from to (outer.now ∷ inner.now ∷ []) (length source.now)
        (length target.old) }
    ensures { Copied source.now target.old target.new
        (λ s q. Goes from to (outer.now ∷ inner.now ∷ []) s q) }
{
    if is_denser(outer.to, inner.to) {
        copy_plane(source, from, target, to, inner, outer);
    } else {
        copy_plane(source, from, target, to, outer, inner);
    }
}

// Band by band of the outer axis.
fn copy_plane<T: Copy>(
    source: &[T],
    from: usize,
    target: &mut [T],
    to: usize,
    outer: &Axis,
    inner: &Axis,
)
    requires axes { AreSmall (outer.now ∷ inner.now ∷ []) }
    requires source { length source.now ≤ MAX_VOLUME }
    requires target { length target.old ≤ MAX_VOLUME }
    requires fits { Fits from to (outer.now ∷ inner.now ∷ []) (length source.now)
        (length target.old) }
    ensures { Copied source.now target.old target.new
        (λ s q. Goes from to (outer.now ∷ inner.now ∷ []) s q) }
{
    let mut done = 0;
    while done < outer.count {
        let count = BLOCK.min(outer.count - done);
        let (here, there) = outer.places(from, to, done);
        let band = outer.with_count(count);
        copy_band(source, here, target, there, &band, inner);
        done += count;
    }
}

// Cell by cell of the inner axis.
fn copy_band<T: Copy>(
    source: &[T],
    from: usize,
    target: &mut [T],
    to: usize,
    outer: &Axis,
    inner: &Axis,
)
    requires axes { AreSmall (outer.now ∷ inner.now ∷ []) }
    requires source { length source.now ≤ MAX_VOLUME }
    requires target { length target.old ≤ MAX_VOLUME }
    requires fits { Fits from to (outer.now ∷ inner.now ∷ []) (length source.now)
        (length target.old) }
    ensures { Copied source.now target.old target.new
        (λ s q. Goes from to (outer.now ∷ inner.now ∷ []) s q) }
{
    let mut done = 0;
    while done < inner.count {
        let count = BLOCK.min(inner.count - done);
        let (here, there) = inner.places(from, to, done);
        let cell = inner.with_count(count);
        copy_cell(source, here, target, there, outer, &cell);
        done += count;
    }
}

// Run by run.
fn copy_cell<T: Copy>(
    source: &[T],
    from: usize,
    target: &mut [T],
    to: usize,
    outer: &Axis,
    inner: &Axis,
)
    requires axes { AreSmall (outer.now ∷ inner.now ∷ []) }
    requires source { length source.now ≤ MAX_VOLUME }
    requires target { length target.old ≤ MAX_VOLUME }
    requires fits { Fits from to (outer.now ∷ inner.now ∷ []) (length source.now)
        (length target.old) }
    ensures { Copied source.now target.old target.new
        (λ s q. Goes from to (outer.now ∷ inner.now ∷ []) s q) }
{
    for k in 0..outer.count {
        let (here, there) = outer.places(from, to, k);
        copy_run(source, here, target, there, inner);
    }
}
