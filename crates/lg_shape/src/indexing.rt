ghost use Rattle.std.specs.Prelude.{◌≡◌, ℕ, ◌+◌, ◌<◌, ◌≤◌, ◌^◌, ◌++◌, length, suc, Some, None, IfOk, if◌then◌else◌};
ghost use Rattle.std.specs.Result.{result_err, OnOk};
ghost use Rattle.smallvec.specs.SmallVec.{small_vec_len};
ghost use Rattle.lg_space.specs.Stored.{MAX_END};
ghost use Rattle.lg_shape.specs.Steps.{AreStepsOf, AreIndexSteps};
ghost use Rattle.lg_shape.specs.Stored.{IsShape};
ghost use Rattle.lg_shape.specs.Indexing.{has_coordinate, coordinate, bound, is_plain, named_axes, ellipses, item_fault, indexed_shape, index_fault, Picks};
ghost use Rattle.lg_shape.specs.IndexSteps.{cut_steps, promote_steps, integers, added_axes, taken_axes, counted_from_start};

use crate::index::{IndexFault, IndexItem};
use crate::shape::Shape;
use crate::step::Step;
use lg_space::MAX_AXES;
use smallvec::SmallVec;
use std::alloc::Global;

/// The steps from any view of this shape to the view that the index picks (NumPy's reference,
/// "Indexing on ndarrays"): first those for integers and slices, and then, on the axes that are
/// left, those for new axes, so that no shape on the way has more axes than the first and the last.
/// There are at most eight, which take no memory.
///
/// The first fault in this order is told: two `...`; more integers and slices than axes; from left
/// to right an integer outside its axis, or a step that is not 1; more than four axes of the view.
/// That order, and that a slice has no other step, are this project's own.
pub fn apply_index(
    alloc: Global,
    shape: &Shape,
    items: &[IndexItem],
) -> Result<SmallVec<Step, 8>, IndexFault>
    requires { length items.now < 2 ^ 32 }
    ensures fault { result_err result ≡ index_fault shape.now items.now }
    ensures few { IfOk result (λ steps. small_vec_len steps ≤ 8) }
    ensures inline { IfOk result (λ steps. steps.capacity ≡ 8) }
    ensures allowed { IfOk result (λ steps. AreStepsOf steps.items shape.now) }
    ensures plain { IfOk result (λ steps. AreIndexSteps steps.items) }
    ensures picks { IfOk result (λ steps. Picks shape.now items.now steps.items) }
    ensures limits { OnOk result (IsShape (indexed_shape shape.now items.now)) }
{
    let extents = shape.extents();
    let counts = counts_of(items);
    if counts.ellipses > 1 {
        return Err(IndexFault::TwoEllipses);
    }
    let named = counts.integers + counts.slices;
    if named > extents.len() {
        return Err(IndexFault::TooMany);
    }
    let missing = extents.len() - named;
    let mut steps = SmallVec::new(alloc);
    add_cuts(&mut steps, extents, missing, items)?;
    if extents.len() - counts.integers + counts.new_axes > MAX_AXES {
        return Err(IndexFault::TooManyAxes);
    }
    add_promotes(&mut steps, missing, items);
    Ok(steps)
}

// How many items there are of each kind.
#[derive(Clone, Copy)]
struct Counts {
    integers: usize,
    slices: usize,
    new_axes: usize,
    ellipses: usize,
}

fn counts_of(items: &[IndexItem]) -> Counts
    requires { length items.now < 2 ^ 32 }
    ensures named { result.integers + result.slices ≡ named_axes items.now }
    ensures integers { result.integers ≡ integers items.now }
    ensures new_axes { result.new_axes ≡ added_axes items.now }
    ensures ellipses { result.ellipses ≡ ellipses items.now }
    ensures few { result.integers + result.slices + result.new_axes ≤ length items.now }
{
    let mut counts = Counts {
        integers: 0,
        slices: 0,
        new_axes: 0,
        ellipses: 0,
    };
    for item in items {
        match item {
            IndexItem::At(_) => counts.integers += 1,
            IndexItem::Slice {
                start: _,
                stop: _,
                step: _,
            } => counts.slices += 1,
            IndexItem::NewAxis => counts.new_axes += 1,
            IndexItem::Ellipsis => counts.ellipses += 1,
        }
    }
    counts
}

// Adds the steps for integers and slices, from left to right, where `...` stands for so many axes.
// The first item that has a fault ends it.
fn add_cuts(
    steps: &mut SmallVec<Step, 8>,
    extents: &[u64],
    missing: usize,
    items: &[IndexItem],
) -> Result<(), IndexFault>
    requires shape { IsShape extents.now }
    requires taken { taken_axes missing items.now ≤ length extents.now }
    requires room { small_vec_len steps.old + named_axes items.now ≤ steps.old.capacity }
    requires places { length items.now < 2 ^ 32 }
    ensures fault { result_err result ≡ item_fault 0 missing extents.now items.now }
    ensures steps { OnOk result (steps.new.items
        ≡ steps.old.items ++ cut_steps 0 missing extents.now items.now) }
    ensures capacity { steps.new.capacity ≡ steps.old.capacity }
{
    // The place of the next axis in the view so far, and the extents from that axis on.
    let mut axis = 0;
    let mut rest = extents;
    for (place, item) in items.iter().enumerate() {
        match item {
            IndexItem::At(k) => {
                let Some(index) = coordinate_of(rest[0], *k) else {
                    return Err(IndexFault::OutOfRange { item: place as u32 });
                };
                steps.push_reserved(Step::Project { axis, index });
                rest = &rest[1..];
            }
            IndexItem::Slice { start, stop, step } => {
                if !is_one(*step) {
                    return Err(IndexFault::Step { item: place as u32 });
                }
                let low = bound_of(rest[0], 0, *start);
                let high = bound_of(rest[0], rest[0], *stop);
                steps.push_reserved(Step::Slice {
                    axis,
                    start: low,
                    len: high.saturating_sub(low),
                    step: 1,
                });
                axis += 1;
                rest = &rest[1..];
            }
            IndexItem::NewAxis => {}
            IndexItem::Ellipsis => {
                axis += missing as u8;
                rest = &rest[missing..];
            }
        }
    }
    Ok(())
}

// Adds the steps for new axes, from left to right, to a view from which the integers' axes are
// gone.
fn add_promotes(steps: &mut SmallVec<Step, 8>, missing: usize, items: &[IndexItem])
    requires axes { taken_axes missing items.now + added_axes items.now ≤ 8 }
    requires room { small_vec_len steps.old + added_axes items.now ≤ steps.old.capacity }
    ensures steps { steps.new.items ≡ steps.old.items ++ promote_steps 0 missing items.now }
    ensures capacity { steps.new.capacity ≡ steps.old.capacity }
{
    let mut axis = 0;
    for item in items {
        match item {
            IndexItem::At(_) => {}
            IndexItem::Slice {
                start: _,
                stop: _,
                step: _,
            } => axis += 1,
            IndexItem::NewAxis => {
                steps.push_reserved(Step::Promote { axis, extent: 1 });
                axis += 1;
            }
            IndexItem::Ellipsis => axis += missing as u8,
        }
    }
}

// The coordinate that an integer names, if there is one.
fn coordinate_of(extent: u64, k: i128) -> Option<u64>
    requires { extent ≤ MAX_END }
    ensures { result ≡ (if has_coordinate extent k then Some (coordinate extent k) else None) }
{
    let at = from_start(extent, k);
    if at >= 0 && at < i128::from(extent) {
        Some(at as u64)
    } else {
        None
    }
}

// A bound of a slice, clipped to the axis, or what stands for an absent one.
fn bound_of(extent: u64, absent: u64, given: Option<i128>) -> u64
    requires { extent ≤ MAX_END }
    ensures { result ≡ bound extent absent given }
{
    match given {
        Some(k) => from_start(extent, k).clamp(0, i128::from(extent)) as u64,
        None => absent,
    }
}

// A number counted from the start of an axis, where below 0 it was counted from the end.
fn from_start(extent: u64, k: i128) -> i128
    requires { extent ≤ MAX_END }
    ensures { result ≡ counted_from_start extent k }
{
    if k < 0 { k + i128::from(extent) } else { k }
}

// Whether a slice may have this step: none, or 1.
fn is_one(step: Option<i128>) -> bool
    ensures { result ≡ is_plain step }
{
    match step {
        Some(k) => k == 1,
        None => true,
    }
}
