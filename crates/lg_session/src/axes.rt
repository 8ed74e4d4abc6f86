//! The axes of a transpose, as they are written.
ghost use Rattle.std.specs.Prelude.{◌≡◌, ◌≤◌, ◌==◌, true, length, map, take, reverse, Some, Ok, Err, option_copied, MatchResult};
ghost use Rattle.std.specs.List.{range_with_len, list_all, list_any};
ghost use Rattle.lg_shape.specs.Indexing.{has_coordinate, coordinate as coordinate_of};
ghost use Rattle.lg_meaning.specs.Views.{transpose_axes as transpose_axes_of, are_distinct as are_distinct_of};

use lg_meaning::FaultKind;

/// The axes that a transpose of so many takes, in their new order; without axes from the last to
/// the first. The entries behind them say nothing.
///
/// # Errors
///
/// `Shape` where it is a wrong number of axes, then `Index` where one is out of range, then `Shape`
/// where one stands there twice.
pub(crate) fn transpose_axes(count: usize, axes: Option<&[i128]>) -> Result<[u8; 4], FaultKind>
    requires few { count ≤ 4 }
    ensures { MatchResult result
        (λ order. transpose_axes_of count (option_copied axes.entry) ≡ Ok (take count order))
        (λ kind. transpose_axes_of count (option_copied axes.entry) ≡ Err kind) }
{
    match axes {
        Some(axes) => written_axes(count, axes),
        None => Ok(reversed_axes(count)),
    }
}

// The axes from the last to the first.
fn reversed_axes(count: usize) -> [u8; 4]
    requires few { count ≤ 4 }
    ensures { take count result ≡ reverse (range_with_len 0 count) }
{
    let mut order = [0, 1, 2, 3];
    order[..count].reverse();
    order
}

// The axes that are written.
fn written_axes(count: usize, axes: &[i128]) -> Result<[u8; 4], FaultKind>
    requires few { count ≤ 4 }
    ensures { MatchResult result
        (λ order. transpose_axes_of count (Some axes.now) ≡ Ok (take count order))
        (λ kind. transpose_axes_of count (Some axes.now) ≡ Err kind) }
{
    if axes.len() != count {
        return Err(FaultKind::Shape);
    }
    if !are_named(count, axes) {
        return Err(FaultKind::Index);
    }
    let order = counted_axes(count, axes);
    if !are_distinct(&order[..count]) {
        return Err(FaultKind::Shape);
    }
    Ok(order)
}

// Whether each integer names an axis.
fn are_named(count: usize, axes: &[i128]) -> bool
    requires few { count ≤ 4 }
    ensures { result ≡ list_all (has_coordinate count) axes.now }
{
    axes.iter().all(|axis| has_axis(count, *axis))
}

// Whether an integer names one of so many axes.
fn has_axis(count: usize, axis: i128) -> bool
    requires few { count ≤ 4 }
    ensures { result ≡ has_coordinate count axis }
{
    let count = count as i128;
    -count <= axis && axis < count
}

// The axes by their numbers, where each integer names one.
fn counted_axes(count: usize, axes: &[i128]) -> [u8; 4]
    requires few { count ≤ 4 }
    requires all { length axes.now ≡ count }
    requires named { list_all (has_coordinate count) axes.now ≡ true }
    ensures { take count result ≡ map (coordinate_of count) axes.now }
{
    let mut order = [0; 4];
    for place in 0..count {
        order[place] = axis_of(count, axes[place]);
    }
    order
}

// The axis that an integer names: below 0 it counts from the end.
fn axis_of(count: usize, axis: i128) -> u8
    requires few { count ≤ 4 }
    requires named { has_coordinate count axis ≡ true }
    ensures { result ≡ coordinate_of count axis }
{
    let axis = if axis < 0 { axis + count as i128 } else { axis };
    axis as u8
}

// Whether no axis stands there twice.
fn are_distinct(axes: &[u8]) -> bool
    ensures { result ≡ are_distinct_of axes.now }
{
    match axes.split_first() {
        Some((axis, axes)) => !contains(axes, *axis) && are_distinct(axes),
        None => true,
    }
}

fn contains(axes: &[u8], axis: u8) -> bool
    ensures { result ≡ list_any (λ other. axis == other) axes.now }
{
    axes.iter().any(|other| axis == *other)
}
