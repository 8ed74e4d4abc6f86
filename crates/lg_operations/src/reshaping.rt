//! Arrays in another shape of as many elements.
ghost use Rattle.std.specs.Prelude.{◌≡◌, ◌≤◌, ◌≤ℤ◌, ◌^◌, ◌-◌, ◌/◌, filter, length, map, min, negsuc, pos, take, int_le, unsigned_abs, IfOk};
ghost use Rattle.std.specs.List.{list_all};
ghost use Rattle.lg_elem.specs.Operations.{is_negative};
ghost use Rattle.lg_space.specs.Rectangle.{volume_of};
ghost use Rattle.lg_space.specs.Stored.{MAX_VOLUME};
ghost use Rattle.lg_space.specs.declared.point.TheConstants.{MAX_AXES};
ghost use Rattle.lg_shape.specs.Shapes.{size_of, whole};
ghost use Rattle.lg_tile.specs.Tile.{tile_items};
ghost use Rattle.lg_tile.specs.Tiles.{dtype_of, numbers, rect_of};
ghost use Rattle.lg_meaning.specs.declared.fault.FaultKind.TheVariants.{Shape as BadShape};
ghost use Rattle.lg_meaning.specs.Copies.{inferred, is_reshape as is_reshape_of, known_extents};
ghost use Rattle.lg_meaning.specs.Faults.{from_part, needing};
ghost use Rattle.lg_meaning.specs.Static.{as_array as as_array_of, made as made_of, shape_of as shape_of_static};
ghost use Rattle.lg_operations.specs.Operations.{operand_static, IsReady};
ghost use Rattle.lg_operations.specs.Reshaping.{filled, known_extent as known_extent_of, reshape_kind};
ghost use Rattle.lg_operations.specs.Ruling.{ruled_new};

use crate::copies::{as_array, count_of};
use crate::values::Operand;
use crate::written::shaped;
use lg_elem::DType;
use lg_meaning::FaultKind;
use lg_shape::Shape;
use lg_space::{AnyRect, MAX_AXES};
use lg_tile::{AnyTile, Tile, TileElem, each};

/// Type and shape of `reshape` to the extents that are written, of which one may be -1.
///
/// # Errors
///
/// The first fault.
pub fn rule_of_reshape(a: &Operand<'_>, written: &[i128]) -> Result<(DType, Shape), FaultKind>
    requires { IsReady a.now }
    ensures rule { ruled_new result
        ≡ from_part (as_array_of (operand_static a.now)) (reshape_kind written.now) }
    ensures small { IfOk result (λ made. size_of made.1 ≤ MAX_VOLUME) }
    ensures size { IfOk result
        (λ made. size_of made.1 ≡ size_of (shape_of_static (operand_static a.now))) }
{
    let (t, _) = as_array(a)?;
    reshaped(t, count_of(a), written)
}

// The same of so many elements.
fn reshaped(t: DType, count: u64, written: &[i128]) -> Result<(DType, Shape), FaultKind>
    requires { count ≤ MAX_VOLUME }
    ensures rule { ruled_new result ≡ needing (is_reshape_of count written.now) BadShape
        (made_of t (inferred count written.now)) }
    ensures small { IfOk result (λ made. size_of made.1 ≤ MAX_VOLUME) }
    ensures size { IfOk result (λ made. size_of made.1 ≡ count) }
{
    if !is_reshape(count, written) {
        return Err(FaultKind::Shape);
    }
    let extents = filled_in(written, left_over(count, known_size(written)));
    shaped(t, &extents[..written.len()])
}

// Whether what is written is a shape of so many elements, where one extent may be left open.
fn is_reshape(count: u64, written: &[i128]) -> bool
    requires { count ≤ MAX_VOLUME }
    ensures { result ≡ is_reshape_of count written.now }
{
    if MAX_AXES < written.len() || !are_bounded(written) {
        return false;
    }
    let known = known_size(written);
    match count_open(written) {
        0 => known == count,
        1 => known != 0 && count % known == 0,
        _ => false,
    }
}

// Whether no extent is below -1.
fn are_bounded(written: &[i128]) -> bool
    ensures { result ≡ list_all (int_le (negsuc 0)) written.now }
{
    written.iter().all(|x| -1 <= *x)
}

// How many extents are left open.
fn count_open(written: &[i128]) -> usize
    requires { length written.now ≤ MAX_AXES }
    ensures value { result ≡ length (filter is_negative written.now) }
    ensures few { result ≤ length written.now }
{
    match written.split_first() {
        Some((x, written)) => usize::from(*x < 0) + count_open(written),
        None => 0,
    }
}

// How many elements the other extents make, or the greatest number of a `u64` where there are more.
fn known_size(written: &[i128]) -> u64
    ensures { result ≡ min (size_of (known_extents written.now)) (2 ^ 64 - 1) }
{
    match written.split_first() {
        Some((x, written)) => known_extent(*x).saturating_mul(known_size(written)),
        None => 1,
    }
}

// An extent as it is written, cut at the greatest number of a `u64`; one that is left open counts
// as 1.
fn known_extent(x: i128) -> u64
    ensures { result ≡ min (known_extent_of x) (2 ^ 64 - 1) }
{
    if x < 0 {
        return 1;
    }
    u64::try_from(x).unwrap_or(u64::MAX)
}

// The extent that is left open, beside others that make so many elements.
fn left_over(count: u64, known: u64) -> i128
    ensures { result ≡ pos (count / known) }
{
    if known == 0 {
        return 0;
    }
    i128::from(count / known)
}

// The extents that are written, with this one where one is left open. The entries behind them say
// nothing.
fn filled_in(written: &[i128], left: i128) -> [i128; 4]
    requires few { length written.now ≤ MAX_AXES }
    requires extent { pos 0 ≤ℤ left }
    ensures { take (length written.now) result ≡ map (filled (unsigned_abs left)) written.now }
{
    let mut extents = [0; 4];
    for axis in 0..written.len() {
        extents[axis] = extent_or(written[axis], left);
    }
    extents
}

// An extent that is written, or this one where it is left open.
fn extent_or(x: i128, left: i128) -> i128
    requires { pos 0 ≤ℤ left }
    ensures { result ≡ filled (unsigned_abs left) x }
{
    if x < 0 { left } else { x }
}

/// The tile with its elements over all indices of another shape. It takes no memory.
pub fn in_shape(tile: AnyTile, shape: &Shape) -> AnyTile
    requires small { size_of shape.now ≤ MAX_VOLUME }
    requires full { length (numbers tile) ≡ size_of shape.now }
    ensures dtype { dtype_of result ≡ dtype_of tile }
    ensures rect { rect_of result ≡ whole shape.now }
    ensures numbers { numbers result ≡ numbers tile }
{
    let all = shape.whole();
    each!(tile, tile => over_rect(tile, &all))
}

fn over_rect<T: TileElem>(tile: Tile<T>, rect: &AnyRect) -> AnyTile
    requires { length (tile_items tile) ≡ volume_of rect.now }
    ensures dtype { dtype_of result ≡ T.DTYPE }
    ensures rect { rect_of result ≡ rect.now }
    ensures numbers { numbers result ≡ map T.number (tile_items tile) }
{
    T::any(Tile::new(*rect, tile.into_items()))
}
