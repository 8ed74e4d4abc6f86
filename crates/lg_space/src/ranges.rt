//! What rectangles of both kinds do, said once over the ranges of their axes.
ghost use Rattle.std.specs.Prelude.{◌≡◌, ℕ, ◌+◌, ◌<◌, ◌≤◌, ◌↔◌, List, length, slice_get, Some, IsTrue};
ghost use Rattle.lg_space.specs.Rectangle.{IsIn, indices, place_in, volume_of};
ghost use Rattle.lg_space.specs.Stored.{MAX_VOLUME, IsStorable, padded};
ghost use Rattle.lg_space.specs.Common.{common_range};

use crate::point::{MAX_AXES, Point};
use crate::rect::AnyRect;

/// The ranges as they are kept, with ranges from 0 to 0 behind them.
#[tactic(auto, using(crate::proofs::Kept::filled))]
pub fn kept(ranges: &[(u64, u64)]) -> [(u64, u64); 4]
    requires { length ranges.now ≤ MAX_AXES }
    ensures { result ≡ padded (0, 0) ranges.now }
{
    let mut kept = [(0, 0); 4];
    kept[..ranges.len()].copy_from_slice(ranges);
    kept
}

/// How many indices there are. An empty range ends the product, since what comes behind it may be
/// large.
pub fn volume(ranges: &[(u64, u64)]) -> u64
    requires { volume_of ranges.now ≤ MAX_VOLUME }
    ensures { result ≡ volume_of ranges.now }
{
    let Some((range, ranges)) = ranges.split_first() else {
        return 1;
    };
    if range.1 <= range.0 {
        return 0;
    }
    (range.1 - range.0) * volume(ranges)
}

/// Whether there is a coordinate for each axis, in its range.
pub fn contains(ranges: &[(u64, u64)], index: &[u64]) -> bool
    ensures { IsTrue result ↔ IsIn ranges.now index.now }
{
    match (ranges.split_first(), index.split_first()) {
        (Some((range, ranges)), Some((at, index))) => {
            range.0 <= *at && *at < range.1 && contains(ranges, index)
        }
        (None, None) => true,
        _ => false,
    }
}

// What is in both ranges: where there is nothing, an empty range.
fn common(first: (u64, u64), second: (u64, u64)) -> (u64, u64)
    ensures { result ≡ common_range first second }
{
    let low = first.0.max(second.0);
    (low, first.1.min(second.1).max(low))
}

/// The indices that are in both.
pub fn intersect(first: &[(u64, u64)], second: &[(u64, u64)]) -> AnyRect
    requires axes { length first.now ≡ length second.now }
    requires first { IsStorable first.now }
    requires second { IsStorable second.now }
    ensures axes { length result ≡ length first.now }
    ensures both { (index : List ℕ)
        → IsIn result index ↔ (IsIn first.now index × IsIn second.now index) }
{
    let mut ranges = [(0, 0); 4];
    for axis in 0..first.len() {
        ranges[axis] = common(first[axis], second[axis]);
    }
    AnyRect::new(&ranges[..first.len()])
}

/// How many indices come before this one in row-major order.
pub fn ravel(ranges: &[(u64, u64)], index: &[u64]) -> u64
    requires small { volume_of ranges.now ≤ MAX_VOLUME }
    requires inside { IsIn ranges.now index.now }
    ensures { result ≡ place_in ranges.now index.now }
{
    let mut place = 0;
    for axis in 0..ranges.len() {
        let (low, high) = ranges[axis];
        place = place * (high - low) + (index[axis] - low);
    }
    place
}

/// The index at this place in row-major order.
pub fn unravel(ranges: &[(u64, u64)], k: u64) -> Point
    requires storable { IsStorable ranges.now }
    requires below { k < volume_of ranges.now }
    ensures inside { IsIn ranges.now result }
    ensures value { place_in ranges.now result ≡ k }
{
    let mut at = [0; 4];
    let mut rest = k;
    let mut stride = volume(ranges);
    for axis in 0..ranges.len() {
        let (low, high) = ranges[axis];
        stride /= high - low;
        at[axis] = low + rest / stride;
        rest %= stride;
    }
    Point::new(&at[..ranges.len()])
}

/// The index at the next place in row-major order, or none at the last place: the last coordinate
/// that can goes up by one, and those behind it begin anew.
pub fn next(ranges: &[(u64, u64)], index: &[u64]) -> Option<Point>
    requires storable { IsStorable ranges.now }
    requires inside { IsIn ranges.now index.now }
    ensures { result ≡ slice_get (indices ranges.now) (place_in ranges.now index.now + 1) }
{
    let mut at = [0; 4];
    at[..index.len()].copy_from_slice(index);
    for axis in (0..ranges.len()).rev() {
        let (low, high) = ranges[axis];
        let up = at[axis] + 1;
        if up < high {
            at[axis] = up;
            return Some(Point::new(&at[..ranges.len()]));
        }
        at[axis] = low;
    }
    None
}
