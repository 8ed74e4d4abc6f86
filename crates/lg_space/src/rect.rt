ghost use Rattle.std.specs.Prelude.{◌≡◌, ℕ, ◌+◌, ◌<◌, ◌≤◌, ◌↔◌, List, length, slice_get, Some, IsTrue, IsSome, IfSome, All};
ghost use Rattle.lg_space.specs.Rectangle.{IsIn, indices, place_in, volume_of};
ghost use Rattle.lg_space.specs.Partition.{Partitions};
ghost use Rattle.lg_space.specs.Stored.{IsStorable};

use crate::cutting::{push_filled, split};
use crate::point::Point;
use crate::ranges;
use smallvec::SmallVec;
use std::alloc::Global;
use std::marker::Model;

/// A rectangle of indices with up to four axes: for each axis a range of coordinates, from its low
/// end up to its high end, which is no longer in it. A rectangle without axes holds one index, the
/// empty one. No end is above 2 ^ 24, and there are at most 2 ^ 48 indices. Contracts see the list
/// of the ranges. The limits are this project's own.
#[derive(Clone, Copy, Debug, PartialEq, Eq)]
pub struct AnyRect {
    axes: u8,
    ranges: [(u64, u64); 4],
}

impl Model for AnyRect {
    ghost use Rattle.std.specs.Prelude.{ℕ, List, length, take};
    ghost use Rattle.lg_space.specs.Stored.{IsRect, padded};
    ghost use Rattle.lg_space.specs.Again.{rect_again};

    ghost Value = { List (ℕ × ℕ) };

    ghost view = { λ r. take r.axes r.ranges };

    ghost invariant = { λ r. IsRect r.axes r.ranges };

    ghost inverse = { λ rect. record { axes = length rect; ranges = padded (0, 0) rect } };

    ghost inverse_ok = { rect_again };
}

/// The rectangle without axes, which a small vector has in its unused places.
impl Default for AnyRect {
    ghost use Rattle.std.specs.Prelude.{◌≡◌, []};

    ghost is_default = { λ rect. rect ≡ [] };

    fn default() -> AnyRect {
        AnyRect::new(&[])
    }
}

impl AnyRect {
    /// The rectangle with these ranges, each a low and a high end.
    pub fn new(ranges: &[(u64, u64)]) -> AnyRect
        requires { IsStorable ranges.now }
        ensures { result ≡ ranges.now }
    {
        AnyRect {
            axes: ranges.len() as u8,
            ranges: ranges::kept(ranges),
        }
    }

    /// The low and the high end of each axis. Here stands what is known of every rectangle.
    pub fn ranges(&self) -> &[(u64, u64)]
        ensures value { result.now ≡ self.now }
        ensures storable { IsStorable self.now }
    {
        &self.ranges[..self.axes as usize]
    }

    /// How many axes there are.
    pub fn axes(&self) -> usize
        ensures { result ≡ length self.now }
    {
        self.axes as usize
    }

    /// The low and the high end of an axis.
    pub fn range(&self, axis: usize) -> (u64, u64)
        requires { axis < length self.now }
        ensures { slice_get self.now axis ≡ Some result }
    {
        self.ranges()[axis]
    }

    /// How many indices there are.
    #[tactic(auto, using(crate::proofs::Places::volume_counts))]
    pub fn volume(&self) -> u64
        ensures value { result ≡ volume_of self.now }
        ensures counted { result ≡ length (indices self.now) }
    {
        ranges::volume(self.ranges())
    }

    /// Whether the point is an index of the rectangle. A point with another number of axes is none.
    pub fn contains(&self, p: &Point) -> bool
        ensures { IsTrue result ↔ IsIn self.now p.now }
    {
        ranges::contains(self.ranges(), p.coordinates())
    }

    /// The indices that are in both rectangles. Where there is none, which empty rectangle is
    /// answered is not told.
    pub fn intersect(&self, other: &AnyRect) -> AnyRect
        requires { length self.now ≡ length other.now }
        ensures axes { length result ≡ length self.now }
        ensures both { (index : List ℕ)
            → IsIn result index ↔ (IsIn self.now index × IsIn other.now index) }
    {
        ranges::intersect(self.ranges(), other.ranges())
    }

    /// The indices that are not in the other rectangle, in at most eight parts that have no index
    /// in common. No part is empty. It takes no memory: the parts lie in the value that is
    /// answered.
    pub fn subtract(&self, alloc: Global, other: &AnyRect) -> SmallVec<AnyRect, 8>
        requires { length self.now ≡ length other.now }
        ensures parts { Partitions result.items
            (λ index. IsIn self.now index × ¬ IsIn other.now index) }
        ensures axes { All (λ part. length part ≡ length self.now) result.items }
        ensures filled { All (λ part. 0 < volume_of part) result.items }
        ensures few { length result.items ≤ 8 }
        ensures inline { result.capacity ≡ 8 }
    {
        let mut parts = SmallVec::new(alloc);
        let mut rest = *self;
        for (axis, range) in other.ranges().iter().enumerate() {
            let (below, from) = split(&rest, axis, range.0);
            let (within, above) = split(&from, axis, range.1);
            push_filled(&mut parts, below);
            push_filled(&mut parts, above);
            rest = within;
        }
        parts
    }

    /// How many indices come before this one in row-major order, in which the last axis runs
    /// fastest (NumPy's reference, "numpy.ravel_multi_index").
    #[tactic(auto, using(crate::proofs::Places::stands_at_place))]
    pub fn ravel(&self, p: &Point) -> u64
        requires { IsIn self.now p.now }
        ensures value { result ≡ place_in self.now p.now }
        ensures place { slice_get (indices self.now) result ≡ Some p.now }
    {
        ranges::ravel(self.ranges(), p.coordinates())
    }

    /// The index at this place in row-major order (NumPy's reference, "numpy.unravel_index").
    #[tactic(auto, using(crate::proofs::Places::stands_at_place))]
    pub fn unravel(&self, k: u64) -> Point
        requires { k < volume_of self.now }
        ensures place { slice_get (indices self.now) k ≡ Some result }
        ensures inside { IsIn self.now result }
        ensures value { place_in self.now result ≡ k }
    {
        ranges::unravel(self.ranges(), k)
    }

    /// The index at the next place in row-major order, and none at the last place.
    pub fn next(&self, p: &Point) -> Option<Point>
        requires { IsIn self.now p.now }
        ensures value { result ≡ slice_get (indices self.now) (place_in self.now p.now + 1) }
        ensures inside { IfSome result
            (λ q. IsIn self.now q × (place_in self.now q ≡ place_in self.now p.now + 1)) }
        ensures last { IsSome result ↔ (place_in self.now p.now + 1 < volume_of self.now) }
    {
        ranges::next(self.ranges(), p.coordinates())
    }
}
