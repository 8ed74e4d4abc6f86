ghost use Rattle.std.specs.Prelude.{◌≡◌, ℕ, ◌<◌, ◌↔◌, List, length, slice_get, Some, IsTrue};
ghost use Rattle.lg_space.specs.Rectangle.{IsIn, indices, place_in, volume_of};
ghost use Rattle.lg_space.specs.Stored.{IsStorable};

use crate::point::Point;
use crate::ranges;
use crate::rect::AnyRect;
use std::marker::Model;

/// A rectangle of indices whose number of axes, from 0 to 4, is known when the code is compiled.
/// Contracts see it as they see an [`AnyRect`]: as the list of its ranges.
#[derive(Clone, Copy, Debug, PartialEq, Eq)]
pub struct Rect<const D: usize> {
    ranges: [(u64, u64); 4],
}

impl<const D: usize> Model for Rect<D> {
    ghost use Rattle.std.specs.Prelude.{ℕ, List, take};
    ghost use Rattle.lg_space.specs.Stored.{IsRect, padded};
    ghost use Rattle.std.proofs.Common.{sym};

    ghost Value = { List (ℕ × ℕ) };

    ghost view = { λ r. take D r.ranges };

    ghost invariant = { λ r. IsRect D r.ranges };

    ghost inverse = { λ rect. record { ranges = padded (0, 0) rect } };

    ghost inverse_ok = { λ a h i. record { ranges = sym h.filled i } };
}

impl<const D: usize> Rect<D> {
    /// The rectangle with these ranges, each a low and a high end.
    pub fn new(ranges: &[(u64, u64)]) -> Rect<D>
        requires axes { length ranges.now ≡ D }
        requires storable { IsStorable ranges.now }
        ensures { result ≡ ranges.now }
    {
        Rect {
            ranges: ranges::kept(ranges),
        }
    }

    /// The same rectangle, where it has `D` axes.
    pub fn from_any(rect: &AnyRect) -> Rect<D>
        requires { length rect.now ≡ D }
        ensures { result ≡ rect.now }
    {
        Rect::new(rect.ranges())
    }

    /// The same rectangle.
    pub fn to_any(&self) -> AnyRect
        ensures { result ≡ self.now }
    {
        AnyRect::new(self.ranges())
    }

    /// The low and the high end of each axis. Here stands what is known of every rectangle with `D`
    /// axes.
    pub fn ranges(&self) -> &[(u64, u64)]
        ensures value { result.now ≡ self.now }
        ensures axes { length self.now ≡ D }
        ensures storable { IsStorable self.now }
    {
        &self.ranges[..D]
    }

    /// The low and the high end of an axis.
    pub fn range(&self, axis: usize) -> (u64, u64)
        requires { axis < D }
        ensures { slice_get self.now axis ≡ Some result }
    {
        self.ranges()[axis]
    }

    /// How many indices there are.
    #[tactic(auto, using(crate::proofs::Places::volume_counts))]
    pub fn volume(&self) -> u64
        ensures value { result ≡ volume_of self.now }
        ensures counted { result ≡ length (indices self.now) }
    {
        ranges::volume(self.ranges())
    }

    /// Whether the point is an index of the rectangle. A point with another number of axes is none.
    pub fn contains(&self, p: &Point) -> bool
        ensures { IsTrue result ↔ IsIn self.now p.now }
    {
        ranges::contains(self.ranges(), p.coordinates())
    }

    /// The indices that are in both rectangles. Where there is none, which empty rectangle is
    /// answered is not told.
    pub fn intersect(&self, other: &Rect<D>) -> Rect<D>
        ensures { (index : List ℕ)
            → IsIn result index ↔ (IsIn self.now index × IsIn other.now index) }
    {
        Rect::from_any(&ranges::intersect(self.ranges(), other.ranges()))
    }

    /// The place of an index, as [`AnyRect::ravel`] tells it.
    #[tactic(auto, using(crate::proofs::Places::stands_at_place))]
    pub fn ravel(&self, p: &Point) -> u64
        requires { IsIn self.now p.now }
        ensures value { result ≡ place_in self.now p.now }
        ensures place { slice_get (indices self.now) result ≡ Some p.now }
    {
        ranges::ravel(self.ranges(), p.coordinates())
    }

    /// The index at a place, as [`AnyRect::unravel`] tells it.
    #[tactic(auto, using(crate::proofs::Places::stands_at_place))]
    pub fn unravel(&self, k: u64) -> Point
        requires { k < volume_of self.now }
        ensures place { slice_get (indices self.now) k ≡ Some result }
        ensures inside { IsIn self.now result }
        ensures value { place_in self.now result ≡ k }
    {
        ranges::unravel(self.ranges(), k)
    }
}
