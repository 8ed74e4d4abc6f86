//! How a rectangle is cut in parts.
ghost use Rattle.std.specs.Prelude.{◌≡◌, ℕ, ◌<◌, ◌≤◌, ◌↔◌, List, [], ◌∷◌, ◌++◌, length, slice_index};
ghost use Rattle.smallvec.specs.SmallVec.{HasRoomFor};
ghost use Rattle.lg_space.specs.Rectangle.{IsIn, volume_of};

use crate::ranges;
use crate::rect::AnyRect;
use smallvec::SmallVec;

/// Cuts a rectangle in two at a coordinate of an axis: what lies below it, and what lies from it
/// on.
pub fn split(rect: &AnyRect, axis: usize, at: u64) -> (AnyRect, AnyRect)
    requires { axis < length rect.now }
    ensures axes { (length result.0 ≡ length rect.now) × (length result.1 ≡ length rect.now) }
    ensures below { (index : List ℕ)
        → IsIn result.0 index ↔ (IsIn rect.now index × (slice_index index axis < at)) }
    ensures above { (index : List ℕ)
        → IsIn result.1 index ↔ (IsIn rect.now index × (at ≤ slice_index index axis)) }
{
    let axes = rect.axes();
    let (low, high) = rect.range(axis);
    let middle = at.max(low).min(high);
    let mut below = ranges::kept(rect.ranges());
    let mut above = below;
    below[axis] = (low, middle);
    above[axis] = (middle, high);
    (AnyRect::new(&below[..axes]), AnyRect::new(&above[..axes]))
}

/// Lists a part, where it holds an index.
pub fn push_filled(parts: &mut SmallVec<AnyRect, 8>, part: AnyRect)
    requires { HasRoomFor parts.old 1 }
    ensures empty { volume_of part ≡ 0 → parts.new.items ≡ parts.old.items }
    ensures filled { 0 < volume_of part → parts.new.items ≡ parts.old.items ++ part ∷ [] }
    ensures capacity { parts.new.capacity ≡ parts.old.capacity }
{
    if part.volume() != 0 {
        parts.push_reserved(part);
    }
}
