//! How great an array may be.
ghost use Rattle.std.specs.Prelude.{◌≡◌, ◌-◌, ◌^◌, min, not, nat_lt, ◌&&◌};
ghost use Rattle.lg_shape.specs.Shapes.{size_of as size_of_shape};
ghost use Rattle.lg_meaning.specs.Static.{are_within, MAX_SIZE as MOST};

use lg_shape::Shape;

/// The greatest extent of an axis, and the greatest number of elements.
pub const MAX_SIZE: u64 = 16_777_216;

// The number of elements, or the greatest number of a `u64` where there are more.
#[tactic(auto, using(crate::proofs::LimitLemmas::product_capped))]
fn size_of(extents: &[u64]) -> u64
    ensures { result ≡ min (size_of_shape extents.now) (2 ^ 64 - 1) }
{
    match extents.split_first() {
        Some((extent, extents)) => extent.saturating_mul(size_of(extents)),
        None => 1,
    }
}

/// Whether an array may have this shape.
pub fn is_within_limits(shape: &Shape) -> bool
    ensures { result ≡ (are_within shape.now && not (nat_lt MOST (size_of_shape shape.now))) }
{
    size_of(shape.extents()) <= MAX_SIZE
}
