ghost use Rattle.std.specs.Prelude.{◌≡◌, length, max, IfOk, IfErr};
ghost use Rattle.std.specs.Result.{result_ok};
ghost use Rattle.lg_shape.specs.Shapes.{joined_extent, joined_shape};
ghost use Rattle.lg_shape.specs.Stored.{IsShape};
ghost use Rattle.lg_shape.specs.Mismatch.{IsFirstMismatch, EachIsOfEither, extent_from_last};

use crate::shape::Shape;

/// Why two shapes do not broadcast.
#[derive(Clone, Copy, Debug, PartialEq, Eq)]
pub struct Mismatch {
    /// The last axis on which the extents differ and neither is 1, counted from the last axis,
    /// from 0 on.
    pub axis: u8,
}

/// The shape to which two shapes broadcast (NumPy's reference, "Broadcasting"): aligned at the last
/// axis, where a missing axis counts as 1, the extents are equal or one of them is 1.
pub fn broadcast(a: &Shape, b: &Shape) -> Result<Shape, Mismatch>
    ensures shape { result_ok result ≡ joined_shape a.now b.now }
    ensures first { IfErr result (λ mismatch. IsFirstMismatch a.now b.now mismatch.axis) }
    ensures axes { IfOk result (λ shape. length shape ≡ max (length a.now) (length b.now)) }
    ensures either { IfOk result (EachIsOfEither a.now b.now) }
    ensures limits { IfOk result IsShape }
{
    let (first, second) = (a.extents(), b.extents());
    let axes = first.len().max(second.len());
    let mut joined = [1; 4];
    for axis in 0..axes {
        let Some(extent) = joined_of(from_last(first, axis), from_last(second, axis)) else {
            return Err(Mismatch { axis: axis as u8 });
        };
        joined[axes - 1 - axis] = extent;
    }
    Ok(Shape::new(&joined[..axes]))
}

// The extent of an axis that is counted from the last one; a missing axis counts as 1.
fn from_last(extents: &[u64], axis: usize) -> u64
    ensures { result ≡ extent_from_last extents.now axis }
{
    if axis < extents.len() {
        extents[extents.len() - 1 - axis]
    } else {
        1
    }
}

// The extent on which two axes go together, if they do.
fn joined_of(a: u64, b: u64) -> Option<u64>
    ensures { result ≡ joined_extent a b }
{
    if a == b || b == 1 {
        Some(a)
    } else if a == 1 {
        Some(b)
    } else {
        None
    }
}
