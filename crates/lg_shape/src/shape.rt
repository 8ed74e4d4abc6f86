ghost use Rattle.std.specs.Prelude.{◌≡◌, ◌≤◌, length};
ghost use Rattle.lg_space.specs.Stored.{MAX_VOLUME};
ghost use Rattle.lg_shape.specs.Shapes.{size_of, whole};
ghost use Rattle.lg_shape.specs.Stored.{IsShape};

use lg_space::AnyRect;
use std::marker::Model;

/// The shape of an array: an extent for each axis, from the first axis on. There are at most four
/// axes, and no extent is above 2 ^ 24. Contracts see the list of the extents. The limits are this
/// project's own.
#[derive(Clone, Copy, Debug, PartialEq, Eq)]
pub struct Shape {
    axes: u8,
    extents: [u64; 4],
}

impl Model for Shape {
    ghost use Rattle.std.specs.Prelude.{ℕ, List, length, take};
    ghost use Rattle.lg_space.specs.Stored.{padded};
    ghost use Rattle.lg_shape.specs.Stored.{IsStoredShape};
    ghost use Rattle.lg_shape.specs.Again.{shape_again};

    ghost Value = { List ℕ };

    ghost view = { λ s. take s.axes s.extents };

    ghost invariant = { λ s. IsStoredShape s.axes s.extents };

    ghost inverse = { λ shape. record { axes = length shape; extents = padded 1 shape } };

    ghost inverse_ok = { shape_again };
}

impl Shape {
    /// The shape with these extents.
    pub fn new(extents: &[u64]) -> Shape
        requires { IsShape extents.now }
        ensures { result ≡ extents.now }
    {
        let mut kept = [1; 4];
        kept[..extents.len()].copy_from_slice(extents);
        Shape {
            axes: extents.len() as u8,
            extents: kept,
        }
    }

    /// The extents, one for each axis.
    pub fn extents(&self) -> &[u64]
        ensures value { result.now ≡ self.now }
        ensures shape { IsShape self.now }
    {
        &self.extents[..self.axes as usize]
    }

    /// The rectangle of all indices.
    pub fn whole(&self) -> AnyRect
        requires { size_of self.now ≤ MAX_VOLUME }
        ensures { result ≡ whole self.now }
    {
        let extents = self.extents();
        let mut ranges = [(0, 0); 4];
        for axis in 0..extents.len() {
            ranges[axis] = (0, extents[axis]);
        }
        AnyRect::new(&ranges[..extents.len()])
    }
}
