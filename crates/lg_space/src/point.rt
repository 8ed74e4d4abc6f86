ghost use Rattle.std.specs.Prelude.{◌≡◌, ◌≤◌, length};

use std::marker::Model;

/// The most axes that a point or a rectangle has.
pub const MAX_AXES: usize = 4;

/// An index of an array: a coordinate for each axis, from the first axis on. There are at most four
/// axes. Contracts see the list of the coordinates.
#[derive(Clone, Copy, Debug, PartialEq, Eq)]
pub struct Point {
    axes: u8,
    at: [u64; 4],
}

impl Model for Point {
    ghost use Rattle.std.specs.Prelude.{ℕ, List, length, take};
    ghost use Rattle.lg_space.specs.Stored.{IsPoint, padded};
    ghost use Rattle.lg_space.specs.Again.{point_again};

    ghost Value = { List ℕ };

    ghost view = { λ p. take p.axes p.at };

    ghost invariant = { λ p. IsPoint p.axes p.at };

    ghost inverse = { λ index. record { axes = length index; at = padded 0 index } };

    ghost inverse_ok = { point_again };
}

impl Point {
    /// The point with these coordinates.
    pub fn new(index: &[u64]) -> Point
        requires { length index.now ≤ MAX_AXES }
        ensures { result ≡ index.now }
    {
        let mut at = [0; 4];
        at[..index.len()].copy_from_slice(index);
        Point {
            axes: index.len() as u8,
            at,
        }
    }

    /// The coordinates, one for each axis.
    pub fn coordinates(&self) -> &[u64]
        ensures value { result.now ≡ self.now }
        ensures few { length self.now ≤ MAX_AXES }
    {
        &self.at[..self.axes as usize]
    }
}
