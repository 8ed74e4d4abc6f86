ghost use Rattle.std.specs.Prelude.{◌≡◌, ℕ, ◌<◌, ◌≤◌, length, max, slice_get, IfOk, Some};
ghost use Rattle.lg_space.specs.Rectangle.{IsIn, combinations};
ghost use Rattle.lg_space.specs.Partition.{Partitions};
ghost use Rattle.lg_space.specs.Stored.{MAX_END, MAX_VOLUME};
ghost use Rattle.lg_shape.specs.Shapes.{size_of, whole as whole_of};
ghost use Rattle.lg_shape.specs.Tiling.{axis_parts, ceiling, part_extent};

use lg_outside::NoMemory;
use lg_shape::Shape;
use lg_space::AnyRect;
use std::alloc::Global;
use std::marker::Model;

/// A shape cut into tiles: each axis is cut into parts, and each combination of parts is a tile.
/// Contracts see the list of the parts of each axis, a part as its low and its high end.
#[derive(Debug, Drop)]
pub struct Grid {
    shape: Shape,
    // The extent of the parts of each axis, of which the last one may be shorter.
    sizes: [u64; 4],
    // The numbers of the parts of each axis. An index of this rectangle tells a tile, and its place
    // the colour.
    colors: AnyRect,
}

impl Model for Grid {
    ghost use Rattle.std.specs.Prelude.{ℕ, List};
    ghost use Rattle.lg_part.specs.Grids.{axes_of, IsGrid};

    ghost Value = { List (List (ℕ × ℕ)) };

    ghost view = { λ g. axes_of g.shape g.sizes g.colors };

    ghost invariant = { λ g. IsGrid g.shape g.sizes g.colors };
}

// The extent of the parts of an axis that is to have so many of them.
fn size_of_parts(pieces: u64, extent: u64) -> u64
    requires some { 1 ≤ pieces }
    requires short { extent ≤ MAX_END }
    ensures { result ≡ part_extent pieces extent }
{
    extent.div_ceil(pieces.min(extent.max(1))).max(1)
}

// How many parts of this extent an axis has.
fn count_of_parts(size: u64, extent: u64) -> u64
    requires some { 1 ≤ size }
    requires short { extent ≤ MAX_END }
    ensures { result ≡ max 1 (ceiling extent size) }
{
    extent.div_ceil(size).max(1)
}

/// Cuts a shape into at most `pieces` tiles, from its first axis on. An axis that is to stay whole
/// has one part. On any other one the parts have the least extent, from 1 on, with which as many of
/// them as there are pieces left reach the end of the axis; there are just so many as it then
/// takes, at least one, and the last one may be shorter. For the axes behind it the pieces that
/// were left are divided by the number of its parts, rounded down. The rule is this project's own.
pub fn colors(pieces: u32, shape: &Shape, whole: &[bool; 4]) -> Grid
    requires some { 1 ≤ pieces }
    requires few { pieces ≤ 64 }
    requires small { size_of shape.now ≤ MAX_VOLUME }
    ensures value { result ≡ axis_parts pieces shape.now whole.now }
    ensures partition { Partitions (combinations result) (IsIn (whole_of shape.now)) }
{
    let extents = shape.extents();
    let mut sizes = [0; 4];
    let mut numbers = [(0, 0); 4];
    let mut left = u64::from(pieces);
    for (axis, extent) in extents.iter().enumerate() {
        let size = if whole[axis] {
            (*extent).max(1)
        } else {
            size_of_parts(left, *extent)
        };
        let count = count_of_parts(size, *extent);
        sizes[axis] = size;
        numbers[axis] = (0, count);
        left /= count;
    }
    Grid {
        shape: *shape,
        sizes,
        colors: AnyRect::new(&numbers[..extents.len()]),
    }
}

impl Grid {
    /// How many tiles there are.
    pub fn count(&self) -> u32
        ensures { result ≡ length (combinations self.now) }
    {
        self.colors.volume() as u32
    }

    /// The tile of this colour.
    pub fn tile(&self, color: u32) -> AnyRect
        requires { color < length (combinations self.now) }
        ensures { slice_get (combinations self.now) color ≡ Some result }
    {
        let numbers = self.colors.unravel(u64::from(color));
        let mut ranges = [(0, 0); 4];
        let extents = self.shape.extents();
        for (axis, number) in numbers.coordinates().iter().enumerate() {
            let low = *number * self.sizes[axis];
            ranges[axis] = (low, extents[axis].min(low + self.sizes[axis]));
        }
        AnyRect::new(&ranges[..extents.len()])
    }
}

/// All tiles, in the order of their colours. Only memory can be wanting.
pub fn tiles(alloc: Global, grid: &Grid) -> Result<Vec<AnyRect>, NoMemory>
    ensures { IfOk result (λ all. all.items ≡ combinations grid.now) }
{
    let mut all = Vec::with_capacity(alloc, grid.count() as usize)?;
    for color in 0..grid.count() {
        all.push(grid.tile(color))?;
    }
    Ok(all)
}
