ghost use Rattle.std.specs.Prelude.{◌≡◌, ◌<◌, ◌≤◌, ◌-◌, ◌*◌};
ghost use Rattle.lg_space.specs.Stored.{MAX_END};
ghost use Rattle.lg_shape.specs.Views.{IsSliceOf, sliced_at};
ghost use Rattle.lg_xform.specs.Moves.{steps};
ghost use Rattle.lg_xform.specs.Slices.{IsCoordinate};

/// One axis of a view: how many coordinates it has, the axis of the root that it moves, and by how
/// many coordinates of the root it moves it from one coordinate to the next. It may run down.
#[derive(Clone, Copy, Debug)]
pub(crate) struct ViewAxis {
    /// How many coordinates there are.
    pub(crate) extent: u64,

    /// The axis of the root. An axis that moves nothing names the first.
    pub(crate) root: usize,

    /// How far one coordinate moves it.
    pub(crate) stride: u64,

    /// Whether coordinate 0 is the farthest one, and not the nearest.
    pub(crate) down: bool,

    /// Whether a delinearize made it, not as the first of its axes.
    pub(crate) inner: bool,
}

impl ViewAxis {
    ghost use Rattle.lg_xform.specs.Slices.{IsSliced};

    /// How many strides a coordinate is from the lowest place of the axis.
    pub(crate) fn steps(&self, at: u64) -> u64
        requires { at < self.now.extent }
        ensures { result ≡ steps self.now.down self.now.extent at }
    {
        if self.down { self.extent - 1 - at } else { at }
    }

    /// The axis that a slice makes of this one, and by how many coordinates of the root the slice
    /// begins later.
    pub(crate) fn sliced(&self, start: u64, len: u64, step: i64) -> (u64, ViewAxis)
        requires slice { IsSliceOf start len step self.now.extent }
        requires extent { self.now.extent ≤ MAX_END }
        requires reach { (self.now.extent - 1) * self.now.stride ≤ MAX_END }
        ensures { IsSliced start len step self.now result.0 result.1 }
    {
        let mut sliced = ViewAxis {
            extent: len,
            stride: 0,
            down: false,
            ..*self
        };
        if len == 0 {
            return (0, sliced);
        }
        let first = self.steps(start);
        let last = self.steps(coordinate(start, step, len - 1));
        if len > 1 {
            sliced.stride = step.unsigned_abs() * self.stride;
            sliced.down = last < first;
        }
        (first.min(last) * self.stride, sliced)
    }
}

// The coordinate that a slice has at `k`.
fn coordinate(start: u64, step: i64, k: u64) -> u64
    requires { IsCoordinate start k step }
    ensures { result ≡ sliced_at start step k }
{
    if step < 0 {
        start - k * step.unsigned_abs()
    } else {
        start + k * step.unsigned_abs()
    }
}
