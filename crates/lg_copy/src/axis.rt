ghost use Rattle.std.specs.Prelude.{◌≡◌, ◌≤◌, pos, ◌+ℤ◌, ◌*ℤ◌, ◌≤ℤ◌};
ghost use Rattle.lg_space.specs.Stored.{MAX_VOLUME};
ghost use Rattle.lg_copy.specs.Copying.{IsPlace};

/// One axis of a copy: how many coordinates it has, and how far it is from one to the next in the
/// source and in the target, counted in elements.
#[derive(Clone, Copy, Debug)]
pub(crate) struct Axis {
    /// How many coordinates there are.
    pub(crate) count: usize,

    /// The stride in the source.
    pub(crate) from: i64,

    /// The stride in the target.
    pub(crate) to: i64,
}

impl Axis {
    /// The places in the source and in the target at a coordinate, from those of the first one.
    pub(crate) fn places(&self, from: usize, to: usize, k: usize) -> (usize, usize)
        requires small { (from ≤ MAX_VOLUME) × (to ≤ MAX_VOLUME) × (k ≤ MAX_VOLUME) }
        requires reads { IsPlace (pos from +ℤ (pos k *ℤ self.now.from)) MAX_VOLUME }
        requires writes { IsPlace (pos to +ℤ (pos k *ℤ self.now.to)) MAX_VOLUME }
        ensures from { pos result.0 ≡ pos from +ℤ (pos k *ℤ self.now.from) }
        ensures to { pos result.1 ≡ pos to +ℤ (pos k *ℤ self.now.to) }
    {
        (further(from, k, self.from), further(to, k, self.to))
    }

    /// The same axis with other coordinates.
    pub(crate) fn with_count(&self, count: usize) -> Axis
        ensures { result ≡ record self.now { count = count } }
    {
        Axis { count, ..*self }
    }
}

/// The place so many strides from another one.
pub(crate) fn further(base: usize, k: usize, stride: i64) -> usize
    requires base { base ≤ MAX_VOLUME }
    requires steps { k ≤ MAX_VOLUME }
    requires low { pos 0 ≤ℤ (pos base +ℤ (pos k *ℤ stride)) }
    requires high { (pos base +ℤ (pos k *ℤ stride)) ≤ℤ pos MAX_VOLUME }
    ensures { pos result ≡ pos base +ℤ (pos k *ℤ stride) }
{
    (base as i64 + k as i64 * stride) as usize
}
