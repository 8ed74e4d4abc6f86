//! Worked examples of the limits. Each clause is computed by the check, so a definition or a
//! constant that says another number is refused.
ghost use Rattle.std.specs.Prelude.{◌≡◌};
ghost use Rattle.lg_space.specs.Stored.{MAX_END, MAX_VOLUME};

use crate::point::MAX_AXES;

/// The greatest end of a range, the greatest number of indices, and the greatest number of axes.
pub fn limits_by_example()
    ensures end { MAX_END ≡ 16777216 }
    ensures volume { MAX_VOLUME ≡ 281474976710656 }
    ensures axes { MAX_AXES ≡ 4 }
{}
