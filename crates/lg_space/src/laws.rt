//! What holds of the list of all indices of a rectangle, for any number of axes. Each law is a
//! function's contract.

ghost use Rattle.lg_space.specs.Laws.{VolumeCounts, StandsAtPlace, StandsOnce, SideBySide};

/// The volume of a rectangle is the length of the list of all its indices.
pub fn volume_counts()
    ensures { VolumeCounts }
{}

/// The place of an index is its place in the list of all indices in row-major order, and it stands
/// at no other place. What stands in the list is an index of the rectangle.
pub fn places_are_exact()
    ensures there { StandsAtPlace }
    ensures once { StandsOnce }
{}

/// Indices that differ on the last axis alone stand side by side, in the order of that coordinate.
pub fn rows_are_contiguous()
    ensures { SideBySide }
{}
