//! What holds of the tiles of each shape, for any number of axes and of pieces from 1 on. Each law
//! is a function's contract.

ghost use Rattle.lg_part.specs.Laws.{TilesPartition, TilesCount, PartsFilled};

/// Each index of a shape is in exactly one of its tiles, and the tiles have no other index.
pub fn tiles_partition()
    ensures { TilesPartition }
{}

/// A shape has at least one tile, and no more than the pieces that are wanted.
pub fn tiles_count()
    ensures { TilesCount }
{}

/// No part of an axis is empty, unless the axis has the extent 0.
pub fn parts_filled()
    ensures { PartsFilled }
{}
