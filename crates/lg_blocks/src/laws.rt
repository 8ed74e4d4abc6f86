//! What holds of blocks and their rows. Each law is a function's contract.

ghost use Rattle.lg_blocks.specs.Laws.{AreTold, AreOrdered, AreClosed, HaveHeads, AreRows, AreCounted, AreNumbered, StayFull, AreNodes, AreListed, AreAsHigh};

/// Lines are told by their rows, so rows are those of one block at most.
pub fn blocks_are_told()
    ensures { AreTold }
{}

/// Where each loop has a statement, each row may stand behind the one before it, the last is the
/// first line of no loop, and each holds what a line can hold.
pub fn blocks_are_ordered()
    ensures ordered { AreOrdered }
    ensures closed { AreClosed }
    ensures heads { HaveHeads }
{}

/// Rows that may stand behind one another, of which the last is the first line of no loop, are the
/// rows of blocks in which each loop has a statement.
pub fn rows_are_blocks()
    ensures { AreRows }
{}

/// Lines that are numbered anew have the same rows, numbered in their order, as many as there are
/// lines, and each loop still has a statement.
pub fn renumbered_lines()
    ensures counted { AreCounted }
    ensures numbered { AreNumbered }
    ensures full { StayFull }
{}

/// Blocks have as many nodes as their rows together, and are as high as the highest of them.
pub fn rows_have_all()
    ensures nodes { AreNodes }
    ensures listed { AreListed }
    ensures height { AreAsHigh }
{}
