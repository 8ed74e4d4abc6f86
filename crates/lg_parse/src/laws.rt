//! What the grammar says of itself.

ghost use Rattle.lg_parse.specs.Laws.{HoldsOnce};

/// Terminals are the line of one statement at most, within the limits.
pub fn one_head()
    ensures { HoldsOnce }
{}
