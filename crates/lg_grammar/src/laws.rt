//! What holds of scripts. Each law is a function's contract.

ghost use Rattle.lg_grammar.specs.Laws.{SpellsOnce, IsBadOnce, SpellsOrIsBad};

/// Bytes spell one script at most.
pub fn one_script()
    ensures { SpellsOnce }
{}

/// One line at most is the first bad one, and where there is one, the bytes spell no script.
pub fn bad_or_script()
    ensures once { IsBadOnce }
    ensures either { SpellsOrIsBad }
{}
