//! What holds of canonical text and the grammar. Each law is a function's contract.

ghost use Rattle.lg_canonical.specs.Laws.{ExpressionsReadBack, HeadsReadBack, ScriptsReadBack};

/// The text of an expression that the tokens of some line spell is tokens that spell it again.
pub fn expressions_read_back()
    ensures { ExpressionsReadBack }
{}

/// The text of the line of a statement that the tokens of some line spell is tokens that spell it
/// again.
pub fn heads_read_back()
    ensures { HeadsReadBack }
{}

/// The canonical text of a script that some bytes spell spells that script again, with its lines
/// numbered 1, 2, 3 and so on, where no line of the text nests brackets deeper than 64.
pub fn scripts_read_back()
    ensures { ScriptsReadBack }
{}
