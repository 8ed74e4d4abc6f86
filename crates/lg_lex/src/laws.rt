//! What holds of the tokens of a line. Each law is a function's contract.

ghost use Rattle.lg_lex.specs.Laws.{ReadsOnce, FaultsOnce, FaultsOrReads};

/// A line is the whole of one list of tokens at most.
pub fn one_reading()
    ensures { ReadsOnce }
{}

/// A line is wrong at one place at most.
pub fn one_fault()
    ensures { FaultsOnce }
{}

/// Where a line is wrong somewhere, no tokens are the whole line.
pub fn fault_or_reading()
    ensures { FaultsOrReads }
{}
