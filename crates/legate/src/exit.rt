ghost use Rattle.std.specs.Prelude.{◌≡◌, None, Some};
ghost use Rattle.legate.specs.Statuses as statuses;

use lg_meaning::FaultKind;

/// How a run ended. The numbers are this project's own.
#[derive(Clone, Copy, Debug, PartialEq, Eq)]
pub struct Exit {
    /// The status number with which the program ends: one of the constants of this module.
    pub status: u8,

    /// The line, from 1, that `SYNTAX` and `FAULT` name; 0 with every other status.
    pub line: u64,

    /// The kind of fault that `FAULT` names; `None` with every other status.
    pub kind: Option<FaultKind>,
}

impl Exit {
    /// The answer with a status that names neither a line nor a kind of fault.
    pub fn with(status: u8) -> Exit
        ensures { result ≡ record { status = status; line = 0; kind = None } }
    {
        Exit {
            status,
            line: 0,
            kind: None,
        }
    }

    /// The answer that no script which is evaluated is spelled, because of this line.
    pub fn syntax(line: u64) -> Exit
        ensures { result ≡ record { status = statuses.SYNTAX; line = line; kind = None } }
    {
        Exit {
            status: SYNTAX,
            line,
            kind: None,
        }
    }

    /// The answer that the statement of this line has this fault.
    pub fn fault(line: u64, kind: FaultKind) -> Exit
        ensures { result ≡ record { status = statuses.FAULT; line = line; kind = Some kind } }
    {
        Exit {
            status: FAULT,
            line,
            kind: Some(kind),
        }
    }
}

/// The whole work was done, and its whole text was written.
pub const DONE: u8 = 0;

/// The words are no command.
pub const USAGE: u8 = 2;

/// The bytes spell no script, or one with a statement that is not evaluated yet.
pub const SYNTAX: u8 = 3;

/// A statement has a fault.
pub const FAULT: u8 = 4;

/// The script has too many bytes.
pub const TOO_LONG: u8 = 5;

/// The source failed.
pub const READ_FAULT: u8 = 6;

/// The output failed.
pub const WRITE_FAULT: u8 = 7;

/// There was not enough memory.
pub const NO_MEMORY: u8 = 9;
