//! Why rows were not taken, or give no blocks.

use thiserror::Error;

/// Why a row was not taken.
#[derive(Clone, Copy, Debug, PartialEq, Eq, Error)]
pub enum PushEnd {
    /// A row of this depth may not stand there.
    #[error("a row may not stand there")]
    Place,

    /// There was not enough memory.
    #[error("no memory")]
    NoMemory,
}

/// Why rows give no blocks.
#[derive(Clone, Copy, Debug, PartialEq, Eq, Error)]
pub enum FinishEnd {
    /// The last row is the first line of a loop.
    #[error("line {line}: no statement follows")]
    Open {
        /// The number of its line.
        line: u64,
    },

    /// There was not enough memory.
    #[error("no memory")]
    NoMemory,
}
