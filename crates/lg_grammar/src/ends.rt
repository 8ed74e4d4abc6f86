//! Why bytes give no script.

use thiserror::Error;

/// Why bytes give no script.
#[derive(Clone, Copy, Debug, PartialEq, Eq, Error)]
pub enum ScriptEnd {
    /// A line is bad: it is neither skipped nor a statement that may stand there, or it begins a
    /// loop in which no statement follows.
    #[error("line {line}: syntax")]
    Syntax {
        /// The number of the first such line, counted from 1.
        line: u64,
    },

    /// There is no memory for the script.
    #[error("no memory")]
    NoMemory,
}
