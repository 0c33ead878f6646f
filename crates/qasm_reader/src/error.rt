//! Why tokens are no program.

use thiserror::Error;

/// Why tokens were not read as a program.
#[derive(Debug, Clone, Copy, PartialEq, Eq, Error)]
pub enum ParseError {
    /// The tokens from this place on begin with no statement.
    #[error("syntax fault at {at}")]
    Syntax {
        /// The place of the first byte of the first of them.
        at: usize,
    },
    /// More than 256 parentheses are open within a statement.
    #[error("parentheses too deep at {at}")]
    TooDeep {
        /// The place of the first parenthesis with which there are more.
        at: usize,
    },
    /// There was no memory for the program.
    #[error("no memory")]
    NoMemory,
}
