//! Why a text has no meaning as a circuit.

use qasm_scope::Cause;
use thiserror::Error;

/// Why a text has no circuit.
#[derive(Clone, Copy, Debug, PartialEq, Eq, Error)]
pub enum TextError {
    /// At this place no token, white space or comment begins.
    #[error("bad byte at {at}")]
    BadByte {
        /// The first such place, counted in bytes from 0.
        at: usize,
    },
    /// More than 256 parentheses are open within a statement.
    #[error("parentheses too deep at {at}")]
    TooDeep {
        /// The place of the first parenthesis with which there are more.
        at: usize,
    },
    /// From this place on no statement begins.
    #[error("syntax fault at {at}")]
    Syntax {
        /// The first such place behind whole statements.
        at: usize,
    },
    /// A statement is wrong.
    #[error("wrong statement at {at}")]
    Wrong {
        /// What is wrong with it.
        cause: Cause,
        /// The place of its first byte, 0 in a text without statements.
        at: usize,
    },
    /// There was no memory.
    #[error("no memory")]
    NoMemory,
}
