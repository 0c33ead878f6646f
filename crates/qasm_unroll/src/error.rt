//! Why statements make no circuit.

use qasm_scope::Cause;
use thiserror::Error;

/// Why a program has no circuit.
#[derive(Clone, Copy, Debug, PartialEq, Eq, Error)]
pub enum InlineError {
    /// The program's first fault.
    #[error("fault")]
    Fault {
        /// What is wrong.
        cause: Cause,
        /// The place of the statement's first byte, 0 in a program without statements.
        at: usize,
    },
    /// There was no memory.
    #[error("no memory")]
    NoMemory,
}
