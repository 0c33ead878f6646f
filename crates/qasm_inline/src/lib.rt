//! The circuit of built-in gates that an OpenQASM 2.0 text or program means.
//!
//! Proved: `read` gives the circuit that a text means, or the text's first fault; `PieceReader` the
//! same of a text that comes in pieces, and `inline` of a program. A circuit is answered only where
//! there is no fault, and a fault only where it is the first. What is meant has at most 1,024 qubits,
//! its gates act on them, and a CX on two that differ; and at most 65,536 bits. Its measurements are of
//! these qubits into these bits, none of them named twice.
//!
//! Inside:
//!
//! - `reading`: a text in one pass: a batch of tokens is cut, the parts that begin it are taken
//!   in, and what is left waits for more, or is dropped where a syntax fault is certain.
//! - `piece_reader`: a text that comes in pieces: the bytes of the last lines wait until the lines
//!   are over and worth while, and are then read by `reading`.
//! - `plain`: statements that are spelled plainly, which are read straight from the bytes.
//! - `words`: the texts of tokens that outlive these bytes, in an arena; those of one character
//!   stand in the program.
//! - `meaning`: the statements of a program, taken in one after the other.
//! - `laws`: circuits that programs mean are elementary.
//! - `error`: why a text has no meaning as a circuit.
//!
//! ```rust
//! let circuit = read(alloc, b"OPENQASM 2.0; qreg q[1]; U(0,0,pi/4) q[0];")?;
//! ```
#![tactic(auto)]

mod error;
mod laws;
mod meaning;
mod piece_reader;
mod plain;
mod reading;
mod words;

pub use error::TextError;
pub use laws::meant_circuits_are_elementary;
pub use meaning::inline;
pub use piece_reader::PieceReader;
pub use reading::read;
