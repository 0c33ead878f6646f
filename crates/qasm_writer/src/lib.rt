//! The OpenQASM 2.0 text of a circuit.
//!
//! Proved of `write_text`: it gives exactly `written` of the circuit and the measurements behind it,
//! byte by byte; that is a text of the language, the limits of bytes and calls aside, and means gates
//! with the same map up to a nonzero scalar and as many odd phases, and the same measurements, in the
//! same order, into as many bits. `text_scalar` tells that scalar.
//!
//! ```rust
//! let text = write_text(alloc, &circuit, bits, measured)?;
//! let scalar = text_scalar(&circuit);
//! ```
#![tactic(auto)]

mod laws;
mod scalars;
mod writer;

pub use laws::written_texts_mean_their_circuits;
pub use scalars::text_scalar;
pub use writer::write_text;
