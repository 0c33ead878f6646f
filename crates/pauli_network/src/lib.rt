//! Circuits written again with fewer gates on two qubits, as phases about strings of Pauli letters.
//!
//! Nothing is proved of `propose` and `rewrite` but that what they make is a circuit on as many qubits: who takes
//! it in the other's place has to show that the maps are the same.
//!
//! The circuit is read as a list of phases about Pauli strings, and a Clifford map behind them. Gates are
//! written again, and taken off the front of what is left: a phase once its string is a single letter;
//! else a gate on two qubits that takes a letter from a string, the one that makes most strings shorter,
//! those that come soon above all. So did Vandaele, Martiel and de Brugière for phase polynomials
//! (arXiv 2104.00934), and others for Pauli strings.
//!
//! ```rust
//! let found = propose(alloc, &circuit)?;
//! ```
#![tactic(auto)]

mod frame;
mod network;
mod noise;
mod proposing;
mod scores;
mod strings;

pub use frame::Frame;
pub use proposing::{Rewriter, circuit_of, invert, propose};
pub use strings::{Letter, PauliString};
