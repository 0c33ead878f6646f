//! Circuits from a seed: exactly `generated`, gate by gate, by the words of the first stream of
//! PCG32.
//!
//! ```rust
//! let circuit = generate(alloc, 7, 3, 50)?;      // seed, qubits, gates
//! ```
#![tactic(auto)]

mod generator;
mod laws;

pub use generator::generate;
pub use laws::{circuits_have_as_many_gates_as_asked, worked_circuits};
