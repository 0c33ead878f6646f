//! Statements of OpenQASM 2.0 unrolled into a circuit of built-in gates, one after the other.
//!
//! Proved: `Circuit` takes in statements and gates' declarations one by one, and then gives the
//! circuit that they mean as a program, or the program's first fault. A circuit is answered only
//! where there is no fault, and a fault only where it is the first.
//!
//! Inside:
//!
//! - `circuit`, `statements`: statements taken in one after the other, after the version, a gate's
//!   declaration also in parts.
//! - `applications`, `overlaps`, `applying`: the arguments of an application, and what is wrong
//!   with it.
//! - `plain`: applications whose names were looked up before, for which calls are copied straight.
//! - `instances`: its instances, one call after the other.
//! - `unroll`, `values`: calls unrolled depth first, on stacks of frames, angles and qubits that
//!   are kept between applications.
//! - `expansions`: what calls without angles come to, kept for the next calls and copied to their qubits.
//! - `measuring`, `measured`: measurements in statements, and what was measured so far.
//! - `error`: why statements make no circuit.
//!
//! ```rust
//! let mut circuit = Circuit::new(alloc);
//! for statement in &statements {
//!     circuit.take(statement);
//! }
//! let circuit = circuit.finish()?;
//! ```
#![tactic(auto)]

mod applications;
mod applying;
mod circuit;
mod error;
mod expansions;
mod instances;
mod measured;
mod measuring;
mod overlaps;
mod plain;
mod statements;
mod unroll;
mod values;

pub use circuit::{Circuit, OpenGate};
pub use error::InlineError;
