//! Circuits of simplified graphs: a circuit through its graph and back, a graph, or a diagram, simplified, extracted and
//! tidied.
//!
//! Proved of `simplify`: the circuit's linear map is the graph's sum up to a number other than 0; the
//! steps that it tells lead from the graph to the reduced graph that it tells, which has a
//! proportional sum, as many ends and no more odd phases; the circuit has no more odd phases than
//! that, no gates in it cancel or merge, and there are few of them for its qubits and the graph's odd
//! phases.
//!
//! Proved of `simplify_graph`: the same, where neither steps nor reduced graph are told. Proved of `simplify_circuit`: the
//! same of a circuit's graph.
//!
//! Proved of `compile`, for each diagram with as many inputs as outputs, at most 1,024: where the
//! diagram's graph-like form has a flow, the answer is a circuit on as many qubits, whose linear map
//! is the diagram's up to a nonzero scalar; it is tidy, has no more odd phases than the form, and at
//! most `gate_bound` gates for its qubits and the form's odd phases; some run of rewrites leads from the
//! form to a reduced graph with at least as many odd phases as the circuit. Where the form has no
//! flow, the answer is the largest set of its vertices that shows it.
//!
//! Inside:
//!
//! - `extracting`: the tidied circuit of a reduced graph.
//! - `simplifying`: `simplify` and `simplify_graph`.
//! - `circuits`: `simplify_circuit`.
//! - `compiling`: `compile`.
//!
//! ```rust
//! let made = simplify_circuit(alloc, &circuit)?;
//! match compile(alloc, diagram)? {
//!     Compiled::Circuit(circuit) => write(&circuit),
//!     Compiled::NoFlow { left } => tell(&left),
//! }
//! ```
#![tactic(auto)]

mod circuits;
mod compiling;
mod extracting;
mod simplifying;

pub use circuits::simplify_circuit;
pub use compiling::{Compiled, compile};
pub use extracting::extract_tidy;
pub use simplifying::{Simplified, simplify, simplify_graph};
