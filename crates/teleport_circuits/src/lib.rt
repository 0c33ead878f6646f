//! Circuits that differ in the phases of their phase gates, and their graphs.
//!
//! There is no running code: the definitions stand in `specs/`, and the functions do nothing: their
//! contracts are the laws. With phases added at the vertices to which the gates add theirs, the graph
//! of a circuit is that of the circuit with other phases. So phases of gates that end up together in
//! a run of rewrites may be put together: the run leads to the same end, and so the scalar between the
//! maps is the quotient of those by which the run changes the two sums.
//!
//! ```rust
//! teleported_phases_keep_the_map();
//! ```
#![tactic(auto)]

mod laws;
mod teleported;

pub use laws::other_phases_are_added;
pub use teleported::teleported_phases_keep_the_map;
