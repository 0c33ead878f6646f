//! Cleanup of circuits in place: gates that commutation brings together are merged or taken away.
//!
//! Proved of `tidy`: it leaves no pair and no triple of gates that are nothing or one gate
//! together, where gates may pass each other by a table; the map is a power of two times the new
//! one, which it answers; length, odd phases and gates on two qubits don't rise; no memory is
//! taken.
//!
//! ```rust
//! let scalar = tidy(&mut circuit);
//! ```
#![tactic(auto)]

mod chains;
mod changing;
mod commuting;
mod finding;
mod laws;
mod marks;
mod pairs;
mod tidying;

pub use laws::{commuting_gates, worked_lists, worked_table};
pub use tidying::tidy;
