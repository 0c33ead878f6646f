//! The gates of the header are the gates of their names. There is no running code: definitions, and
//! functions whose contracts are the laws.
//!
//! A call of each of the 33 gates of the header has no fault, and comes to built-in gates with the
//! map that the literature gives it, up to a nonzero scalar: gates with angles at every whole
//! number of sixteenth turns, and gates that halve an angle where the half is one. Calls are on all
//! qubits that there are, and a name that isn't declared before the header comes to the same
//! whatever else is.
//!
//! ```rust
//! gates_without_angles();
//! ```
#![tactic(auto)]

mod laws;

pub use laws::{
    gates_with_angles, gates_with_half_angles, gates_without_angles,
    the_header_means_the_same_in_each_scope, worked_definitions,
};
