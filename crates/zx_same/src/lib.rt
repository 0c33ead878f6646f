//! Whether two circuits have one linear map, up to a number other than 0.
//!
//! Proved of `compare`: it answers `Same` only where the maps are equal up to a number other than 0, and
//! always where the circuits are the same gates in the same order. Else it tells what is left of the first
//! circuit followed by the inverse of the second: the steps that it tells lead from the graph of these
//! gates to the reduced graph that it tells, which isn't just wires; the circuit that it tells has their
//! map, isn't empty, and nothing in it cancels or merges. Where no vertex of that graph is interior, as where
//! neither circuit has an odd phase, the maps differ then; else that they do isn't proved.
//! `quotient` tells the number too, where no gate is left:
//! the map of the first circuit is proved to be so many times that of the second.
//!
//! Inside:
//!
//! - `bare`: whether nothing is left of a graph but wires.
//! - `vanishing`: whether nothing is left where gates that are the identity are put in.
//! - `comparing`: `compare`, and `left_of`, which simplifies once.
//! - `division`: `quotient`.
//! - `laws`: of graphs that are just wires.
//!
//! ```rust
//! match compare(alloc, &circuit, &other)? {
//!     Sameness::Same => ..,
//!     Sameness::NotShown { left, .. } => ..,
//! }
//! ```
#![tactic(auto)]

mod bare;
mod comparing;
mod division;
mod laws;
mod vanishing;

pub use comparing::{Sameness, compare, left_of};
pub use division::quotient;
pub use laws::{bare_graphs_are_the_identity, identity_graphs_are_bare};
