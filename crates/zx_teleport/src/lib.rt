//! Teleported phases: the graph of a circuit is simplified, and from this it is seen which phases of
//! the circuit may be put together, while all other gates stay where they are.
//!
//! Proved of `teleport`: it answers a circuit on as many qubits, with the gates of the read one in
//! their places but for phase gates, which have other phases or are gone; the linear map of the read
//! one is the scalar that it tells times that of the answered one; the steps that it tells lead from
//! the graph of the read circuit to the reduced graph that it tells; no more phases are odd than in
//! that graph, nor than were read.
//!
//! While steps are done on the graph, groups of gates follow them (`phase_groups`): which gates hold their phases
//! together, and with which sign. The same steps lead from the graph of the new circuit to the same end, so they are done
//! on that, too: the scalar of the steps from the first graph over that of the steps from the new one is the scalar
//! between the maps.
//!
//! `teleport_gates` tells neither steps nor scalar: it takes the phases that `zx_reduce::group_phases` puts together
//! while the graph grows and is simplified. Of what it answers the same is proved, for some such steps.
//!
//! Inside:
//!
//! - `teleporting`: `teleport`, with steps and scalar, and without.
//! - `holding`: which vertices hold the phases of the gates at the beginning, and the circuit with the phases that the
//!   gates have at the end.
//! - `scalars`: by which scalar steps change the sum of a graph.
//!
//! ```rust
//! let found = teleport(alloc, &circuit)?;
//! let gates = teleport_gates(alloc, &circuit)?;
//! ```
#![tactic(auto)]

mod holding;
mod scalars;
mod teleporting;

pub use teleporting::{Teleported, teleport, teleport_gates};
