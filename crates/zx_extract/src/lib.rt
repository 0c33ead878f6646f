//! The circuit of an open graph with a flow.
//!
//! Proved of `extract`, for every graph with a flow, without XZ vertices and with as many inputs as
//! outputs, at most 1,024: it answers a circuit on as many qubits and a scalar; the graph's sum is the
//! circuit's map times that scalar, a power of two with at most one factor two for each YZ vertex; it has
//! no more odd phases than the graph, and at most n(n-1)/2 + 6n + 2np + 3nq gates for n outputs, p
//! other XY vertices and q YZ vertices. `choose_rows` answers with a least set of rows that sum to a
//! target, with no more members than a set that is known to. The rows of the outputs that are no
//! inputs, over the vertices that are no outputs, are linearly independent.
//!
//! Inside:
//!
//! - `frontier`: what is left of the graph and its flow, with the gates taken off so far; each
//!   method ensures that it takes the one step of its gates.
//! - `holders`: the flow turned over: of each vertex, in which correction sets it stands.
//! - `settling`: outputs made plain, of phase 0 and without edges among themselves.
//! - `front_graph`: the graph, with rows of its outputs.
//! - `gathering`: rows added until one output has the neighbours that the last vertex needs.
//! - `sharing`: rows of a gadget's legs added until one leg is left.
//! - `gadgets`: phase gadgets.
//! - `ahead`: what a choice does to the vertices that come next.
//! - `choosing`: which of some outputs costs least.
//! - `vertices`: the vertices one after the other, the last of the order first.
//! - `crossing`: the wires that are left.
//! - `extraction`: `extract`.
//! - `few_rows`: `choose_rows`.
//! - `laws`: which rows of a graph with a flow are independent.
//!
//! ```rust
//! let made = extract(alloc, graph, flow)?;
//! let set = choose_rows(alloc, &m, &target, &kept)?;
//! ```
#![tactic(auto)]

mod ahead;
mod choosing;
mod crossing;
mod extraction;
mod few_rows;
mod front_graph;
mod frontier;
mod gadgets;
mod gathering;
mod holders;
mod laws;
mod settling;
mod sharing;
mod vertices;

pub use extraction::extract;
pub use few_rows::choose_rows;
pub use laws::rows_of_outputs_are_independent;
