//! Generalised flows in memory: an order of vertices, each with its correction set.
//!
//! Proved: each call makes its one change of the order and the sets, and all else stays; the order
//! holds each vertex once, and sets are told by rising id; `last` tells the last of the order, or
//! that there is none; `has` tells whether a vertex is in a set, `odd_has` the parity of neighbours
//! in it, for any vertex or id; want of memory leaves the table as it was, and within the room that
//! `reserve` made, to toggle, add and eliminate needs none; a copy has that room too. That a table is
//! a flow of a graph is a condition of the calls that need it.
//!
//! Inside:
//!
//! - `sets`: for each vertex, by its number, a set of vertices, and below which number each has room
//!   for all below it.
//! - `corrections`: the order and the sets, with the proofs that a change of these is the change
//!   of the table.
//! - `changing`: what rewrites make of sets: of one by a local complement, of all where a vertex
//!   goes.
//! - `table`, `flow`: the two types over `corrections`, which differ in their calls.
//!
//! ```rust
//! let mut table = FlowTable::new(alloc);
//! table.add(u, &[v])?;           // v corrects u
//! let flow = Flow::of_table(&g, table)?;
//! ```
#![tactic(auto)]

mod changing;
mod corrections;
mod flow;
mod sets;
mod table;

pub use flow::Flow;
pub use sets::VertexSets;
pub use table::FlowTable;
