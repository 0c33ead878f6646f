//! Open graphs in memory: vertices with planes and phases, edges, inputs and outputs.
//!
//! Proved: each call makes its one named change of the graph's lists, and all else stays; the graph
//! stays well-formed; a new id is the least that no vertex has, and ids are below 2^32; readers tell
//! the lists, neighbours and vertices by rising id; a copy has the same lists; want of memory leaves
//! them as they were, but leaves no vertex where it stops one of the calls that toggle whole rows. A
//! graph tells how many vertices it takes without memory, and its reach, below which any edges are
//! toggled without memory; a set of vertices tells below which bound it takes any id without memory;
//! `reserve` raises each, no call lowers a reach, and a copy has as many places for vertices and the
//! same reach.
//!
//! Inside:
//!
//! - `id`, `plane`, `end`: what the calls take and give.
//! - `vertices`, `ids`: the iterators over a graph and over a set.
//! - `vertex_set`: a set of ids, which tells its room.
//! - `slot`: what is kept of a vertex.
//! - `slot_table`: slots under their ids, the least free one found by a row of bits, with spare
//!   entries in reserve.
//! - `slots`: changes of one slot, of the rows of two, and of many rows at once, and the rows kept
//!   for ids that no vertex has.
//! - `scratch`: two sets that calls fill.
//! - `side`: the inputs or the outputs, read and changed.
//! - `open_graph`: `OpenGraph` with its calls. What slots tell of each id (`told`) decides the
//!   lists, so each call is shown as a change of what is told.
//!
//! ```rust
//! let mut g = OpenGraph::new(alloc);
//! let u = g.add_vertex(Plane::XY, Sixteenth::eighth_turn())?;
//! let v = g.add_vertex(Plane::XY, Sixteenth::new(0))?;
//! g.toggle_edge(u, v)?;          // now g.has_edge(u, v)
//! ```
#![tactic(auto)]

mod end;
mod id;
mod ids;
mod open_graph;
mod plane;
mod scratch;
mod side;
mod slot;
mod slot_table;
mod slots;
mod turn;
mod vertex_set;
mod vertices;

pub use end::End;
pub use id::VertexId;
pub use ids::Ids;
pub use open_graph::OpenGraph;
pub use plane::Plane;
pub use side::Side;
pub use turn::Turn;
pub use vertex_set::VertexSet;
pub use vertices::Vertices;
