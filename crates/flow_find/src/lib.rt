//! Correction sets of a flow: found along an order of vertices, or with the order.
//!
//! Proved: where some sets make an order a generalised flow of a graph, `find_along` answers sets
//! that do, with that order; its only error is want of memory. `find_cheap` answers a flow in an order
//! of its own, in which vertices of small sets come later, and `find_by_rank` does so where the order
//! is told by ranks. `find` answers a flow where there is one, and else the largest set of vertices of
//! which none is correctable while they come before all others. The laws that they rest on stand
//! beside them: the last vertex left is correctable by what a flow gives, and what the rows of an
//! elimination give corrects it; two sets none of which is correctable are such a set together.
//!
//! Inside:
//!
//! - `row`: a row, its pivot, columns and members.
//! - `rows`: rows that are added to each other, each call with a relation of the lists before and
//!   after.
//! - `picked`: at which pivots rows are added.
//! - `sets`: vertices as a set, as those that are left.
//! - `frontier`: the rows of all vertices that may be members of a set, on the vertices left, kept
//!   while a vertex goes.
//! - `along`: `find_along`.
//! - `cheap`: `find_cheap`, which moves a vertex of a small set behind the others left before it
//!   finds its set.
//! - `ranks`: `find_by_rank`, which sorts the vertices without outputs.
//! - `search`: `find`, which takes one correctable vertex at a time.
//! - `laws`: that a flow leaves nothing stuck, and why the sets that the rows give correct their
//!   vertices.
//!
//! ```rust
//! let table = find_along(alloc, &graph, &order)?;
//! let flow = Flow::of_table(&graph, table)?;
//! ```
#![tactic(auto)]

mod along;
mod cheap;
mod frontier;
mod laws;
mod picked;
mod ranks;
mod row;
mod rows;
mod search;
mod sets;

pub use along::find_along;
pub use cheap::find_cheap;
pub use laws::{
    a_flow_leaves_nothing_stuck, only_xy_vertices_are_put, stuck_sets_are_one_together,
    the_last_set_is_found,
};
pub use ranks::find_by_rank;
pub use search::{Found, find};
