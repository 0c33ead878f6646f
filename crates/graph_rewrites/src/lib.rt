//! The eight rewrites of open graphs: local complement, deletion, pivot, the splits of an input and of an output,
//! the removal of a lone gadget, and the fusion of a gadget into its only neighbour or into a twin.
//!
//! Each has its test, `may_NAME`, and its change of the graph, `NAME_in_graph`, which answers the scalar: the sum
//! before is so many times the sum after. `Step` has all eight by their names. The calls that keep a flow beside
//! the graph stand in `flow_rewrites`: `local_complement`, `delete`, `pivot`, `split_input`, `split_output`,
//! `drop_lone`, `fuse_into`, `fuse_twin`, and `apply`, one step by its name.
//!
//! Proved: a test tells exactly where its rewrite is allowed. A change of a graph for which it is allowed is the
//! step, with the step's scalar; where memory runs out it says nothing. Where all vertices are below the reach of
//! the graph, and a split finds a place for its vertex, none is taken. A deletion or the removal of a gadget gives
//! back a place for a vertex, and no reach changes.
//!
//! Inside:
//!
//! - `step`: rewrites by their names, a list of cases over the tests and the changes.
//! - `complement`, `deletion`: with `neighbours`, what is done to each neighbour of a vertex, and `scalars`.
//! - `pivot`: with its scalar in `pivot_scalar`.
//! - `split`: with `spider`, what a split is made of.
//! - `gadgets`: with `gadget`, what their rewrites are made of.
//!
//! ```rust
//! let step = Step::Pivot(u, v);
//! if step.is_allowed(&graph) {
//!     let scalar = step.do_in(&mut graph)?;
//! }
//! ```
#![tactic(auto)]

mod complement;
mod deletion;
mod gadget;
mod gadgets;
mod pivot;
mod pivot_scalar;
mod scalars;
mod spider;
mod split;
mod step;

pub use complement::{local_complement_in_graph, may_complement};
pub use deletion::{delete_in_graph, may_delete};
pub use gadget::is_gadget;
pub use gadgets::{
    drop_lone_in_graph, fuse_into_in_graph, fuse_twin_in_graph, may_drop_lone, may_fuse_into,
    may_fuse_twin,
};
pub use pivot::{may_pivot, pivot_in_graph};
pub use split::{may_split_input, may_split_output, split_input_in_graph, split_output_in_graph};
pub use step::Step;
