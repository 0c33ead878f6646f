//! The moves of simplification, which consist of rewrites of open graphs, and the search for the next move. The
//! rewrites are those of `graph_rewrites`.
//!
//! Proved: `next_move` answers a move that applies, of the first kind that applies anywhere, or that none is
//! left. Each move lowers a number of the graph, and its rewrites can be done one after the other.
//!
//! Inside:
//!
//! - `trace`: the steps that were done.
//! - `moves`: the moves, their kinds and the order of kinds. `search` finds the next one in a graph: of the pivots of a
//!   vertex the one that costs least. `planning` lists the steps of a move; `made` tells what moves came to.
//! - `simplification_laws`: the laws of moves.
//!
//! ```rust
//! if let Some(found) = next_move(&graph) {
//!     let kind = found.kind();
//! }
//! ```
#![tactic(auto)]

mod made;
mod moves;
mod planning;
mod search;
mod simplification_laws;
mod trace;

pub use made::Made;
pub use moves::{KINDS, Kind, Move};
pub use planning::add_steps;
pub use search::{next_move, pivot_cost};
pub use simplification_laws::{
    graphs_of_circuits_allow_few_moves, moves_are_a_run, moves_are_short, moves_begin_allowed,
    moves_can_be_made, moves_end_in_reduced_graphs,
};
pub use trace::Trace;
