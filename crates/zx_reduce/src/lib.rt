//! Simplification of open graphs: steps, which are rewrites by their names, until none is left to do. The same of the
//! graph of a circuit while its gates are still put behind it.
//!
//! Proved of `reduce_owned`: the graph is reduced, with a flow, a proportional sum, as many ends and no more odd phases;
//! the steps of the trace lead there from the graph that was given. Of `reduce_with_groups` the same, and that groups of
//! gates, whose phases the vertices hold together, follow these steps. Proved of `grow`: some such steps lead from the
//! circuit's graph to the reduced one, but for the names of the vertices, and the circuit's map is so many times its sum.
//!
//! Steps are proposed where something changed, by a queue of which nothing is promised, and each is tested before it is
//! done. Once the queue is empty, `next_move` of `zx_moves` tells whether a move is left: what it finds is done, and the
//! queue goes on from there. After too many looks the moves that it finds are made one after the other, which always
//! comes to an end. While steps are done no correction set is kept, only the order along which the graph has a flow;
//! sets are found along it at the end.
//!
//! Where gates are put behind a graph, a spider of an even phase between two others goes at once. After each block of new
//! spiders moves are made at vertices that no gate reaches any more, so that the graph stays small, and parts of the
//! circuit that are far from each other are joined as late as possible. Ends are split at the end alone.
//!
//! Inside:
//!
//! - `reduction`: `reduce_owned`, `reduce_with_groups`. `growing`: `grow`, the gates and the moves between them.
//! - `engine`: which moves are made, until none is left. `progress`: the graph with the scalar so far, and what may be
//!   done to it. `ordered`, `ranks`: the graph with the order of its flow.
//! - `queue`, `plan`, `twins`, `levels`, `blocks`: which steps are tried, and when. Nothing is promised of them.
//!
//! ```rust
//! let made = reduce_owned(alloc, graph, flow)?;
//! let grown = grow(alloc, &circuit)?;
//! ```
#![tactic(auto)]

mod blocks;
mod engine;
mod growing;
mod levels;
mod ordered;
mod plan;
mod progress;
mod queue;
mod ranks;
mod reduction;
mod twins;

pub use growing::{Grown, group_phases, grow};
pub use reduction::{Reduction, reduce_owned, reduce_with_groups};
