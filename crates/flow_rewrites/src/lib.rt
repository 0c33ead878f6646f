//! Rewrites of open graphs with their flows, so that nothing is lost: the eight safe calls, `apply`, one rewrite by
//! its name, and `reduce`, moves of simplification until none is left.
//!
//! The tests (`may_complement`, ..) and the changes of a graph alone (`local_complement_in_graph`, ..) stand in
//! `graph_rewrites`, moves and the search for the next one in `zx_moves`. Simplification of a graph that its caller
//! gives away, `reduce_owned`, stands in `zx_reduce`.
//!
//! Who knows these calls by smaller crates finds here `local_complement` and `delete` of `local_comp`, `pivot` of
//! `zx_pivot`, `split_input` and `split_output` of `zx_boundary`, `drop_lone`, `fuse_into` and `fuse_twin` of
//! `zx_gadgets`, and `apply`, `reduce`, `Steps` and `StepRefused` of `zx_reduce`.
//!
//! Proved of each safe call of a rewrite that is allowed, by one record, `IsDoneSafely`: with Ok, graph and flow are
//! the rewritten ones, the flow the table that `gflow_laws` gives for that, a flow of the new graph; the sum before
//! is the answered scalar times the sum after, and odd phases don't rise. Want of memory leaves both as they were.
//! Where both have the memory that the rewrite needs, none is taken. What both have memory for stays in any case,
//! but for the place that a split takes.
//!
//! `apply` answers NotAllowed exactly where an id is none of a vertex or the side condition fails, before memory is
//! asked for and with nothing changed; where it answers Ok the step is done, with what the rewrites keep. `reduce`
//! with Ok: the graph is reduced, with a flow, a proportional sum, as many ends and no more odd phases; the trace
//! gained the steps of moves from the old graph to the new one, each of the first kind that applied; the counter
//! rose by the number of moves, at most 2E+Q+2O (interior vertices of even phase, vertices that aren't XY, odd
//! phases). Want of memory leaves graph, flow, trace and counter as they were. No room is lost, whether memory runs
//! out or not: neither reach falls, and graph, flow and trace take no fewer vertices and steps in all without memory
//! than before. Where they have room for it, `reduce` takes no memory; `reserved_room_suffices` tells how much room
//! is enough for the graph of a circuit.
//!
//! Inside:
//!
//! - `rewrites`: the safe calls, each `perform` of its step.
//! - `performing`: a step of graph and flow in place, and with copies where there isn't the memory. `sets` has what a
//!   step makes of the sets of a flow.
//! - `applying`, `refusal`: one step where it is allowed, and why it isn't done.
//! - `reduction`: moves until none is left, `in_place` where graph, flow and trace have room for them, which `room`
//!   tests, and on copies else. `steps` is their counter.
//! - `laws`, `room_laws`: the laws of steps, and of the room that simplification needs.
//!
//! ```rust
//! if may_pivot(&graph, u, v) {
//!     pivot(&mut graph, &mut flow, u, v)?;
//! }
//! reduce(&mut graph, &mut flow, &mut trace, &mut steps)?;
//! ```
#![tactic(auto)]

// One step.
mod applying;
mod laws;
mod performing;
mod refusal;
mod rewrites;
mod sets;

// Simplification.
mod in_place;
mod reduction;
mod room;
mod room_laws;
mod steps;

pub use applying::apply;
pub use laws::{applied_steps_are_a_run, every_run_keeps_a_flow};
pub use performing::perform;
pub use reduction::reduce;
pub use refusal::StepRefused;
pub use rewrites::{
    delete, drop_lone, fuse_into, fuse_twin, local_complement, pivot, split_input, split_output,
};
pub use room_laws::{moves_raise_no_demand, reserved_room_suffices};
pub use steps::Steps;
