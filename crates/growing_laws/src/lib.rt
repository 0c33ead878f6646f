//! What stays of rewrites where gates are added at the outputs of a graph.
//!
//! There is no running code: definitions, and functions whose contracts are the laws. A step that
//! splits nothing commutes with a gate that is put behind the outputs: it is one of the graph with
//! the gate as well, by the same exact scalar, and leads to the graph after it with the gate. So a
//! graph may be simplified while gates still come: what was a run from the graph of the first gates
//! is one from that of all, and a flow along which ranks rise stays one. Steps take other names of
//! vertices, so that a new spider may have the id of one that went. What holds of the graph of a
//! circuit is said here of the definition, whoever makes it.
//!
//! ```rust
//! steps_commute_with_gates();
//! ```
#![tactic(auto)]

mod circuits;
mod flows;
mod gates;
mod growth;
mod renaming;
mod runs;
mod steps;

pub use circuits::{graphs_of_circuits, graphs_of_longer_circuits, growth_begins_with_wires};
pub use flows::gates_keep_a_flow_by_rank;
pub use gates::{
    gates_behind_a_graph, gates_raise_the_demand, peeled_gates_are_placed, placed_gates_are_peeled,
    placed_gates_keep_form,
};
pub use growth::{
    gates_keep_the_scalar_of_growth, graphs_grow_while_they_are_simplified,
    graphs_grow_with_fresh_ids, grown_graphs_are_reached,
};
pub use renaming::{
    gates_take_other_names, other_names_change_nothing_else, splits_take_other_names,
    steps_take_other_names,
};
pub use runs::{runs_commute_with_gates, scalars_stay_behind_gates};
pub use steps::steps_commute_with_gates;
