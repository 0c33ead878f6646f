//! What a generalised flow of an open graph is, that every rewrite turns a flow into a flow, and
//! what becomes of one at the outputs.
//!
//! There is no running code: definitions, and functions whose contracts are the laws. Each rewrite
//! turns a flow of the graph into one of the new graph, by a rule that computes, and so does every
//! list of them. Besides: what a flow depends on, what becomes of it where gates are put on or
//! taken off at the outputs, and worked flows.
//!
//! ```rust
//! each_rewrite_keeps_a_flow();
//! ```
#![tactic(auto)]

mod examples;
mod laws;
mod outputs;

pub use examples::{
    each_condition_fails_alone, flow_at_the_outputs, flow_of_a_path_of_four,
    flow_of_a_path_of_three, flow_of_small_gadgets, flow_of_split_ends, flow_of_twin_gadgets,
    outputs_of_another_kind, two_ends_need_an_edge,
};
pub use laws::{
    an_inner_vertex_has_a_neighbour, each_rewrite_keeps_a_flow, each_run_keeps_a_flow,
    parts_of_the_tables, sets_correct_their_vertices, what_a_flow_depends_on,
};
pub use outputs::{
    added_rows, advanced_output, all_inputs, gathered_rows, last_vertex, new_output,
    removed_vertex, toggled_outputs,
};
