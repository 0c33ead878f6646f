//! What an open graph of the ZX-calculus means, and the rewrites that keep it.
//!
//! There is no running code: the definitions stand in `specs/`, and the functions do nothing: their
//! contracts are the laws. Each of the eight rewrites keeps the sum, by its exact scalar, keeps
//! the form of the graph and raises no number of odd phases, and so does every list of them in any
//! order. A rewrite's result is the graph that a plain program makes, exactly where its side
//! condition holds, and no other: so a list of rewrites has one end. Besides: how each changes the
//! counts that bound simplification, that a graph without moves is reduced, and a reduced graph
//! small; worked graphs, factors and sums.
//!
//! ```rust
//! step_keeps_sum();        // a caller has the law for its own graphs
//! ```
#![tactic(auto)]

mod counts;
mod facts;
mod laws;

pub use counts::{
    counts_after_a_complement, counts_after_a_deletion, counts_after_a_lone_gadget_went,
    counts_after_a_pivot, counts_after_fusing_into_a_neighbour, counts_after_fusing_twins,
    counts_after_the_split_of_an_input, counts_after_the_split_of_an_output,
    counts_are_within_the_vertices, reduced_graphs_are_small, stuck_is_reduced,
};
pub use facts::{identities_of_steps, sums_of_phase_gates};
pub use laws::{
    pivot_is_its_own_inverse, program_is_step, run_has_one_end, run_keeps_sum, step_keeps_form,
    step_keeps_sum, step_raises_no_odd_phases, worked_rewrites, worked_sums,
};
