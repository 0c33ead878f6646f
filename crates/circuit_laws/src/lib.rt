//! What it means that a graph is another one followed by gates, and the changes at a graph's
//! outputs by which gates are put after it or taken off.
//!
//! There is no running code: definitions, and functions whose contracts are the laws. A phase, an
//! edge between outputs, a mark, a new spider, an added row, an exchange and a gadget at the
//! outputs are gates behind the graph, each with its exact factor; the graph keeps its form, odd
//! phases are counted, and the gates are on the outputs' qubits. Wires are what is left in the end,
//! and gates one after the other compose.
//!
//! ```rust
//! peeling_composes();
//! ```
#![tactic(auto)]

mod composition;
mod examples;
mod gates;
mod kept;
mod outputs;
mod taking;

pub use composition::{
    costs_multiply, gates_by_hadamards, peeling_composes, the_sum_of_peeled_graphs,
};
pub use examples::{
    bell_pair_is_h_and_cx, crossing_wires_are_three_cx, gadget_is_a_phase_between_two_cx,
    gadget_through_an_output, the_direction_of_an_added_row,
};
pub use gates::{peeled_gates_are_few, peeled_gates_are_on_the_outputs};
pub use kept::{added_gates_keep_form, peeled_gates_keep_form, peeling_counts_odd_phases};
pub use outputs::{
    added_rows_are_cx, exchanges_are_three_cx, gadgets_are_gates, new_spiders_are_hadamards,
    settled_outputs_are_gates, wires_are_hadamards,
};
pub use taking::{advancing_peels_a_spider, clearing_a_phase_peels_it};
