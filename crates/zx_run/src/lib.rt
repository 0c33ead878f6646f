//! The program from bytes to bytes: words and a text in, what the command writes for it out.
//!
//! What is proved of `run` stands in docs/GUARANTEE.md, clause by clause; `main` makes the two calls that it
//! is made of, `answer` and `report`. Of `optimise`: it answers a tidy circuit on as many qubits, with a
//! proportional map that differs by the scalar that is told, no more odd phases, and at most as many gates as
//! `gate_bound` says; some run of rewrites leads from the graph of the read circuit to a reduced graph with at
//! least as many odd phases as the answer. Without `best` it is the plain circuit, which simplification,
//! extraction and cleanup make; with `best` it is no dearer than that, than the read circuit, than some cleanup
//! of it, and than some circuit whose phases alone are changed, where the last three are within that bound.
//!
//! Inside:
//!
//! - `reader`: `read_pieces` from the source into a `PieceReader`, and the errors of both as
//!   answers of the program: the circuit that the source's text means, or why there is none.
//! - `input`: all bytes of a source.
//! - `two_texts`: where a line parts two texts.
//! - `two_reader`: from a source to the circuits of both.
//! - `comparison`: the line about them.
//! - `diagram_reader`: from a source to the diagram of its file.
//! - `graph_form`: the file of its graph-like form.
//! - `compilation`: the text of a circuit for it, or the line of the vertices that show that it
//!   has none.
//! - `output`: `lower`, `optimise` and `write_text` in a row, from the circuit that is read to the
//!   text, its report and its scalar.
//! - `teleporting`: `lower`, `teleport` and `write_text`.
//! - `generation`: the circuit of a seed, optimised.
//! - `flow_reader`: from a source to the graph and the table of corrections that its file spells,
//!   or why there is none.
//! - `flow_verdict`: `check`, and the line of its verdict.
//! - `reduction`: `check`, `reduce` and `write_graph` in a row.
//! - `written`: what a command writes, for the answer Done or No.
//! - `error_line`: the line of an answer, on the error output.
//! - `program`: `run`, over a source and two sinks; `made`, what a command writes, over a source alone.
//! - `status`: its answers.
//! - `laws`: each text is accepted or has a first fault, and means one circuit at most.
//!
//! ```rust
//! let status = run(alloc, &["opt"], &mut source, &mut out, &mut err);
//! ```
#![tactic(auto)]

mod comparison;
mod compilation;
mod diagram_reader;
mod error_line;
mod flow_reader;
mod flow_verdict;
mod generation;
mod graph_form;
mod input;
mod laws;
mod output;
mod program;
mod reader;
mod reduction;
mod status;
mod teleporting;
mod two_reader;
mod two_texts;
mod written;

pub use error_line::report;
pub use laws::{
    diagram_files_have_one_reading, each_text_is_accepted_or_has_a_first_fault,
    each_text_means_one_circuit_at_most, two_texts_are_accepted_or_have_a_first_fault,
};
pub use program::{answer, made, run};
pub use status::{Fault, Status};
pub use written::Written;
pub use zx_optimise::optimise;
