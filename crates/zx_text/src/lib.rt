//! Graph files: open graphs, with their flows, as text.
//!
//! Proved: `write_graph` writes exactly `spelled` of the graph and its flow, byte by byte, with the
//! vertices numbered from 0 by rising id. With at most 1,024 inputs and as many outputs that is a
//! file, so reading it gives the numbered graph and flow back. `read_graph` takes in exactly the
//! files, in both versions, and answers the graph and the flow that a file spells; of any other text
//! it answers the first line that doesn't fit: the lines before it can begin a file, and with it they
//! can't. `read_graph_with_flow` does so for the files that have a flow. A text spells one graph and
//! one flow at most, has one bad line at most, and then is no file; a text that isn't too long is a
//! file or has a bad line. `cut`, `next_part`, `last_part`,
//! `number`, `mark` and `Version` read the parts of a line, for other files of the same form too, and
//! `read_file` reads the lines of files of any kind whose lines a `LineReader` takes.
//!
//! ```rust
//! let text = write_graph(alloc, &g, Some(&flow))?;
//! let (graph, flow) = read_graph(alloc, &text)?;
//! ```
#![tactic(auto)]

mod error;
mod graph_lines;
mod graph_part;
mod graph_reader;
mod graph_writer;
mod laws;
mod line;
mod line_reader;
mod members;
mod numbers;
mod pieces;
mod reader;
mod set_part;
mod version;

pub use error::TextError;
pub use graph_reader::{read_graph, read_graph_with_flow};
pub use graph_writer::write_graph;
pub use laws::{
    each_text_is_a_file_or_has_a_bad_line, files_spell_numbered_graphs, texts_have_one_reading,
};
pub use line::mark;
pub use line_reader::{LineReader, MOST_BYTES, read_file};
pub use numbers::number;
pub use pieces::{cut, last_part, next_part};
pub use version::Version;
