//! Diagram files: diagrams of the ZX-calculus as text.
//!
//! Proved: `read_diagram` takes in exactly the files, in both versions, and answers the diagram that
//! a file spells; of any other text it answers the first line that doesn't fit: the lines before it
//! can begin a file, and with it they can't. A text spells one diagram at most, has one bad line at
//! most, and is no file if it has one; a text that isn't too long is a file or has a bad line.
//!
//! Inside:
//!
//! - `line`: what a line says, by its parts.
//! - `reader`: the diagram so far, and whether one more line fits.
//! - `diagram_lines`: how `zx_text::read_file` reads these lines.
//! - `diagram_reader`: the call.
//! - `laws`: a text has one reading.
//!
//! ```rust
//! let diagram = read_diagram(alloc, b"zxd 2\nspider 0 Z 2\ninput 0 plain\noutput 0 had\nend\n")?;
//! ```
#![tactic(auto)]

mod diagram_lines;
mod diagram_reader;
mod laws;
mod line;
mod reader;

pub use diagram_reader::read_diagram;
pub use laws::{each_text_is_a_file_or_has_a_bad_line, texts_have_one_reading};
pub use zx_text::{MOST_BYTES, TextError};
