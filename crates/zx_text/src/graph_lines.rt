//! The lines of a graph file, behind the first one.

ghost use Rattle.std.specs.Prelude.{◌≡◌, ◌<◌, ◌^◌, length, IfOk, IfNone, IfSome};
ghost use Rattle.zx_text.specs.Formats.{IsTaken, IsRefused};
ghost use Rattle.zx_text.specs.Versions.{version_named};
ghost use Rattle.zx_text.specs.Internal.GraphFormat.{graph_files};
ghost use Rattle.zx_text.specs.Internal.Readers.{is_over, lines_so_far, wanted_by};
ghost use Rattle.zx_text.specs.Internal.Stepping.{vertices_of};

use crate::graph_part::GraphPart;
use crate::line::parse;
use crate::line_reader::LineReader;
use crate::reader::{Reader, taken};
use crate::version::Version;
use std::alloc::{AllocError, Global};

// What the lines so far say of a file: of any, or of one that has a flow.
#[derive(Drop)]
pub(crate) struct GraphLines<const WITH_FLOW: bool>(pub(crate) Reader);

impl<const WITH_FLOW: bool> LineReader for GraphLines<WITH_FLOW> {
    ghost format = { graph_files (wanted_by WITH_FLOW) };

    ghost state = { λ lines. lines_so_far lines.0 };

    fn new(alloc: Global) -> GraphLines<WITH_FLOW> {
        GraphLines(Reader::Graph(GraphPart::new(alloc)))
    }

    fn version_of(line: &[u8]) -> Option<Version> {
        Version::of_header(line)
    }

    fn is_over(&self) -> bool {
        is_over(&self.0)
    }

    fn taken(
        self,
        alloc: Global,
        version: Version,
        line: &[u8],
    ) -> Result<Option<GraphLines<WITH_FLOW>>, AllocError> {
        match line_taken(alloc, version, WITH_FLOW, self.0, line)? {
            Some(next) => Ok(Some(GraphLines(next))),
            None => Ok(None),
        }
    }
}

// What one more line leads to, here without its line feed, if it fits.
fn line_taken(
    alloc: Global,
    version: Version,
    with_flow: bool,
    reader: Reader,
    line: &[u8],
) -> Result<Option<Reader>, AllocError>
    requires room { length (vertices_of (lines_so_far reader)) < 2 ^ 32 }
    ensures taken { IfOk result (λ found. IfSome found (λ next. IsTaken (graph_files (wanted_by with_flow))
        (version_named version) (lines_so_far reader) line.now (lines_so_far next))) }
    ensures none { IfOk result (λ found. IfNone found (IsRefused (graph_files (wanted_by with_flow))
        (version_named version) (lines_so_far reader) line.now)) }
{
    // The reader is dropped by hand: an exit by `?` would take each of its variants apart in the proof.
    match parse(alloc, line) {
        Ok(Some(line)) => taken(alloc, version, with_flow, reader, &line),
        Ok(None) => {
            drop(reader);
            Ok(None)
        }
        Err(error) => {
            drop(reader);
            Err(error)
        }
    }
}

// Whether the last line of a file is read.
fn is_over(reader: &Reader) -> bool
    ensures { result ≡ is_over (lines_so_far reader.now) }
{
    match reader {
        Reader::Over(_, _) => true,
        Reader::Graph(_) | Reader::Flow(_) | Reader::Sets(_) => false,
    }
}
