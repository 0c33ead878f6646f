//! Reading: from a source to the graph and the table of corrections that its file spells.

ghost use Rattle.std.specs.Prelude.{◌≡◌, List, ℕ, Some, IfOk};
ghost use Rattle.gflow_laws.specs.Flow.{IsTableOf};
ghost use Rattle.gflow_laws.specs.Seen.{seen};
ghost use Rattle.zx_run.specs.FlowFiles.{IsFileOf, IsFirstFileFault};
ghost use Rattle.zx_run.specs.Answers.{told_source};
ghost use Rattle.zx_run.specs.Internal.Parts.{IsRead};

use crate::input::MOST_BYTES;
use crate::status::Status;
use open_graph::OpenGraph;
use std::alloc::Global;
use zx_flow::FlowTable;
use zx_io::{Source, read_all};
use zx_text::read_graph_with_flow;

/// The graph and the table of the file that a source gives.
///
/// # Errors
///
/// `ReadFault` where a read fails, whatever the bytes before it; `Refused` with `TooLong` or else the
/// first line that doesn't fit; `NoMemory` where memory runs out.
pub fn read_flow_file<S: Source>(
    alloc: Global,
    source: &mut S,
) -> Result<(OpenGraph, FlowTable), Status>
    ensures spelled { (text : List ℕ) → S.left source.old ≡ Some text
        → IfOk result (λ read. IsFileOf text read.0.graph read.1.table) }
    ensures table { IfOk result (λ read. IsTableOf (seen read.0.graph) read.1.table) }
    ensures read { IsRead IsFirstFileFault
        (told_source S.left S.faults source.old) (told_source S.left S.faults source.new) result }
{
    let bytes = read_all(alloc, source, MOST_BYTES)?;
    Ok(read_graph_with_flow(alloc, &bytes)?)
}
