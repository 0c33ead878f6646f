//! Graph files that are read.

ghost use Rattle.std.specs.Prelude.{◌≡◌, ◌<◌, ◌≤◌, ◌⊎◌, ℕ, List, Option, Some, true, length, IfOk, IsOk, IsErrOf};
ghost use Rattle.std.specs.Option.{option_map};
ghost use Rattle.zx_calculus.specs.Graph.{Graph};
ghost use Rattle.gflow_laws.specs.Flow.{Correction};
ghost use Rattle.zx_text.specs.Reading.{most_bytes, Spells, AnyFile, OnlyWithFlow, IsBadLine};
ghost use Rattle.zx_text.specs.declared.error.TextError.TheVariants.{BadLine, TooLong, NoMemory};

use crate::error::TextError;
use crate::graph_lines::GraphLines;
use crate::line_reader::read_file;
use crate::reader::Reader;
use open_graph::OpenGraph;
use std::alloc::Global;
use zx_flow::FlowTable;

/// The graph that a file spells, with the ids that are its numbers, and its flow if it has one.
///
/// # Errors
///
/// `TooLong` where there are more than 16,777,216 bytes; else `BadLine` with the number of the first
/// line that doesn't fit, where the bytes aren't a file; `NoMemory` where memory runs out.
pub fn read_graph(alloc: Global, bytes: &[u8]) -> Result<(OpenGraph, Option<FlowTable>), TextError>
    ensures ok { IfOk result (λ read.
        Spells bytes.now read.0.graph (option_map (λ t. t.table) read.1)) }
    ensures short { IsOk result → length bytes.now ≤ most_bytes }
    ensures accepted { (g : Graph) (table : Option (List Correction)) → Spells bytes.now g table →
        length bytes.now ≤ most_bytes → IsOk result ⊎ IsErrOf result NoMemory }
    ensures too_long { IsErrOf result TooLong → most_bytes < length bytes.now }
    ensures is_too_long { most_bytes < length bytes.now → IsErrOf result TooLong }
    ensures bad_line { (line : ℕ) → IsErrOf result (BadLine line) →
        (length bytes.now ≤ most_bytes) × IsBadLine AnyFile bytes.now line }
    ensures refused { (line : ℕ) → IsBadLine AnyFile bytes.now line →
        length bytes.now ≤ most_bytes → IsErrOf result (BadLine line) ⊎ IsErrOf result NoMemory }
{
    let GraphLines(reader) = read_file::<GraphLines<false>>(alloc, bytes)?;
    match reader {
        Reader::Over(graph, table) => Ok((graph, table)),
        _ => unreachable!(),
    }
}

/// The same of files that have a flow: where a file has none, its last line doesn't fit.
///
/// # Errors
///
/// Those of `read_graph`, and `BadLine` at the last line of a file without a flow.
pub fn read_graph_with_flow(
    alloc: Global,
    bytes: &[u8],
) -> Result<(OpenGraph, FlowTable), TextError>
    ensures ok { IfOk result (λ read. Spells bytes.now read.0.graph (Some read.1.table)) }
    ensures short { IsOk result → length bytes.now ≤ most_bytes }
    ensures accepted { (g : Graph) (table : List Correction) → Spells bytes.now g (Some table) →
        length bytes.now ≤ most_bytes → IsOk result ⊎ IsErrOf result NoMemory }
    ensures too_long { IsErrOf result TooLong → most_bytes < length bytes.now }
    ensures is_too_long { most_bytes < length bytes.now → IsErrOf result TooLong }
    ensures bad_line { (line : ℕ) → IsErrOf result (BadLine line) →
        (length bytes.now ≤ most_bytes) × IsBadLine OnlyWithFlow bytes.now line }
    ensures refused { (line : ℕ) → IsBadLine OnlyWithFlow bytes.now line →
        length bytes.now ≤ most_bytes → IsErrOf result (BadLine line) ⊎ IsErrOf result NoMemory }
{
    let GraphLines(reader) = read_file::<GraphLines<true>>(alloc, bytes)?;
    match reader {
        Reader::Over(graph, table) => match table {
            Some(table) => Ok((graph, table)),
            None => unreachable!(),
        },
        _ => unreachable!(),
    }
}
