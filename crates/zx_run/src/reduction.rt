//! From a graph with a table of corrections to what `reduce` writes.

ghost use Rattle.std.specs.Prelude.{IfOk};
ghost use Rattle.gflow_laws.specs.Flow.{IsFlow, IsTableOf};
ghost use Rattle.gflow_laws.specs.Seen.{seen};
ghost use Rattle.zx_reduce.specs.Reducing.{Reduces};
ghost use Rattle.zx_run.specs.FlowFiles.{IsReducedFile};
ghost use Rattle.zx_run.specs.Internal.Parts.{IsVerdict};

use crate::flow_verdict::failure;
use crate::written::Written;
use flow_check::{Verdict, check};
use open_graph::OpenGraph;
use std::alloc::{AllocError, Global};
use zx_flow::{Flow, FlowTable};
use zx_reduce::{Reduction, reduce_owned};
use zx_text::write_graph;

/// The file of the reduced graph with its flow, or where the table isn't one, no and the line of its
/// first failure.
///
/// # Errors
///
/// Only where memory runs out.
pub fn reduction(alloc: Global, graph: OpenGraph, table: FlowTable) -> Result<Written, AllocError>
    requires { IsTableOf (seen graph.graph) table.table }
    ensures { IfOk result (λ written. IsVerdict graph.graph table.table
        (IsReducedFile graph.graph written.bytes.items) written.bytes.items written.is_no) }
{
    // What is owned is dropped by hand: an exit where it is alive would take it apart in its proof.
    let verdict = match check(alloc, &graph, &table) {
        Ok(verdict) => verdict,
        Err(error) => {
            drop(graph);
            drop(table);
            return Err(error);
        }
    };
    match verdict {
        Verdict::Flow => {
            let bytes = reduced_file(alloc, graph, table)?;
            Ok(Written::done(bytes))
        }
        Verdict::Fails { vertex, condition } => {
            drop(graph);
            drop(table);
            failure(alloc, vertex, condition)
        }
    }
}

// The file of the reduced graph with its flow.
fn reduced_file(alloc: Global, graph: OpenGraph, table: FlowTable) -> Result<Vec<u8>, AllocError>
    requires { IsFlow graph.graph table.table }
    ensures { IfOk result (λ bytes. IsReducedFile graph.graph bytes.items) }
{
    let made = reduced(alloc, graph, table)?;
    write_graph(alloc, &made.graph, Some(&made.flow))
}

fn reduced(alloc: Global, graph: OpenGraph, table: FlowTable) -> Result<Reduction, AllocError>
    requires { IsFlow graph.graph table.table }
    ensures { IfOk result (λ made. Reduces graph.graph
        made.graph.graph made.flow.flow made.trace.steps made.scalar) }
{
    match Flow::of_table(&graph, table) {
        Ok(flow) => reduce_owned(alloc, graph, flow),
        Err(error) => {
            drop(graph);
            Err(error)
        }
    }
}
