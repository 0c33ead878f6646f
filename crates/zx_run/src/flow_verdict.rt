//! What is written about a table of corrections.

ghost use Rattle.std.specs.Prelude.{◌≡◌, true, codes, IfOk};
ghost use Rattle.gflow_laws.specs.Flow.{IsFlow, IsTableOf};
ghost use Rattle.gflow_laws.specs.Seen.{seen};
ghost use Rattle.zx_run.specs.FlowFiles.{IsFailureLine, condition_name, fails_line};
ghost use Rattle.zx_run.specs.Internal.Parts.{IsVerdict};

use crate::written::Written;
use flow_check::{Condition, Verdict, check};
use open_graph::{OpenGraph, VertexId};
use std::alloc::{AllocError, Global};
use zx_flow::FlowTable;

/// The line `flow`, or where the table isn't one, no and the line of its first failure.
///
/// # Errors
///
/// Only where memory runs out.
pub fn flow_verdict(
    alloc: Global,
    graph: OpenGraph,
    table: FlowTable,
) -> Result<Written, AllocError>
    requires { IsTableOf (seen graph.graph) table.table }
    ensures { IfOk result (λ written. IsVerdict graph.graph table.table
        (written.bytes.items ≡ codes "flow\n") written.bytes.items written.is_no) }
{
    verdict_on(alloc, &graph, &table)
}

fn verdict_on(alloc: Global, graph: &OpenGraph, table: &FlowTable) -> Result<Written, AllocError>
    requires { IsTableOf (seen graph.now.graph) table.now.table }
    ensures { IfOk result (λ written. IsVerdict graph.now.graph table.now.table
        (written.bytes.items ≡ codes "flow\n") written.bytes.items written.is_no) }
{
    match check(alloc, graph, table)? {
        Verdict::Flow => {
            let mut bytes = Vec::new(alloc);
            bytes.extend_from_slice(b"flow\n")?;
            Ok(Written::done(bytes))
        }
        Verdict::Fails { vertex, condition } => failure(alloc, vertex, condition),
    }
}

/// No, and the line of a failure.
///
/// # Errors
///
/// Only where memory runs out.
pub fn failure(alloc: Global, vertex: VertexId, condition: Condition) -> Result<Written, AllocError>
    ensures line { IfOk result (λ written. written.bytes.items ≡ fails_line vertex condition) }
    ensures no { IfOk result (λ written. written.is_no ≡ true) }
{
    let number = vertex.get();
    let name = condition_name(condition);
    let line = format!(in alloc; "fails {number} {name}\n")?;
    Ok(Written::no(line.into_bytes()))
}

// The name of a condition.
fn condition_name(condition: Condition) -> &'static str
    ensures { result.now ≡ condition_name condition }
{
    match condition {
        Condition::Input => "input",
        Condition::Order => "order",
        Condition::Odd => "odd",
        Condition::XY => "XY",
        Condition::XZ => "XZ",
        Condition::YZ => "YZ",
    }
}
