//! Tables of corrections that tests fill in, and what is said of them.

ghost use Rattle.std.specs.Prelude.{◌≡◌, true, IfOk};
ghost use Rattle.std.specs.List.{list_all};
ghost use Rattle.zx_model.specs.Bits.{member};
ghost use Rattle.gflow_laws.specs.Seen.{seen};
ghost use Rattle.gflow_laws.specs.Flow.{order_of, IsTableOf, IsFlow};
ghost use Rattle.flow_check.specs.declared.verdict.Verdict.TheVariants.{Flow};
ghost use Rattle.flow_tests.specs.Tables as tables;

use super::drawing::{id, stands_in};
use flow_check::{Verdict, check};
use open_graph::{OpenGraph, VertexId, VertexSet};
use std::alloc::{AllocError, Global};
use std::process::Abort;
use zx_flow::FlowTable;

// The corrections of a vertex beside an output: the output, the vertex itself, and both.
pub const OUTPUT: &[(usize, usize)] = &[(0, 1)];

pub const ITSELF: &[(usize, usize)] = &[(0, 0)];

pub const BOTH: &[(usize, usize)] = &[(0, 0), (0, 1)];

// Whether an id is that of a vertex that isn't an output.
fn is_non_output(graph: &OpenGraph, v: VertexId) -> bool
    ensures { result ≡ tables.is_non_output (seen graph.now.graph) v }
{
    graph.is_live(v) && graph.output_at(v).is_none()
}

// Whether all members of a set are vertices.
fn holds_vertices(graph: &OpenGraph, set: &VertexSet) -> bool
    ensures { result ≡ list_all (λ w. member w (seen graph.now.graph).ids) set.now.ids }
{
    set.iter().all(|w| graph.is_live(w))
}

// Whether an id of the order is that of a vertex that isn't an output, and its set holds vertices alone.
fn is_entry(graph: &OpenGraph, table: &FlowTable, v: VertexId) -> bool
    ensures { result ≡ tables.is_entry (seen graph.now.graph) table.now.table v }
{
    stands_in(table.order(), v)
        && is_non_output(graph, v)
        && holds_vertices(graph, table.correction_set(v))
}

// Whether all ids of the order are such.
fn are_entries(graph: &OpenGraph, table: &FlowTable, order: &[VertexId]) -> bool
    ensures { result ≡ list_all (tables.is_entry (seen graph.now.graph) table.now.table) order.now }
{
    order.iter().all(|v| is_entry(graph, table, *v))
}

// Whether an id isn't that of a vertex without an output, or stands in an order.
fn is_placed(graph: &OpenGraph, order: &[VertexId], v: VertexId) -> bool
    ensures { result ≡ tables.is_placed (seen graph.now.graph) order.now v }
{
    !is_non_output(graph, v) || stands_in(order, v)
}

// Whether each vertex without an output stands in an order.
fn are_placed(graph: &OpenGraph, order: &[VertexId]) -> bool
    ensures { result ≡ list_all (tables.is_placed (seen graph.now.graph) order.now)
        (seen graph.now.graph).ids }
{
    graph.vertices().all(|v| is_placed(graph, order, v))
}

// Whether `check` may be asked.
fn is_table(graph: &OpenGraph, table: &FlowTable) -> bool
    ensures { result ≡ true → IsTableOf (seen graph.now.graph) table.now.table }
{
    let order = table.order();
    if !are_entries(graph, table, order) {
        return false;
    }
    are_placed(graph, order)
}

// What is said of a table, which has to be one that `check` may be asked about.
pub fn said_of(
    rt: &impl Abort,
    alloc: Global,
    graph: &OpenGraph,
    table: &FlowTable,
) -> Result<Verdict, AllocError>
    ensures { IfOk result (λ verdict. verdict ≡ Flow → IsFlow graph.now.graph table.now.table) }
{
    assert!(rt; is_table(graph, table));
    check(alloc, graph, table)
}

// The set of v with a member w toggled.
fn with_toggled(table: &FlowTable, v: VertexId, w: VertexId) -> Result<VertexSet, AllocError>
    requires { member v (order_of table.now.table) ≡ true }
{
    let mut set = table.correction_set(v).clone()?;
    set.toggle(w)?;
    Ok(set)
}

// Toggles a member w in the set of v, which comes after all others where it isn't there yet.
fn correct(
    rt: &impl Abort,
    table: &mut FlowTable,
    v: VertexId,
    w: VertexId,
) -> Result<(), AllocError> {
    if !stands_in(table.order(), v) {
        table.add(v, &[])?;
    }
    assert!(rt; stands_in(table.order(), v));
    let set = with_toggled(table, v, w)?;
    table.set(v, set);
    Ok(())
}

// Fills in pairs of a vertex and a member of its set.
pub fn fill(
    rt: &impl Abort,
    table: &mut FlowTable,
    corrections: &[(usize, usize)],
) -> Result<(), AllocError> {
    for (v, w) in corrections {
        correct(rt, table, id(*v), id(*w))?;
    }
    Ok(())
}
