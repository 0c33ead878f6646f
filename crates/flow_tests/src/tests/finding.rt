//! Sets found on small graphs, which were worked out by hand.

ghost use Rattle.std.specs.Prelude.{◌≡◌, [], ◌∷◌, true, OnOk};
ghost use Rattle.gflow_laws.specs.Flow.{order_of};
ghost use Rattle.flow_check.specs.declared.verdict.Verdict.TheVariants.{Flow};
ghost use Rattle.move_laws.specs.Orders.{HasFlowAlong};

use super::drawing::{APART, BESIDE_AN_OUTPUT, Drawing, SHARED_OUTPUT, draw, id, stands_in};
use super::tables::{BOTH, ITSELF, OUTPUT, fill, said_of};
use flow_check::Verdict;
use flow_find::{Found, find, find_along, find_by_rank};
use open_graph::{OpenGraph, Plane, VertexId};
use std::alloc::{AllocError, Global};
use std::process::Abort;
use std::test::Fail;
use zx_flow::FlowTable;

// A graph, and a flow of it as pairs of a vertex and a member of its set.
#[derive(Clone, Copy)]
struct Example<'a> {
    drawing: Drawing<'a>,
    flow: &'a [(usize, usize)],
}

// The set of a vertex, as the digits of a number, each one above the id; 0 where it has none.
fn set_in(table: &FlowTable, v: VertexId) -> usize {
    let mut digits = 0usize;
    if stands_in(table.order(), v) {
        for w in table.correction(v) {
            digits = digits
                .wrapping_mul(10)
                .wrapping_add(w.get())
                .wrapping_add(1);
        }
    }
    digits
}

// The sets of 0 and 1.
fn sets_in(table: &FlowTable) -> [usize; 2] {
    [set_in(table, id(0)), set_in(table, id(1))]
}

// Whether the vertices of a table stand in this order.
fn has_order(table: &FlowTable, order: &[VertexId]) -> bool
    ensures { result ≡ true → order_of table.now.table ≡ order.now }
{
    table.order() == order
}

// Whether this is said of a flow.
fn is_flow(verdict: &Verdict) -> bool
    ensures { result ≡ true → verdict.now ≡ Flow }
{
    match verdict {
        Verdict::Flow => true,
        Verdict::Fails { .. } => false,
    }
}

// Fills in a flow of a graph, which stands in this order.
fn fill_along(
    rt: &impl Abort,
    alloc: Global,
    graph: &OpenGraph,
    table: &mut FlowTable,
    flow: &[(usize, usize)],
    order: &[VertexId],
) -> Result<(), AllocError>
    ensures { OnOk result (HasFlowAlong graph.now.graph order.now) }
{
    fill(rt, table, flow)?;
    assert!(rt; has_order(table, order));
    let verdict = said_of(rt, alloc, graph, table)?;
    assert!(rt; is_flow(&verdict));
    Ok(())
}

// Draws a graph that has a flow along this order.
fn draw_along(
    rt: &impl Abort,
    alloc: Global,
    graph: &mut OpenGraph,
    example: &Example<'_>,
    order: &[VertexId],
) -> Result<(), AllocError>
    ensures { OnOk result (HasFlowAlong graph.new.graph order.now) }
{
    draw(rt, graph, &example.drawing)?;
    let mut table = FlowTable::new(alloc);
    fill_along(rt, alloc, graph, &mut table, example.flow, order)
}

// The sets found for 0 and 1 along an order, where the graph has a flow along it.
fn sets_along(
    rt: &impl Abort,
    alloc: Global,
    graph: &mut OpenGraph,
    example: &Example<'_>,
    order: &[VertexId],
) -> Result<[usize; 2], AllocError> {
    draw_along(rt, alloc, graph, example, order)?;
    let table = find_along(alloc, graph, order)?;
    Ok(sets_in(&table))
}

fn found_along(
    rt: &impl Abort,
    alloc: Global,
    example: &Example<'_>,
    order: &[VertexId],
) -> Result<[usize; 2], AllocError> {
    sets_along(rt, alloc, &mut OpenGraph::new(alloc), example, order)
}

#[test]
fn each_plane_has_its_set(rt: HostRuntime) -> Result<(), Fail> {
    let rows = [
        (Plane::XY, OUTPUT, 2),
        (Plane::XZ, BOTH, 12),
        (Plane::YZ, ITSELF, 1),
    ];
    for (plane, flow, wanted) in &rows {
        let drawing = Drawing {
            planes: &[*plane, Plane::XY],
            ..BESIDE_AN_OUTPUT
        };
        let flow = *flow;
        let example = Example { drawing, flow };
        let sets = found_along(&rt, rt.alloc(), &example, &[id(0)])?;
        assert!(rt; sets == [*wanted, 0], "{wanted}");
    }
    Ok(())
}

// The vertex 0 is corrected by 3, and 1 by 2 and 3.
const SHARED: Example<'static> = Example {
    drawing: SHARED_OUTPUT,
    flow: &[(0, 3), (1, 2), (1, 3)],
};

// Nothing but both outputs is odd at 1 alone; at 0 the second or the third serves.
#[test]
fn rows_are_added(rt: HostRuntime) -> Result<(), Fail> {
    let sets = found_along(&rt, rt.alloc(), &SHARED, &[id(0), id(1)])?;
    assert!(rt; sets == [3, 34] || sets == [4, 34]);
    Ok(())
}

// What is found where the rank of 0 is below that of 1. The outputs still have ranks.
fn found_by_rank(alloc: Global, graph: &OpenGraph) -> Result<FlowTable, AllocError>
    requires { HasFlowAlong graph.now.graph (0 ∷ 1 ∷ []) }
{
    find_by_rank(alloc, graph, &[7, 9, 8, 8])
}

fn are_small_last(rt: &impl Abort, table: &FlowTable) {
    assert!(rt; table.order() == [id(1), id(0)].as_slice());
    assert!(rt; sets_in(table) == [4, 3]);
}

// The set of 1 alone has to have both outputs; behind 0, which has one, it has one too.
fn find_small_last(rt: &impl Abort, alloc: Global, graph: &mut OpenGraph) -> Result<(), Fail> {
    draw_along(rt, alloc, graph, &SHARED, &[id(0), id(1)])?;
    let table = found_by_rank(alloc, graph)?;
    are_small_last(rt, &table);
    Ok(())
}

#[test]
fn small_sets_come_last(rt: HostRuntime) -> Result<(), Fail> {
    find_small_last(&rt, rt.alloc(), &mut OpenGraph::new(rt.alloc()))
}

// A flow is found in which so many vertices have a set; or there is none, and these vertices are left.
fn is_found(rt: &impl Abort, found: &Found, size: usize, wanted: &[VertexId]) {
    match found {
        Found::Flow(table) => {
            assert!(rt; wanted.is_empty());
            assert_eq!(rt; table.order().len(), size);
        }
        Found::NoFlow { left } => {
            assert!(rt; left.as_slice() == wanted);
            assert_eq!(rt; size, 0);
        }
    }
}

fn draw_and_find(
    rt: &impl Abort,
    alloc: Global,
    graph: &mut OpenGraph,
    drawing: &Drawing<'_>,
    size: usize,
    wanted: &[VertexId],
) -> Result<(), Fail> {
    draw(rt, graph, drawing)?;
    let found = find(alloc, graph)?;
    is_found(rt, &found, size, wanted);
    Ok(())
}

// What is found without an order.
fn finds(
    rt: &impl Abort,
    alloc: Global,
    drawing: &Drawing<'_>,
    size: usize,
    left: &[VertexId],
) -> Result<(), Fail> {
    draw_and_find(rt, alloc, &mut OpenGraph::new(alloc), drawing, size, left)
}

// Nothing is odd at a vertex without neighbours.
#[test]
fn a_vertex_beside_nothing_is_left(rt: HostRuntime) -> Result<(), Fail> {
    finds(&rt, rt.alloc(), &APART, 0, &[id(0)])
}

// The vertex 2 beside the output 3, and the vertices 0 and 1 beside 2. The vertex 2 goes by the output; then its
// neighbours 0 and 1 are in one set or in none.
#[test]
fn two_vertices_are_left(rt: HostRuntime) -> Result<(), Fail> {
    let drawing = Drawing {
        planes: &[Plane::XY, Plane::XY, Plane::XY, Plane::XY],
        edges: &[(2, 3), (0, 2), (1, 2)],
        inputs: &[],
        outputs: &[3],
    };
    finds(&rt, rt.alloc(), &drawing, 0, &[id(0), id(1)])
}

#[test]
fn a_flow_is_found_without_an_order(rt: HostRuntime) -> Result<(), Fail> {
    finds(&rt, rt.alloc(), &SHARED_OUTPUT, 2, &[])
}
