//! That calls succeed with ample memory, along a path of three.

use super::drawing::{Drawing, draw, id, stands_in};
use open_graph::{OpenGraph, Plane, VertexId, VertexSet};
use std::alloc::{AllocError, Global};
use std::process::Abort;
use std::test::Fail;
use zx_flow::{Flow, FlowTable};

// The ids, as the digits of a number.
fn digits(ids: &[VertexId]) -> usize {
    let mut digits = 0usize;
    for id in ids {
        digits = digits.wrapping_mul(10).wrapping_add(id.get());
    }
    digits
}

// A number is the one that is wanted.
fn equals(rt: &impl Abort, number: usize, wanted: usize) {
    assert_eq!(rt; number, wanted);
}

fn add(rt: &impl Abort, table: &mut FlowTable, v: usize, w: usize) -> Result<(), AllocError> {
    assert!(rt; !stands_in(table.order(), id(v)));
    table.add(id(v), &[id(w)])
}

fn set_in(
    rt: &impl Abort,
    alloc: Global,
    table: &FlowTable,
    v: usize,
) -> Result<usize, AllocError> {
    assert!(rt; stands_in(table.order(), id(v)));
    let ids: Vec<VertexId> = table.correction(id(v)).collect(alloc)?;
    Ok(digits(&ids))
}

// Adds 1, corrected by 2, and 0, corrected by 1.
fn add_two(rt: &impl Abort, alloc: Global, table: &mut FlowTable) -> Result<(), Fail> {
    add(rt, table, 1, 2)?;
    add(rt, table, 0, 1)?;
    equals(rt, digits(table.order()), 10);
    equals(rt, set_in(rt, alloc, table, 1)?, 2);
    Ok(())
}

#[test]
fn a_table_holds_what_was_added(rt: HostRuntime) -> Result<(), Fail> {
    add_two(&rt, rt.alloc(), &mut FlowTable::new(rt.alloc()))
}

// The flow of the graph without vertices.
fn empty_flow(alloc: Global) -> Result<Flow, AllocError> {
    let table = FlowTable::new(alloc);
    Flow::of_table(&OpenGraph::new(alloc), table)
}

// Along a path of three, 0 is corrected by 1, and 1 by 2.
fn add_path(rt: &impl Abort, flow: &mut Flow) -> Result<(), AllocError> {
    flow.reserve(3)?;
    assert!(rt; !stands_in(flow.order(), id(1)));
    flow.add_last(id(1), id(2))?;
    assert!(rt; !stands_in(flow.order(), id(0)));
    flow.add_first(id(0), id(1))
}

// Draws a path of three.
fn draw_path(rt: &impl Abort, graph: &mut OpenGraph) -> Result<(), AllocError> {
    let drawing = Drawing {
        planes: &[Plane::XY, Plane::XY, Plane::XY],
        edges: &[(0, 1), (1, 2)],
        inputs: &[],
        outputs: &[],
    };
    draw(rt, graph, &drawing)
}

fn odd_has(rt: &impl Abort, flow: &Flow, graph: &OpenGraph, v: usize, w: usize) -> bool {
    assert!(rt; stands_in(flow.order(), id(v)));
    flow.odd_has(graph, id(v), id(w))
}

// Along the path 0 and 2 have an odd number of neighbours in the set of 0, and 1 has in that of 1; 3 is no vertex.
fn has_parities(rt: &impl Abort, flow: &Flow, graph: &OpenGraph) {
    let rows = [
        (0, 0, true),
        (0, 1, false),
        (0, 2, true),
        (1, 0, false),
        (1, 3, false),
    ];
    for (v, w, is_odd) in &rows {
        let is_so = odd_has(rt, flow, graph, *v, *w) == *is_odd;
        assert!(rt; is_so, "{w} at the set of {v}");
    }
}

// Draws the path with its flow, and tells parities.
fn tell_parities(rt: &impl Abort, flow: &mut Flow, graph: &mut OpenGraph) -> Result<(), Fail> {
    add_path(rt, flow)?;
    draw_path(rt, graph)?;
    equals(rt, digits(flow.order()), 1);
    has_parities(rt, flow, graph);
    Ok(())
}

#[test]
fn a_flow_tells_its_parities(rt: HostRuntime) -> Result<(), Fail> {
    let mut flow = empty_flow(rt.alloc())?;
    tell_parities(&rt, &mut flow, &mut OpenGraph::new(rt.alloc()))
}

fn toggle(
    rt: &impl Abort,
    alloc: Global,
    flow: &mut Flow,
    v: usize,
    w: usize,
) -> Result<(), AllocError> {
    assert!(rt; stands_in(flow.order(), id(v)));
    let members = VertexSet::one(alloc, id(w))?;
    flow.toggle(id(v), &members)
}

fn toggle_set(rt: &impl Abort, flow: &mut Flow, v: usize, u: usize) -> Result<(), AllocError> {
    assert!(rt; stands_in(flow.order(), id(v)));
    assert!(rt; stands_in(flow.order(), id(u)));
    assert!(rt; v != u);
    flow.toggle_set(id(v), id(u))
}

fn correction(rt: &impl Abort, alloc: Global, flow: &Flow, v: usize) -> Result<usize, AllocError> {
    assert!(rt; stands_in(flow.order(), id(v)));
    let ids: Vec<VertexId> = flow.correction(id(v)).collect(alloc)?;
    Ok(digits(&ids))
}

// The middle is last, and in its own set.
fn is_complemented(rt: &impl Abort, alloc: Global, flow: &Flow) -> Result<(), AllocError> {
    equals(rt, correction(rt, alloc, flow, 1)?, 12);
    assert!(rt; flow.last() == Some(id(1)));
    Ok(())
}

// After a local complement about the middle it is in its own set.
fn complement_middle(rt: &impl Abort, alloc: Global, flow: &mut Flow) -> Result<(), AllocError> {
    toggle(rt, alloc, flow, 1, 1)?;
    let copy = flow.copy()?;
    is_complemented(rt, alloc, &copy)
}

fn remove(rt: &impl Abort, flow: &mut Flow, v: usize) {
    assert!(rt; stands_in(flow.order(), id(v)));
    flow.remove(id(v));
}

// After the middle was deleted, its set is toggled in that of the first.
fn delete_middle(rt: &impl Abort, alloc: Global, flow: &mut Flow) -> Result<(), AllocError> {
    toggle_set(rt, flow, 0, 1)?;
    remove(rt, flow, 1);
    equals(rt, digits(flow.order()), 0);
    equals(rt, flow.order().len(), 1);
    equals(rt, correction(rt, alloc, flow, 0)?, 2);
    Ok(())
}

// Changes the flow of a path of three.
fn change(rt: &impl Abort, alloc: Global, flow: &mut Flow) -> Result<(), Fail> {
    add_path(rt, flow)?;
    complement_middle(rt, alloc, flow)?;
    delete_middle(rt, alloc, flow)?;
    Ok(())
}

#[test]
fn a_flow_is_changed(rt: HostRuntime) -> Result<(), Fail> {
    let mut flow = empty_flow(rt.alloc())?;
    change(&rt, rt.alloc(), &mut flow)
}
