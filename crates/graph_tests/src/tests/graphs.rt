//! That calls succeed with ample memory, on graphs of three vertices.
use open_graph::{End, OpenGraph, Plane, VertexId};
use std::alloc::AllocError;
use std::process::Abort;
use zx_model::Sixteenth;

// Adds three vertices without edges: XY of an eighth turn, XY of phase 0 and YZ of a quarter turn.
fn add_three(graph: &mut OpenGraph) -> Result<(), AllocError> {
    graph.reserve(3)?;
    let weights = [
        (Plane::XY, Sixteenth::eighth_turn()),
        (Plane::XY, Sixteenth::new(0)),
        (Plane::YZ, Sixteenth::quarter_turn()),
    ];
    for (plane, phase) in &weights {
        graph.add_vertex(*plane, *phase)?;
    }
    Ok(())
}

fn toggle(rt: &impl Abort, graph: &mut OpenGraph, u: usize, v: usize) -> Result<(), AllocError> {
    let (u, v) = (VertexId::new(u), VertexId::new(v));
    assert!(rt; graph.is_live(u) && graph.is_live(v) && u != v);
    graph.toggle_edge(u, v)
}

// Toggles these edges.
fn toggle_each(
    rt: &impl Abort,
    graph: &mut OpenGraph,
    edges: &[(usize, usize)],
) -> Result<(), AllocError> {
    for (u, v) in edges {
        toggle(rt, graph, *u, *v)?;
    }
    Ok(())
}

fn has_edge(rt: &impl Abort, graph: &OpenGraph, u: usize, v: usize) -> bool {
    assert!(rt; graph.is_live(VertexId::new(u)));
    graph.has_edge(VertexId::new(u), VertexId::new(v))
}

// The neighbours of a vertex, as the digits of a number.
fn neighbours(rt: &impl Abort, graph: &OpenGraph, v: usize) -> usize {
    assert!(rt; graph.is_live(VertexId::new(v)));
    let mut digits = 0usize;
    for w in graph.neighbours(VertexId::new(v)) {
        digits = digits.wrapping_mul(10).wrapping_add(w.get());
    }
    digits
}

// Whether beside each vertex stand its neighbours.
fn has_rows(rt: &impl Abort, graph: &OpenGraph, rows: &[(usize, usize)]) -> bool {
    for (v, digits) in rows {
        if neighbours(rt, graph, *v) != *digits {
            return false;
        }
    }
    true
}

// Takes an edge away again: a controlled Z twice is none.
fn join_again(rt: &impl Abort, graph: &mut OpenGraph) -> Result<(), AllocError> {
    toggle(rt, graph, 0, 2)?;
    assert!(rt; has_rows(rt, graph, &[(0, 1)]));
    let copy = graph.copy()?;
    let is_same = has_rows(rt, &copy, &[(1, 2)]);
    drop(copy);
    assert!(rt; is_same);
    Ok(())
}

// Joins 1 to 0 and 2, and 0 to 2, and takes the last edge away again.
fn join_three(rt: &impl Abort, graph: &mut OpenGraph) -> Result<(), AllocError> {
    add_three(graph)?;
    toggle_each(rt, graph, &[(0, 1), (2, 1), (0, 2)])?;
    assert!(rt; has_rows(rt, graph, &[(0, 12), (1, 2)]));
    assert!(rt; has_edge(rt, graph, 2, 0));
    join_again(rt, graph)
}

#[test]
fn edges_join_neighbours(rt: HostRuntime) -> Result<(), AllocError> {
    join_three(&rt, &mut OpenGraph::new(rt.alloc()))
}

// Toggles the edges among the neighbours of a vertex.
fn complement(rt: &impl Abort, graph: &mut OpenGraph, v: usize) -> Result<(), AllocError> {
    assert!(rt; graph.is_live(VertexId::new(v)));
    let near = graph.neighbour_set(VertexId::new(v)).clone()?;
    graph.toggle_among(&near)
}

// Toggles the edges between the neighbours of a vertex and those of another.
fn cross(rt: &impl Abort, graph: &mut OpenGraph, u: usize, v: usize) -> Result<(), AllocError> {
    let (u, v) = (VertexId::new(u), VertexId::new(v));
    assert!(rt; graph.is_live(u) && graph.is_live(v));
    let near = graph.neighbour_set(u).clone()?;
    let far = graph.neighbour_set(v).clone()?;
    let toggled = graph.toggle_across(&near, &far);
    drop(near);
    drop(far);
    toggled
}

// Complements the neighbours of 1 twice; then 1 alone is across from 0 and 2.
fn toggle_rows(rt: &impl Abort, graph: &mut OpenGraph) -> Result<(), AllocError> {
    add_three(graph)?;
    toggle_each(rt, graph, &[(0, 1), (2, 1)])?;
    complement(rt, graph, 1)?;
    assert!(rt; has_rows(rt, graph, &[(0, 12), (1, 2)]));
    complement(rt, graph, 1)?;
    assert!(rt; !has_edge(rt, graph, 2, 0));
    cross(rt, graph, 0, 1)?;
    assert!(rt; has_rows(rt, graph, &[(0, 0), (2, 0)]));
    Ok(())
}

#[test]
fn edges_are_toggled_by_rows(rt: HostRuntime) -> Result<(), AllocError> {
    toggle_rows(&rt, &mut OpenGraph::new(rt.alloc()))
}

fn add_input(rt: &impl Abort, graph: &mut OpenGraph, end: End) -> Result<(), AllocError> {
    let v = end.vertex;
    assert!(rt; graph.is_live(v) && graph.weight(v).0 == Plane::XY && graph.input_at(v).is_none());
    graph.add_input(end)
}

fn add_output(rt: &impl Abort, graph: &mut OpenGraph, end: End) -> Result<(), AllocError> {
    let v = end.vertex;
    assert!(rt; graph.is_live(v) && graph.weight(v).0 == Plane::XY && graph.output_at(v).is_none());
    graph.add_output(end)
}

fn move_input(rt: &impl Abort, graph: &mut OpenGraph, end: End) {
    let v = end.vertex;
    assert!(rt; graph.is_live(v) && graph.weight(v).0 == Plane::XY && graph.input_at(v).is_none());
    assert!(rt; graph.inputs().len() == 1);
    graph.move_input(0, end);
}

fn move_output(rt: &impl Abort, graph: &mut OpenGraph, end: End) {
    let v = end.vertex;
    assert!(rt; graph.is_live(v) && graph.weight(v).0 == Plane::XY && graph.output_at(v).is_none());
    assert!(rt; graph.outputs().len() == 1);
    graph.move_output(0, end);
}

fn end(vertex: usize, hadamard: bool) -> End {
    End {
        vertex: VertexId::new(vertex),
        hadamard,
    }
}

// Whether the one input and the one output are these ends.
fn has_ends(graph: &OpenGraph, end: End) -> bool {
    graph.inputs() == [end].as_slice() && graph.outputs() == [end].as_slice()
}

// Moves the input and the output to 0.
fn move_ends(rt: &impl Abort, graph: &mut OpenGraph) {
    move_input(rt, graph, end(0, false));
    move_output(rt, graph, end(0, false));
    assert!(rt; has_ends(graph, end(0, false)));
}

// Adds an input and an output at 1, and moves both to 0.
fn add_and_move(rt: &impl Abort, graph: &mut OpenGraph) -> Result<(), AllocError> {
    add_three(graph)?;
    add_input(rt, graph, end(1, true))?;
    add_output(rt, graph, end(1, true))?;
    let copy = graph.copy()?;
    let is_same = has_ends(&copy, end(1, true));
    drop(copy);
    assert!(rt; is_same);
    move_ends(rt, graph);
    Ok(())
}

#[test]
fn ends_are_added_and_moved(rt: HostRuntime) -> Result<(), AllocError> {
    add_and_move(&rt, &mut OpenGraph::new(rt.alloc()))
}

fn turn(rt: &impl Abort, graph: &mut OpenGraph, v: VertexId) -> Plane {
    assert!(rt; graph.is_live(v));
    graph.add_quarter(v);
    assert!(rt; graph.is_live(v));
    graph.weight(v).0
}

fn remove(rt: &impl Abort, graph: &mut OpenGraph, v: VertexId) {
    assert!(rt; graph.is_live(v) && graph.is_interior(v));
    graph.remove_vertex(v);
}

// The ids of the vertices, as the digits of a number.
fn vertices(graph: &OpenGraph) -> usize {
    let mut digits = 0usize;
    for v in graph.vertices() {
        digits = digits.wrapping_mul(10).wrapping_add(v.get());
    }
    digits
}

// Turns the vertex 2, and removes the vertex 1.
fn turn_and_remove(rt: &impl Abort, graph: &mut OpenGraph) -> Result<(), AllocError> {
    add_three(graph)?;
    assert!(rt; matches!(turn(rt, graph, VertexId::new(2)), Plane::XZ));
    remove(rt, graph, VertexId::new(1));

    // Vertices 0 and 2 are left.
    assert!(rt; vertices(graph) == 2);
    Ok(())
}

#[test]
fn vertices_are_turned_and_removed(rt: HostRuntime) -> Result<(), AllocError> {
    turn_and_remove(&rt, &mut OpenGraph::new(rt.alloc()))
}

// The id of a new vertex.
fn add_one(graph: &mut OpenGraph) -> Result<usize, AllocError> {
    let v = graph.add_vertex(Plane::XY, Sixteenth::new(0))?;
    Ok(v.get())
}

// Whether new vertices have these ids.
fn adds(graph: &mut OpenGraph, ids: &[usize]) -> Result<bool, AllocError> {
    for id in ids {
        if add_one(graph)? != *id {
            return Ok(false);
        }
    }
    Ok(true)
}

// Removes the vertices 2 and 0, and adds three.
fn add_again(rt: &impl Abort, graph: &mut OpenGraph) -> Result<(), AllocError> {
    add_three(graph)?;
    remove(rt, graph, VertexId::new(2));
    remove(rt, graph, VertexId::new(0));
    assert!(rt; graph.vertex_from(0) == Some(VertexId::new(1)));

    // 0 and 2 come again, and then a new one.
    assert!(rt; adds(graph, &[0, 2, 3])?);
    Ok(())
}

#[test]
fn a_removed_id_comes_again_the_least_first(rt: HostRuntime) -> Result<(), AllocError> {
    add_again(&rt, &mut OpenGraph::new(rt.alloc()))
}

// Joins 1 to 3, and with more room to 2.
fn join_with_room(rt: &impl Abort, graph: &mut OpenGraph) -> Result<(), AllocError> {
    toggle(rt, graph, 1, 3)?;
    graph.reserve(100)?;
    toggle(rt, graph, 1, 2)?;
    assert!(rt; has_rows(rt, graph, &[(1, 23)]));
    Ok(())
}

// Removes 1, which has edges to 2 and 3, of which 3 is above the reach, and adds it again.
fn add_row_again(rt: &impl Abort, graph: &mut OpenGraph) -> Result<(), AllocError> {
    add_three(graph)?;
    add_one(graph)?;
    toggle_each(rt, graph, &[(1, 2), (1, 3)])?;
    remove(rt, graph, VertexId::new(1));
    assert!(rt; add_one(graph)? == 1);
    assert!(rt; has_rows(rt, graph, &[(1, 0)]));
    join_with_room(rt, graph)
}

#[test]
fn rows_are_kept_for_ids_below_the_reach(rt: HostRuntime) -> Result<(), AllocError> {
    add_row_again(&rt, &mut OpenGraph::new(rt.alloc()))
}
