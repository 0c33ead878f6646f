use super::drawings::{Drawing, drawn};
use graph_like::graph_like;
use open_graph::{End, OpenGraph, Plane, VertexId};
use std::alloc::{AllocError, Global};
use std::process::Abort;
use zx_diagram::Colour;
use zx_model::Sixteenth;

// Whether the vertices are 0, 1, 2 and so on, all of them XY, of these phases.
fn has_vertices(graph: &OpenGraph, phases: &[u8]) -> bool {
    for i in 0..phases.len() {
        let v = VertexId::new(i);
        if !graph.is_live(v) {
            return false;
        }
        let (plane, phase) = graph.weight(v);
        if plane != Plane::XY || phase.get() != phases[i] {
            return false;
        }
    }
    !graph.is_live(VertexId::new(phases.len()))
}

fn joins(graph: &OpenGraph, u: usize, v: usize) -> bool {
    let u = VertexId::new(u);
    graph.is_live(u) && graph.has_edge(u, VertexId::new(v))
}

fn end(vertex: usize, hadamard: bool) -> End {
    End {
        vertex: VertexId::new(vertex),
        hadamard,
    }
}

fn has_ends(graph: &OpenGraph, inputs: &[End], outputs: &[End]) -> bool {
    graph.inputs() == inputs && graph.outputs() == outputs
}

// The graph-like form of a drawing.
fn form_of(rt: &impl Abort, alloc: Global, drawing: Drawing<'_>) -> Result<OpenGraph, AllocError> {
    graph_like(alloc, drawn(rt, alloc, drawing)?)
}

// That of a Z spider with an input, and an X spider with an output, with these edges between them.
fn two_colours(
    rt: &impl Abort,
    alloc: Global,
    edges: &[(usize, usize, bool)],
) -> Result<OpenGraph, AllocError> {
    let drawing = Drawing {
        spiders: &[
            (Colour::Z, Sixteenth::eighth_turn()),
            (Colour::X, Sixteenth::new(0)),
        ],
        edges,
        inputs: &[(0, false)],
        outputs: &[(1, false)],
    };
    form_of(rt, alloc, drawing)
}

// Whether a graph is such a form, whose vertices an edge joins or doesn't.
fn is_two_colours(graph: &OpenGraph, is_joined: bool) -> bool {
    has_vertices(graph, &[2, 0])
        && joins(graph, 0, 1) == is_joined
        && has_ends(graph, &[end(0, false)], &[end(1, true)])
}

#[test]
fn colours_change(rt: HostRuntime) -> Result<(), AllocError> {
    let graph = two_colours(&rt, rt.alloc(), &[(0, 1, false)])?;
    let is_form = is_two_colours(&graph, true);
    drop(graph);
    assert!(rt; is_form);
    Ok(())
}

#[test]
fn two_parallel_hadamard_edges_go(rt: HostRuntime) -> Result<(), AllocError> {
    let graph = two_colours(&rt, rt.alloc(), &[(0, 1, false), (0, 1, false)])?;
    let is_form = is_two_colours(&graph, false);
    drop(graph);
    assert!(rt; is_form);
    Ok(())
}

// The form of two Z spiders that a plain and a Hadamard edge join.
fn with_loop(rt: &impl Abort, alloc: Global) -> Result<OpenGraph, AllocError> {
    let drawing = Drawing {
        spiders: &[
            (Colour::Z, Sixteenth::new(2)),
            (Colour::Z, Sixteenth::new(4)),
        ],
        edges: &[(0, 1, false), (0, 1, true)],
        inputs: &[(0, false)],
        outputs: &[(1, false)],
    };
    form_of(rt, alloc, drawing)
}

// It is one vertex, whose phase has half a turn for the loop.
#[test]
fn a_hadamard_loop_is_half_a_turn(rt: HostRuntime) -> Result<(), AllocError> {
    let graph = with_loop(&rt, rt.alloc())?;
    let is_vertex = has_vertices(&graph, &[14])
        && has_ends(&graph, &[end(0, false)], &[end(0, false)]);
    drop(graph);
    assert!(rt; is_vertex);
    Ok(())
}

// The form of two spiders with three inputs and two outputs at one class.
fn with_surplus_ends(rt: &impl Abort, alloc: Global) -> Result<OpenGraph, AllocError> {
    let drawing = Drawing {
        spiders: &[
            (Colour::Z, Sixteenth::new(5)),
            (Colour::Z, Sixteenth::new(0)),
        ],
        edges: &[(1, 0, false)],
        inputs: &[(0, false), (1, true), (0, false)],
        outputs: &[(1, true), (0, false)],
    };
    form_of(rt, alloc, drawing)
}

// Of the inputs and the outputs all but the first move to new vertices, inputs first.
fn splits_ends(graph: &OpenGraph) -> bool {
    let inputs = [end(0, false), end(1, false), end(2, true)];
    let outputs = [end(0, true), end(3, true)];
    has_vertices(graph, &[5, 0, 0, 0])
        && has_ends(graph, &inputs, &outputs)
        && joins(graph, 0, 1)
        && joins(graph, 0, 2)
        && joins(graph, 0, 3)
        && !joins(graph, 1, 2)
}

#[test]
fn surplus_ends_are_split_off(rt: HostRuntime) -> Result<(), AllocError> {
    let graph = with_surplus_ends(&rt, rt.alloc())?;
    let is_split = splits_ends(&graph);
    drop(graph);
    assert!(rt; is_split);
    Ok(())
}
