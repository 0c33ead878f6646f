//! Graphs that tests draw: vertices of phase 0, edges and plain ends.

ghost use Rattle.std.specs.Prelude.{◌≡◌};
ghost use Rattle.zx_model.specs.Bits.{member};

use open_graph::{End, OpenGraph, Plane, VertexId};
use std::alloc::AllocError;
use std::process::Abort;
use zx_model::Sixteenth;

pub fn id(number: usize) -> VertexId
    ensures { result ≡ number }
{
    VertexId::new(number)
}

pub fn stands_in(order: &[VertexId], v: VertexId) -> bool
    ensures { result ≡ member v order.now }
{
    order.contains(&v)
}

// Adds a vertex, which gets this id.
pub fn add(
    rt: &impl Abort,
    graph: &mut OpenGraph,
    number: usize,
    plane: Plane,
) -> Result<(), AllocError> {
    let v = graph.add_vertex(plane, Sixteenth::new(0))?;
    assert!(rt; v.get() == number);
    Ok(())
}

// Joins two vertices.
pub fn join(rt: &impl Abort, graph: &mut OpenGraph, u: usize, v: usize) -> Result<(), AllocError> {
    let (u, v) = (id(u), id(v));
    assert!(rt; graph.is_live(u) && graph.is_live(v) && u != v);
    graph.toggle_edge(u, v)
}

pub fn add_input(rt: &impl Abort, graph: &mut OpenGraph, number: usize) -> Result<(), AllocError> {
    let v = id(number);
    assert!(rt; graph.is_live(v));
    assert!(rt; matches!(graph.weight(v).0, Plane::XY) && graph.input_at(v).is_none());
    graph.add_input(End::plain(v))
}

pub fn add_output(rt: &impl Abort, graph: &mut OpenGraph, number: usize) -> Result<(), AllocError> {
    let v = id(number);
    assert!(rt; graph.is_live(v));
    assert!(rt; matches!(graph.weight(v).0, Plane::XY) && graph.output_at(v).is_none());
    graph.add_output(End::plain(v))
}

// A graph: the planes of its vertices, its edges, and where its inputs and outputs are.
#[derive(Clone, Copy)]
pub struct Drawing<'a> {
    pub planes: &'a [Plane],
    pub edges: &'a [(usize, usize)],
    pub inputs: &'a [usize],
    pub outputs: &'a [usize],
}

// An input without neighbours, and an output.
pub const APART: Drawing<'static> = Drawing {
    planes: &[Plane::XY, Plane::XY],
    edges: &[],
    inputs: &[0],
    outputs: &[1],
};

// A vertex beside an output.
pub const BESIDE_AN_OUTPUT: Drawing<'static> = Drawing {
    planes: &[Plane::XY, Plane::XY],
    edges: &[(0, 1)],
    inputs: &[],
    outputs: &[1],
};

// Two inputs: output 2 is adjacent to both, output 3 to the first alone.
pub const SHARED_OUTPUT: Drawing<'static> = Drawing {
    planes: &[Plane::XY, Plane::XY, Plane::XY, Plane::XY],
    edges: &[(0, 2), (0, 3), (1, 2)],
    inputs: &[0, 1],
    outputs: &[2, 3],
};

// Draws a graph where there is none yet.
pub fn draw(
    rt: &impl Abort,
    graph: &mut OpenGraph,
    drawing: &Drawing<'_>,
) -> Result<(), AllocError> {
    for (number, plane) in drawing.planes.iter().enumerate() {
        add(rt, graph, number, *plane)?;
    }
    for (u, v) in drawing.edges {
        join(rt, graph, *u, *v)?;
    }
    for v in drawing.inputs {
        add_input(rt, graph, *v)?;
    }
    for v in drawing.outputs {
        add_output(rt, graph, *v)?;
    }
    Ok(())
}
