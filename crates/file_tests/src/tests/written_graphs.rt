//! Graphs that are written, with ample memory.

use open_graph::{End, OpenGraph, Plane, VertexId};
use std::alloc::{AllocError, Global};
use std::process::Abort;
use zx_flow::{Flow, FlowTable};
use zx_model::Sixteenth;
use zx_text::write_graph;

// Joins two vertices that there are.
fn join(rt: &impl Abort, g: &mut OpenGraph, u: VertexId, v: VertexId) -> Result<(), AllocError> {
    assert!(rt; g.is_live(u) && g.is_live(v) && u != v);
    g.toggle_edge(u, v)
}

// Gives a vertex an input, and another one an output.
fn give_ends(
    rt: &impl Abort,
    g: &mut OpenGraph,
    u: VertexId,
    v: VertexId,
) -> Result<(), AllocError> {
    assert!(rt; g.is_live(u) && g.weight(u).0 == Plane::XY && g.input_at(u).is_none());
    g.add_input(End::plain(u))?;
    assert!(rt; g.is_live(v) && g.weight(v).0 == Plane::XY && g.output_at(v).is_none());
    g.add_output(End {
        vertex: v,
        hadamard: true,
    })
}

// Whether the file of a graph without a flow is this text.
pub fn is_written(alloc: Global, g: &OpenGraph, text: &[u8]) -> Result<bool, AllocError> {
    let written = write_graph(alloc, g, None)?;
    Ok(written.as_slice() == text)
}

#[test]
fn the_graph_without_vertices_has_two_lines(rt: HostRuntime) -> Result<(), AllocError> {
    let g = OpenGraph::new(rt.alloc());
    let is_file = is_written(rt.alloc(), &g, b"zxg 2\nend\n");
    drop(g);
    assert!(rt; is_file?);
    Ok(())
}

// The file of the graph without vertices, with its flow.
fn empty_with_flow(alloc: Global) -> Result<Vec<u8>, AllocError> {
    let g = OpenGraph::new(alloc);
    let text = match Flow::of_table(&g, FlowTable::new(alloc)) {
        Ok(flow) => {
            let text = write_graph(alloc, &g, Some(&flow));
            drop(flow);
            text
        }
        Err(fault) => Err(fault),
    };
    drop(g);
    text
}

#[test]
fn the_flow_without_vertices_has_two_lines_more(rt: HostRuntime) -> Result<(), AllocError> {
    let written = empty_with_flow(rt.alloc())?;
    assert!(rt; written.as_slice() == b"zxg 2\nflow\norder\nend\n".as_slice());
    Ok(())
}

// The vertex in the middle of the path.
const MIDDLE: usize = 1;

// Three vertices in a path with a gadget, numbered in this order.
fn draw_path(rt: &impl Abort, g: &mut OpenGraph) -> Result<(), AllocError> {
    let weights = [
        (Plane::XY, Sixteenth::new(0)),
        (Plane::XZ, Sixteenth::new(15)),
        (Plane::XY, Sixteenth::new(4)),
        (Plane::YZ, Sixteenth::new(2)),
    ];
    for (plane, phase) in &weights {
        g.add_vertex(*plane, *phase)?;
    }
    for (u, v) in &[(0, MIDDLE), (2, MIDDLE), (3, 2), (3, 0)] {
        join(rt, g, VertexId::new(*u), VertexId::new(*v))?;
    }
    give_ends(rt, g, VertexId::new(0), VertexId::new(2))
}

fn remove(rt: &impl Abort, g: &mut OpenGraph, v: VertexId) {
    assert!(rt; g.is_live(v) && g.is_interior(v));
    g.remove_vertex(v);
}

// The path before and after the vertex in the middle goes.
fn write_path(rt: &impl Abort, alloc: Global, g: &mut OpenGraph) -> Result<(), AllocError> {
    draw_path(rt, g)?;
    let text =
        b"zxg 2\nvertex 0 XY 0\nvertex 1 XZ 15\nvertex 2 XY 4\nvertex 3 YZ 2\nedge 0 1\nedge 0 3\nedge 1 2\nedge 2 3\ninput 0 plain\noutput 2 had\nend\n";
    assert!(rt; is_written(alloc, g, text)?);
    remove(rt, g, VertexId::new(MIDDLE));
    let text =
        b"zxg 2\nvertex 0 XY 0\nvertex 1 XY 4\nvertex 2 YZ 2\nedge 0 2\nedge 1 2\ninput 0 plain\noutput 1 had\nend\n";
    assert!(rt; is_written(alloc, g, text)?);
    Ok(())
}

#[test]
fn vertices_are_numbered_by_rising_id(rt: HostRuntime) -> Result<(), AllocError> {
    let mut g = OpenGraph::new(rt.alloc());
    let done = write_path(&rt, rt.alloc(), &mut g);
    drop(g);
    done
}
