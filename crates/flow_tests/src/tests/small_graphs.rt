//! All open graphs of up to four vertices, but for the names of these: what the search for a flow finds is compared with
//! trying all orders and all sets.

use super::drawing::{add, add_input, add_output, join};
use flow_find::{Found, find};
use open_graph::{OpenGraph, Plane, VertexId};
use std::alloc::{AllocError, Global};
use std::process::Abort;
use std::test::Fail;

// The vertices 0 to 3 as bits, so that a number is a set of them.
const BITS: [u8; 4] = [1, 2, 4, 8];

// Their pairs. The first is that of two vertices, and the first three are those of three.
const PAIRS: [(u8, u8); 6] = [(1, 2), (1, 4), (2, 4), (1, 8), (2, 8), (4, 8)];

// All orders of them.
const ORDERS: [[u8; 4]; 24] = [
    [1, 2, 4, 8],
    [1, 2, 8, 4],
    [1, 4, 2, 8],
    [1, 4, 8, 2],
    [1, 8, 2, 4],
    [1, 8, 4, 2],
    [2, 1, 4, 8],
    [2, 1, 8, 4],
    [2, 4, 1, 8],
    [2, 4, 8, 1],
    [2, 8, 1, 4],
    [2, 8, 4, 1],
    [4, 1, 2, 8],
    [4, 1, 8, 2],
    [4, 2, 1, 8],
    [4, 2, 8, 1],
    [4, 8, 1, 2],
    [4, 8, 2, 1],
    [8, 1, 2, 4],
    [8, 1, 4, 2],
    [8, 2, 1, 4],
    [8, 2, 4, 1],
    [8, 4, 1, 2],
    [8, 4, 2, 1],
];

// What a vertex may be: its plane, and whether it has an input or an output, which only an XY vertex may have.
const KINDS: [(Plane, bool, bool); 6] = [
    (Plane::XY, false, false),
    (Plane::XY, true, false),
    (Plane::XY, false, true),
    (Plane::XY, true, true),
    (Plane::XZ, false, false),
    (Plane::YZ, false, false),
];

// A vertex as a bit, with the set of its neighbours.
#[derive(Clone, Copy)]
struct Vertex {
    bit: u8,
    near: u8,
    plane: Plane,
    has_input: bool,
    has_output: bool,
}

// The vertices, and which of them are inputs and outputs.
#[derive(Clone, Copy)]
struct SmallGraph<'a> {
    vertices: &'a [Vertex],
    inputs: u8,
    outputs: u8,
}

// The neighbours of a vertex, where the digits of a number to base two tell which pairs are joined.
fn near(bit: u8, edges: usize) -> u8 {
    let (mut near, mut edges) = (0, edges);
    for (u, v) in &PAIRS {
        if edges % 2 == 1 && *u == bit {
            near |= *v;
        }
        if edges % 2 == 1 && *v == bit {
            near |= *u;
        }
        edges /= 2;
    }
    near
}

// A vertex, where the last digit of a number to base six tells what it is.
fn vertex_of(bit: u8, kinds: usize, edges: usize) -> Vertex {
    let (plane, has_input, has_output) = KINDS[kinds % 6];
    Vertex {
        bit,
        near: near(bit, edges),
        plane,
        has_input,
        has_output,
    }
}

// The graph of these vertices.
fn graph_of(vertices: &[Vertex]) -> SmallGraph<'_> {
    let (mut inputs, mut outputs) = (0, 0);
    for vertex in vertices {
        if vertex.has_input {
            inputs |= vertex.bit;
        }
        if vertex.has_output {
            outputs |= vertex.bit;
        }
    }
    SmallGraph {
        vertices,
        inputs,
        outputs,
    }
}

// Whether the digits of such a number rise. Each graph is one of these, but for the names of its vertices.
fn is_rising(count: usize, kinds: usize) -> bool {
    let (mut kinds, mut last) = (kinds, 0);
    for _ in 0..count {
        if kinds % 6 < last {
            return false;
        }
        last = kinds % 6;
        kinds /= 6;
    }
    true
}

// The vertices with an odd number of neighbours in a set.
fn odd(graph: &SmallGraph<'_>, set: u8) -> u8 {
    let mut odd = 0;
    for vertex in graph.vertices {
        if (vertex.near & set).count_ones() % 2 == 1 {
            odd |= vertex.bit;
        }
    }
    odd
}

// Whether a set meets the conditions of a vertex, where these vertices come up to it and all others after it.
fn corrects(graph: &SmallGraph<'_>, up_to: u8, vertex: &Vertex, set: u8) -> bool {
    let odd = odd(graph, set);
    let before = up_to & !vertex.bit;
    let is_in = set & vertex.bit != 0;
    let is_odd = odd & vertex.bit != 0;
    let plane_holds = match vertex.plane {
        Plane::XY => !is_in && is_odd,
        Plane::XZ => is_in && is_odd,
        Plane::YZ => is_in && !is_odd,
    };
    set & graph.inputs == 0 && set & before == 0 && odd & before == 0 && plane_holds
}

// Whether some set does.
fn is_correctable(graph: &SmallGraph<'_>, up_to: u8, vertex: &Vertex) -> bool {
    let mut all = 0;
    for other in graph.vertices {
        all |= other.bit;
    }
    for set in 0..16 {
        if set & !all == 0 && corrects(graph, up_to, vertex, set) {
            return true;
        }
    }
    false
}

// Whether a vertex of a set is correctable where the vertices of the set come up to it.
fn has_correctable(graph: &SmallGraph<'_>, set: u8) -> bool {
    for vertex in graph.vertices {
        if set & vertex.bit != 0 && is_correctable(graph, set, vertex) {
            return true;
        }
    }
    false
}

// The vertices that are no outputs.
fn non_outputs(graph: &SmallGraph<'_>) -> u8 {
    let mut set = 0;
    for vertex in graph.vertices {
        set |= vertex.bit & !graph.outputs;
    }
    set
}

// Whether each vertex without an output is correctable where the vertices stand in this order, the last one first.
fn has_flow_along(graph: &SmallGraph<'_>, order: &[u8; 4]) -> bool {
    let mut left = non_outputs(graph);
    for bit in order {
        for vertex in graph.vertices {
            if vertex.bit == *bit && left & *bit != 0 && !is_correctable(graph, left, vertex) {
                return false;
            }
        }
        left &= !*bit;
    }
    true
}

// Whether the graph has a flow.
fn has_flow(graph: &SmallGraph<'_>) -> bool {
    for order in &ORDERS {
        if has_flow_along(graph, order) {
            return true;
        }
    }
    false
}

// The vertices of all sets without outputs of which no vertex is correctable.
fn stuck(graph: &SmallGraph<'_>) -> u8 {
    let (all, mut stuck) = (non_outputs(graph), 0);
    for set in 0..16 {
        if set & !all == 0 && !has_correctable(graph, set) {
            stuck |= set;
        }
    }
    stuck
}

// Joins a vertex to those before it that are its neighbours.
fn join_earlier(
    rt: &impl Abort,
    graph: &mut OpenGraph,
    vertices: &[Vertex],
    v: usize,
    near: u8,
) -> Result<(), AllocError> {
    for (w, other) in vertices.iter().enumerate() {
        if w < v && near & other.bit != 0 {
            join(rt, graph, v, w)?;
        }
    }
    Ok(())
}

// Adds a vertex with its ends.
fn add_one(
    rt: &impl Abort,
    graph: &mut OpenGraph,
    v: usize,
    vertex: &Vertex,
) -> Result<(), AllocError> {
    add(rt, graph, v, vertex.plane)?;
    if vertex.has_input {
        add_input(rt, graph, v)?;
    }
    if vertex.has_output {
        add_output(rt, graph, v)?;
    }
    Ok(())
}

// Draws the same graph in memory.
fn draw(rt: &impl Abort, graph: &mut OpenGraph, vertices: &[Vertex]) -> Result<(), AllocError> {
    for (v, vertex) in vertices.iter().enumerate() {
        add_one(rt, graph, v, vertex)?;
        join_earlier(rt, graph, vertices, v, vertex.near)?;
    }
    Ok(())
}

// These vertices as a set.
fn set_of(ids: &[VertexId]) -> u8 {
    let mut set = 0;
    for v in ids {
        set |= BITS.get(v.get()).copied().unwrap_or(16);
    }
    set
}

// What is found in memory is what there is.
fn is_right(rt: &impl Abort, found: &Found, small: &SmallGraph<'_>) {
    match found {
        Found::Flow(_) => assert!(rt; has_flow(small) && stuck(small) == 0),
        Found::NoFlow { left } => {
            assert!(rt; !has_flow(small));
            assert_eq!(rt; set_of(left), stuck(small));
        }
    }
}

fn draw_and_find(
    rt: &impl Abort,
    alloc: Global,
    graph: &mut OpenGraph,
    small: &SmallGraph<'_>,
) -> Result<(), AllocError> {
    draw(rt, graph, small.vertices)?;
    let found = find(alloc, graph)?;
    is_right(rt, &found, small);
    Ok(())
}

// What is found is right for the graph of so many vertices, where digits to base six tell what they are, and digits to base two which
// pairs are joined.
fn check(
    rt: &impl Abort,
    alloc: Global,
    count: usize,
    kinds: usize,
    edges: usize,
) -> Result<(), AllocError> {
    assert!(rt; count <= 4);
    let vertices = [
        vertex_of(1, kinds, edges),
        vertex_of(2, kinds / 6, edges),
        vertex_of(4, kinds / 36, edges),
        vertex_of(8, kinds / 216, edges),
    ];
    let small = graph_of(&vertices[..count]);
    draw_and_find(rt, alloc, &mut OpenGraph::new(alloc), &small)
}

#[test]
fn a_flow_is_found_where_there_is_one(rt: HostRuntime) -> Result<(), Fail> {
    // How many vertices, how many choices of what they are, and of which pairs are joined.
    let rows = [(0, 1, 1), (1, 6, 1), (2, 36, 2), (3, 216, 8), (4, 1296, 64)];
    for (count, choices, joins) in &rows {
        for kinds in 0..*choices {
            if is_rising(*count, kinds) {
                for edges in 0..*joins {
                    check(&rt, rt.alloc(), *count, kinds, edges)?;
                }
            }
        }
    }
    Ok(())
}
