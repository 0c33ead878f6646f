//! Whether nothing is left of a graph but wires.

ghost use Rattle.std.specs.Prelude.{◌≡◌, true, length};
ghost use Rattle.std.specs.List.{list_all, zip};
ghost use Rattle.zx_calculus.specs.Graph.{ids, IsVertex, end_vertices};
ghost use Rattle.zx_model.specs.Bits.{member};
ghost use Rattle.zx_same.specs.Bare.{is_bare, is_bare_vertex, is_bare_wire, is_only_neighbour, is_wire_along_edge, is_wire_at_vertex};

use open_graph::{End, OpenGraph, VertexId};

// Whether a graph is bare.
pub(crate) fn is_bare(g: &OpenGraph) -> bool
    ensures { result ≡ is_bare g.now.graph }
{
    are_bare_vertices(g) && g.inputs().len() == g.outputs().len() && are_bare_wires(g)
}

// Whether each vertex has an end and phase 0.
fn are_bare_vertices(g: &OpenGraph) -> bool
    ensures { result ≡ list_all (is_bare_vertex g.now.graph) (ids g.now.graph.vertices) }
{
    for v in g.vertices() {
        if !is_bare_vertex(g, v) {
            return false;
        }
    }
    true
}

// Whether a vertex has an end and phase 0.
fn is_bare_vertex(g: &OpenGraph, v: VertexId) -> bool
    requires { IsVertex g.now.graph v }
    ensures { result ≡ is_bare_vertex g.now.graph v }
{
    !g.is_interior(v) && g.weight(v).1.get() == 0
}

// Whether the input and the output at each place are the ends of one wire.
fn are_bare_wires(g: &OpenGraph) -> bool
    requires { length g.now.graph.inputs ≡ length g.now.graph.outputs }
    ensures { result ≡ list_all (is_bare_wire g.now.graph) (zip g.now.graph.inputs
        g.now.graph.outputs) }
{
    let inputs = g.inputs();
    let outputs = g.outputs();
    for i in 0..inputs.len() {
        if !is_wire(g, inputs[i], outputs[i]) {
            return false;
        }
    }
    true
}

// Whether two ends are those of one wire.
fn is_wire(g: &OpenGraph, input: End, output: End) -> bool
    requires input { IsVertex g.now.graph input.vertex }
    requires output { IsVertex g.now.graph output.vertex }
    ensures { result ≡ is_bare_wire g.now.graph (input, output) }
{
    is_wire_at_vertex(g, input, output) || is_wire_along_edge(g, input, output)
}

// Whether two ends stand at one vertex without neighbours, and carry the same.
fn is_wire_at_vertex(g: &OpenGraph, input: End, output: End) -> bool
    requires { IsVertex g.now.graph input.vertex }
    ensures { result ≡ is_wire_at_vertex g.now.graph input output }
{
    input.vertex == output.vertex
        && g.degree(input.vertex) == 0
        && input.hadamard == output.hadamard
}

// Whether two ends stand at two vertices that have no other ends, each the only neighbour of the other,
// and one of the ends carries a Hadamard.
fn is_wire_along_edge(g: &OpenGraph, input: End, output: End) -> bool
    requires input { IsVertex g.now.graph input.vertex }
    requires output { IsVertex g.now.graph output.vertex }
    ensures { result ≡ is_wire_along_edge g.now.graph input output }
{
    is_only_neighbour(g, input.vertex, output.vertex)
        && is_only_neighbour(g, output.vertex, input.vertex)
        && g.output_at(input.vertex).is_none()
        && g.input_at(output.vertex).is_none()
        && input.hadamard != output.hadamard
}

// Whether a vertex is adjacent to another one alone.
fn is_only_neighbour(g: &OpenGraph, u: VertexId, v: VertexId) -> bool
    requires { IsVertex g.now.graph u }
    ensures { result ≡ is_only_neighbour g.now.graph u v }
{
    g.has_edge(u, v) && g.degree(u) == 1
}
