//! Graphs with their flows for tests, and their texts.

ghost use Rattle.std.specs.Prelude.{◌≡◌, IfOk, OnOk};
ghost use Rattle.zx_model.specs.Bits.{member};
ghost use Rattle.gflow_laws.specs.Flow.{IsFlow};

use flow_find::{Found, find};
use flow_rewrites::apply;
use graph_rewrites::Step;
use open_graph::{End, OpenGraph, Plane, VertexId};
use std::alloc::{AllocError, Global};
use std::mem;
use std::process::Abort;
use std::test::Fail;
use zx_flow::{Flow, FlowTable};
use zx_model::Sixteenth;

pub fn id(number: usize) -> VertexId {
    VertexId::new(number)
}

// What a test begins with, of vertices 0, 1, 2 and so on.
#[derive(Clone, Copy)]
pub enum Start {
    // A vertex of this phase between an input and an output, which carry a Hadamard or not.
    Wire(Sixteenth, bool, bool),
    // The path 1, 0, 2 with a quarter turn in its middle: both ends of a wire are split.
    PathOfThree,
    // The path 0, 1, 2, 3, each corrected by the next.
    PathOfFour,
    // Input, 0, 1, 2, output, with an eighth of a turn at 0: the circuit T, H, H.
    PathAfterAnEighth,
    // Two wires, and on both of them two gadgets of these phases.
    Twins(Sixteenth, Sixteenth),
    // A wire, a gadget on it, and one without legs.
    SmallGadgets,
}

// The flow of the graph without vertices.
pub fn no_flow(alloc: Global) -> Result<Flow, Fail> {
    let table = FlowTable::new(alloc);
    Ok(Flow::of_table(&OpenGraph::new(alloc), table)?)
}

// Draws a start into a graph without vertices, and its flow.
pub fn draw(
    rt: &impl Abort,
    alloc: Global,
    graph: &mut OpenGraph,
    flow: &mut Flow,
    start: Start,
) -> Result<(), Fail>
    ensures { OnOk result (IsFlow graph.new.graph flow.new.flow) }
{
    draw_graph(rt, graph, &start)?;
    find_flow(alloc, graph, flow)?;
    let both = [Step::SplitInput(id(0)), Step::SplitOutput(id(0))];
    let outputs = [
        Step::SplitOutput(id(0)),
        Step::SplitOutput(id(1)),
        Step::SplitOutput(id(2)),
    ];
    let steps = match &start {
        Start::PathOfThree => both.as_slice(),
        Start::PathOfFour => outputs.as_slice(),
        Start::PathAfterAnEighth => &outputs[..2],
        Start::Wire(..) | Start::Twins(..) | Start::SmallGadgets => &[],
    };
    split(graph, flow, steps)
}

// Draws what a start has before ends are split.
fn draw_graph(rt: &impl Abort, graph: &mut OpenGraph, start: &Start) -> Result<(), AllocError> {
    match start {
        Start::Wire(phase, input, output) => add_wire(rt, graph, *phase, *input, *output),
        Start::PathOfThree => add_wire(rt, graph, Sixteenth::new(4), true, true),
        Start::PathOfFour => add_wire(rt, graph, Sixteenth::new(0), false, true),
        Start::PathAfterAnEighth => add_wire(rt, graph, Sixteenth::new(2), false, false),
        Start::Twins(first, second) => {
            let edges = [(0, 2), (0, 3), (1, 2), (1, 3)];
            draw_parts(rt, graph, 2, &[*first, *second], &edges)
        }
        Start::SmallGadgets => {
            let phases = [Sixteenth::new(6), Sixteenth::new(10)];
            draw_parts(rt, graph, 1, &phases, &[(0, 1)])
        }
    }
}

// Adds wires of phase 0, gadgets of these phases, and edges.
fn draw_parts(
    rt: &impl Abort,
    graph: &mut OpenGraph,
    wires: usize,
    gadgets: &[Sixteenth],
    edges: &[(usize, usize)],
) -> Result<(), AllocError> {
    for _ in 0..wires {
        add_wire(rt, graph, Sixteenth::new(0), false, false)?;
    }
    for phase in gadgets {
        graph.add_vertex(Plane::YZ, *phase)?;
    }
    for (u, v) in edges {
        join(rt, graph, id(*u), id(*v))?;
    }
    Ok(())
}

// Adds a vertex between an input and an output, which carry a Hadamard or not.
fn add_wire(
    rt: &impl Abort,
    graph: &mut OpenGraph,
    phase: Sixteenth,
    input: bool,
    output: bool,
) -> Result<(), AllocError> {
    let vertex = graph.add_vertex(Plane::XY, phase)?;
    add_input(rt, graph, vertex, input)?;
    assert!(rt; graph.is_live(vertex));
    assert!(rt; matches!(graph.weight(vertex).0, Plane::XY) && graph.output_at(vertex).is_none());
    graph.add_output(End {
        vertex,
        hadamard: output,
    })
}

pub fn add_input(
    rt: &impl Abort,
    graph: &mut OpenGraph,
    vertex: VertexId,
    hadamard: bool,
) -> Result<(), AllocError> {
    assert!(rt; graph.is_live(vertex));
    assert!(rt; matches!(graph.weight(vertex).0, Plane::XY) && graph.input_at(vertex).is_none());
    graph.add_input(End { vertex, hadamard })
}

// Joins two vertices.
pub fn join(
    rt: &impl Abort,
    graph: &mut OpenGraph,
    u: VertexId,
    v: VertexId,
) -> Result<(), AllocError> {
    assert!(rt; graph.is_live(u) && graph.is_live(v) && u != v);
    graph.toggle_edge(u, v)
}

// Puts the flow that is found in the place of another one.
fn find_flow(alloc: Global, graph: &OpenGraph, flow: &mut Flow) -> Result<(), Fail>
    ensures { OnOk result (IsFlow graph.now.graph flow.new.flow) }
{
    let mut found = flow_of(alloc, graph)?;
    mem::swap(flow, &mut found);
    Ok(())
}

// The flow that is found of a graph, which has one.
fn flow_of(alloc: Global, graph: &OpenGraph) -> Result<Flow, Fail>
    ensures { IfOk result (λ flow. IsFlow graph.now.graph flow.flow) }
{
    match find(alloc, graph)? {
        Found::Flow(table) => Ok(Flow::of_table(graph, table)?),
        Found::NoFlow { .. } => Err(Fail::new("no flow")),
    }
}

// Splits ends.
fn split(graph: &mut OpenGraph, flow: &mut Flow, steps: &[Step]) -> Result<(), Fail>
    requires { IsFlow graph.old.graph flow.old.flow }
    ensures { OnOk result (IsFlow graph.new.graph flow.new.flow) }
{
    for step in steps {
        apply(graph, flow, *step)?;
    }
    Ok(())
}

fn stands_in(order: &[VertexId], v: VertexId) -> bool
    ensures { result ≡ member v order.now }
{
    order.contains(&v)
}

// The letter of a vertex, where the names of 0, 1, 2 and so on are these.
fn name(names: &[u8], v: VertexId) -> u8 {
    names.get(v.get()).copied().unwrap_or(b'?')
}

// A phase as one hexadecimal digit.
fn digit(phase: Sixteenth) -> u8 {
    let digits = b"0123456789ABCDEF";
    digits[usize::from(phase.get())]
}

// Adds the phases of the vertices, each after a letter for XZ and YZ.
fn add_weights(text: &mut Vec<u8>, graph: &OpenGraph) -> Result<(), AllocError> {
    for v in graph.vertices() {
        if graph.is_live(v) {
            let (plane, phase) = graph.weight(v);
            match plane {
                Plane::XY => {}
                Plane::XZ => text.push(b'X')?,
                Plane::YZ => text.push(b'Y')?,
            }
            text.push(digit(phase))?;
        }
    }
    Ok(())
}

// Adds the edges, each with the end of lower id first.
fn add_edges(text: &mut Vec<u8>, names: &[u8], graph: &OpenGraph) -> Result<(), AllocError> {
    for v in graph.vertices() {
        if graph.is_live(v) {
            for w in graph.neighbours(v) {
                if v.get() < w.get() {
                    text.push(b' ')?;
                    text.push(name(names, v))?;
                    text.push(name(names, w))?;
                }
            }
        }
    }
    Ok(())
}

// Adds the ends after a sign, one that carries a Hadamard with a dash.
fn add_ends(text: &mut Vec<u8>, names: &[u8], sign: u8, ends: &[End]) -> Result<(), AllocError> {
    text.push(sign)?;
    for end in ends {
        text.push(name(names, end.vertex))?;
        if end.hadamard {
            text.push(b'-')?;
        }
    }
    Ok(())
}

// Adds the corrections by their order: each vertex, and the members of its set.
fn add_corrections(text: &mut Vec<u8>, names: &[u8], flow: &Flow) -> Result<(), AllocError> {
    text.push(b'<')?;
    for v in flow.order() {
        if stands_in(flow.order(), *v) {
            text.push(b' ')?;
            text.push(name(names, *v))?;
            for w in flow.correction(*v) {
                text.push(name(names, w))?;
            }
        }
    }
    Ok(())
}

// How many phases are odd.
pub fn odd_phases(graph: &OpenGraph) -> usize {
    let mut odd = 0usize;
    for v in graph.vertices() {
        if graph.is_live(v) && graph.weight(v).1.is_odd() {
            odd = odd.saturating_add(1);
        }
    }
    odd
}

// Adds weights by rising id, edges, inputs, outputs and the corrections of the flow.
fn add_all(
    text: &mut Vec<u8>,
    names: &[u8],
    graph: &OpenGraph,
    flow: &Flow,
) -> Result<(), AllocError> {
    add_weights(text, graph)?;
    add_edges(text, names, graph)?;
    add_ends(text, names, b':', graph.inputs())?;
    add_ends(text, names, b'>', graph.outputs())?;
    add_corrections(text, names, flow)
}

// A text is this one.
pub fn is_text(rt: &impl Abort, text: &[u8], wanted: &str) {
    assert_eq!(rt; text, wanted.as_bytes());
}

// Graph and flow are drawn so.
pub fn is_drawn(
    rt: &impl Abort,
    alloc: Global,
    names: &[u8],
    graph: &OpenGraph,
    flow: &Flow,
    wanted: &str,
) -> Result<(), Fail> {
    let mut text = Vec::new(alloc);
    add_all(&mut text, names, graph, flow)?;
    is_text(rt, &text, wanted);
    Ok(())
}
