//! Graph files that are written.

ghost use Rattle.std.specs.Prelude.{◌≡◌, ◌≤◌, ◌++◌, true, codes, decimal, length, IfOk, IfSome, OnOk, ltb};
ghost use Rattle.std.specs.List.{flat_map, list_all};
ghost use Rattle.std.specs.Option.{ForSome, option_map};
ghost use Rattle.zx_calculus.specs.Graph.{in_order, IsVertex, WellFormed};
ghost use Rattle.zx_calculus.specs.Graph as zx;
ghost use Rattle.open_graph.specs.Planes.{plane_named};
ghost use Rattle.gflow_laws.specs.Flow.{IsTableOf};
ghost use Rattle.gflow_laws.specs.Seen.{seen};
ghost use Rattle.zx_text.specs.Files.{Two, spelled};
ghost use Rattle.zx_text.specs.Lines.{plane_name, mark};
ghost use Rattle.zx_text.specs.Numbered.{numbered, numbered_flow, number_in};
ghost use Rattle.zx_text.specs.Internal.Writing.{part, end_text, edge_text, vertex_text};
ghost use Rattle.zx_text.specs.Reading.{most_ends, Spells};
ghost use Rattle.zx_text.specs.Internal.Writing.{correction_text, set_text, flow_text, lent_text, rises};

use itoa::Buffer;
use open_graph::{End, Ids, OpenGraph, Plane, VertexId};
use std::alloc::{AllocError, Global};
use zx_flow::Flow;
use zx_model::Sixteenth;

/// The file of the graph, and of its flow where one is lent, with the vertices numbered from 0 by
/// rising id. The flow's order holds each vertex without an output once, and no other.
///
/// # Errors
///
/// Only where memory runs out.
pub fn write_graph(alloc: Global, g: &OpenGraph, f: Option<&Flow>) -> Result<Vec<u8>, AllocError>
    requires flow { ForSome f (λ flow. IsTableOf (seen g.now.graph) flow.now.flow) }
    ensures text { IfOk result (λ text. text.items ≡ spelled Two (numbered g.now.graph)
        (numbered_flow g.now.graph (option_map (λ flow. flow.now.flow) f.entry))) }
    ensures file { IfOk result (λ text. length g.now.graph.inputs ≤ most_ends →
        length g.now.graph.outputs ≤ most_ends → Spells text.items (numbered g.now.graph)
        (numbered_flow g.now.graph (option_map (λ flow. flow.now.flow) f.entry))) }
    ensures valid { WellFormed g.now.graph }
{
    let used = ids_of(alloc, g)?;
    let mut text = Vec::new(alloc);
    text.extend_from_slice(b"zxg 2\n")?;
    push_vertices(&mut text, g, &used)?;
    push_edges(&mut text, g, &used)?;
    push_ends(&mut text, b"input", g.inputs(), &used)?;
    push_ends(&mut text, b"output", g.outputs(), &used)?;
    push_lent(&mut text, g, f, &used)?;
    text.extend_from_slice(b"end\n")?;
    Ok(text)
}

// The ids of the vertices, rising.
fn ids_of(alloc: Global, g: &OpenGraph) -> Result<Vec<usize>, AllocError>
    ensures all { IfOk result (λ used. used.items ≡ zx.ids g.now.graph.vertices) }
    ensures rising { in_order ltb (zx.ids g.now.graph.vertices) ≡ true }
    ensures valid { WellFormed g.now.graph }
{
    let mut used = Vec::new(alloc);
    for v in g.vertices() {
        used.push(v.get())?;
    }
    Ok(used)
}

// The number of a vertex: how many ids are lower.
fn number_of(used: &[usize], v: VertexId) -> usize
    requires { in_order ltb used.now ≡ true }
    ensures { result ≡ number_in used.now v }
{
    let id = v.get();
    used.partition_point(|other| *other < id)
}

// Adds the lines of the vertices.
fn push_vertices(text: &mut Vec<u8>, g: &OpenGraph, used: &[usize]) -> Result<(), AllocError>
    requires { in_order ltb used.now ≡ true }
    ensures { OnOk result (text.new.items ≡ text.old.items
        ++ flat_map (vertex_text g.now.graph used.now) (zx.ids g.now.graph.vertices)) }
{
    for v in g.vertices() {
        let (plane, phase) = g.weight(v);
        push_vertex(text, number_of(used, v), plane, phase)?;
    }
    Ok(())
}

// Adds the line of a vertex of this number.
fn push_vertex(
    text: &mut Vec<u8>,
    number: usize,
    plane: Plane,
    phase: Sixteenth,
) -> Result<(), AllocError>
    ensures { OnOk result (text.new.items ≡ text.old.items ++ codes "vertex" ++ part number
        ++ codes " " ++ plane_name (plane_named plane) ++ part phase ++ codes "\n") }
{
    text.extend_from_slice(b"vertex")?;
    push_part(text, number)?;
    text.extend_from_slice(b" ")?;
    text.extend_from_slice(name_of(plane))?;
    push_part(text, usize::from(phase.get()))?;
    text.extend_from_slice(b"\n")
}

// The name of a plane.
fn name_of(plane: Plane) -> &'static [u8]
    ensures { result.now ≡ plane_name (plane_named plane) }
{
    match plane {
        Plane::XY => b"XY",
        Plane::XZ => b"XZ",
        Plane::YZ => b"YZ",
    }
}

// Adds the lines of the edges.
fn push_edges(text: &mut Vec<u8>, g: &OpenGraph, used: &[usize]) -> Result<(), AllocError>
    requires { in_order ltb used.now ≡ true }
    ensures { OnOk result (text.new.items ≡ text.old.items
        ++ flat_map (λ v. flat_map (edge_text used.now v) (zx.neighbours g.now.graph v))
        (zx.ids g.now.graph.vertices)) }
{
    for v in g.vertices() {
        push_edges_from(text, v, g.neighbours(v), used)?;
    }
    Ok(())
}

// Adds the lines of the edges from a vertex to those of its neighbours that have a higher id.
fn push_edges_from(
    text: &mut Vec<u8>,
    v: VertexId,
    neighbours: Ids<'_>,
    used: &[usize],
) -> Result<(), AllocError>
    requires { in_order ltb used.now ≡ true }
    ensures { OnOk result
        (text.new.items ≡ text.old.items ++ flat_map (edge_text used.now v) neighbours.entry) }
{
    for w in neighbours {
        push_edge(text, v, w, used)?;
    }
    Ok(())
}

// Adds the line of the edge to a vertex, if that has a higher id.
fn push_edge(text: &mut Vec<u8>, v: VertexId, w: VertexId, used: &[usize]) -> Result<(), AllocError>
    requires { in_order ltb used.now ≡ true }
    ensures { OnOk result (text.new.items ≡ text.old.items ++ edge_text used.now v w) }
{
    if v.get() >= w.get() {
        return Ok(());
    }
    text.extend_from_slice(b"edge")?;
    push_part(text, number_of(used, v))?;
    push_part(text, number_of(used, w))?;
    text.extend_from_slice(b"\n")
}

// Adds the lines of ends of this kind.
fn push_ends(
    text: &mut Vec<u8>,
    kind: &[u8],
    ends: &[End],
    used: &[usize],
) -> Result<(), AllocError>
    requires { in_order ltb used.now ≡ true }
    ensures { OnOk result
        (text.new.items ≡ text.old.items ++ flat_map (end_text kind.now used.now) ends.now) }
{
    for end in ends {
        push_end(text, kind, *end, used)?;
    }
    Ok(())
}

// Adds the line of an end.
fn push_end(text: &mut Vec<u8>, kind: &[u8], end: End, used: &[usize]) -> Result<(), AllocError>
    requires { in_order ltb used.now ≡ true }
    ensures { OnOk result (text.new.items ≡ text.old.items ++ end_text kind.now used.now end) }
{
    text.extend_from_slice(kind)?;
    push_part(text, number_of(used, end.vertex))?;
    text.extend_from_slice(b" ")?;
    text.extend_from_slice(mark_of(end.hadamard))?;
    text.extend_from_slice(b"\n")
}

// The mark of an end.
fn mark_of(hadamard: bool) -> &'static [u8]
    ensures { result.now ≡ mark hadamard }
{
    match hadamard {
        true => b"had",
        false => b"plain",
    }
}

// Adds the lines of a flow where one is lent.
fn push_lent(
    text: &mut Vec<u8>,
    g: &OpenGraph,
    f: Option<&Flow>,
    used: &[usize],
) -> Result<(), AllocError>
    requires rising { in_order ltb used.now ≡ true }
    requires flow { ForSome f (λ flow. IsTableOf (seen g.now.graph) flow.now.flow) }
    ensures text { OnOk result (text.new.items ≡ text.old.items
        ++ lent_text g.now.graph used.now (option_map (λ flow. flow.now.flow) f.entry)) }
    ensures rising { OnOk result (IfSome (option_map (λ flow. flow.now.flow) f.entry) (λ table.
        list_all (rises g.now.graph table) (zx.ids g.now.graph.vertices) ≡ true)) }
{
    match f {
        Some(flow) => push_flow(text, g, flow, used),
        None => Ok(()),
    }
}

// Adds the lines of a flow: its order, and the set of each vertex without an output.
fn push_flow(
    text: &mut Vec<u8>,
    g: &OpenGraph,
    flow: &Flow,
    used: &[usize],
) -> Result<(), AllocError>
    requires rising { in_order ltb used.now ≡ true }
    requires table { IsTableOf (seen g.now.graph) flow.now.flow }
    ensures text { OnOk result
        (text.new.items ≡ text.old.items ++ flow_text g.now.graph used.now flow.now.flow) }
    ensures rising { OnOk result
        (list_all (rises g.now.graph flow.now.flow) (zx.ids g.now.graph.vertices) ≡ true) }
{
    text.extend_from_slice(b"flow\norder")?;
    push_order(text, flow.order(), used)?;
    text.extend_from_slice(b"\n")?;
    for v in g.vertices() {
        push_set(text, g, flow, v, used)?;
    }
    Ok(())
}

// Adds the parts of an order.
fn push_order(text: &mut Vec<u8>, order: &[VertexId], used: &[usize]) -> Result<(), AllocError>
    requires { in_order ltb used.now ≡ true }
    ensures { OnOk result (text.new.items
        ≡ text.old.items ++ flat_map (λ v. part (number_in used.now v)) order.now) }
{
    for v in order {
        push_part(text, number_of(used, *v))?;
    }
    Ok(())
}

// Adds the parts of a set.
fn push_members(text: &mut Vec<u8>, set: Ids<'_>, used: &[usize]) -> Result<(), AllocError>
    requires { in_order ltb used.now ≡ true }
    ensures { OnOk result (text.new.items
        ≡ text.old.items ++ flat_map (λ w. part (number_in used.now w)) set.entry) }
{
    for w in set {
        push_part(text, number_of(used, w))?;
    }
    Ok(())
}

// Adds the line of the set of a vertex, if it has no output.
fn push_set(
    text: &mut Vec<u8>,
    g: &OpenGraph,
    flow: &Flow,
    v: VertexId,
    used: &[usize],
) -> Result<(), AllocError>
    requires rising { in_order ltb used.now ≡ true }
    requires table { IsTableOf (seen g.now.graph) flow.now.flow }
    requires live { IsVertex g.now.graph v }
    ensures text { OnOk result
        (text.new.items ≡ text.old.items ++ set_text g.now.graph used.now flow.now.flow v) }
    ensures rising { OnOk result (rises g.now.graph flow.now.flow v ≡ true) }
{
    if g.output_at(v).is_some() {
        return Ok(());
    }
    push_correction(text, v, flow.correction(v), used)
}

// Adds the line of the set of a vertex.
fn push_correction(
    text: &mut Vec<u8>,
    v: VertexId,
    set: Ids<'_>,
    used: &[usize],
) -> Result<(), AllocError>
    requires { in_order ltb used.now ≡ true }
    ensures { OnOk result
        (text.new.items ≡ text.old.items ++ correction_text used.now v set.entry) }
{
    text.extend_from_slice(b"correct")?;
    push_part(text, number_of(used, v))?;
    push_members(text, set, used)?;
    text.extend_from_slice(b"\n")
}

// Adds a space and a number, as a further part of a line.
fn push_part(text: &mut Vec<u8>, number: usize) -> Result<(), AllocError>
    ensures { OnOk result (text.new.items ≡ text.old.items ++ part number) }
{
    text.extend_from_slice(b" ")?;
    push_number(text, number)
}

// Adds a number in decimal digits.
fn push_number(text: &mut Vec<u8>, number: usize) -> Result<(), AllocError>
    ensures { OnOk result (text.new.items ≡ text.old.items ++ decimal number) }
{
    let mut buffer = Buffer::new();
    text.extend_from_slice(buffer.format(number).as_bytes())
}
