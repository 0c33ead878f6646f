//! A graph file taken in line by line.

ghost use Rattle.std.specs.Prelude.{◌≡◌, ◌<◌, ◌^◌, ◌∷◌, [], drop, length, IfOk};
ghost use Rattle.std.specs.Option.{option_map};
ghost use Rattle.zx_text.specs.Versions.{version_named};
ghost use Rattle.zx_text.specs.Internal.Taking.{line_said};
ghost use Rattle.zx_text.specs.Internal.Stepping.{file_step, graph_step, flow_step, set_step, vertices_of};
ghost use Rattle.zx_text.specs.Internal.Readers.{lines_so_far, wanted_by, IsReadIfFits};

use crate::graph_part::GraphPart;
use crate::line::Line;
use crate::set_part::SetPart;
use crate::version::Version;
use open_graph::{OpenGraph, VertexId};
use std::alloc::{AllocError, Global};
use zx_flow::FlowTable;

// What the lines so far say.
#[derive(Drop)]
pub(crate) enum Reader {
    // Before the line of a flow.
    Graph(GraphPart),
    // Behind it.
    Flow(GraphPart),
    // Behind that of its order.
    Sets(SetPart),
    // Behind the last line.
    Over(OpenGraph, Option<FlowTable>),
}

// What one more line leads to, if it fits.
pub(crate) fn taken(
    alloc: Global,
    version: Version,
    with_flow: bool,
    reader: Reader,
    line: &Line,
) -> Result<Option<Reader>, AllocError>
    requires room { length (vertices_of (lines_so_far reader)) < 2 ^ 32 }
    ensures { IfOk result (λ next. option_map lines_so_far next
        ≡ file_step (version_named version) (wanted_by with_flow) (lines_so_far reader) (line_said line.now)) }
{
    match reader {
        Reader::Graph(part) => graph_taken(version, with_flow, part, line),
        Reader::Flow(part) => order_taken(alloc, part, line),
        Reader::Sets(part) => set_taken(part, line),
        Reader::Over(graph, table) => {
            drop(graph);
            drop(table);
            Ok(None)
        }
    }
}

// The same before the line of a flow.
fn graph_taken(
    version: Version,
    with_flow: bool,
    mut part: GraphPart,
    line: &Line,
) -> Result<Option<Reader>, AllocError>
    requires room { length part.graph.vertices < 2 ^ 32 }
    ensures { IfOk result (λ next. option_map lines_so_far next
        ≡ graph_step (version_named version) (wanted_by with_flow) part (line_said line.now)) }
{
    let fits = match line {
        Line::Vertex {
            number,
            plane,
            phase,
        } => part.take_vertex(version, *number, *plane, *phase),
        Line::Edge(a, b) => part.take_edge(*a, *b),
        Line::Input(v, hadamard) => part.take_input(*v, *hadamard),
        Line::Output(v, hadamard) => part.take_output(*v, *hadamard),
        Line::Flow => return Ok(Some(Reader::Flow(part))),
        Line::Order(_) => Ok(false),
        Line::Correct(_, _) => Ok(false),
        Line::End => {
            if with_flow {
                drop(part);
                return Ok(None);
            }
            return Ok(Some(Reader::Over(part.graph, None)));
        }
    };
    kept(Reader::Graph(part), fits)
}

// What is read so far, if the last line fits.
fn kept(reader: Reader, fits: Result<bool, AllocError>) -> Result<Option<Reader>, AllocError>
    ensures { IsReadIfFits fits (lines_so_far reader) result }
{
    match fits {
        Ok(true) => Ok(Some(reader)),
        Ok(false) => {
            drop(reader);
            Ok(None)
        }
        Err(error) => {
            drop(reader);
            Err(error)
        }
    }
}

// The same behind the line of a flow.
fn order_taken(alloc: Global, part: GraphPart, line: &Line) -> Result<Option<Reader>, AllocError>
    ensures { IfOk result (λ next. option_map lines_so_far next ≡ flow_step part.graph (line_said line.now)) }
{
    match line {
        Line::Order(order) => match SetPart::of_order(alloc, part, order)? {
            Some(sets) => Ok(Some(Reader::Sets(sets))),
            None => Ok(None),
        },
        _ => {
            drop(part);
            Ok(None)
        }
    }
}

// The same behind that of its order.
fn set_taken(part: SetPart, line: &Line) -> Result<Option<Reader>, AllocError>
    ensures { IfOk result (λ next. option_map lines_so_far next ≡ set_step part part.left (line_said line.now)) }
{
    match part.next() {
        Some(next) => member_line_taken(part, next, line),
        None => end_taken(part, line),
    }
}

// The same where the set of this vertex comes next.
fn member_line_taken(
    mut part: SetPart,
    next: VertexId,
    line: &Line,
) -> Result<Option<Reader>, AllocError>
    requires next { part.left ≡ next ∷ drop 1 part.left }
    ensures { IfOk result (λ next. option_map lines_so_far next ≡ set_step part part.left (line_said line.now)) }
{
    match line {
        Line::Correct(v, members) => {
            if *v != next.get() {
                drop(part);
                return Ok(None);
            }
            let fits = part.take_set(next, members);
            kept(Reader::Sets(part), fits)
        }
        _ => {
            drop(part);
            Ok(None)
        }
    }
}

// The same where no set is to come.
fn end_taken(part: SetPart, line: &Line) -> Result<Option<Reader>, AllocError>
    requires none { part.left ≡ [] }
    ensures { IfOk result (λ next. option_map lines_so_far next ≡ set_step part part.left (line_said line.now)) }
{
    match line {
        Line::End => Ok(Some(Reader::Over(part.graph, Some(part.table)))),
        _ => {
            drop(part);
            Ok(None)
        }
    }
}
