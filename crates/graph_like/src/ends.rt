//! Ends of the graph-like form: a class keeps its first input and its first output.

ghost use Rattle.std.specs.Prelude.{◌≡◌, ◌<◌, ◌≤◌, ◌++◌, [], ◌∷◌, false, not, length, IfOk, OnOk};
ghost use Rattle.std.specs.List.{All};
ghost use Rattle.zx_model.specs.Bits.{member};
ghost use Rattle.zx_calculus.specs.Graph.{IsVertex, end_vertices};
ghost use Rattle.open_graph.specs.Sides.{ends_of, with_ends};
ghost use Rattle.graph_like.specs.LikeForm.{ends_at};
ghost use Rattle.graph_like.specs.Internal.Homes.{home_of, AreHomesOf};
ghost use Rattle.graph_like.specs.Internal.Building.{IsNumbered, AddsEnds, HangsOn};

use crate::homes::Homes;
use crate::marks::leg_mark;
use crate::vertices::push_vertex;
use open_graph::{End, OpenGraph, Side, VertexId};
use std::alloc::AllocError;
use zx_diagram::{Leg, Spider};
use zx_model::Sixteenth;

// Adds the ends of a side, each at the vertex of its class, or at a new one where that has an end of this side.
pub(crate) fn add_ends(
    graph: &mut OpenGraph,
    side: Side,
    homes: &Homes,
    spiders: &[Spider],
    legs: &[Leg],
) -> Result<(), AllocError>
    requires numbered { IsNumbered graph.old.graph }
    requires legs { All (λ leg. leg.spider < length spiders.now) legs.now }
    requires homes { AreHomesOf (length spiders.now) (length graph.old.graph.vertices) homes.now }
    ensures ends { OnOk result
        (AddsEnds side graph.old.graph (ends_at spiders.now (home_of homes.now) legs.now) graph.new.graph) }
    ensures count { OnOk result (length graph.old.graph.vertices ≤ length graph.new.graph.vertices) }
    ensures numbered { OnOk result (IsNumbered graph.new.graph) }
{
    for i in 0..legs.len() {
        let leg = legs[i];
        let v = VertexId::new(homes.of(leg.spider));
        add_end(graph, side, v, leg_mark(spiders, leg))?;
    }
    Ok(())
}

// Adds an end at a vertex, or at a new one beside it where that has an end of this side.
fn add_end(graph: &mut OpenGraph, side: Side, v: VertexId, hadamard: bool) -> Result<(), AllocError>
    requires numbered { IsNumbered graph.old.graph }
    requires there { v < length graph.old.graph.vertices }
    ensures ends { OnOk result (AddsEnds side graph.old.graph
        (record { vertex = v; hadamard = hadamard } ∷ []) graph.new.graph) }
    ensures numbered { OnOk result (IsNumbered graph.new.graph) }
{
    if has_end(graph, side, v) {
        let end = split_off(graph, v, hadamard)?;
        push_end(graph, side, end)?;
        return Ok(());
    }
    push_end(
        graph,
        side,
        End {
            vertex: v,
            hadamard,
        },
    )?;
    Ok(())
}

// A new vertex of phase 0 beside another one, and the end of that one moved to it, its mark toggled.
fn split_off(graph: &mut OpenGraph, v: VertexId, hadamard: bool) -> Result<End, AllocError>
    requires numbered { IsNumbered graph.old.graph }
    requires there { v < length graph.old.graph.vertices }
    ensures end { IfOk result (λ end. end ≡
        record { vertex = length graph.old.graph.vertices; hadamard = not hadamard }) }
    ensures hangs { OnOk result (HangsOn v graph.old.graph graph.new.graph) }
    ensures numbered { OnOk result (IsNumbered graph.new.graph) }
{
    let vertex = push_vertex(graph, Sixteenth::new(0))?;
    graph.toggle_edge(v, vertex)?;
    Ok(End {
        vertex,
        hadamard: !hadamard,
    })
}

// Whether a vertex has an end of a side.
fn has_end(graph: &OpenGraph, side: Side, v: VertexId) -> bool
    requires { IsVertex graph.now.graph v }
    ensures { result ≡ member v (end_vertices (ends_of side graph.now.graph)) }
{
    side.place_at(graph, v).is_some()
}

// Adds an end of a side after all others.
fn push_end(graph: &mut OpenGraph, side: Side, end: End) -> Result<(), AllocError>
    requires numbered { IsNumbered graph.old.graph }
    requires there { end.vertex < length graph.old.graph.vertices }
    requires free { member end.vertex (end_vertices (ends_of side graph.old.graph)) ≡ false }
    ensures ok { OnOk result (graph.new.graph ≡
        with_ends side (ends_of side graph.old.graph ++ end ∷ []) graph.old.graph) }
    ensures numbered { OnOk result (IsNumbered graph.new.graph) }
{
    match side {
        Side::Input => graph.add_input(end),
        Side::Output => graph.add_output(end),
    }
}
