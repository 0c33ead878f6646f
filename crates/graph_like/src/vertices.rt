//! Vertices of the graph-like form, and the edges between classes.

ghost use Rattle.std.specs.Prelude.{◌≡◌, ◌<◌, ◌++◌, [], ◌∷◌, length, IfOk, OnOk};
ghost use Rattle.std.specs.List.{All};
ghost use Rattle.zx_calculus.specs.Graph.{XY, WellFormed};
ghost use Rattle.zx_calculus.specs.Worked.{vertex};
ghost use Rattle.zx_diagram.specs.Diagram.{IsEdgeOf};
ghost use Rattle.graph_like.specs.Internal.Homes.{home_of, AreHomesOf};
ghost use Rattle.graph_like.specs.Internal.Building.{IsNumbered, IsJoinedBy, vertices_of};

use crate::homes::Homes;
use crate::marks::edge_mark;
use open_graph::{OpenGraph, Plane, VertexId};
use std::alloc::{AllocError, Global};
use zx_diagram::{Spider, Wire};
use zx_model::Sixteenth;

// The graph of a vertex for each phase.
pub(crate) fn class_vertices(alloc: Global, phases: &[Sixteenth]) -> Result<OpenGraph, AllocError>
    ensures graph { IfOk result (λ graph. graph.graph ≡
        record { vertices = vertices_of phases.now (length phases.now); edges = []; inputs = []; outputs = [] }) }
    ensures count { IfOk result (λ graph. length graph.graph.vertices ≡ length phases.now) }
    ensures numbered { IfOk result (λ graph. IsNumbered graph.graph) }
{
    let mut graph = OpenGraph::new(alloc);
    for i in 0..phases.len() {
        push_vertex(&mut graph, phases[i])?;
    }
    Ok(graph)
}

// Adds an XY vertex after all others.
pub(crate) fn push_vertex(graph: &mut OpenGraph, phase: Sixteenth) -> Result<VertexId, AllocError>
    requires { IsNumbered graph.old.graph }
    ensures number { IfOk result (λ v. v ≡ length graph.old.graph.vertices) }
    ensures ok { OnOk result (graph.new.graph ≡ record graph.old.graph {
      vertices = graph.old.graph.vertices ++ vertex (length graph.old.graph.vertices) XY phase ∷ [];
    }) }
    ensures numbered { OnOk result (IsNumbered graph.new.graph) }
{
    let v = graph.add_vertex(Plane::XY, phase)?;
    Ok(v)
}

// Toggles an edge between two classes for each Hadamard edge between them: of two such ones nothing is left.
pub(crate) fn join_classes(
    graph: &mut OpenGraph,
    homes: &Homes,
    spiders: &[Spider],
    edges: &[Wire],
) -> Result<(), AllocError>
    requires numbered { IsNumbered graph.old.graph }
    requires edges { All (IsEdgeOf (length spiders.now)) edges.now }
    requires homes { AreHomesOf (length spiders.now) (length graph.old.graph.vertices) homes.now }
    ensures joined { OnOk result
        (IsJoinedBy spiders.now (home_of homes.now) edges.now graph.old.graph graph.new.graph) }
    ensures count { OnOk result (length graph.new.graph.vertices ≡ length graph.old.graph.vertices) }
    ensures numbered { OnOk result (IsNumbered graph.new.graph) }
{
    for i in 0..edges.len() {
        join(graph, homes, spiders, edges[i])?;
    }
    Ok(())
}

// Toggles the edge between the classes of a Hadamard edge, unless these are one.
fn join(
    graph: &mut OpenGraph,
    homes: &Homes,
    spiders: &[Spider],
    edge: Wire,
) -> Result<(), AllocError>
    requires numbered { IsNumbered graph.old.graph }
    requires edge { IsEdgeOf (length spiders.now) edge }
    requires homes { AreHomesOf (length spiders.now) (length graph.old.graph.vertices) homes.now }
    ensures joined { OnOk result
        (IsJoinedBy spiders.now (home_of homes.now) (edge ∷ []) graph.old.graph graph.new.graph) }
    ensures numbered { OnOk result (IsNumbered graph.new.graph) }
{
    let a = VertexId::new(homes.of(edge.a));
    let b = VertexId::new(homes.of(edge.b));
    if edge_mark(spiders, edge) && a != b {
        graph.toggle_edge(a, b)?;
        return Ok(());
    }
    Ok(())
}
