//! Gates that are put behind the outputs of a graph, all of them plain. Cx and Not are written out before.

ghost use Rattle.std.specs.Prelude.{◌≡◌, ◌≢◌, ◌<◌, true, length, IfOk, OnOk};
ghost use Rattle.zx_calculus.specs.Graph.{WellFormed};
ghost use Rattle.circuit_laws.specs.Peeling.{are_plain, HasPlainOutput, IsPhasePeel, IsEdgePeel};
ghost use Rattle.circuit_graph.specs.Behind.{IsSpiderPut};

use open_graph::{End, OpenGraph, Plane, VertexId};
use std::alloc::AllocError;
use zx_gates::Qubit;
use zx_model::Sixteenth;

/// The vertex at the output of a qubit.
pub fn last_spider(g: &OpenGraph, q: Qubit) -> VertexId
    requires plain { are_plain g.now.graph.outputs ≡ true }
    requires on_qubits { q < length g.now.graph.outputs }
    ensures value { HasPlainOutput g.now.graph q result }
    ensures valid { WellFormed g.now.graph }
{
    g.output_vertex(usize::from(q))
}

/// Puts H behind the output of a qubit: an edge joins the vertex there to a new spider of phase 0, which takes its
/// place. Answers the vertex that was there, and the spider.
///
/// # Errors
///
/// Only where memory runs out.
pub fn put_hadamard(g: &mut OpenGraph, q: Qubit) -> Result<(VertexId, VertexId), AllocError>
    requires plain { are_plain g.old.graph.outputs ≡ true }
    requires on_qubits { q < length g.old.graph.outputs }
    ensures put { IfOk result (λ both. IsSpiderPut g.old.graph q both.0 both.1 g.new.graph) }
    ensures valid { WellFormed g.new.graph }
{
    let here = last_spider(g, q);
    let next = g.add_vertex(Plane::XY, Sixteenth::new(0))?;
    g.toggle_edge(here, next)?;
    g.move_output(usize::from(q), End::plain(next));
    Ok((here, next))
}

/// Puts a phase gate behind the output of a qubit: its phase is added to the vertex there.
pub fn put_phase(g: &mut OpenGraph, q: Qubit, phase: Sixteenth)
    requires plain { are_plain g.old.graph.outputs ≡ true }
    requires on_qubits { q < length g.old.graph.outputs }
    ensures { IsPhasePeel g.new.graph q phase g.old.graph }
{
    let here = last_spider(g, q);
    let (plane, before) = g.weight(here);
    g.set_weight(here, plane, before.add(phase));
}

/// Puts Cz behind the outputs of two qubits: the edge between the vertices there comes where there is none, and goes
/// where there is one.
///
/// # Errors
///
/// Only where memory runs out.
pub fn put_edge(g: &mut OpenGraph, p: Qubit, q: Qubit) -> Result<(), AllocError>
    requires plain { are_plain g.old.graph.outputs ≡ true }
    requires p_on_qubits { p < length g.old.graph.outputs }
    requires q_on_qubits { q < length g.old.graph.outputs }
    requires apart { p ≢ q }
    ensures put { OnOk result (IsEdgePeel g.new.graph p q g.old.graph) }
    ensures valid { WellFormed g.new.graph }
{
    let first = last_spider(g, p);
    let second = last_spider(g, q);
    g.toggle_edge(first, second)
}
