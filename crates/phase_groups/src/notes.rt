//! What a rewrite does to the phases of vertices.

ghost use Rattle.std.specs.Prelude.{◌≡◌, ◌==◌, ◌&&◌, ◌||◌, ℕ, true, map, IfOk, OnOk};
ghost use Rattle.zx_model.specs.Bits.{xor};
ghost use Rattle.zx_model.specs.Phase.{half_turn};
ghost use Rattle.zx_calculus.specs.Graph.{joined, is_XZ, plane_of, phase_of, IsVertex};
ghost use Rattle.zx_calculus.specs.Steps.{FuseInto, allowed};
ghost use Rattle.graph_rewrites.specs.Steps.{step_named};
ghost use Rattle.teleport_laws.specs.Shifts.{negates, into_of};
ghost use Rattle.phase_groups.specs.Internal.Noting.{stands_odd, parting_by, IsNoted};

use graph_rewrites::Step;
use open_graph::{OpenGraph, Plane, VertexId};
use std::alloc::{AllocError, Global};
use zx_model::Sixteenth;

// Where the phase of a vertex goes that goes itself.
#[derive(Clone, Copy, Debug)]
pub(crate) enum Parting {
    // No vertex goes.
    Nowhere,
    // The vertex is deleted, so its phase stays with it.
    Deleted(VertexId),
    // The vertex is dropped, and its phase doesn't matter any more.
    Dropped(VertexId),
    // The phase of the first is added to that of the second.
    Fused(VertexId, VertexId),
}

// What one rewrite does to the phases of vertices.
#[derive(Drop)]
pub(crate) struct Note {
    // The vertices whose phases it negates: those that stand here an odd number of times.
    pub(crate) negated: Vec<VertexId>,
    // Where the phase goes of the vertex which goes.
    pub(crate) parting: Parting,
}

// What a step that is allowed does to the phases of vertices.
pub(crate) fn note_of(alloc: Global, graph: &OpenGraph, step: &Step) -> Result<Note, AllocError>
    requires { allowed graph.now.graph (step_named step.now) ≡ true }
    ensures { IfOk result (IsNoted graph.now.graph (step_named step.now)) }
{
    let negated = negated_by(alloc, graph, step)?;
    let parting = parting_of(graph, step);
    Ok(Note { negated, parting })
}

// The vertices whose phases a step negates.
fn negated_by(alloc: Global, graph: &OpenGraph, step: &Step) -> Result<Vec<VertexId>, AllocError>
    requires { allowed graph.now.graph (step_named step.now) ≡ true }
    ensures { IfOk result (λ found. (v : ℕ) →
        stands_odd found.items v ≡ negates graph.now.graph (step_named step.now) v) }
{
    match step {
        Step::LocalComplement(u) => negated_near(alloc, graph, step, *u),
        Step::Delete(u) => negated_near(alloc, graph, step, *u),
        Step::Pivot(u, _) => negated_near(alloc, graph, step, *u),
        _ => Ok(Vec::new(alloc)),
    }
}

// Those of a vertex and its neighbours whose phases a step negates.
fn negated_near(
    alloc: Global,
    graph: &OpenGraph,
    step: &Step,
    u: VertexId,
) -> Result<Vec<VertexId>, AllocError>
    requires allowed { allowed graph.now.graph (step_named step.now) ≡ true }
    requires live { IsVertex graph.now.graph u }
    ensures { IfOk result (λ found. (v : ℕ) → stands_odd found.items v ≡
        (((v == u) || joined graph.now.graph.edges u v)
        && negates graph.now.graph (step_named step.now) v)) }
{
    let mut found = Vec::new(alloc);
    add_if_negated(&mut found, graph, step, u)?;
    for v in graph.neighbours(u) {
        add_if_negated(&mut found, graph, step, v)?;
    }
    Ok(found)
}

// Adds a vertex where a step negates its phase.
fn add_if_negated(
    found: &mut Vec<VertexId>,
    graph: &OpenGraph,
    step: &Step,
    v: VertexId,
) -> Result<(), AllocError>
    requires allowed { allowed graph.now.graph (step_named step.now) ≡ true }
    requires live { IsVertex graph.now.graph v }
    ensures { OnOk result ((w : ℕ) → stands_odd found.new.items w ≡
        xor (stands_odd found.old.items w)
        ((w == v) && negates graph.now.graph (step_named step.now) v)) }
{
    if is_negated(graph, step, v) {
        found.push(v)?;
    }
    Ok(())
}

// Whether a step negates the phase of a vertex.
fn is_negated(graph: &OpenGraph, step: &Step, v: VertexId) -> bool
    requires allowed { allowed graph.now.graph (step_named step.now) ≡ true }
    requires live { IsVertex graph.now.graph v }
    ensures { result ≡ negates graph.now.graph (step_named step.now) v }
{
    match step {
        Step::LocalComplement(u) => {
            (v.get() == u.get() || graph.has_edge(*u, v)) && is_xz(graph, v)
        }
        Step::Delete(u) => {
            (has_half_turn(graph, *u) && graph.has_edge(*u, v)) && !graph.is_xy(v)
        }
        Step::Pivot(u, w) => {
            if v.get() == u.get() || v.get() == w.get() {
                is_xz(graph, v)
            } else {
                (graph.has_edge(*u, v) && graph.has_edge(*w, v)) && !graph.is_xy(v)
            }
        }
        _ => false,
    }
}

fn is_xz(graph: &OpenGraph, v: VertexId) -> bool
    requires { IsVertex graph.now.graph v }
    ensures { result ≡ is_XZ (plane_of graph.now.graph v) }
{
    let (plane, _) = graph.weight(v);
    matches!(plane, Plane::XZ)
}

fn has_half_turn(graph: &OpenGraph, v: VertexId) -> bool
    requires { IsVertex graph.now.graph v }
    ensures { result ≡ (phase_of graph.now.graph v == half_turn) }
{
    let (_, phase) = graph.weight(v);
    phase.get() == Sixteenth::half_turn().get()
}

// Where the phase of the vertex goes that goes with a step.
fn parting_of(graph: &OpenGraph, step: &Step) -> Parting
    requires { allowed graph.now.graph (step_named step.now) ≡ true }
    ensures { result ≡ parting_by graph.now.graph (step_named step.now) }
{
    match step {
        Step::Delete(u) => Parting::Deleted(*u),
        Step::DropLone(u) => Parting::Dropped(*u),
        Step::FuseInto(u) => Parting::Fused(*u, leg_of(graph, *u)),
        Step::FuseTwin(u, w) => Parting::Fused(*w, *u),
        _ => Parting::Nowhere,
    }
}

// The vertex into which a gadget is fused.
fn leg_of(graph: &OpenGraph, u: VertexId) -> VertexId
    requires { allowed graph.now.graph (FuseInto u) ≡ true }
    ensures { result ≡ into_of graph.now.graph u }
{
    graph.neighbour_from(u, 0).unwrap()
}
