//! The pivot of two vertices.

ghost use Rattle.std.specs.Prelude.{◌≡◌, ◌≢◌, true, IsOk, IfOk, OnOk};
ghost use Rattle.zx_bits.specs.Sets.{IsBelow};
ghost use Rattle.zx_calculus.specs.Graph.{ids, joined, neighbours, IsVertex, Interior, WellFormed};
ghost use Rattle.zx_calculus.specs.Steps.{allowed, IsStep, Pivot};
ghost use Rattle.zx_calculus.specs.StepScalars.{step_scalar};
ghost use Rattle.zx_calculus.specs.Edits.{at_vertex};
ghost use Rattle.zx_calculus.specs.Turns.{in_plane, half_turned, pivoted};
ghost use Rattle.open_graph.specs.Planes.{plane_named};
ghost use Rattle.zx_calculus.specs.Internal.ChangedKinds.{with_changed};
ghost use Rattle.graph_rewrites.specs.Internal.Changes.{IsRewired, half_turned_in};

use crate::pivot_scalar::pivot_scalar;
use open_graph::{OpenGraph, Plane, VertexId};
use std::alloc::AllocError;
use zx_model::{Scalar, Sixteenth};

/// Whether the ids are those of two adjacent interior vertices.
pub fn may_pivot(g: &OpenGraph, u: VertexId, v: VertexId) -> bool
    ensures value { result ≡ allowed g.now.graph (Pivot u v) }
    ensures valid { WellFormed g.now.graph }
{
    g.is_live(u) && g.is_live(v) && g.is_interior(u) && g.is_interior(v) && g.has_edge(u, v)
}

/// A pivot of two adjacent interior vertices u and v: they exchange their other neighbours, the
/// edges between the classes (adjacent to u alone, to v alone, to both) are toggled, the common
/// neighbours turn by a half, and u and v get a change of their own. Answers its scalar: the sum before
/// is so many times the sum after. Where memory runs out, the graph may be any; where all its vertices
/// are below its reach, none is needed.
pub fn pivot_in_graph(g: &mut OpenGraph, u: VertexId, v: VertexId) -> Result<Scalar, AllocError>
    requires { allowed g.old.graph (Pivot u v) ≡ true }
    ensures step { OnOk result (IsStep g.old.graph (Pivot u v) g.new.graph) }
    ensures scalar { IfOk result (λ s. s ≡ step_scalar g.old.graph (Pivot u v)) }
    ensures has_room { IsBelow g.old.room.reach (ids g.old.graph.vertices) → IsOk result }
    ensures room { OnOk result (g.new.room ≡ g.old.room) }
    ensures reach { g.new.room.reach ≡ g.old.room.reach }
    ensures was_valid { WellFormed g.old.graph }
    ensures valid { WellFormed g.new.graph }
{
    let scalar = pivot_scalar(g, u, v);
    turn_common(g, u, v);
    rewire(g, u, v)?;
    pivot_own(g, u);
    pivot_own(g, v);
    Ok(scalar)
}

// Turns the common neighbours of two vertices by a half.
fn turn_common(g: &mut OpenGraph, u: VertexId, v: VertexId)
    requires u_live { IsVertex g.old.graph u }
    requires v_live { IsVertex g.old.graph v }
    ensures turned { let near = neighbours g.old.graph u in
        g.new.graph ≡ with_changed (half_turned_in near (joined g.old.graph.edges v)) g.old.graph }
    ensures room { g.new.room ≡ g.old.room }
    ensures valid { WellFormed g.new.graph }
    ensures was_valid { WellFormed g.old.graph }
{
    let mut start = 0;
    'turn: while let Some(p) = g.neighbour_from(u, start) {
        if g.has_edge(v, p) {
            turn_half(g, p);
        }
        start = p.get() + 1;
    }
}

// Turns a vertex by a half.
fn turn_half(g: &mut OpenGraph, p: VertexId)
    requires { IsVertex g.old.graph p }
    ensures turned { g.new.graph ≡ with_changed (at_vertex p half_turned) g.old.graph }
    ensures room { g.new.room ≡ g.old.room }
    ensures valid { WellFormed g.new.graph }
{
    g.add_quarter(p);
    g.add_quarter(p);
}

// The edges of a pivot: all those between u or a neighbour of it and v or a neighbour of it.
fn rewire(g: &mut OpenGraph, u: VertexId, v: VertexId) -> Result<(), AllocError>
    requires u_live { IsVertex g.old.graph u }
    requires v_live { IsVertex g.old.graph v }
    requires different { u ≢ v }
    requires adjacent { joined g.old.graph.edges u v ≡ true }
    ensures rewired { OnOk result (IsRewired g.old.graph u v g.new.graph) }
    ensures has_room { IsBelow g.old.room.reach (ids g.old.graph.vertices) → IsOk result }
    ensures room { OnOk result (g.new.room ≡ g.old.room) }
    ensures reach { g.new.room.reach ≡ g.old.room.reach }
    ensures valid { WellFormed g.new.graph }
{
    g.toggle_around(u, v)
}

// What a pivot makes of the plane and phase of each of its two vertices.
fn pivot_own(g: &mut OpenGraph, u: VertexId)
    requires live { IsVertex g.old.graph u }
    requires interior { Interior g.old.graph u }
    ensures own { g.new.graph ≡ with_changed (at_vertex u pivoted) g.old.graph }
    ensures room { g.new.room ≡ g.old.room }
    ensures valid { WellFormed g.new.graph }
{
    let (plane, phase) = g.weight(u);
    let (plane, phase) = pivoted(plane, phase);
    g.set_weight(u, plane, phase);
}

// Plane and phase of a vertex after a pivot about it.
fn pivoted(plane: Plane, phase: Sixteenth) -> (Plane, Sixteenth)
    ensures { in_plane (plane_named result.0) result.1 ≡
        pivoted (in_plane (plane_named plane) phase) }
{
    match plane {
        Plane::XY => (Plane::YZ, phase),
        Plane::XZ => (Plane::XZ, Sixteenth::quarter_turn().add(phase.neg())),
        Plane::YZ => (Plane::XY, phase),
    }
}
