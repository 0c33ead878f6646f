//! The local complement about a vertex.

ghost use Rattle.std.specs.Prelude.{◌≡◌, true, IsOk, IfOk, OnOk};
ghost use Rattle.zx_calculus.specs.Graph.{ids, IsVertex, Interior, WellFormed};
ghost use Rattle.zx_calculus.specs.Steps.{allowed, IsStep, LocalComplement};
ghost use Rattle.zx_calculus.specs.Edits.{at_vertex};
ghost use Rattle.zx_calculus.specs.Internal.ChangedKinds.{with_changed};
ghost use Rattle.zx_calculus.specs.Turns.{in_plane, complemented};
ghost use Rattle.zx_bits.specs.Sets.{IsBelow};
ghost use Rattle.zx_calculus.specs.StepScalars.{step_scalar};
ghost use Rattle.open_graph.specs.Planes.{plane_named};

use crate::scalars::complement_scalar;
use open_graph::{OpenGraph, Plane, Turn, VertexId};
use std::alloc::AllocError;
use zx_model::{Scalar, Sixteenth};

/// Whether the id is that of an interior vertex.
pub fn may_complement(g: &OpenGraph, u: VertexId) -> bool
    ensures value { result ≡ allowed g.now.graph (LocalComplement u) }
    ensures valid { WellFormed g.now.graph }
{
    g.is_live(u) && g.is_interior(u)
}

/// A local complement about an interior vertex: each edge between two of its neighbours comes where
/// there is none and goes where there is one, each neighbour turns by a quarter, and the vertex
/// gets a change of its own. Answers its scalar: the sum before is so many times the sum after. Where
/// memory runs out, the graph may be any; where all its vertices are below its reach, none is needed.
pub fn local_complement_in_graph(g: &mut OpenGraph, u: VertexId) -> Result<Scalar, AllocError>
    requires { allowed g.old.graph (LocalComplement u) ≡ true }
    ensures step { OnOk result (IsStep g.old.graph (LocalComplement u) g.new.graph) }
    ensures scalar { IfOk result (λ s. s ≡ step_scalar g.old.graph (LocalComplement u)) }
    ensures has_room { IsBelow g.old.room.reach (ids g.old.graph.vertices) → IsOk result }
    ensures room { OnOk result (g.new.room ≡ g.old.room) }
    ensures reach { g.new.room.reach ≡ g.old.room.reach }
    ensures was_valid { WellFormed g.old.graph }
    ensures valid { WellFormed g.new.graph }
{
    let (plane, phase) = g.weight(u);
    g.toggle_neighbours(u)?;
    let powers = g.turn_neighbours(u, Turn::Quarter);
    complement_own(g, u);
    Ok(complement_scalar(plane, phase, powers))
}

// What a local complement about a vertex makes of its own plane and phase.
fn complement_own(g: &mut OpenGraph, u: VertexId)
    requires live { IsVertex g.old.graph u }
    requires interior { Interior g.old.graph u }
    ensures own { g.new.graph ≡ with_changed (at_vertex u complemented) g.old.graph }
    ensures room { g.new.room ≡ g.old.room }
    ensures valid { WellFormed g.new.graph }
{
    let (plane, phase) = g.weight(u);
    let (plane, phase) = complemented(plane, phase);
    g.set_weight(u, plane, phase);
}

// Plane and phase of a vertex after a local complement about it.
fn complemented(plane: Plane, phase: Sixteenth) -> (Plane, Sixteenth)
    ensures { in_plane (plane_named result.0) result.1 ≡
        complemented (in_plane (plane_named plane) phase) }
{
    let quarter = Sixteenth::quarter_turn();
    match plane {
        Plane::XY => (Plane::XZ, phase.add(quarter)),
        Plane::XZ => (Plane::XY, quarter.add(phase.neg())),
        Plane::YZ => (Plane::YZ, phase.add(quarter.neg())),
    }
}
