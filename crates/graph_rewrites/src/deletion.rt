//! The deletion of a vertex of half turns.

ghost use Rattle.std.specs.Prelude.{◌≡◌, true};
ghost use Rattle.zx_calculus.specs.Graph.{joined, phase_of, IsVertex, WellFormed};
ghost use Rattle.zx_calculus.specs.Steps.{allowed, Delete, IsStep};
ghost use Rattle.zx_calculus.specs.Deletions.{delete_kind};
ghost use Rattle.zx_calculus.specs.Internal.ChangedKinds.{with_changed};
ghost use Rattle.zx_calculus.specs.StepScalars.{step_scalar};
ghost use Rattle.open_graph.specs.Rooms.{with_place};

use crate::scalars::delete_scalar;
use open_graph::{OpenGraph, Plane, Turn, VertexId};
use zx_model::{Scalar, Sixteenth};

/// Whether the id is that of an XZ or YZ vertex of phase 0 or of a half turn.
pub fn may_delete(g: &OpenGraph, u: VertexId) -> bool
    ensures value { result ≡ allowed g.now.graph (Delete u) }
    ensures valid { WellFormed g.now.graph }
{
    if !g.is_live(u) {
        return false;
    }
    let (plane, phase) = g.weight(u);
    !matches!(plane, Plane::XY) && phase.is_half_turns()
}

/// Deletes an XZ or YZ vertex of phase 0 or of a half turn, which then each of its neighbours gets, and
/// answers the scalar: the sum before is so many times the sum after.
pub fn delete_in_graph(g: &mut OpenGraph, u: VertexId) -> Scalar
    requires { allowed g.old.graph (Delete u) ≡ true }
    ensures step { IsStep g.old.graph (Delete u) g.new.graph }
    ensures scalar { result ≡ step_scalar g.old.graph (Delete u) }
    ensures room { g.new.room ≡ with_place g.old.room }
    ensures was_valid { WellFormed g.old.graph }
    ensures valid { WellFormed g.new.graph }
{
    let scalar = pass_half_turn(g, u);
    g.remove_vertex(u);
    scalar
}

// Gives each neighbour of a vertex of a half turn a half turn, and answers the scalar of the vertex's deletion.
fn pass_half_turn(g: &mut OpenGraph, u: VertexId) -> Scalar
    requires { IsVertex g.old.graph u }
    ensures turned { let near = joined g.old.graph.edges u in
        g.new.graph ≡ with_changed (delete_kind (phase_of g.old.graph u) near) g.old.graph }
    ensures scalar { result ≡ step_scalar g.old.graph (Delete u) }
    ensures room { g.new.room ≡ g.old.room }
    ensures was_valid { WellFormed g.old.graph }
{
    let (plane, phase) = g.weight(u);
    if phase == Sixteenth::half_turn() {
        let powers = g.turn_neighbours(u, Turn::Half);
        delete_scalar(plane, powers)
    } else {
        Scalar {
            root2: 2,
            turn: Sixteenth::new(0),
        }
    }
}
