//! What the rewrites of gadgets are made of.

ghost use Rattle.std.specs.Prelude.{◌≡◌, pos};
ghost use Rattle.zx_calculus.specs.Graph.{plane_of, phase_of, IsVertex, WellFormed};
ghost use Rattle.zx_calculus.specs.Graph as zx;
ghost use Rattle.zx_calculus.specs.Edits.{IsRemoval};
ghost use Rattle.zx_calculus.specs.Gadgets.{fuse_kind, is_gadget};
ghost use Rattle.zx_calculus.specs.Scalars.{root_of_two_to};
ghost use Rattle.zx_calculus.specs.Internal.ChangedKinds.{with_changed};
ghost use Rattle.open_graph.specs.Rooms.{with_place};

use open_graph::{OpenGraph, Plane, VertexId};
use zx_model::{Scalar, Sixteenth};

/// Whether an id is that of a gadget.
pub fn is_gadget(g: &OpenGraph, v: VertexId) -> bool
    ensures value { result ≡ is_gadget g.now.graph v }
    ensures valid { WellFormed g.now.graph }
{
    if !g.is_live(v) {
        return false;
    }
    let (plane, _) = g.weight(v);
    matches!(plane, Plane::YZ)
}

// The scalar of each of the three rewrites, 2: the sum before is so many times the sum after.
pub(crate) fn gadget_scalar() -> Scalar
    ensures { result ≡ root_of_two_to (pos 2) }
{
    Scalar {
        root2: 2,
        turn: Sixteenth::new(0),
    }
}

// Takes a gadget out of a graph, and answers its phase.
pub(crate) fn take_out(g: &mut OpenGraph, u: VertexId) -> Sixteenth
    requires live { IsVertex g.old.graph u }
    requires gadget { plane_of g.old.graph u ≡ zx.YZ }
    ensures phase { result ≡ phase_of g.old.graph u }
    ensures removed { IsRemoval g.old.graph u g.new.graph }
    ensures room { g.new.room ≡ with_place g.old.room }
    ensures was_valid { WellFormed g.old.graph }
    ensures valid { WellFormed g.new.graph }
{
    let (_, phase) = g.weight(u);
    g.remove_vertex(u);
    phase
}

// Adds a phase to that of a vertex.
pub(crate) fn add_phase(g: &mut OpenGraph, v: VertexId, phase: Sixteenth)
    requires { IsVertex g.old.graph v }
    ensures added { g.new.graph ≡ with_changed (fuse_kind v phase) g.old.graph }
    ensures room { g.new.room ≡ g.old.room }
    ensures valid { WellFormed g.new.graph }
{
    let (plane, before) = g.weight(v);
    g.set_weight(v, plane, before.add(phase));
}
