//! What a split is made of.

ghost use Rattle.std.specs.Prelude.{◌≡◌, ◌<◌, not, IsOk, IfOk, OnOk};
ghost use Rattle.zx_calculus.specs.Graph.{IsVertex, WellFormed};
ghost use Rattle.zx_calculus.specs.Splits.{new_vertex, split_scalar};
ghost use Rattle.graph_rewrites.specs.Internal.Spiders.{IsSpiderAdded};
ghost use Rattle.open_graph.specs.Rooms.{without_place};

use open_graph::{End, OpenGraph, Plane, VertexId};
use std::alloc::AllocError;
use zx_model::{Scalar, Sixteenth};

// A new spider of phase 0, adjacent to b alone.
pub(crate) fn add_spider(g: &mut OpenGraph, b: VertexId) -> Result<VertexId, AllocError>
    requires live { IsVertex g.old.graph b }
    requires valid { WellFormed g.old.graph }
    ensures new { IfOk result (λ new. new ≡ new_vertex g.old.graph) }
    ensures added { IfOk result (λ new. IsSpiderAdded g.old.graph b new g.new.graph) }
    ensures has_room { 0 < g.old.room.spare → b < g.old.room.reach → new_vertex g.old.graph < g.old.room.reach →
        IsOk result }
    ensures room { OnOk result (g.new.room ≡ without_place g.old.room) }
    ensures reach { g.new.room.reach ≡ g.old.room.reach }
    ensures valid { WellFormed g.new.graph }
{
    let new = g.add_vertex(Plane::XY, Sixteenth::new(0))?;
    g.toggle_edge(b, new)?;
    Ok(new)
}

// The end at another vertex, with its mark toggled.
pub(crate) fn toggled(end: End, vertex: VertexId) -> End
    ensures { result ≡ record { vertex = vertex; hadamard = not end.hadamard } }
{
    End {
        vertex,
        hadamard: !end.hadamard,
    }
}

// The scalar of the split of an end: a half, where that is plain.
pub(crate) fn split_scalar(end: End) -> Scalar
    ensures { result ≡ split_scalar end.hadamard }
{
    if end.hadamard {
        Scalar::one()
    } else {
        Scalar {
            root2: -2,
            turn: Sixteenth::new(0),
        }
    }
}
