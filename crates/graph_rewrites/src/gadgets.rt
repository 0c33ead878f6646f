//! The removal and the fusion of gadgets.

ghost use Rattle.std.specs.Prelude.{◌≡◌, true};
ghost use Rattle.zx_calculus.specs.Graph.{WellFormed};
ghost use Rattle.zx_calculus.specs.Steps.{allowed, DropLone, FuseInto, FuseTwin, IsStep};
ghost use Rattle.zx_calculus.specs.StepScalars.{step_scalar};
ghost use Rattle.open_graph.specs.Rooms.{with_place};

use crate::gadget::{add_phase, gadget_scalar, is_gadget, take_out};
use open_graph::{OpenGraph, VertexId};
use zx_model::Scalar;

/// Whether the id is that of a YZ vertex without neighbours.
pub fn may_drop_lone(g: &OpenGraph, u: VertexId) -> bool
    ensures value { result ≡ allowed g.now.graph (DropLone u) }
    ensures valid { WellFormed g.now.graph }
{
    is_gadget(g, u) && g.degree(u) == 0
}

/// Whether the id is that of a YZ vertex with one neighbour, an XY vertex.
pub fn may_fuse_into(g: &OpenGraph, u: VertexId) -> bool
    ensures value { result ≡ allowed g.now.graph (FuseInto u) }
    ensures valid { WellFormed g.now.graph }
{
    if !is_gadget(g, u) {
        return false;
    }
    if g.degree(u) != 1 {
        return false;
    }
    match g.neighbour_from(u, 0) {
        Some(leg) => g.is_xy(leg),
        None => false,
    }
}

/// Whether the ids are those of two YZ vertices with equal neighbours.
pub fn may_fuse_twin(g: &OpenGraph, u: VertexId, v: VertexId) -> bool
    ensures value { result ≡ allowed g.now.graph (FuseTwin u v) }
    ensures valid { WellFormed g.now.graph }
{
    if !is_gadget(g, u) {
        return false;
    }
    if !is_gadget(g, v) {
        return false;
    }
    if u == v {
        return false;
    }
    if g.has_edge(u, v) {
        return false;
    }
    g.neighbour_set(u).is_same(g.neighbour_set(v))
}

/// Takes out a YZ vertex without neighbours, and answers the scalar: the sum before is so many times the
/// sum after.
pub fn drop_lone_in_graph(g: &mut OpenGraph, u: VertexId) -> Scalar
    requires { allowed g.old.graph (DropLone u) ≡ true }
    ensures step { IsStep g.old.graph (DropLone u) g.new.graph }
    ensures scalar { result ≡ step_scalar g.old.graph (DropLone u) }
    ensures room { g.new.room ≡ with_place g.old.room }
    ensures was_valid { WellFormed g.old.graph }
    ensures valid { WellFormed g.new.graph }
{
    take_out(g, u);
    gadget_scalar()
}

/// Takes out a YZ vertex with one neighbour, an XY vertex, which gains its phase, and answers the scalar.
pub fn fuse_into_in_graph(g: &mut OpenGraph, u: VertexId) -> Scalar
    requires { allowed g.old.graph (FuseInto u) ≡ true }
    ensures step { IsStep g.old.graph (FuseInto u) g.new.graph }
    ensures scalar { result ≡ step_scalar g.old.graph (FuseInto u) }
    ensures room { g.new.room ≡ with_place g.old.room }
    ensures was_valid { WellFormed g.old.graph }
    ensures valid { WellFormed g.new.graph }
{
    let into = g.neighbour_from(u, 0).unwrap();
    let phase = take_out(g, u);
    add_phase(g, into, phase);
    gadget_scalar()
}

/// Takes out the second of two YZ vertices with equal neighbours; the first gains its phase. Answers the
/// scalar.
pub fn fuse_twin_in_graph(g: &mut OpenGraph, u: VertexId, v: VertexId) -> Scalar
    requires { allowed g.old.graph (FuseTwin u v) ≡ true }
    ensures step { IsStep g.old.graph (FuseTwin u v) g.new.graph }
    ensures scalar { result ≡ step_scalar g.old.graph (FuseTwin u v) }
    ensures room { g.new.room ≡ with_place g.old.room }
    ensures was_valid { WellFormed g.old.graph }
    ensures valid { WellFormed g.new.graph }
{
    let phase = take_out(g, v);
    add_phase(g, u, phase);
    gadget_scalar()
}
