//! The eight rewrites of a graph with its flow. With Ok each is done, on both, and the answer is its scalar: the
//! sum before is so many times the sum after. Where memory runs out, both stay as they were.

ghost use Rattle.std.specs.Prelude.{◌≡◌, true};
ghost use Rattle.zx_calculus.specs.Steps.{allowed, LocalComplement, Delete, Pivot, SplitInput, SplitOutput};
ghost use Rattle.zx_calculus.specs.Steps.{DropLone, FuseInto, FuseTwin};
ghost use Rattle.gflow_laws.specs.Flow.{IsFlow};
ghost use Rattle.flow_rewrites.specs.Safely.{IsDoneSafely};

use crate::performing::perform;
use graph_rewrites::Step;
use open_graph::{OpenGraph, VertexId};
use std::alloc::AllocError;
use zx_flow::Flow;
use zx_model::Scalar;

/// A local complement about an interior vertex: each edge between two of its neighbours comes where
/// there is none and goes where there is one, each neighbour turns by a quarter, and the vertex
/// gets a change of its own. Where all vertices are below the reach of graph and flow, no memory is
/// needed.
pub fn local_complement(g: &mut OpenGraph, f: &mut Flow, u: VertexId) -> Result<Scalar, AllocError>
    requires flow { IsFlow g.old.graph f.old.flow }
    requires allowed { allowed g.old.graph (LocalComplement u) ≡ true }
    ensures safely { IsDoneSafely (LocalComplement u) g.old f.old result g.new f.new }
{
    perform(g, f, &Step::LocalComplement(u))
}

/// Deletes an XZ or YZ vertex of phase 0 or of a half turn, which then each of its neighbours
/// gets. Where all vertices are below the reach of graph and flow, no memory is needed.
pub fn delete(g: &mut OpenGraph, f: &mut Flow, u: VertexId) -> Result<Scalar, AllocError>
    requires flow { IsFlow g.old.graph f.old.flow }
    requires allowed { allowed g.old.graph (Delete u) ≡ true }
    ensures safely { IsDoneSafely (Delete u) g.old f.old result g.new f.new }
{
    perform(g, f, &Step::Delete(u))
}

/// A pivot of two adjacent interior vertices u and v: they exchange their other neighbours, the
/// edges between the classes (adjacent to u alone, to v alone, to both) are toggled, and the common
/// neighbours turn by a half. Where all vertices are below the reach of graph and flow, no memory is
/// needed.
pub fn pivot(
    g: &mut OpenGraph,
    f: &mut Flow,
    u: VertexId,
    v: VertexId,
) -> Result<Scalar, AllocError>
    requires flow { IsFlow g.old.graph f.old.flow }
    requires allowed { allowed g.old.graph (Pivot u v) ≡ true }
    ensures safely { IsDoneSafely (Pivot u v) g.old f.old result g.new f.new }
{
    perform(g, f, &Step::Pivot(u, v))
}

/// Puts a new XY vertex of phase 0, with the least free id, between a vertex b and its input, whose
/// mark is toggled: b holds no input any more. The new vertex comes first in the flow, corrected by
/// b. Where graph and flow have a place for a vertex more, no memory is needed.
pub fn split_input(g: &mut OpenGraph, f: &mut Flow, b: VertexId) -> Result<Scalar, AllocError>
    requires flow { IsFlow g.old.graph f.old.flow }
    requires allowed { allowed g.old.graph (SplitInput b) ≡ true }
    ensures safely { IsDoneSafely (SplitInput b) g.old f.old result g.new f.new }
{
    perform(g, f, &Step::SplitInput(b))
}

/// Puts a new XY vertex of phase 0, with the least free id, between a vertex b and its output,
/// whose mark is toggled: b holds no output any more. It comes last in the flow, corrected by the
/// new vertex. Where graph and flow have a place for a vertex more, no memory is needed.
pub fn split_output(g: &mut OpenGraph, f: &mut Flow, b: VertexId) -> Result<Scalar, AllocError>
    requires flow { IsFlow g.old.graph f.old.flow }
    requires allowed { allowed g.old.graph (SplitOutput b) ≡ true }
    ensures safely { IsDoneSafely (SplitOutput b) g.old f.old result g.new f.new }
{
    perform(g, f, &Step::SplitOutput(b))
}

/// Takes out a YZ vertex without neighbours. Where all vertices are below the reach of graph and flow,
/// no memory is needed.
pub fn drop_lone(g: &mut OpenGraph, f: &mut Flow, u: VertexId) -> Result<Scalar, AllocError>
    requires flow { IsFlow g.old.graph f.old.flow }
    requires allowed { allowed g.old.graph (DropLone u) ≡ true }
    ensures safely { IsDoneSafely (DropLone u) g.old f.old result g.new f.new }
{
    perform(g, f, &Step::DropLone(u))
}

/// Takes out a YZ vertex with one neighbour, an XY vertex, which gains its phase. Where all vertices
/// are below the reach of graph and flow, no memory is needed.
pub fn fuse_into(g: &mut OpenGraph, f: &mut Flow, u: VertexId) -> Result<Scalar, AllocError>
    requires flow { IsFlow g.old.graph f.old.flow }
    requires allowed { allowed g.old.graph (FuseInto u) ≡ true }
    ensures safely { IsDoneSafely (FuseInto u) g.old f.old result g.new f.new }
{
    perform(g, f, &Step::FuseInto(u))
}

/// Takes out the second of two YZ vertices with equal neighbours; the first gains its phase. Where
/// all vertices are below the reach of graph and flow, no memory is needed.
pub fn fuse_twin(
    g: &mut OpenGraph,
    f: &mut Flow,
    u: VertexId,
    v: VertexId,
) -> Result<Scalar, AllocError>
    requires flow { IsFlow g.old.graph f.old.flow }
    requires allowed { allowed g.old.graph (FuseTwin u v) ≡ true }
    ensures safely { IsDoneSafely (FuseTwin u v) g.old f.old result g.new f.new }
{
    perform(g, f, &Step::FuseTwin(u, v))
}
