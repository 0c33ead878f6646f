//! Rewrites by their names.

ghost use Rattle.std.specs.Prelude.{◌≡◌, true, IsOk, IfOk, OnOk};
ghost use Rattle.zx_calculus.specs.Graph.{WellFormed};
ghost use Rattle.zx_calculus.specs.Steps.{allowed, IsStep};
ghost use Rattle.zx_calculus.specs.StepScalars.{step_scalar};
ghost use Rattle.move_laws.specs.Orders.{is_split};
ghost use Rattle.graph_rewrites.specs.Rooms.{HasRoomFor, room_after};

use crate::complement::{local_complement_in_graph, may_complement};
use crate::deletion::{delete_in_graph, may_delete};
use crate::gadgets::{
    drop_lone_in_graph, fuse_into_in_graph, fuse_twin_in_graph, may_drop_lone, may_fuse_into,
    may_fuse_twin,
};
use crate::pivot::{may_pivot, pivot_in_graph};
use crate::split::{
    may_split_input, may_split_output, split_input_in_graph, split_output_in_graph,
};
use open_graph::{OpenGraph, VertexId};
use std::alloc::AllocError;
use zx_model::Scalar;

/// A rewrite with the vertices that it is about.
#[derive(Clone, Copy, Debug, PartialEq, Eq)]
pub enum Step {
    /// The local complement about an interior vertex.
    LocalComplement(VertexId),
    /// The deletion of an XZ or YZ vertex of phase 0 or half a turn.
    Delete(VertexId),
    /// The pivot of two adjacent interior vertices.
    Pivot(VertexId, VertexId),
    /// A new spider between a vertex and its input.
    SplitInput(VertexId),
    /// A new spider between a vertex and its output.
    SplitOutput(VertexId),
    /// The removal of a YZ vertex without neighbours.
    DropLone(VertexId),
    /// The fusion of a YZ vertex into its only neighbour, an XY vertex.
    FuseInto(VertexId),
    /// The fusion of two YZ vertices with equal neighbours, of which the second goes.
    FuseTwin(VertexId, VertexId),
}

impl Step {
    ghost use Rattle.graph_rewrites.specs.Steps.{step_named};

    /// Whether the ids are those of vertices, for which the rewrite's side condition holds.
    pub fn is_allowed(&self, g: &OpenGraph) -> bool
        ensures value { result ≡ allowed g.now.graph (step_named self.now) }
        ensures valid { WellFormed g.now.graph }
    {
        match self {
            Step::LocalComplement(u) => may_complement(g, *u),
            Step::Delete(u) => may_delete(g, *u),
            Step::Pivot(u, v) => may_pivot(g, *u, *v),
            Step::SplitInput(b) => may_split_input(g, *b),
            Step::SplitOutput(b) => may_split_output(g, *b),
            Step::DropLone(u) => may_drop_lone(g, *u),
            Step::FuseInto(u) => may_fuse_into(g, *u),
            Step::FuseTwin(u, v) => may_fuse_twin(g, *u, *v),
        }
    }

    /// Whether it splits an end.
    pub fn is_split(&self) -> bool
        ensures { result ≡ is_split (step_named self.now) }
    {
        match self {
            Step::SplitInput(_) | Step::SplitOutput(_) => true,
            Step::LocalComplement(_)
            | Step::Delete(_)
            | Step::Pivot(_, _)
            | Step::DropLone(_)
            | Step::FuseInto(_)
            | Step::FuseTwin(_, _) => false,
        }
    }

    /// Does the step in a graph, where it is allowed, and answers its scalar: the sum before is so many
    /// times the sum after. Where memory runs out, a part of it is done; where the graph has the memory that
    /// the step needs, it takes none.
    pub fn do_in(&self, g: &mut OpenGraph) -> Result<Scalar, AllocError>
        requires { allowed g.old.graph (step_named self.now) ≡ true }
        ensures step { OnOk result (IsStep g.old.graph (step_named self.now) g.new.graph) }
        ensures scalar { IfOk result (λ s. s ≡ step_scalar g.old.graph (step_named self.now)) }
        ensures has_room { HasRoomFor (step_named self.now) g.old → IsOk result }
        ensures room { OnOk result (g.new.room ≡ room_after (step_named self.now) g.old.room) }
        ensures was_valid { WellFormed g.old.graph }
        ensures valid { WellFormed g.new.graph }
    {
        match self {
            Step::LocalComplement(u) => local_complement_in_graph(g, *u),
            Step::Delete(u) => Ok(delete_in_graph(g, *u)),
            Step::Pivot(u, v) => pivot_in_graph(g, *u, *v),
            Step::SplitInput(b) => split_input_in_graph(g, *b),
            Step::SplitOutput(b) => split_output_in_graph(g, *b),
            Step::DropLone(u) => Ok(drop_lone_in_graph(g, *u)),
            Step::FuseInto(u) => Ok(fuse_into_in_graph(g, *u)),
            Step::FuseTwin(u, v) => Ok(fuse_twin_in_graph(g, *u, *v)),
        }
    }
}
