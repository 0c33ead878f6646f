//! The split of an end.

ghost use Rattle.std.specs.Prelude.{◌≡◌, ◌<◌, ◌∷◌, true, IsOk, IfOk, OnOk};
ghost use Rattle.zx_bits.specs.Sets.{IsBelow};
ghost use Rattle.zx_calculus.specs.Graph.{ids, WellFormed};
ghost use Rattle.zx_calculus.specs.Splits.{new_vertex};
ghost use Rattle.zx_calculus.specs.Steps.{allowed, IsStep, SplitInput, SplitOutput};
ghost use Rattle.zx_calculus.specs.StepScalars.{step_scalar};
ghost use Rattle.graph_rewrites.specs.Internal.Sides.{split_of};
ghost use Rattle.open_graph.specs.Rooms.{without_place};

use crate::spider::{add_spider, split_scalar, toggled};
use open_graph::{OpenGraph, Side, VertexId};
use std::alloc::AllocError;
use zx_model::Scalar;

/// Whether the id is that of a vertex with an input.
pub fn may_split_input(g: &OpenGraph, b: VertexId) -> bool
    ensures value { result ≡ allowed g.now.graph (SplitInput b) }
    ensures valid { WellFormed g.now.graph }
{
    may_split(g, Side::Input, b)
}

/// Whether the id is that of a vertex with an output.
pub fn may_split_output(g: &OpenGraph, b: VertexId) -> bool
    ensures value { result ≡ allowed g.now.graph (SplitOutput b) }
    ensures valid { WellFormed g.now.graph }
{
    may_split(g, Side::Output, b)
}

/// Puts a new XY vertex of phase 0, with the least free id, between a vertex b and its input, whose
/// mark is toggled: b holds no input any more. Answers the scalar: the sum before is so many times the
/// sum after. Where memory runs out, the graph may be any; where it can take a vertex more, and all
/// vertices and the new one are below its reach, none is needed.
pub fn split_input_in_graph(g: &mut OpenGraph, b: VertexId) -> Result<Scalar, AllocError>
    requires { allowed g.old.graph (SplitInput b) ≡ true }
    ensures step { OnOk result (IsStep g.old.graph (SplitInput b) g.new.graph) }
    ensures scalar { IfOk result (λ s. s ≡ step_scalar g.old.graph (SplitInput b)) }
    ensures has_room { let all = new_vertex g.old.graph ∷ ids g.old.graph.vertices in
        0 < g.old.room.spare → IsBelow g.old.room.reach all → IsOk result }
    ensures room { OnOk result (g.new.room ≡ without_place g.old.room) }
    ensures reach { g.new.room.reach ≡ g.old.room.reach }
    ensures was_valid { WellFormed g.old.graph }
    ensures valid { WellFormed g.new.graph }
{
    split_in_graph(g, Side::Input, b)
}

/// Puts a new XY vertex of phase 0, with the least free id, between a vertex b and its output, whose
/// mark is toggled: b holds no output any more. Answers the scalar. Where memory runs out, the graph may
/// be any; where it can take a vertex more, and all vertices and the new one are below its reach, none
/// is needed.
pub fn split_output_in_graph(g: &mut OpenGraph, b: VertexId) -> Result<Scalar, AllocError>
    requires { allowed g.old.graph (SplitOutput b) ≡ true }
    ensures step { OnOk result (IsStep g.old.graph (SplitOutput b) g.new.graph) }
    ensures scalar { IfOk result (λ s. s ≡ step_scalar g.old.graph (SplitOutput b)) }
    ensures has_room { let all = new_vertex g.old.graph ∷ ids g.old.graph.vertices in
        0 < g.old.room.spare → IsBelow g.old.room.reach all → IsOk result }
    ensures room { OnOk result (g.new.room ≡ without_place g.old.room) }
    ensures reach { g.new.room.reach ≡ g.old.room.reach }
    ensures was_valid { WellFormed g.old.graph }
    ensures valid { WellFormed g.new.graph }
{
    split_in_graph(g, Side::Output, b)
}

// Whether the id is that of a vertex with an end on a side.
fn may_split(g: &OpenGraph, side: Side, b: VertexId) -> bool
    ensures value { result ≡ allowed g.now.graph (split_of side b) }
    ensures valid { WellFormed g.now.graph }
{
    g.is_live(b) && side.place_at(g, b).is_some()
}

// The graph's part of a split, with its scalar.
fn split_in_graph(g: &mut OpenGraph, side: Side, b: VertexId) -> Result<Scalar, AllocError>
    requires { allowed g.old.graph (split_of side b) ≡ true }
    ensures step { OnOk result (IsStep g.old.graph (split_of side b) g.new.graph) }
    ensures scalar { IfOk result (λ s. s ≡ step_scalar g.old.graph (split_of side b)) }
    ensures has_room { let all = new_vertex g.old.graph ∷ ids g.old.graph.vertices in
        0 < g.old.room.spare → IsBelow g.old.room.reach all → IsOk result }
    ensures room { OnOk result (g.new.room ≡ without_place g.old.room) }
    ensures reach { g.new.room.reach ≡ g.old.room.reach }
    ensures was_valid { WellFormed g.old.graph }
    ensures valid { WellFormed g.new.graph }
{
    let ends = side.ends(g);
    let place = side.place_at(g, b).unwrap();
    let end = ends[place];
    let new = add_spider(g, b)?;
    side.move_end(g, place, toggled(end, new));
    Ok(split_scalar(end))
}
