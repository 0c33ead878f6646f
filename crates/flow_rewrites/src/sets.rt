//! What steps make of the sets of a flow.

ghost use Rattle.std.specs.Prelude.{◌≡◌, true, false, ℕ, IsOk, OnOk};
ghost use Rattle.zx_model.specs.Bits.{member};
ghost use Rattle.zx_calculus.specs.Graph.{joined, plane_of, IsVertex, WellFormed};
ghost use Rattle.zx_calculus.specs.Steps.{allowed};
ghost use Rattle.zx_bits.specs.Sets.{IsBelow};
ghost use Rattle.gflow_laws.specs.Seen.{seen, in_odd_neighbourhood};
ghost use Rattle.gflow_laws.specs.Flow.{order_of, set_of, is_in, IsFlow, SameSets, odd_in};
ghost use Rattle.gflow_laws.specs.Steps.{table_after, complement_table, pivot_table};
ghost use Rattle.move_laws.specs.Orders.{is_split};
ghost use Rattle.open_graph.specs.Rooms.{IsLeft};
ghost use Rattle.graph_rewrites.specs.Rooms.{room_after};
ghost use Rattle.graph_rewrites.specs.Steps.{step_named};
ghost use Rattle.flow_rewrites.specs.Rooms.{HaveRoomFor};
ghost use Rattle.flow_rewrites.specs.Internal.Stages.{view, plane_in, IsBeside};

use graph_rewrites::Step;
use open_graph::{OpenGraph, Plane, VertexId};
use std::alloc::AllocError;
use zx_flow::Flow;

// The local complements that a pivot of u and v is in planes and edges: about u, then v with u as the other
// vertex, then u with v as the other one. A local complement is the first alone.
#[derive(Drop)]
enum Stage {
    First,
    Second(VertexId),
    Third(VertexId),
}

// What a step that is allowed makes of the sets; the graph is that before it. Where memory runs out, a part of
// this is done.
pub(crate) fn change_sets(f: &mut Flow, g: &OpenGraph, step: &Step) -> Result<(), AllocError>
    requires valid { WellFormed g.now.graph }
    requires flow { IsFlow g.now.graph f.old.flow }
    requires allowed { allowed g.now.graph (step_named step.now) ≡ true }
    ensures sets { OnOk result
        (SameSets f.new.flow (table_after g.now.graph (step_named step.now) f.old.flow)) }
    ensures table { OnOk result (is_split (step_named step.now) ≡ true →
        f.new.flow ≡ table_after g.now.graph (step_named step.now) f.old.flow) }
    ensures has_room { HaveRoomFor (step_named step.now) g.now f.old → IsOk result }
    ensures room { OnOk result (IsLeft (room_after (step_named step.now) f.old.room) f.new.room) }
    ensures same_room { OnOk result (is_split (step_named step.now) ≡ false →
        f.new.room ≡ room_after (step_named step.now) f.old.room) }
{
    match step {
        Step::LocalComplement(u) => complement_sets(f, g, &Stage::First, *u),
        Step::Pivot(u, v) => pivot_sets(f, g, *u, *v),
        Step::Delete(u) | Step::DropLone(u) | Step::FuseInto(u) => f.eliminate(*u),
        Step::FuseTwin(_, v) => f.eliminate(*v),
        Step::SplitInput(b) => f.add_first(VertexId::new(g.next_id()), *b),
        Step::SplitOutput(b) => f.add_last(*b, VertexId::new(g.next_id())),
    }
}

// What a pivot of two adjacent vertices makes of the sets; the graph is that before it.
fn pivot_sets(f: &mut Flow, g: &OpenGraph, u: VertexId, v: VertexId) -> Result<(), AllocError>
    requires u_live { IsVertex g.now.graph u }
    requires v_live { IsVertex g.now.graph v }
    requires adjacent { joined g.now.graph.edges u v ≡ true }
    requires u_there { member u (order_of f.old.flow) ≡ true }
    requires v_there { member v (order_of f.old.flow) ≡ true }
    ensures sets { OnOk result (SameSets f.new.flow (pivot_table (seen g.now.graph) u v f.old.flow)) }
    ensures has_room { IsBelow f.old.room.reach (order_of f.old.flow) →
        ((x : ℕ) → IsBelow f.old.room.reach (set_of f.old.flow x)) → IsOk result }
    ensures room { f.new.room ≡ f.old.room }
{
    complement_sets(f, g, &Stage::First, u)?;
    complement_sets(f, g, &Stage::Second(u), v)?;
    complement_sets(f, g, &Stage::Third(v), u)
}

// The local complement about u at a stage.
fn complement_sets(
    f: &mut Flow,
    g: &OpenGraph,
    stage: &Stage,
    u: VertexId,
) -> Result<(), AllocError>
    requires live { IsVertex g.now.graph u }
    requires beside { IsBeside g.now.graph u stage.now }
    requires there { member u (order_of f.old.flow) ≡ true }
    ensures table { let s = view stage.now (seen g.now.graph) u in
        OnOk result (SameSets f.new.flow (complement_table s u f.old.flow)) }
    ensures order { OnOk result (order_of f.new.flow ≡ order_of f.old.flow) }
    ensures has_room { IsBelow f.old.room.reach (order_of f.old.flow) →
        IsBelow f.old.room.reach (set_of f.old.flow u) → IsOk result }
    ensures room { f.new.room ≡ f.old.room }
{
    let changes = changes_plane(g, stage, u);
    for i in 0..f.order().len() {
        let x = f.vertex_at(i);
        let is_odd = odd_has(f, g, stage, u, x);
        f.complement_set(u, x, changes, is_odd)?;
    }
    f.complement_own(u, changes)
}

// Whether the local complement changes the plane of u.
fn changes_plane(g: &OpenGraph, stage: &Stage, u: VertexId) -> bool
    requires { IsVertex g.now.graph u }
    ensures value { result ≡ odd_in (plane_in stage.now (plane_of g.now.graph u)) }
    ensures valid { WellFormed g.now.graph }
{
    let (plane, _) = g.weight(u);
    match stage {
        Stage::First => !matches!(plane, Plane::YZ),
        Stage::Second(_) => !matches!(plane, Plane::XZ),
        Stage::Third(_) => !matches!(plane, Plane::XY),
    }
}

// Whether u has then an odd number of neighbours in the set of x.
fn odd_has(f: &Flow, g: &OpenGraph, stage: &Stage, u: VertexId, x: VertexId) -> bool
    requires well_formed { WellFormed g.now.graph }
    requires live { IsVertex g.now.graph u }
    requires beside { IsBeside g.now.graph u stage.now }
    requires there { member x (order_of f.now.flow) ≡ true }
    ensures { let s = view stage.now (seen g.now.graph) u in
        result ≡ in_odd_neighbourhood s (is_in (set_of f.now.flow x)) u }
{
    match stage {
        Stage::First => f.odd_has(g, x, u),
        Stage::Second(w) => f.odd_has(g, x, u) ^ f.odd_has(g, x, *w) ^ f.has(x, u),
        Stage::Third(w) => f.odd_has(g, x, *w) ^ f.has(x, *w) ^ f.has(x, u),
    }
}
