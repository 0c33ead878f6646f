//! Whether simplification needs no memory.

ghost use Rattle.std.specs.Prelude.{◌≡◌, ◌↔◌, ◌≤◌, ◌+◌, ◌*◌, length, true};
ghost use Rattle.zx_calculus.specs.Graph.{plane_of, IsVertex, WellFormed};
ghost use Rattle.zx_calculus.specs.Counts.{not_XY};
ghost use Rattle.open_graph.specs.Rooms.{IsAtLeast};
ghost use Rattle.flow_rewrites.specs.Rooms.{HasRoom, room_needed};
ghost use Rattle.flow_rewrites.specs.Internal.Rooms.{steps_needed};

use open_graph::{OpenGraph, Plane, VertexId};
use zx_flow::Flow;
use zx_moves::Trace;

// Whether graph, flow and trace have the memory that simplification needs.
pub(crate) fn has_room(g: &OpenGraph, f: &Flow, trace: &Trace) -> bool
    ensures value { (result ≡ true) ↔ HasRoom g.now f.now trace.now }
    ensures valid { WellFormed g.now.graph }
{
    has_places(g, g.spare(), g.reach())
        && has_places(g, f.spare(), f.reach())
        && has_steps(g, trace.spare())
        && f.has_reach(g)
}

// Whether so many places for vertices suffice, and so many ids.
fn has_places(g: &OpenGraph, places: usize, ids: usize) -> bool
    ensures value { (result ≡ true) ↔
        IsAtLeast (room_needed g.now.graph) (record { spare = places; reach = ids }) }
    ensures valid { WellFormed g.now.graph }
{
    let vertices = g.vertex_count();
    let Some(more) = g.inputs().len().checked_add(2) else {
        return false;
    };
    let Some(all) = vertices.checked_add(more) else {
        return false;
    };
    more <= places && all <= ids
}

// Whether so many steps suffice.
fn has_steps(g: &OpenGraph, steps: usize) -> bool
    requires { WellFormed g.now.graph }
    ensures { (result ≡ true) ↔
        (12 * length g.now.graph.vertices + 6 * not_XY g.now.graph ≤ steps) }
{
    let mut left = steps;
    for v in g.vertices() {
        let needed = steps_at(g, v);
        if left < needed {
            return false;
        }
        left -= needed;
    }
    true
}

// How many steps are needed for a vertex: six for each move that it may be cause of.
fn steps_at(g: &OpenGraph, v: VertexId) -> usize
    requires { IsVertex g.now.graph v }
    ensures { result ≡ steps_needed (plane_of g.now.graph v) }
{
    match g.weight(v).0 {
        Plane::XY => 12,
        Plane::XZ | Plane::YZ => 18,
    }
}
