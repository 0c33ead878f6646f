//! The conditions of a flow at one vertex.

ghost use Rattle.std.specs.Prelude.{◌≡◌, ◌||◌, ◌==◌, ℕ, true, not, IfOk};
ghost use Rattle.std.specs.List.{list_all};
ghost use Rattle.zx_model.specs.Bits.{member};
ghost use Rattle.zx_calculus.specs.Graph.{IsVertex, WellFormed};
ghost use Rattle.gflow_laws.specs.Seen.{seen, in_odd_neighbourhood};
ghost use Rattle.gflow_laws.specs.Flow.{order_of, is_in, is_later, IsTableOf};
ghost use Rattle.open_graph.specs.Planes.{plane_named};
ghost use Rattle.flow_check.specs.Failures.{conditions, condition_holds};
ghost use Rattle.flow_check.specs.Internal.Conditions.{IsFirstOrNone, holds_in_plane, plane_test};

use crate::verdict::Condition;
use open_graph::{OpenGraph, Plane, VertexId, VertexSet};
use std::alloc::{AllocError, Global};
use zx_flow::FlowTable;

// The inputs of a graph.
pub(crate) fn input_set(alloc: Global, g: &OpenGraph) -> Result<VertexSet, AllocError>
    ensures members { IfOk result (λ set. (w : ℕ) → member w set.ids ≡ (seen g.now.graph).input w) }
    ensures valid { WellFormed g.now.graph }
{
    let mut set = VertexSet::new(alloc);
    for end in g.inputs() {
        set.toggle(end.vertex)?;
    }
    Ok(set)
}

// The first condition that fails at a vertex v, if there is one: `passed` are the vertices that
// stand before v in the order.
pub(crate) fn first_failing(
    alloc: Global,
    g: &OpenGraph,
    t: &FlowTable,
    inputs: &VertexSet,
    passed: &VertexSet,
    v: VertexId,
) -> Result<Option<Condition>, AllocError>
    requires table { IsTableOf (seen g.now.graph) t.now.table }
    requires listed { member v (order_of t.now.table) ≡ true }
    requires inputs { (w : ℕ) → member w inputs.now.ids ≡ (seen g.now.graph).input w }
    requires passed { (w : ℕ) →
        ((w == v) || is_later (order_of t.now.table) v w) ≡ not (member w passed.now.ids) }
    ensures { IfOk result (λ failing.
        IsFirstOrNone (condition_holds (seen g.now.graph) t.now.table v) conditions failing) }
{
    let (plane, _) = g.weight(v);
    let members = t.correction_set(v);
    if !are_apart(members, inputs) {
        return Ok(Some(Condition::Input));
    }
    if !are_apart(members, passed) {
        return Ok(Some(Condition::Order));
    }
    let odd = odd_neighbours(alloc, g, members)?;
    if !are_apart(&odd, passed) {
        return Ok(Some(Condition::Odd));
    }
    Ok(plane_failing(plane, members.contains(v), odd.contains(v)))
}

// Whether two sets have no vertex in common.
fn are_apart(set: &VertexSet, other: &VertexSet) -> bool
    ensures { result ≡ list_all (λ w. not (member w other.now.ids)) set.now.ids }
{
    set.common_with(other) == 0
}

// The vertices with an odd number of neighbours in a set.
fn odd_neighbours(
    alloc: Global,
    g: &OpenGraph,
    members: &VertexSet,
) -> Result<VertexSet, AllocError>
    requires { (w : ℕ) → member w members.now.ids ≡ true → IsVertex g.now.graph w }
    ensures { IfOk result (λ set. (w : ℕ) →
        member w set.ids ≡ in_odd_neighbourhood (seen g.now.graph) (is_in members.now.ids) w) }
{
    let mut odd = VertexSet::new(alloc);
    for w in members.iter() {
        odd.toggle_all(g.neighbour_set(w))?;
    }
    Ok(odd)
}

// The condition of the plane of a vertex where it fails, by whether the vertex is in its set, and
// whether it has an odd number of neighbours there.
fn plane_failing(plane: Plane, inside: bool, odd: bool) -> Option<Condition>
    ensures { IsFirstOrNone (holds_in_plane (plane_named plane) inside odd) conditions result }
{
    if holds_in(plane, inside, odd) {
        return None;
    }
    match plane {
        Plane::XY => Some(Condition::XY),
        Plane::XZ => Some(Condition::XZ),
        Plane::YZ => Some(Condition::YZ),
    }
}

// The condition of a plane.
fn holds_in(plane: Plane, inside: bool, odd: bool) -> bool
    ensures { result ≡ plane_test (plane_named plane) inside odd }
{
    match plane {
        Plane::XY => !inside && odd,
        Plane::XZ => inside && odd,
        Plane::YZ => inside && !odd,
    }
}
