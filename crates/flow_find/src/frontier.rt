//! The rows of the vertices that may be members, on the vertices that are left.

ghost use Rattle.std.specs.Prelude.{◌≡◌, ◌<◌, ◌≤◌, ◌+◌, ◌&&◌, ◌||◌, ◌==◌, ℕ, Bool, false, not, length, IfOk, OnOk};
ghost use Rattle.zx_model.specs.Bits.{member};
ghost use Rattle.zx_calculus.specs.Graph.{IsVertex, WellFormed, is_XY, plane_of, joined, end_vertices};
ghost use Rattle.gflow_laws.specs.Seen.{Seen, seen};
ghost use Rattle.gflow_laws.specs.Flow.{is_in};
ghost use Rattle.flow_find.specs.Frontiers.{AreAll, IsFrontier, IsFrontierOf, with_one};
ghost use Rattle.flow_find.specs.Internal.Rows.{IsFrontierFor, IsPassable, IsCancelled};

use crate::picked::Around;
use crate::row::Row;
use crate::rows::{add_picked, drop_column, put, take_pivot};
use open_graph::{OpenGraph, Plane, VertexId, VertexSet};
use std::alloc::{AllocError, Global};

// The last vertex left goes: it may be a member from now on, where it has no input.
pub(crate) fn pass(
    rows: &mut Vec<Row>,
    alloc: Global,
    g: &OpenGraph,
    v: VertexId,
    left: &VertexSet,
) -> Result<(), AllocError>
    requires live { IsVertex g.now.graph v }
    requires gone { is_in left.now.ids v ≡ false }
    ensures rows { OnOk result (IsPassable (seen g.now.graph) (is_in left.now.ids) v rows.old.items →
        IsFrontierOf (seen g.now.graph) (is_in left.now.ids) rows.new.items) }
    ensures few { OnOk result (IsPassable (seen g.now.graph) (is_in left.now.ids) v rows.old.items →
        length rows.new.items ≤ length rows.old.items) }
{
    drop_column(rows, v)?;
    turn(rows, v)?;
    if needs_row(g, v) {
        insert(rows, alloc, g, v, left)?;
    }
    Ok(())
}

// Whether a vertex that goes may be a member, and isn't in its own set. The neighbours of one that
// is are a sum of rows already.
fn needs_row(g: &OpenGraph, v: VertexId) -> bool
    requires { IsVertex g.now.graph v }
    ensures value { result ≡ (is_XY (plane_of g.now.graph v)
        && not (member v (end_vertices g.now.graph.inputs))) }
    ensures valid { WellFormed g.now.graph }
{
    matches!(g.weight(v).0, Plane::XY) && g.input_at(v).is_none()
}

// Gives rows whose pivot went another one.
fn turn(rows: &mut Vec<Row>, v: VertexId) -> Result<(), AllocError>
    requires { AreAll (λ row. member v row.columns.ids ≡ false) rows.old.items }
    ensures rows { OnOk result ((s : Seen) (left may : ℕ → Bool) →
        IsFrontier s left (with_one left v) may rows.old.items →
        IsFrontier s left left may rows.new.items) }
    ensures few { OnOk result (length rows.new.items ≤ length rows.old.items) }
    ensures fewer { OnOk result (IsCancelled v rows.old.items →
        length rows.new.items < length rows.old.items) }
{
    'turn: while let Some(row) = take_pivot(rows, v) {
        put(rows, row)?;
    }
    Ok(())
}

// Adds a vertex to those that may be members.
pub(crate) fn insert(
    rows: &mut Vec<Row>,
    alloc: Global,
    g: &OpenGraph,
    u: VertexId,
    left: &VertexSet,
) -> Result<(), AllocError>
    requires { IsVertex g.now.graph u }
    ensures rows { OnOk result ((may : ℕ → Bool) →
        IsFrontierFor (seen g.now.graph) (is_in left.now.ids) may rows.old.items →
        IsFrontierFor (seen g.now.graph) (is_in left.now.ids) (with_one may u) rows.new.items) }
    ensures few { OnOk result (length rows.new.items ≤ length rows.old.items + 1) }
{
    let mut row = Row {
        pivot: u,
        columns: left_neighbours(g, u, left)?,
        members: VertexSet::one(alloc, u)?,
        size: 1,
    };
    let neighbours = Around {
        vertex: u,
        neighbours: true,
        itself: false,
    };
    add_picked(&mut row, g, &neighbours, rows)?;
    row.count();
    put(rows, row)?;
    Ok(())
}

// The neighbours of a vertex that are left.
pub(crate) fn left_neighbours(
    g: &OpenGraph,
    u: VertexId,
    left: &VertexSet,
) -> Result<VertexSet, AllocError>
    requires { IsVertex g.now.graph u }
    ensures members { IfOk result (λ set. (w : ℕ) →
        member w set.ids ≡ (is_in left.now.ids w && joined g.now.graph.edges u w)) }
    ensures valid { WellFormed g.now.graph }
{
    let mut set = g.neighbour_set(u).clone()?;
    set.keep(left);
    Ok(set)
}
