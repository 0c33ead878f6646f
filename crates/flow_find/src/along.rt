//! Correction sets found along an order.

ghost use Rattle.std.specs.Prelude.{◌≡◌, ◌≤◌, ◌&&◌, ◌==◌, ℕ, not, true, length, IfOk, OnOk};
ghost use Rattle.zx_model.specs.Bits.{member};
ghost use Rattle.zx_calculus.specs.Graph.{IsVertex, Distinct, WellFormed};
ghost use Rattle.gflow_laws.specs.Seen.{seen};
ghost use Rattle.gflow_laws.specs.Flow.{order_of, is_in, IsFlow, inside_in, odd_in};
ghost use Rattle.open_graph.specs.Planes.{plane_named};
ghost use Rattle.move_laws.specs.Orders.{HasFlowAlong};
ghost use Rattle.flow_find.specs.Frontiers.{set_from, IsFrontierOf};
ghost use Rattle.flow_find.specs.Internal.Rows.{IsPassable};
ghost use Rattle.flow_find.specs.Internal.Next.{IsSetFrom};

use crate::frontier::{insert, pass};
use crate::picked::Around;
use crate::row::Row;
use crate::rows::add_picked;
use crate::sets::{set_of, take_out};
use open_graph::{OpenGraph, Plane, VertexId, VertexSet};
use std::alloc::{AllocError, Global};
use zx_flow::FlowTable;

/// Correction sets that make an order of vertices a flow of a graph, where some do. It has one row
/// for each output at most, and each vertex costs as many additions of rows.
///
/// # Errors
///
/// Where memory runs out.
pub fn find_along(alloc: Global, g: &OpenGraph, order: &[VertexId]) -> Result<FlowTable, AllocError>
    requires { HasFlowAlong g.now.graph order.now }
    ensures order { IfOk result (λ table. order_of table.table ≡ order.now) }
    ensures flow { IfOk result (λ table. IsFlow g.now.graph table.table) }
{
    let mut table = table_of(alloc, order)?;
    correct_along(alloc, g, order, &mut table)?;
    Ok(table)
}

// Puts the sets into the table of the order.
fn correct_along(
    alloc: Global,
    g: &OpenGraph,
    order: &[VertexId],
    table: &mut FlowTable,
) -> Result<(), AllocError>
    requires along { HasFlowAlong g.now.graph order.now }
    requires table { order_of table.old.table ≡ order.now }
    ensures order { OnOk result (order_of table.new.table ≡ order.now) }
    ensures flow { OnOk result (IsFlow g.now.graph table.new.table) }
{
    let mut left = set_of(alloc, order)?;
    let mut rows = first_rows(alloc, g, &left)?;
    for i in (0..order.len()).rev() {
        let v = order[i];
        correct_last(alloc, g, v, table, &mut left, &mut rows)?;
    }
    Ok(())
}

// Puts the set of the last vertex left into the table, and the vertex goes.
pub(crate) fn correct_last(
    alloc: Global,
    g: &OpenGraph,
    v: VertexId,
    table: &mut FlowTable,
    left: &mut VertexSet,
    rows: &mut Vec<Row>,
) -> Result<(), AllocError>
    requires live { IsVertex g.now.graph v }
    requires listed { member v (order_of table.old.table) ≡ true }
    ensures table { OnOk result
        (IsSetFrom (seen g.now.graph) rows.old.items v table.old.table table.new.table) }
    ensures left { OnOk result
        ((w : ℕ) → is_in left.new.ids w ≡ (not (w == v) && is_in left.old.ids w)) }
    ensures rows { OnOk result (IsPassable (seen g.now.graph) (is_in left.new.ids) v rows.old.items →
        IsFrontierOf (seen g.now.graph) (is_in left.new.ids) rows.new.items) }
    ensures few { OnOk result (IsPassable (seen g.now.graph) (is_in left.new.ids) v rows.old.items →
        length rows.new.items ≤ length rows.old.items) }
{
    table.set(v, correction(alloc, g, rows, v)?);
    take_out(left, v)?;
    pass(rows, alloc, g, v, left)?;
    Ok(())
}

// The order with sets without members.
pub(crate) fn table_of(alloc: Global, order: &[VertexId]) -> Result<FlowTable, AllocError>
    requires { Distinct order.now }
    ensures { IfOk result (λ table. order_of table.table ≡ order.now) }
{
    let mut table = FlowTable::new(alloc);
    for v in order {
        table.add(*v, &[])?;
    }
    Ok(table)
}

// The rows of the outputs without inputs.
pub(crate) fn first_rows(
    alloc: Global,
    g: &OpenGraph,
    left: &VertexSet,
) -> Result<Vec<Row>, AllocError>
    requires { (w : ℕ) → is_in left.now.ids w ≡
        (member w (seen g.now.graph).ids && not ((seen g.now.graph).output w)) }
    ensures rows { IfOk result (λ rows.
        IsFrontierOf (seen g.now.graph) (is_in left.now.ids) rows.items) }
    ensures few { IfOk result (λ rows. length rows.items ≤ length g.now.graph.outputs) }
    ensures valid { WellFormed g.now.graph }
{
    let mut rows = Vec::new(alloc);
    for output in g.outputs() {
        let u = output.vertex;
        if g.input_at(u).is_none() {
            insert(&mut rows, alloc, g, u, left)?;
        }
    }
    Ok(rows)
}

// The correction set of the last vertex left.
pub(crate) fn correction(
    alloc: Global,
    g: &OpenGraph,
    rows: &[Row],
    v: VertexId,
) -> Result<VertexSet, AllocError>
    requires { IsVertex g.now.graph v }
    ensures { IfOk result (λ set. (w : ℕ) →
        member w set.ids ≡ set_from (seen g.now.graph) rows.now v w) }
{
    let (plane, _) = g.weight(v);
    let target = target_of(plane, v);
    let members = target.own_member(alloc)?;
    let mut row = Row {
        pivot: v,
        columns: VertexSet::new(alloc),
        members,
        size: 0,
    };
    add_picked(&mut row, g, &target, rows)?;
    Ok(row.members)
}

// What the other members of a set have to add up to, by the plane of its vertex.
pub(crate) fn target_of(plane: Plane, v: VertexId) -> Around
    ensures vertex { result.vertex ≡ v }
    ensures neighbours { result.neighbours ≡ inside_in (plane_named plane) }
    ensures itself { result.itself ≡ odd_in (plane_named plane) }
{
    match plane {
        Plane::XY => Around {
            vertex: v,
            neighbours: false,
            itself: true,
        },
        Plane::XZ => Around {
            vertex: v,
            neighbours: true,
            itself: true,
        },
        Plane::YZ => Around {
            vertex: v,
            neighbours: true,
            itself: false,
        },
    }
}
