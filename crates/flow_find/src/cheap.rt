//! Correction sets found along an order that is chosen on the way: the vertex that comes next is
//! one with a small set.

ghost use Rattle.std.specs.Prelude.{◌≡◌, ◌<◌, ◌≤◌, ℕ, List, true, length, IfOk, IfSome, OnOk, ltb};
ghost use Rattle.zx_model.specs.Bits.{member};
ghost use Rattle.zx_calculus.specs.Graph.{XY, Distinct, plane_of, in_order};
ghost use Rattle.gflow_laws.specs.Seen.{seen};
ghost use Rattle.gflow_laws.specs.Flow.{Correction, order_of, set_of, IsFlow};
ghost use Rattle.move_laws.specs.Orders.{HasFlowAlong};
ghost use Rattle.flow_find.specs.Internal.Next.{HasSetsOf, IsAloneIn, IsAlone, IsPlaceBefore, IsNextPlace, IsPutOff, IsChosen};

use crate::along::{correct_last, first_rows, table_of};
use crate::row::Row;
use crate::sets::set_of;
use open_graph::{OpenGraph, VertexId};
use std::alloc::{AllocError, Global};
use zx_flow::FlowTable;

/// Correction sets that make the vertices of an order a flow of a graph, in an order of its own,
/// where some do in the order given. From the end, a vertex of a small set comes next.
///
/// # Errors
///
/// Where memory runs out.
pub fn find_cheap(
    alloc: Global,
    g: &OpenGraph,
    mut order: Vec<VertexId>,
) -> Result<FlowTable, AllocError>
    requires { HasFlowAlong g.now.graph order.items }
    ensures { IfOk result (λ table. IsFlow g.now.graph table.table) }
{
    let mut table = table_of(alloc, &order)?;
    correct_all(alloc, g, &mut order, &mut table)?;
    reordered(alloc, &table, &order)
}

// Puts the sets into a table, and the vertices in the order in which they are a flow.
fn correct_all(
    alloc: Global,
    g: &OpenGraph,
    order: &mut Vec<VertexId>,
    table: &mut FlowTable,
) -> Result<(), AllocError>
    requires along { HasFlowAlong g.now.graph order.old.items }
    requires table { order_of table.old.table ≡ order.old.items }
    ensures once { OnOk result (Distinct order.new.items) }
    ensures listed { OnOk result ((v : ℕ) → member v order.new.items ≡ true →
        member v (order_of table.new.table) ≡ true) }
    ensures flow { OnOk result ((new : List Correction) → order_of new ≡ order.new.items →
        HasSetsOf table.new.table order.new.items new → IsFlow g.now.graph new) }
{
    let mut left = set_of(alloc, order)?;
    let mut rows = first_rows(alloc, g, &left)?;
    for i in (0..order.len()).rev() {
        choose(order, g, i, &rows)?;
        let v = order[i];
        correct_last(alloc, g, v, table, &mut left, &mut rows)?;
    }
    Ok(())
}

// The sets of a table in another order.
pub(crate) fn reordered(
    alloc: Global,
    table: &FlowTable,
    order: &[VertexId],
) -> Result<FlowTable, AllocError>
    requires once { Distinct order.now }
    requires listed { (v : ℕ) → member v order.now ≡ true →
        member v (order_of table.now.table) ≡ true }
    ensures order { IfOk result (λ new. order_of new.table ≡ order.now) }
    ensures sets { IfOk result (λ new. HasSetsOf table.now.table order.now new.table) }
{
    let mut new = FlowTable::new(alloc);
    for v in order {
        let members = members_of(alloc, table, *v)?;
        new.add(*v, &members)?;
    }
    Ok(new)
}

// The members of a set of a table.
fn members_of(alloc: Global, table: &FlowTable, v: VertexId) -> Result<Vec<VertexId>, AllocError>
    requires { member v (order_of table.now.table) ≡ true }
    ensures value { IfOk result (λ members. members.items ≡ set_of table.now.table v) }
    ensures rising { in_order ltb (set_of table.now.table v) ≡ true }
{
    table.correction(v).collect(alloc)
}

// Moves the vertex that comes next behind the others left, which stand up to this place.
fn choose(
    order: &mut Vec<VertexId>,
    g: &OpenGraph,
    last: usize,
    rows: &[Row],
) -> Result<(), AllocError>
    requires { last < length order.old.items }
    ensures { OnOk result (IsChosen (seen g.now.graph) rows.now last
        order.old.items order.new.items) }
{
    match next_place(g, order, last, rows) {
        Some(place) => put_off(order, place, last),
        None => Ok(()),
    }
}

// The place of the vertex that comes next, where it isn't the last one.
fn next_place(g: &OpenGraph, order: &[VertexId], last: usize, rows: &[Row]) -> Option<usize>
    requires { last < length order.now }
    ensures { IfSome result (λ place.
        IsNextPlace (seen g.now.graph) rows.now order.now last place) }
{
    if !is_xy(g, order[last]) {
        return None;
    }
    match cheapest(g, rows) {
        Some(v) => place_before(order, v, last),
        None => None,
    }
}

// The place of a vertex, where it stands before the last one left. It is looked for from the end,
// since what comes next is mostly near it.
fn place_before(order: &[VertexId], v: VertexId, last: usize) -> Option<usize>
    requires { last < length order.now }
    ensures { IfSome result (λ place. IsPlaceBefore order.now v last place) }
{
    for place in (0..last + 1).rev() {
        if order[place] == v {
            return Some(place);
        }
    }
    None
}

// Moves the vertex of a place to a later one.
fn put_off(order: &mut Vec<VertexId>, place: usize, last: usize) -> Result<(), AllocError>
    requires ordered { place ≤ last }
    requires within { last < length order.old.items }
    ensures { OnOk result (IsPutOff place last order.old.items order.new.items) }
{
    let v = order.remove(place);
    order.insert(last, v)?;
    Ok(())
}

// Of the XY vertices that are alone in a row, the one whose row has the fewest members.
pub(crate) fn cheapest(g: &OpenGraph, rows: &[Row]) -> Option<VertexId>
    ensures { IfSome result (λ v. IsAlone (seen g.now.graph) rows.now v) }
{
    let mut best = None;
    let mut fewest = usize::MAX;
    for row in rows {
        let size = row.size;
        if size < fewest {
            if let Some(v) = alone_in(g, row) {
                best = Some(v);
                fewest = size;
            }
        }
    }
    best
}

// The XY vertex that is alone in a row.
fn alone_in(g: &OpenGraph, row: &Row) -> Option<VertexId>
    ensures { IfSome result (λ v. IsAloneIn (seen g.now.graph) row.now v) }
{
    let v = row.columns.first_from(0)?;
    match row.columns.first_from(v.get() + 1) {
        None if is_xy(g, v) => Some(v),
        _ => None,
    }
}

// Whether it is a vertex of the XY plane.
pub(crate) fn is_xy(g: &OpenGraph, v: VertexId) -> bool
    ensures { result ≡ true → plane_of g.now.graph v ≡ XY }
{
    g.is_live(v) && g.is_xy(v)
}
