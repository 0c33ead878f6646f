//! Rows that are added to each other.

ghost use Rattle.std.specs.Prelude.{◌≡◌, ◌==◌, false, [], position, OnOk, IfSome, IfNone};
ghost use Rattle.zx_calculus.specs.Graph.{IsVertex};
ghost use Rattle.gflow_laws.specs.Seen.{seen};
ghost use Rattle.flow_find.specs.Frontiers.{AreAll, around};
ghost use Rattle.flow_find.specs.Internal.Rows.{AreEach, IsSum, IsCleared, IsRelieved, IsDropped, IsPut, IsRowTaken, IsSpent};

use crate::picked::Around;
use crate::row::Row;
use open_graph::{OpenGraph, VertexId};
use std::alloc::AllocError;

// Adds the rows whose pivots are picked.
pub(crate) fn add_picked(
    sum: &mut Row,
    g: &OpenGraph,
    picked: &Around,
    rows: &[Row],
) -> Result<(), AllocError>
    requires { IsVertex g.now.graph picked.now.vertex }
    ensures { OnOk result (IsSum (around (seen g.now.graph)
        picked.now.vertex picked.now.neighbours picked.now.itself) rows.now sum.old sum.new) }
{
    for row in rows {
        sum.add_if(picked.has(g, row.pivot), row)?;
    }
    Ok(())
}

// Takes a column out of all rows.
pub(crate) fn drop_column(rows: &mut [Row], v: VertexId) -> Result<(), AllocError>
    ensures { OnOk result (AreEach (IsDropped v) rows.old rows.new) }
{
    for row in rows.iter_mut() {
        row.drop_column(v)?;
    }
    Ok(())
}

// Puts a row among the others: its first column becomes its pivot, and is cleared in them. Where it
// has no column its members add up to nothing, so one of them can leave all rows.
pub(crate) fn put(rows: &mut Vec<Row>, mut row: Row) -> Result<(), AllocError>
    ensures { OnOk result (IsPut row rows.old.items rows.new.items) }
{
    match row.columns.first_from(0) {
        Some(pivot) => {
            clear_column(rows, pivot, &row)?;
            row.pivot = pivot;
            rows.push(row)?;
            Ok(())
        }
        None => relieve(rows, &row),
    }
}

// Adds a row to those that have a column.
fn clear_column(rows: &mut [Row], column: VertexId, row: &Row) -> Result<(), AllocError>
    ensures { OnOk result (AreEach (IsCleared column row.now) rows.old rows.new) }
{
    for other in rows.iter_mut() {
        let has_it = other.columns.contains(column);
        other.add_counted_if(has_it, row)?;
    }
    Ok(())
}

// Adds a row without columns to those that have its first member.
fn relieve(rows: &mut [Row], row: &Row) -> Result<(), AllocError>
    requires { row.now.columns.ids ≡ [] }
    ensures { OnOk result (IsSpent row.now rows.old rows.new) }
{
    match row.members.first_from(0) {
        Some(member) => clear_member(rows, member, row),
        None => Ok(()),
    }
}

// Adds a row to those that have a member.
fn clear_member(rows: &mut [Row], member: VertexId, row: &Row) -> Result<(), AllocError>
    ensures { OnOk result (AreEach (IsRelieved member row.now) rows.old rows.new) }
{
    for other in rows.iter_mut() {
        let has_it = other.members.contains(member);
        other.add_counted_if(has_it, row)?;
    }
    Ok(())
}

// Takes out a row with this pivot.
pub(crate) fn take_pivot(rows: &mut Vec<Row>, v: VertexId) -> Option<Row>
    ensures some { IfSome result (λ row. IsRowTaken v row rows.old.items rows.new.items) }
    ensures none { IfNone result (AreAll (λ row. (row.pivot == v) ≡ false) rows.new.items) }
    ensures same { IfNone result (rows.new.items ≡ rows.old.items) }
{
    match place_of(rows, v) {
        Some(i) => Some(rows.remove(i)),
        None => None,
    }
}

// The place of the first row with this pivot.
fn place_of(rows: &[Row], v: VertexId) -> Option<usize>
    ensures { result ≡ position (λ row. row.pivot == v) rows.now }
{
    rows.iter().position(|row| row.pivot == v)
}
