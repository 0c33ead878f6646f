//! A flow found where a graph has one.

ghost use Rattle.std.specs.Prelude.{◌≡◌, ◌≢◌, ◌<◌, ◌&&◌, ℕ, true, false, [], reverse, filter, not, IfOk, IfSome, IfNone, IsTrue, OnOk, ltb};
ghost use Rattle.zx_model.specs.Bits.{member};
ghost use Rattle.zx_calculus.specs.Graph.{IsVertex, Distinct, WellFormed, in_order};
ghost use Rattle.gflow_laws.specs.Seen.{seen};
ghost use Rattle.gflow_laws.specs.Flow.{is_in, order_of, IsFlow};
ghost use Rattle.flow_find.specs.Frontiers.{AreAll, around, set_from};
ghost use Rattle.flow_find.specs.Stuck.{IsLargestStuck};
ghost use Rattle.flow_find.specs.Found.{IfFlow, IfNoFlow};
ghost use Rattle.flow_find.specs.Internal.Next.{HasSetsOf};
ghost use Rattle.flow_find.specs.Internal.Searching.{IsUnderWay, left_in};
ghost use Rattle.flow_find.specs.Internal.Solving.{lacking, IsNeeded, IsMissed, IsNext, AreMissed};

use crate::along::{first_rows, table_of, target_of};
use crate::cheap::{cheapest, is_xy, reordered};
use crate::frontier::{left_neighbours, pass};
use crate::picked::Around;
use crate::ranks::measured;
use crate::row::Row;
use crate::rows::add_picked;
use crate::sets::{set_of, take_out};
use open_graph::{OpenGraph, VertexId, VertexSet};
use std::alloc::{AllocError, Global};
use zx_flow::FlowTable;

/// What a search for a flow of a graph comes to.
#[derive(Drop)]
pub enum Found {
    /// Correction sets that are a flow.
    Flow(FlowTable),
    /// There is no flow: while these vertices come before all others, no set corrects any of them.
    /// They are the largest such set, by rising id.
    NoFlow {
        /// The vertices that are left, of which there are some.
        left: Vec<VertexId>,
    },
}

// A vertex that comes next, and its correction set.
#[derive(Drop)]
pub(crate) struct Correctable {
    pub(crate) vertex: VertexId,
    pub(crate) members: VertexSet,
}

// The vertices that are left and the rows on them; the sets of those that were taken, which stand here
// with the last one at the end; and vertices beside them, one of which may come next.
#[derive(Drop)]
pub(crate) struct Search {
    pub(crate) left: VertexSet,
    pub(crate) rows: Vec<Row>,
    pub(crate) table: FlowTable,
    pub(crate) order: Vec<VertexId>,
    pub(crate) beside: Vec<VertexId>,
}

/// A flow of a graph, where it has one, and else the largest set of vertices that shows that it
/// has none.
///
/// # Errors
///
/// Where memory runs out.
pub fn find(alloc: Global, g: &OpenGraph) -> Result<Found, AllocError>
    ensures flow { IfOk result (λ found.
        IfFlow found (λ table. IsFlow g.now.graph table.table)) }
    ensures stuck { IfOk result (λ found.
        IfNoFlow found (λ left. IsLargestStuck g.now.graph left.items)) }
    ensures some { IfOk result (λ found. IfNoFlow found (λ left. left.items ≢ [])) }
{
    let mut search = Search::begin(alloc, g)?;
    'taking: while search.take_next(alloc, g)? {}
    if search.left.is_empty() {
        let flow = backwards(alloc, &search.table, &mut search.order)?;
        return Ok(Found::Flow(flow));
    }
    let stuck = listed(alloc, &search.left)?;
    Ok(Found::NoFlow { left: stuck })
}

impl Search {
    // Before any vertex is taken.
    fn begin(alloc: Global, g: &OpenGraph) -> Result<Search, AllocError>
        ensures { IfOk result (IsUnderWay g.now.graph) }
    {
        let all = measured(alloc, g)?;
        Search::of_vertices(alloc, g, &all)
    }

    // The same, by the vertices without outputs.
    fn of_vertices(alloc: Global, g: &OpenGraph, all: &[VertexId]) -> Result<Search, AllocError>
        requires all { all.now ≡ filter (λ v. not ((seen g.now.graph).output v)) (seen g.now.graph).ids }
        requires valid { WellFormed g.now.graph }
        ensures { IfOk result (IsUnderWay g.now.graph) }
    {
        let left = set_of(alloc, all)?;
        let rows = first_rows(alloc, g, &left)?;
        let table = table_of(alloc, all)?;
        Ok(Search {
            left,
            rows,
            table,
            order: Vec::new(alloc),
            beside: Vec::new(alloc),
        })
    }

    // Takes one vertex more, and tells whether there was one.
    fn take_next(&mut self, alloc: Global, g: &OpenGraph) -> Result<bool, AllocError>
        requires { IsUnderWay g.now.graph self.old }
        ensures under_way { OnOk result (IsUnderWay g.now.graph self.new) }
        ensures fewer { IfOk result (λ more. more ≡ true →
            left_in g.now.graph self.new < left_in g.now.graph self.old) }
        ensures none { IfOk result (λ more. more ≡ false →
            AreMissed (seen g.now.graph) (is_in self.new.left.ids) self.new.rows.items) }
    {
        match next_correctable(alloc, g, &self.rows, &self.left, &mut self.beside)? {
            Some(found) => {
                self.take(alloc, g, found)?;
                Ok(true)
            }
            None => Ok(false),
        }
    }

    // Takes this vertex.
    fn take(&mut self, alloc: Global, g: &OpenGraph, found: Correctable) -> Result<(), AllocError>
        requires under_way { IsUnderWay g.now.graph self.old }
        requires next { IsNext (seen g.now.graph) (is_in self.old.left.ids) self.old.rows.items found }
        ensures under_way { OnOk result (IsUnderWay g.now.graph self.new) }
        ensures fewer { OnOk result (left_in g.now.graph self.new < left_in g.now.graph self.old) }
    {
        let v = found.vertex;
        self.table.set(v, found.members);
        self.order.push(v)?;
        take_out(&mut self.left, v)?;
        pass(&mut self.rows, alloc, g, v, &self.left)?;
        note_neighbours(&mut self.beside, g, v)?;
        Ok(())
    }
}

// The sets of a table in the order that is the other way round.
fn backwards(
    alloc: Global,
    table: &FlowTable,
    order: &mut Vec<VertexId>,
) -> Result<FlowTable, AllocError>
    requires once { Distinct (reverse order.old.items) }
    requires listed { (v : ℕ) → member v (reverse order.old.items) ≡ true →
        member v (order_of table.now.table) ≡ true }
    ensures order { IfOk result (λ new. order_of new.table ≡ reverse order.old.items) }
    ensures sets { IfOk result (λ new. HasSetsOf table.now.table (reverse order.old.items) new.table) }
{
    order.reverse();
    reordered(alloc, table, order)
}

// The vertices of a set.
fn listed(alloc: Global, set: &VertexSet) -> Result<Vec<VertexId>, AllocError>
    ensures value { IfOk result (λ list. list.items ≡ set.now.ids) }
    ensures rising { in_order ltb set.now.ids ≡ true }
{
    set.iter().collect(alloc)
}

// Adds the neighbours of a vertex that aren't XY.
fn note_neighbours(noted: &mut Vec<VertexId>, g: &OpenGraph, v: VertexId) -> Result<(), AllocError>
    requires { IsVertex g.now.graph v }
{
    for w in g.neighbours(v) {
        if !is_xy(g, w) {
            noted.push(w)?;
        }
    }
    Ok(())
}

// A vertex left that is correctable, with its set: where there is one, an XY vertex that is alone
// in a row, and else one that isn't XY, of those beside a vertex that went at first.
fn next_correctable(
    alloc: Global,
    g: &OpenGraph,
    rows: &[Row],
    left: &VertexSet,
    beside: &mut Vec<VertexId>,
) -> Result<Option<Correctable>, AllocError>
    requires { (w : ℕ) → is_in left.now.ids w ≡ true → IsVertex g.now.graph w }
    ensures some { IfOk result (λ next.
        IfSome next (IsNext (seen g.now.graph) (is_in left.now.ids) rows.now)) }
    ensures none { IfOk result (λ next.
        IfNone next (AreMissed (seen g.now.graph) (is_in left.now.ids) rows.now)) }
{
    if let Some(found) = alone(alloc, g, rows, left)? {
        return Ok(Some(found));
    }
    if let Some(found) = any_noted(alloc, g, rows, left, beside)? {
        return Ok(Some(found));
    }
    if let Some(found) = first_left(alloc, g, rows, left, false)? {
        return Ok(Some(found));
    }
    first_left(alloc, g, rows, left, true)
}

// An XY vertex that is alone in a row.
fn alone(
    alloc: Global,
    g: &OpenGraph,
    rows: &[Row],
    left: &VertexSet,
) -> Result<Option<Correctable>, AllocError>
    requires { (w : ℕ) → is_in left.now.ids w ≡ true → IsVertex g.now.graph w }
    ensures { IfOk result (λ next.
        IfSome next (IsNext (seen g.now.graph) (is_in left.now.ids) rows.now)) }
{
    match cheapest(g, rows) {
        Some(v) if left.contains(v) => with_set(alloc, g, rows, left, v),
        _ => Ok(None),
    }
}

// The last correctable vertex of some, which are taken out up to it.
fn any_noted(
    alloc: Global,
    g: &OpenGraph,
    rows: &[Row],
    left: &VertexSet,
    noted: &mut Vec<VertexId>,
) -> Result<Option<Correctable>, AllocError>
    requires { (w : ℕ) → is_in left.now.ids w ≡ true → IsVertex g.now.graph w }
    ensures { IfOk result (λ next.
        IfSome next (IsNext (seen g.now.graph) (is_in left.now.ids) rows.now)) }
{
    'noted: while let Some(v) = noted.pop() {
        if left.contains(v) {
            if let Some(found) = with_set(alloc, g, rows, left, v)? {
                return Ok(Some(found));
            }
        }
    }
    Ok(None)
}

// The first correctable vertex, of all or of those that aren't XY.
fn first_left(
    alloc: Global,
    g: &OpenGraph,
    rows: &[Row],
    left: &VertexSet,
    all: bool,
) -> Result<Option<Correctable>, AllocError>
    requires { (w : ℕ) → is_in left.now.ids w ≡ true → IsVertex g.now.graph w }
    ensures some { IfOk result (λ next.
        IfSome next (IsNext (seen g.now.graph) (is_in left.now.ids) rows.now)) }
    ensures none { IfOk result (λ next. IfNone next (IsTrue all →
        AreMissed (seen g.now.graph) (is_in left.now.ids) rows.now)) }
{
    for v in left.iter() {
        if all || !g.is_xy(v) {
            if let Some(found) = with_set(alloc, g, rows, left, v)? {
                return Ok(Some(found));
            }
        }
    }
    Ok(None)
}

// A vertex left with its set, where it is correctable.
fn with_set(
    alloc: Global,
    g: &OpenGraph,
    rows: &[Row],
    left: &VertexSet,
    v: VertexId,
) -> Result<Option<Correctable>, AllocError>
    requires live { IsVertex g.now.graph v }
    requires there { is_in left.now.ids v ≡ true }
    ensures some { IfOk result (λ next.
        IfSome next (IsNext (seen g.now.graph) (is_in left.now.ids) rows.now)) }
    ensures none { IfOk result (λ next.
        IfNone next (IsMissed (seen g.now.graph) (is_in left.now.ids) rows.now v)) }
{
    if lacks_column(g, rows, left, v) {
        return Ok(None);
    }
    let row = solved(alloc, g, rows, left, v)?;
    if row.columns.is_empty() {
        Ok(Some(Correctable {
            vertex: v,
            members: row.members,
        }))
    } else {
        Ok(None)
    }
}

// Whether the rows lack a column that a vertex left needs.
fn lacks_column(g: &OpenGraph, rows: &[Row], left: &VertexSet, v: VertexId) -> bool
    requires live { IsVertex g.now.graph v }
    requires there { is_in left.now.ids v ≡ true }
    ensures { result ≡ true → IsMissed (seen g.now.graph) (is_in left.now.ids) rows.now v }
{
    match needed_column(g, left, v) {
        Some(w) => !is_column(rows, w),
        None => false,
    }
}

// A column that a vertex left needs: itself, where it is XY, and else a neighbour that is left.
fn needed_column(g: &OpenGraph, left: &VertexSet, v: VertexId) -> Option<VertexId>
    requires live { IsVertex g.now.graph v }
    requires there { is_in left.now.ids v ≡ true }
    ensures { IfSome result (IsNeeded (seen g.now.graph) (is_in left.now.ids) v) }
{
    if g.is_xy(v) {
        return Some(v);
    }
    for w in g.neighbours(v) {
        if left.contains(w) {
            return Some(w);
        }
    }
    None
}

// Whether a vertex is a column of some row.
fn is_column(rows: &[Row], w: VertexId) -> bool
    ensures { result ≡ false → AreAll (λ row. member w row.columns.ids ≡ false) rows.now }
{
    for row in rows {
        if row.columns.contains(w) {
            return true;
        }
    }
    false
}

// The set that the rows give a vertex, with the columns that they lack.
fn solved(
    alloc: Global,
    g: &OpenGraph,
    rows: &[Row],
    left: &VertexSet,
    v: VertexId,
) -> Result<Row, AllocError>
    requires live { IsVertex g.now.graph v }
    requires there { is_in left.now.ids v ≡ true }
    ensures columns { IfOk result (λ row. (w : ℕ) → member w row.columns.ids ≡
        lacking (seen g.now.graph) (is_in left.now.ids) rows.now v w) }
    ensures members { IfOk result (λ row. (w : ℕ) → member w row.members.ids ≡
        set_from (seen g.now.graph) rows.now v w) }
{
    let (plane, _) = g.weight(v);
    let target = target_of(plane, v);
    let members = target.own_member(alloc)?;
    let mut row = Row {
        pivot: v,
        columns: left_around(alloc, g, left, &target)?,
        members,
        size: 0,
    };
    add_picked(&mut row, g, &target, rows)?;
    Ok(row)
}

// The neighbours of a vertex that are left, itself, or both.
fn left_around(
    alloc: Global,
    g: &OpenGraph,
    left: &VertexSet,
    target: &Around,
) -> Result<VertexSet, AllocError>
    requires live { IsVertex g.now.graph target.now.vertex }
    requires there { is_in left.now.ids target.now.vertex ≡ true }
    ensures { IfOk result (λ set. (w : ℕ) → member w set.ids ≡
        (is_in left.now.ids w && around (seen g.now.graph)
        target.now.vertex target.now.neighbours target.now.itself w)) }
{
    let mut set = if target.neighbours {
        left_neighbours(g, target.vertex, left)?
    } else {
        VertexSet::new(alloc)
    };
    if target.itself {
        set.toggle(target.vertex)?;
    }
    Ok(set)
}
