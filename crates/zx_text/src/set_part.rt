//! The lines of a flow in a file.

ghost use Rattle.std.specs.Prelude.{◌≡◌, ◌&&◌, ◌∷◌, [], ℕ, true, false, drop, IfOk, IfNone, IfSome};
ghost use Rattle.std.specs.List.{list_all};
ghost use Rattle.zx_model.specs.Bits.{member};
ghost use Rattle.zx_calculus.specs.Graph.{in_order, different};
ghost use Rattle.zx_text.specs.Files.{non_outputs};
ghost use Rattle.zx_text.specs.Internal.Stepping.{ordered, order_fits, set_fits, set_added, no_sets};

use crate::graph_part::GraphPart;
use crate::members::rising_set;
use open_graph::{OpenGraph, VertexId, VertexSet};
use std::alloc::{AllocError, Global};
use std::marker::Model;
use zx_flow::FlowTable;

// What the lines say behind that of the order.
#[derive(Drop)]
pub(crate) struct SetPart {
    pub(crate) graph: OpenGraph,
    pub(crate) table: FlowTable,
    alloc: Global,
    vertices: usize,
    // The vertices without an output, by rising id, and how many of their sets are there.
    all: Vec<VertexId>,
    place: usize,
}

impl Model for SetPart {
    ghost use Rattle.std.specs.Prelude.{take, drop};
    ghost use Rattle.zx_text.specs.Internal.Parts.{IsNumbered, AreInTable};
    ghost use Rattle.zx_text.specs.Internal.Stepping.{Sets};

    ghost Value = { Sets };

    ghost view = { λ p. record {
      graph = p.graph.graph;
      table = p.table.table;
      done = take p.place p.all.items;
      left = drop p.place p.all.items;
    } };

    ghost invariant = { λ p. IsNumbered p.graph.graph p.vertices × AreInTable p.table.table p.all.items };
}

impl SetPart {
    // Behind the line of an order, if that has each vertex without an output once and no other.
    pub(crate) fn of_order(
        alloc: Global,
        part: GraphPart,
        order: &[usize],
    ) -> Result<Option<SetPart>, AllocError>
        ensures some { IfOk result (λ found. IfSome found (λ p. p ≡ ordered part.graph order.now)) }
        ensures fits { IfOk result (λ found. IfSome found (λ p. order_fits part.graph order.now ≡ true)) }
        ensures none { IfOk result (λ found. IfNone found (order_fits part.graph order.now ≡ false)) }
    {
        match table_of(alloc, &part, order) {
            Ok(Some((table, all))) => Ok(Some(SetPart {
                graph: part.graph,
                table,
                alloc,
                vertices: part.vertices,
                all,
                place: 0,
            })),
            Ok(None) => {
                drop(part);
                Ok(None)
            }
            Err(error) => {
                drop(part);
                Err(error)
            }
        }
    }

    // The vertex whose set comes next, if there is one.
    pub(crate) fn next(&self) -> Option<VertexId>
        ensures some { IfSome result (λ v. self.now.left ≡ v ∷ drop 1 self.now.left) }
        ensures none { IfNone result (self.now.left ≡ []) }
    {
        self.all.get(self.place).copied()
    }

    // Puts in the set of the next vertex, and tells whether its line fits.
    pub(crate) fn take_set(&mut self, v: VertexId, members: &[usize]) -> Result<bool, AllocError>
        requires next { self.old.left ≡ v ∷ drop 1 self.old.left }
        ensures fits { IfOk result (λ fits. fits ≡ set_fits self.old.graph members.now) }
        ensures added { IfOk result (λ fits. fits ≡ true →
            self.new ≡ set_added self.old (drop 1 self.old.left) v members.now) }
    {
        match rising_set(self.alloc, members, self.vertices)? {
            Some(set) => {
                self.table.set(v, set);
                self.place += 1;
                Ok(true)
            }
            None => Ok(false),
        }
    }
}

// The table of an order without sets, and the vertices without an output, if each of these stands in the order once, and
// no other does.
fn table_of(
    alloc: Global,
    part: &GraphPart,
    order: &[usize],
) -> Result<Option<(FlowTable, Vec<VertexId>)>, AllocError>
    ensures table { IfOk result (λ found. IfSome found (λ p. p.0.table ≡ no_sets order.now)) }
    ensures all { IfOk result (λ found. IfSome found (λ p. p.1.items ≡ non_outputs part.now.graph)) }
    ensures fits { IfOk result (λ found. IfSome found (λ p. order_fits part.now.graph order.now ≡ true)) }
    ensures none { IfOk result (λ found. IfNone found (order_fits part.now.graph order.now ≡ false)) }
{
    let all = without_output(alloc, part)?;
    let mut table = FlowTable::new(alloc);
    if is_order(alloc, part, order, &all, &mut table)? {
        Ok(Some((table, all)))
    } else {
        Ok(None)
    }
}

// Puts an order into a table, and tells whether each of the vertices without an output, which are lent, stands in it
// once, and no other does.
fn is_order(
    alloc: Global,
    part: &GraphPart,
    order: &[usize],
    all: &[VertexId],
    table: &mut FlowTable,
) -> Result<bool, AllocError>
    requires all { all.now ≡ non_outputs part.now.graph }
    requires empty { table.old.table ≡ [] }
    ensures fits { IfOk result (λ fits. fits ≡ order_fits part.now.graph order.now) }
    ensures table { IfOk result (λ fits. fits ≡ true → table.new.table ≡ no_sets order.now) }
{
    let mut placed = VertexSet::new(alloc);
    if place_all(part, order, table, &mut placed)? {
        Ok(has_all(&placed, all))
    } else {
        Ok(false)
    }
}

// Puts an order into a table and its vertices into a set, and tells whether each stands in it once and has no output.
fn place_all(
    part: &GraphPart,
    order: &[usize],
    table: &mut FlowTable,
    placed: &mut VertexSet,
) -> Result<bool, AllocError>
    requires table { table.old.table ≡ [] }
    requires placed { placed.old.ids ≡ [] }
    ensures table { IfOk result (λ fits. fits ≡ true → table.new.table ≡ no_sets order.now) }
    ensures placed { IfOk result (λ fits. fits ≡ true →
        (w : ℕ) → member w placed.new.ids ≡ member w order.now) }
    ensures fits { IfOk result (λ fits. fits ≡ (in_order different order.now
        && list_all (λ v. member v (non_outputs part.now.graph)) order.now)) }
{
    for number in order {
        let v = VertexId::new(*number);
        if !has_no_output(part, v) {
            return Ok(false);
        }
        if placed.contains(v) {
            return Ok(false);
        }
        table.add(v, &[])?;
        placed.toggle(v)?;
    }
    Ok(true)
}

// Whether an id is that of a vertex without an output.
fn has_no_output(part: &GraphPart, v: VertexId) -> bool
    ensures { result ≡ member v (non_outputs part.now.graph) }
{
    part.graph.is_live(v) && part.graph.output_at(v).is_none()
}

// The vertices without an output, by rising id.
fn without_output(alloc: Global, part: &GraphPart) -> Result<Vec<VertexId>, AllocError>
    ensures { IfOk result (λ found. found.items ≡ non_outputs part.now.graph) }
{
    let mut found = Vec::new(alloc);
    for v in part.graph.vertices() {
        if part.graph.output_at(v).is_none() {
            found.push(v)?;
        }
    }
    Ok(found)
}

// Whether a set has all these vertices.
fn has_all(set: &VertexSet, vertices: &[VertexId]) -> bool
    ensures { result ≡ list_all (λ v. member v set.now.ids) vertices.now }
{
    vertices.iter().all(|v| set.contains(*v))
}
