//! The two sides of a graph, and changes of the ends of either.

ghost use Rattle.std.specs.Prelude.{◌≡◌, ◌<◌, ◌≤◌, ◌++◌, ℕ, [], ◌∷◌, false, is_some, Some, length, remove, slice_get, slice_set, slice_index_or};
ghost use Rattle.std.specs.Prelude.{IfSome, OnOk, OnErr};
ghost use Rattle.zx_model.specs.Bits.{member};
ghost use Rattle.zx_calculus.specs.Graph.{end_vertices, plane_of, IsVertex, WellFormed};
ghost use Rattle.zx_calculus.specs.Graph as zx;
ghost use Rattle.open_graph.specs.Sides.{ends_of, with_ends};
ghost use Rattle.open_graph.specs.Internal.Table.{HasSlot};
ghost use Rattle.open_graph.specs.Internal.Slots.{told_at, graph_of, IsSound};
ghost use Rattle.open_graph.specs.Internal.Room.{vacant_in, KeepsRoom, HasRoom};
ghost use Rattle.open_graph.specs.Internal.Sides.{with_side_place, Moves};
ghost use Rattle.open_graph.specs.Internal.Changes.{Puts};

use crate::end::End;
use crate::id::VertexId;
use crate::open_graph::OpenGraph;
use crate::slot_table::SlotTable;
use crate::slots;
use crate::vertex_set::VertexSet;
use std::alloc::AllocError;

/// Whether a wire is an input or an output.
#[derive(Clone, Copy, Debug, PartialEq, Eq)]
pub enum Side {
    /// It is an input.
    Input,
    /// It is an output.
    Output,
}

impl Side {
    /// The ends of the side, in their order.
    pub fn ends(self, g: &OpenGraph) -> &[End]
        ensures value { result.now ≡ ends_of self g.now.graph }
        ensures valid { WellFormed g.now.graph }
    {
        match self {
            Side::Input => g.inputs(),
            Side::Output => g.outputs(),
        }
    }

    /// The place of a vertex's end on the side, where it has one.
    pub fn place_at(self, g: &OpenGraph, v: VertexId) -> Option<usize>
        requires { IsVertex g.now.graph v }
        ensures found { is_some result ≡ member v (end_vertices (ends_of self g.now.graph)) }
        ensures place { IfSome result (λ i. slice_get (end_vertices (ends_of self g.now.graph)) i ≡ Some v) }
    {
        match self {
            Side::Input => g.input_at(v),
            Side::Output => g.output_at(v),
        }
    }

    /// Replaces the end of the side at a place.
    pub fn move_end(self, g: &mut OpenGraph, i: usize, end: End)
        requires in_range { i < length (ends_of self g.old.graph) }
        requires live { IsVertex g.old.graph end.vertex }
        requires plane { plane_of g.old.graph end.vertex ≡ zx.XY }
        requires free { member end.vertex (end_vertices (remove (ends_of self g.old.graph) i)) ≡ false }
        ensures ok { let ends = slice_set (ends_of self g.old.graph) i end in
            g.new.graph ≡ with_ends self ends g.old.graph }
        ensures room { g.new.room ≡ g.old.room }
        ensures valid { WellFormed g.new.graph }
    {
        match self {
            Side::Input => g.move_input(i, end),
            Side::Output => g.move_output(i, end),
        }
    }
}

// Adds an end after all others of its side.
pub(crate) fn add_end(
    ends: &mut Vec<End>,
    slots: &mut SlotTable,
    side: Side,
    end: End,
) -> Result<(), AllocError>
    requires { HasSlot slots.old end.vertex }
    ensures ends { OnOk result (ends.new.items ≡ ends.old.items ++ end ∷ []) }
    ensures slots { OnOk result (Puts slots.old.slots slots.new.slots end.vertex
        (with_side_place side (Some (length ends.old.items)) (told_at slots.old.slots end.vertex))) }
    ensures room { (reach : ℕ) → KeepsRoom reach slots.old.slots slots.new.slots }
    ensures err { OnErr result ((ends.new.items ≡ ends.old.items) × (slots.new.slots ≡ slots.old.slots)) }
{
    let place = ends.len();
    ends.push(end)?;
    slots::set_place(slots, end.vertex, side, Some(place));
    Ok(())
}

// Replaces the end of a side at a place.
pub(crate) fn move_end(ends: &mut Vec<End>, slots: &mut SlotTable, side: Side, i: usize, end: End)
    requires in_range { i < length ends.old.items }
    requires before { HasSlot slots.old (slice_index_or ends.old.items i end).vertex }
    requires after { HasSlot slots.old end.vertex }
    ensures ends { ends.new.items ≡ slice_set ends.old.items i end }
    ensures slots { Moves side i (slice_index_or ends.old.items i end).vertex end.vertex
        slots.old.slots slots.new.slots }
    ensures room { (reach : ℕ) → KeepsRoom reach slots.old.slots slots.new.slots }
{
    let before = ends[i];
    slots::set_place(slots, before.vertex, side, None);
    slots::set_place(slots, end.vertex, side, Some(i));
    ends[i] = end;
}

// Removes all vertices, whose rows may tell different edges, and all ends, and keeps the rows for
// their ids.
pub(crate) fn clear(
    slots: &mut SlotTable,
    kept: &mut Vec<VertexSet>,
    inputs: &mut Vec<End>,
    outputs: &mut Vec<End>,
)
    ensures sound { IsSound slots.new.slots inputs.new.items outputs.new.items }
    ensures empty { graph_of slots.new.slots inputs.new.items outputs.new.items ≡
        record { vertices = []; edges = []; inputs = []; outputs = [] } }
    ensures spare { vacant_in slots.old.slots ≤ vacant_in slots.new.slots }
    ensures room { (reach : ℕ) → HasRoom reach slots.old.slots kept.old.items →
        HasRoom reach slots.new.slots kept.new.items }
{
    slots::clear(slots, kept);
    inputs.clear();
    outputs.clear();
}
