//! Changes of one slot.

ghost use Rattle.std.specs.Prelude.{ltb, ◌≡◌, ◌≢◌, ◌<◌, ◌+◌, ◌-◌, ◌≤◌, ◌==◌, ◌&&◌, ℕ, [], ◌∷◌, Some, None, true, false, length, IsOk, IfOk, OnOk, OnErr};
ghost use Rattle.zx_model.specs.Bits.{member};
ghost use Rattle.open_graph.specs.Internal.Table.{slot_at, HasSlot};
ghost use Rattle.zx_calculus.specs.Turns.{in_plane};
ghost use Rattle.zx_calculus.specs.Graph.{in_order, Graph, IsVertex, WellFormed, Distinct};
ghost use Rattle.zx_calculus.proofs.Ids.{removed};
ghost use Rattle.zx_calculus.proofs.EditPrograms.{toggled};
ghost use Rattle.open_graph.specs.Planes.{plane_named};
ghost use Rattle.open_graph.specs.Turns.{turned_by, turned_in, power_of};
ghost use Rattle.open_graph.specs.Internal.Rows.{inserted};
ghost use Rattle.open_graph.specs.Internal.Room.{vacant_in, room_by, HasRows, KeepsRoom, room_at, row_kept, AreEmpty, HasRoom, CanHold, SameRoom};
ghost use Rattle.open_graph.specs.Internal.Slots.{nothing, told_at, adjacent};
ghost use Rattle.open_graph.specs.Internal.Sides.{with_side_place};
ghost use Rattle.open_graph.specs.Internal.Changes.{Puts, SameTold, Stores, RemovedFrom, RowsToggled, two_among, KindsChanged, powers_in};
ghost use Rattle.zx_calculus.specs.Toggles.{across};
ghost use Rattle.zx_bits.specs.Sets.{IsBelow};

use crate::id::VertexId;
use crate::plane::Plane;
use crate::scratch::Scratch;
use crate::side::Side;
use crate::slot::Slot;
use crate::slot_table::SlotTable;
use crate::turn::Turn;
use crate::vertex_set::VertexSet;
use std::alloc::{AllocError, Global};
use std::mem;
use zx_model::Sixteenth;

// Adds a vertex without neighbours and ends, of the least id that has none.
pub(crate) fn add(
    slots: &mut SlotTable,
    kept: &mut Vec<VertexSet>,
    alloc: Global,
    plane: Plane,
    phase: Sixteenth,
) -> Result<VertexId, AllocError>
    requires { AreEmpty kept.old.items }
    ensures vacant { IfOk result (λ v. slot_at slots.old v ≡ None) }
    ensures least { IfOk result (λ v. (lower : ℕ) → lower < v → HasSlot slots.old lower) }
    ensures ok { IfOk result (λ v. Puts slots.old.slots slots.new.slots v
        (record nothing { live = true; kind = in_plane (plane_named plane) phase })) }
    ensures err { OnErr result (SameTold slots.old.slots slots.new.slots) }
    ensures has_room { 0 < vacant_in slots.old.slots → IsOk result }
    ensures spare { OnOk result (vacant_in slots.new.slots ≡ vacant_in slots.old.slots - 1) }
    ensures as_was { OnErr result (slots.new ≡ slots.old) }
    ensures room { (reach : ℕ) → HasRoom reach slots.old.slots kept.old.items →
        HasRoom reach slots.new.slots kept.new.items }
{
    let v = add_alone(slots, alloc, plane, phase)?;
    give_row(slots, kept, alloc, v);
    Ok(v)
}

// The same with a new row, whatever rows are kept.
fn add_alone(
    slots: &mut SlotTable,
    alloc: Global,
    plane: Plane,
    phase: Sixteenth,
) -> Result<VertexId, AllocError>
    ensures vacant { IfOk result (λ v. slot_at slots.old v ≡ None) }
    ensures least { IfOk result (λ v. (lower : ℕ) → lower < v → HasSlot slots.old lower) }
    ensures there { IfOk result (λ v. HasSlot slots.new v) }
    ensures alone { IfOk result (λ v. (told_at slots.new.slots v).row ≡ []) }
    ensures others { IfOk result (λ v. (p : ℕ) → p ≢ v →
        slot_at slots.new p ≡ slot_at slots.old p) }
    ensures ok { IfOk result (λ v. Puts slots.old.slots slots.new.slots v
        (record nothing { live = true; kind = in_plane (plane_named plane) phase })) }
    ensures err { OnErr result (SameTold slots.old.slots slots.new.slots) }
    ensures has_room { 0 < vacant_in slots.old.slots → IsOk result }
    ensures spare { OnOk result (vacant_in slots.new.slots ≡ vacant_in slots.old.slots - 1) }
    ensures as_was { OnErr result (slots.new ≡ slots.old) }
{
    let key = slots.insert(Slot {
        plane,
        phase,
        row: VertexSet::new(alloc),
        input: None,
        output: None,
    })?;
    Ok(VertexId::new(key))
}

// Gives a vertex without neighbours the row that is kept for its id, if there is one.
fn give_row(slots: &mut SlotTable, kept: &mut Vec<VertexSet>, alloc: Global, v: VertexId)
    requires live { HasSlot slots.old v }
    requires alone { (told_at slots.old.slots v).row ≡ [] }
    requires empty { AreEmpty kept.old.items }
    ensures same { SameTold slots.old.slots slots.new.slots }
    ensures spare { vacant_in slots.new.slots ≡ vacant_in slots.old.slots }
    ensures there { HasSlot slots.new v }
    ensures others { (p : ℕ) → p ≢ v → slot_at slots.new p ≡ slot_at slots.old p }
    ensures room { v < length kept.old.items →
        room_by (slot_at slots.new v) ≡ (row_kept kept.old.items v).room }
    ensures others_kept { (p : ℕ) → p ≢ v → row_kept kept.new.items p ≡ row_kept kept.old.items p }
    ensures covers { length kept.new.items ≡ length kept.old.items }
    ensures empty { AreEmpty kept.new.items }
{
    if v.get() < kept.len() {
        let row = mem::replace(&mut kept[v.get()], VertexSet::new(alloc));
        slots[v.get()].row = row;
    }
}

// Up to which bound the row of a vertex keeps its room: the reach, or 0 for an id that isn't
// below it.
fn bound_of(u: VertexId, reach: usize) -> usize
    ensures below { u < reach → result ≡ reach }
    ensures above { reach ≤ u → result ≡ 0 }
{
    if u.get() < reach { reach } else { 0 }
}

// Adds a vertex to the neighbours of another.
pub(crate) fn add_neighbour(
    slots: &mut SlotTable,
    reach: usize,
    u: VertexId,
    v: VertexId,
) -> Result<(), AllocError>
    requires live { HasSlot slots.old u }
    requires apart { adjacent slots.old.slots u v ≡ false }
    ensures ok { OnOk result (let t = told_at slots.old.slots u in
        Puts slots.old.slots slots.new.slots u (record t { row = inserted v t.row })) }
    ensures err { OnErr result (SameTold slots.old.slots slots.new.slots) }
    ensures room { KeepsRoom reach slots.old.slots slots.new.slots }
    ensures has_room { HasRows reach slots.old.slots → u < reach → v < reach → IsOk result }
{
    let bound = bound_of(u, reach);
    slots[u.get()].row.insert_within(v, bound)
}

// Takes a vertex out of the neighbours of another.
pub(crate) fn remove_neighbour(slots: &mut SlotTable, u: VertexId, v: VertexId)
    requires { HasSlot slots.old u }
    ensures puts { let t = told_at slots.old.slots u in
        Puts slots.old.slots slots.new.slots u (record t { row = removed v t.row }) }
    ensures room { (reach : ℕ) → KeepsRoom reach slots.old.slots slots.new.slots }
{
    slots[u.get()].row.remove(v);
}

// Toggles the edge between two vertices in both rows. Where memory runs out, the rows are as they were.
pub(crate) fn toggle(
    slots: &mut SlotTable,
    reach: usize,
    u: VertexId,
    v: VertexId,
) -> Result<(), AllocError>
    requires u_live { HasSlot slots.old u }
    requires v_live { HasSlot slots.old v }
    requires different { u ≢ v }
    requires symmetric { adjacent slots.old.slots u v ≡ adjacent slots.old.slots v u }
    ensures ok { OnOk result ((h : Graph) → WellFormed h → IsVertex h u → IsVertex h v
        → Stores slots.old.slots h → Stores slots.new.slots (toggled h u v)) }
    ensures err { OnErr result (SameTold slots.old.slots slots.new.slots) }
    ensures room { KeepsRoom reach slots.old.slots slots.new.slots }
    ensures has_room { HasRows reach slots.old.slots → u < reach → v < reach → IsOk result }
{
    if joins(slots, u, v) {
        remove_neighbour(slots, u, v);
        remove_neighbour(slots, v, u);
        return Ok(());
    }
    add_neighbour(slots, reach, u, v)?;
    if let Err(error) = add_neighbour(slots, reach, v, u) {
        remove_neighbour(slots, u, v);
        return Err(error);
    }
    Ok(())
}

// Toggles vertices in the row of another.
fn toggle_row(
    slots: &mut SlotTable,
    reach: usize,
    u: VertexId,
    others: &VertexSet,
) -> Result<(), AllocError>
    requires live { HasSlot slots.old u }
    requires others_live { (q : ℕ) → member q others.now.ids ≡ true → HasSlot slots.old q }
    ensures toggled { OnOk result (RowsToggled slots.old.slots slots.new.slots
        (λ p q. (p == u) && member q others.now.ids)) }
    ensures room { KeepsRoom reach slots.old.slots slots.new.slots }
    ensures has_room { HasRows reach slots.old.slots → u < reach → IsBelow reach others.now.ids →
        IsOk result }
{
    let bound = bound_of(u, reach);
    let end = slots.len();
    slots[u.get()].row.toggle_all_within(others, bound, end)
}

// Toggles a vertex in its own row.
fn toggle_itself(slots: &mut SlotTable, u: VertexId) -> Result<(), AllocError>
    requires { HasSlot slots.old u }
    ensures toggled { OnOk result (RowsToggled slots.old.slots slots.new.slots
        (λ p q. (p == u) && (q == u))) }
    ensures room { (reach : ℕ) → KeepsRoom reach slots.old.slots slots.new.slots }
    ensures has_room { (reach : ℕ) → HasRows reach slots.old.slots → u < reach → IsOk result }
{
    slots[u.get()].row.toggle(u)
}

// Toggles vertices in the rows of others.
fn toggle_rows(
    slots: &mut SlotTable,
    reach: usize,
    vertices: &VertexSet,
    others: &VertexSet,
) -> Result<(), AllocError>
    requires live { (p : ℕ) → member p vertices.now.ids ≡ true → HasSlot slots.old p }
    requires others_live { (q : ℕ) → member q others.now.ids ≡ true → HasSlot slots.old q }
    ensures toggled { OnOk result (RowsToggled slots.old.slots slots.new.slots
        (λ p q. member p vertices.now.ids && member q others.now.ids)) }
    ensures room { KeepsRoom reach slots.old.slots slots.new.slots }
    ensures has_room { HasRows reach slots.old.slots → IsBelow reach vertices.now.ids →
        IsBelow reach others.now.ids → IsOk result }
{
    for u in vertices.iter() {
        toggle_row(slots, reach, u, others)?;
    }
    Ok(())
}

// Toggles the edge of each pair across two sets, in both rows. Where memory runs out, the rows may
// be any.
pub(crate) fn toggle_across(
    slots: &mut SlotTable,
    reach: usize,
    left: &VertexSet,
    right: &VertexSet,
) -> Result<(), AllocError>
    requires left_live { (p : ℕ) → member p left.now.ids ≡ true → HasSlot slots.old p }
    requires right_live { (p : ℕ) → member p right.now.ids ≡ true → HasSlot slots.old p }
    ensures toggled { OnOk result
        (RowsToggled slots.old.slots slots.new.slots (across left.now.ids right.now.ids)) }
    ensures room { KeepsRoom reach slots.old.slots slots.new.slots }
    ensures has_room { HasRows reach slots.old.slots → IsBelow reach left.now.ids →
        IsBelow reach right.now.ids → IsOk result }
{
    toggle_rows(slots, reach, left, right)?;
    toggle_rows(slots, reach, right, left)
}

// Toggles the edge of each pair of a set's vertices, in both rows. Where memory runs out, the rows
// may be any.
pub(crate) fn toggle_among(
    slots: &mut SlotTable,
    reach: usize,
    near: &VertexSet,
) -> Result<(), AllocError>
    requires { (p : ℕ) → member p near.now.ids ≡ true → HasSlot slots.old p }
    ensures toggled { OnOk result
        (RowsToggled slots.old.slots slots.new.slots (two_among near.now.ids)) }
    ensures room { KeepsRoom reach slots.old.slots slots.new.slots }
    ensures has_room { HasRows reach slots.old.slots → IsBelow reach near.now.ids → IsOk result }
{
    for p in near.iter() {
        toggle_row(slots, reach, p, near)?;
        toggle_itself(slots, p)?;
    }
    Ok(())
}

// Makes a set that of the neighbours of a vertex.
fn copy_row(
    slots: &SlotTable,
    reach: usize,
    u: VertexId,
    set: &mut VertexSet,
) -> Result<(), AllocError>
    requires live { HasSlot slots.now u }
    requires near_live { (q : ℕ) → adjacent slots.now.slots u q ≡ true → HasSlot slots.now q }
    ensures members { OnOk result ((q : ℕ) →
        member q set.new.ids ≡ adjacent slots.now.slots u q) }
    ensures has_room { reach ≤ set.old.room → IsBelow reach (told_at slots.now.slots u).row →
        IsOk result }
    ensures keeps_room { reach ≤ set.old.room → reach ≤ set.new.room }
{
    set.copy_within(&slots[u.get()].row, reach, slots.len())
}

// Makes a set that of a vertex and its neighbours.
fn copy_row_and_itself(
    slots: &SlotTable,
    reach: usize,
    u: VertexId,
    set: &mut VertexSet,
) -> Result<(), AllocError>
    requires live { HasSlot slots.now u }
    requires near_live { (q : ℕ) → adjacent slots.now.slots u q ≡ true → HasSlot slots.now q }
    requires no_loop { adjacent slots.now.slots u u ≡ false }
    ensures members { OnOk result ((q : ℕ) →
        member q set.new.ids ≡ member q (u ∷ (told_at slots.now.slots u).row)) }
    ensures has_room { reach ≤ set.old.room → u < reach →
        IsBelow reach (told_at slots.now.slots u).row → IsOk result }
    ensures keeps_room { reach ≤ set.old.room → reach ≤ set.new.room }
{
    copy_row(slots, reach, u, set)?;
    set.insert_within(u, reach)
}

// Toggles the edge of each pair of neighbours of a vertex, in both rows. Where memory runs out, the
// rows may be any.
pub(crate) fn toggle_near(
    slots: &mut SlotTable,
    scratch: &mut Scratch,
    reach: usize,
    u: VertexId,
) -> Result<(), AllocError>
    requires live { HasSlot slots.old u }
    requires near_live { (q : ℕ) → adjacent slots.old.slots u q ≡ true → HasSlot slots.old q }
    ensures toggled { OnOk result (RowsToggled slots.old.slots slots.new.slots
        (two_among (told_at slots.old.slots u).row)) }
    ensures room { KeepsRoom reach slots.old.slots slots.new.slots }
    ensures holds { CanHold reach scratch.old → CanHold reach scratch.new }
    ensures has_room { CanHold reach scratch.old → HasRows reach slots.old.slots →
        IsBelow reach (told_at slots.old.slots u).row → IsOk result }
{
    copy_row(slots, reach, u, &mut scratch.near)?;
    toggle_among(slots, reach, &scratch.near)
}

// Toggles the edge of each pair across two vertices with their neighbours, in both rows. Where
// memory runs out, the rows may be any.
pub(crate) fn toggle_around(
    slots: &mut SlotTable,
    scratch: &mut Scratch,
    reach: usize,
    u: VertexId,
    v: VertexId,
) -> Result<(), AllocError>
    requires u_live { HasSlot slots.old u }
    requires v_live { HasSlot slots.old v }
    requires near_live { (p q : ℕ) → adjacent slots.old.slots p q ≡ true → HasSlot slots.old q }
    requires no_loop { (p : ℕ) → adjacent slots.old.slots p p ≡ false }
    ensures toggled { OnOk result (RowsToggled slots.old.slots slots.new.slots
        (across (u ∷ (told_at slots.old.slots u).row) (v ∷ (told_at slots.old.slots v).row))) }
    ensures room { KeepsRoom reach slots.old.slots slots.new.slots }
    ensures holds { CanHold reach scratch.old → CanHold reach scratch.new }
    ensures has_room { CanHold reach scratch.old → HasRows reach slots.old.slots →
        IsBelow reach (u ∷ (told_at slots.old.slots u).row) →
        IsBelow reach (v ∷ (told_at slots.old.slots v).row) → IsOk result }
{
    copy_row_and_itself(slots, reach, u, &mut scratch.near)?;
    copy_row_and_itself(slots, reach, v, &mut scratch.far)?;
    toggle_across(slots, reach, &scratch.near, &scratch.far)
}

// Whether a vertex stands among the neighbours of another.
fn joins(slots: &SlotTable, u: VertexId, v: VertexId) -> bool
    requires { HasSlot slots.now u }
    ensures { result ≡ adjacent slots.now.slots u v }
{
    slots[u.get()].row.contains(v)
}

// Gives a vertex another plane and phase.
pub(crate) fn set_kind(slots: &mut SlotTable, v: VertexId, plane: Plane, phase: Sixteenth)
    requires { HasSlot slots.old v }
    ensures puts { let t = told_at slots.old.slots v in
        Puts slots.old.slots slots.new.slots v (record t { kind = in_plane (plane_named plane) phase }) }
    ensures room { (reach : ℕ) → KeepsRoom reach slots.old.slots slots.new.slots }
{
    let slot = &mut slots[v.get()];
    slot.plane = plane;
    slot.phase = phase;
}

// Turns each neighbour of a vertex, and answers the power of z that the sum gets by that.
pub(crate) fn turn_near(slots: &mut SlotTable, alloc: Global, u: VertexId, turn: Turn) -> Sixteenth
    requires live { HasSlot slots.old u }
    requires near_live { (q : ℕ) → adjacent slots.old.slots u q ≡ true → HasSlot slots.old q }
    ensures turned { let near = (told_at slots.old.slots u).row in
        KindsChanged (turned_in turn near) slots.old.slots slots.new.slots }
    ensures power { result ≡ powers_in turn slots.old.slots (told_at slots.old.slots u).row }
    ensures rising { in_order ltb (told_at slots.old.slots u).row ≡ true }
    ensures room { (reach : ℕ) → KeepsRoom reach slots.old.slots slots.new.slots }
{
    let row = take_row(slots, alloc, u);
    let power = turn_each(slots, &row, turn);
    put_row(slots, u, row);
    power
}

// Takes the row of a vertex out, which has an empty one until it is put back.
fn take_row(slots: &mut SlotTable, alloc: Global, u: VertexId) -> VertexSet
    requires { HasSlot slots.old u }
    ensures row { result.ids ≡ (told_at slots.old.slots u).row }
    ensures room { result.room ≡ room_by (slot_at slots.old u) }
    ensures taken { Puts slots.old.slots slots.new.slots u (record (told_at slots.old.slots u) { row = [] }) }
    ensures spare { vacant_in slots.new.slots ≡ vacant_in slots.old.slots }
    ensures others { (p : ℕ) → p ≢ u → room_by (slot_at slots.new p) ≡ room_by (slot_at slots.old p) }
{
    mem::replace(&mut slots[u.get()].row, VertexSet::new(alloc))
}

// Gives a vertex this row.
fn put_row(slots: &mut SlotTable, u: VertexId, row: VertexSet)
    requires { HasSlot slots.old u }
    ensures put { Puts slots.old.slots slots.new.slots u (record (told_at slots.old.slots u) { row = row.ids }) }
    ensures spare { vacant_in slots.new.slots ≡ vacant_in slots.old.slots }
    ensures room { room_by (slot_at slots.new u) ≡ row.room }
    ensures others { (p : ℕ) → p ≢ u → room_by (slot_at slots.new p) ≡ room_by (slot_at slots.old p) }
{
    slots[u.get()].row = row;
}

// Turns each of these vertices, and answers the power of z that the sum gets by that.
fn turn_each(slots: &mut SlotTable, vertices: &VertexSet, turn: Turn) -> Sixteenth
    requires { (p : ℕ) → member p vertices.now.ids ≡ true → HasSlot slots.old p }
    ensures turned { KindsChanged (turned_in turn vertices.now.ids) slots.old.slots slots.new.slots }
    ensures power { result ≡ powers_in turn slots.old.slots vertices.now.ids }
    ensures rising { in_order ltb vertices.now.ids ≡ true }
    ensures room { SameRoom slots.old.slots slots.new.slots }
{
    let mut sum = Sixteenth::new(0);
    for p in vertices.iter() {
        sum = sum.add(turn_one(slots, p, turn));
    }
    sum
}

// Turns a vertex, and answers the power of z that the sum gets by that.
fn turn_one(slots: &mut SlotTable, v: VertexId, turn: Turn) -> Sixteenth
    requires { HasSlot slots.old v }
    ensures turned { let t = told_at slots.old.slots v in
        Puts slots.old.slots slots.new.slots v (record t { kind = turned_by turn t.kind }) }
    ensures power { result ≡ power_of turn (told_at slots.old.slots v).kind }
    ensures room { SameRoom slots.old.slots slots.new.slots }
{
    let slot = &mut slots[v.get()];
    let power = turn.power(slot.plane, slot.phase);
    let (plane, phase) = turn.turned(slot.plane, slot.phase);
    slot.plane = plane;
    slot.phase = phase;
    power
}

// Gives the end of a side of a vertex another place, or none.
pub(crate) fn set_place(slots: &mut SlotTable, v: VertexId, side: Side, place: Option<usize>)
    requires { HasSlot slots.old v }
    ensures puts { Puts slots.old.slots slots.new.slots v (with_side_place side place (told_at slots.old.slots v)) }
    ensures room { (reach : ℕ) → KeepsRoom reach slots.old.slots slots.new.slots }
{
    let slot = &mut slots[v.get()];
    match side {
        Side::Input => slot.input = place,
        Side::Output => slot.output = place,
    }
}

// Removes a vertex, and it from the rows of its neighbours, and keeps its row for its id.
pub(crate) fn remove(slots: &mut SlotTable, kept: &mut Vec<VertexSet>, v: VertexId)
    requires live { HasSlot slots.old v }
    requires symmetric { (p q : ℕ) → adjacent slots.old.slots p q ≡ adjacent slots.old.slots q p }
    requires no_loop { (p : ℕ) → adjacent slots.old.slots p p ≡ false }
    ensures removed { RemovedFrom slots.old.slots slots.new.slots v (told_at slots.old.slots v).row }
    ensures spare { vacant_in slots.new.slots ≡ vacant_in slots.old.slots + 1 }
    ensures room { (reach : ℕ) → HasRoom reach slots.old.slots kept.old.items →
        HasRoom reach slots.new.slots kept.new.items }
{
    let row = slots.remove(v.get()).row;
    for w in row.iter() {
        remove_neighbour(slots, w, v);
    }
    keep_row(kept, v, row);
}

// Keeps a row for an id below the end of those kept, without its vertices.
fn keep_row(kept: &mut Vec<VertexSet>, v: VertexId, mut row: VertexSet)
    ensures room { v < length kept.old.items → row.room ≤ (row_kept kept.new.items v).room }
    ensures others { (p : ℕ) → p ≢ v → row_kept kept.new.items p ≡ row_kept kept.old.items p }
    ensures covers { length kept.new.items ≡ length kept.old.items }
    ensures empty { AreEmpty kept.old.items → AreEmpty kept.new.items }
{
    if v.get() < kept.len() {
        row.clear();
        kept[v.get()] = row;
    }
}

// Removes all vertices, whose rows may tell different edges, and keeps the rows for their ids.
pub(crate) fn clear(slots: &mut SlotTable, kept: &mut Vec<VertexSet>)
    ensures gone { (p : ℕ) → slot_at slots.new p ≡ None }
    ensures spare { vacant_in slots.old.slots ≤ vacant_in slots.new.slots }
    ensures room { (reach : ℕ) → HasRoom reach slots.old.slots kept.old.items →
        HasRoom reach slots.new.slots kept.new.items }
{
    for id in 0..slots.len() {
        clear_place(slots, kept, id);
    }
}

// Removes the vertex of an id, if there is one, and keeps its row.
fn clear_place(slots: &mut SlotTable, kept: &mut Vec<VertexSet>, id: usize)
    ensures gone { slot_at slots.new id ≡ None }
    ensures spare { vacant_in slots.old.slots ≤ vacant_in slots.new.slots }
    ensures others { (p : ℕ) → p ≢ id → slot_at slots.new p ≡ slot_at slots.old p }
    ensures room { (reach : ℕ) → HasRoom reach slots.old.slots kept.old.items →
        HasRoom reach slots.new.slots kept.new.items }
{
    if slots.contains(id) {
        let row = slots.remove(id).row;
        keep_row(kept, VertexId::new(id), row);
    }
}

// Takes the memory for all ids below a bound in the row of each of these ids. Where it runs out,
// some may have it.
pub(crate) fn reserve(
    slots: &mut SlotTable,
    kept: &mut Vec<VertexSet>,
    alloc: Global,
    bound: usize,
) -> Result<(), AllocError>
    requires { AreEmpty kept.old.items }
    ensures same { SameTold slots.old.slots slots.new.slots }
    ensures spare { vacant_in slots.new.slots ≡ vacant_in slots.old.slots }
    ensures room { (reach : ℕ) → HasRoom reach slots.old.slots kept.old.items →
        HasRoom reach slots.new.slots kept.new.items }
    ensures ok { OnOk result (HasRoom bound slots.new.slots kept.new.items) }
{
    keep_rows(kept, alloc, bound)?;
    for id in 0..bound {
        reserve_row(slots, kept, id, bound)?;
    }
    Ok(())
}

// Keeps rows for all ids below a bound.
fn keep_rows(kept: &mut Vec<VertexSet>, alloc: Global, bound: usize) -> Result<(), AllocError>
    ensures same { (p : ℕ) → p < length kept.old.items →
        row_kept kept.new.items p ≡ row_kept kept.old.items p }
    ensures longer { length kept.old.items ≤ length kept.new.items }
    ensures empty { AreEmpty kept.old.items → AreEmpty kept.new.items }
    ensures ok { OnOk result (bound ≤ length kept.new.items) }
{
    for _added in kept.len()..bound {
        kept.push(VertexSet::new(alloc))?;
    }
    Ok(())
}

// Takes the memory for all ids below a bound in the row of an id.
fn reserve_row(
    slots: &mut SlotTable,
    kept: &mut Vec<VertexSet>,
    id: usize,
    bound: usize,
) -> Result<(), AllocError>
    requires { id < length kept.old.items }
    ensures same { SameTold slots.old.slots slots.new.slots }
    ensures spare { vacant_in slots.new.slots ≡ vacant_in slots.old.slots }
    ensures room { (p : ℕ) →
        room_at slots.old.slots kept.old.items p ≤ room_at slots.new.slots kept.new.items p }
    ensures covers { length kept.new.items ≡ length kept.old.items }
    ensures empty { AreEmpty kept.old.items → AreEmpty kept.new.items }
    ensures ok { OnOk result (bound ≤ room_at slots.new.slots kept.new.items id) }
{
    if slots.contains(id) {
        slots[id].row.reserve(bound)
    } else {
        kept[id].reserve(bound)
    }
}
