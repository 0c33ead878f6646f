//! Slots under the ids of their vertices.

ghost use Rattle.std.specs.Prelude.{◌≡◌, ◌↔◌, ◌<◌, ◌≤◌, ◌+◌, ◌-◌, ◌++◌, ℕ, [], ◌∷◌, List, Option, Some, None, length, is_some, option_copied};
ghost use Rattle.std.specs.Prelude.{IsTrue, IsSome, IsOk, IfOk, IfSome, OnOk, OnErr};
ghost use Rattle.std.specs.Borrow.{sem};
ghost use Rattle.zx_bits.specs.Rows.{IsFirstFrom};
ghost use Rattle.open_graph.specs.OpenGraph.{most_vertices_in_memory};
ghost use Rattle.open_graph.specs.Internal.Table.{slot_at, HasSlot, Updates, IsFreeRow};
ghost use Rattle.open_graph.specs.declared.slot.Slot.{Slot};
ghost use Rattle.open_graph.specs.Internal.Lending.{LendsEntry};
ghost use Rattle.open_graph.specs.Internal.Changes.{SameTold};
ghost use Rattle.open_graph.specs.Internal.Slots.{told_by};
ghost use Rattle.open_graph.specs.Internal.Room.{vacant_in};

use crate::slot::Slot;
use std::alloc::{AllocError, Global};
use std::marker::Model;
use std::ops::{Index, IndexMut};
use zx_bits::BitRow;

// More entries are refused as where memory runs out: so many slots take hundreds of gigabytes.
const MOST_ENTRIES: usize = 1 << 32;

// A table of slots, seen as what stands under each id.
#[derive(Drop)]
pub(crate) struct SlotTable {
    entries: Vec<Option<Slot>>,
    // Which entries have no slot. It may be longer than the entries, and then that part isn't set.
    free: BitRow,
}

impl Model for SlotTable {
    ghost use Rattle.open_graph.specs.Internal.Table.{SlotTable as Seen, IsTable};

    ghost Value = { Seen };

    ghost view = { λ t. record { slots = t.entries.items } };

    ghost invariant = { λ t. IsTable t.entries.items t.free };
}

impl Clone for SlotTable {
    ghost is_clone = { λ table copy. SameTold table.slots copy.slots
        × (vacant_in copy.slots ≡ vacant_in table.slots) };

    fn clone(&self) -> Result<SlotTable, AllocError> {
        let free = self.free.clone()?;
        Ok(SlotTable {
            entries: copy_entries(*self.entries.allocator(), &self.entries)?,
            free,
        })
    }
}

impl Index<usize> for SlotTable {
    type Output = Slot;

    ghost can_index = { HasSlot };

    ghost index_gives = { λ table id slot. slot_at table id ≡ Some slot };

    fn index(&self, id: usize) -> &Slot {
        self.get(id).unwrap()
    }
}

impl IndexMut<usize> for SlotTable {
    ghost use Rattle.open_graph.specs.Internal.Lending.{LendsSlot};

    fn index_mut(&mut self, id: usize) -> &mut Slot
        requires { HasSlot self.old id }
        ensures* writes_back { sem 𝓛 (LendsSlot self.entry id result) }
        ensures value { slot_at self.old id ≡ Some result.now }
    {
        slot_of(&mut self.entries[id])
    }
}

impl SlotTable {
    // The table without slots.
    pub(crate) fn new(alloc: Global) -> SlotTable
        ensures { result.slots ≡ [] }
    {
        SlotTable {
            entries: Vec::new(alloc),
            free: BitRow::empty(alloc),
        }
    }

    // Puts a slot under the least id that has none. Where memory runs out, the slots are as they
    // were.
    pub(crate) fn insert(&mut self, slot: Slot) -> Result<usize, AllocError>
        ensures vacant { IfOk result (λ id. slot_at self.old id ≡ None) }
        ensures least { IfOk result (λ id. (lower : ℕ) → lower < id → HasSlot self.old lower) }
        ensures updates { IfOk result (λ id. Updates self.old self.new id (Some slot)) }
        ensures err { OnErr result (self.new ≡ self.old) }
        ensures has_room { 0 < vacant_in self.old.slots → IsOk result }
        ensures spare { OnOk result (vacant_in self.new.slots ≡ vacant_in self.old.slots - 1) }
    {
        if let Some(id) = self.free.bit_from(0) {
            self.free.flip(id);
            self.entries[id] = Some(slot);
            return Ok(id);
        }
        let id = self.entries.len();
        make_room(&mut self.free, id + 1)?;
        self.entries.push(Some(slot))?;
        Ok(id)
    }

    // Takes the slot of an id out. It takes no memory.
    pub(crate) fn remove(&mut self, id: usize) -> Slot
        requires { HasSlot self.old id }
        ensures value { slot_at self.old id ≡ Some result }
        ensures updates { Updates self.old self.new id None }
        ensures spare { vacant_in self.new.slots ≡ vacant_in self.old.slots + 1 }
    {
        self.free.flip(id);
        self.entries[id].take().unwrap()
    }

    // Whether an id has a slot.
    pub(crate) fn contains(&self, id: usize) -> bool
        ensures { IsTrue result ↔ HasSlot self.now id }
    {
        self.get(id).is_some()
    }

    // The slot under an id, if there is one.
    pub(crate) fn get(&self, id: usize) -> Option<&Slot>
        ensures { option_copied result ≡ slot_at self.now id }
    {
        match self.entries.get(id) {
            Some(Some(slot)) => Some(slot),
            _ => None,
        }
    }

    // The least id that has a slot and isn't below a number.
    pub(crate) fn first_from(&self, start: usize) -> Option<usize>
        ensures first { IsFirstFrom (λ id. is_some (slot_at self.now id)) start result }
        ensures bounded { IfSome result (λ id. id < usize.MAX) }
        ensures few { IfSome result (λ id. id < most_vertices_in_memory) }
    {
        for id in start..self.entries.len() {
            if self.entries[id].is_some() {
                return Some(id);
            }
        }
        None
    }

    // How many entries there are, with a slot or without.
    pub(crate) fn len(&self) -> usize
        ensures { result ≡ length self.now.slots }
    {
        self.entries.len()
    }

    // How many entries have a slot.
    pub(crate) fn filled(&self) -> usize
        ensures value { result ≡ length self.now.slots - vacant_in self.now.slots }
        ensures few { result ≤ most_vertices_in_memory }
    {
        self.entries.len().saturating_sub(self.vacant())
    }

    // The least id that has no slot.
    pub(crate) fn next_id(&self) -> usize
        ensures vacant { slot_at self.now result ≡ None }
        ensures least { (lower : ℕ) → lower < result → HasSlot self.now lower }
        ensures few { result ≤ most_vertices_in_memory }
    {
        self.free.bit_from(0).unwrap_or(self.entries.len())
    }

    // How many entries have no slot.
    pub(crate) fn vacant(&self) -> usize
        ensures { result ≡ vacant_in self.now.slots }
    {
        let mut vacant = 0;
        for entry in &self.entries {
            if entry.is_none() {
                vacant += 1;
            }
        }
        vacant
    }

    // Adds an entry without a slot. Where memory runs out, the slots are as they were.
    fn push_vacant(&mut self) -> Result<(), AllocError>
        ensures ok { OnOk result (self.new.slots ≡ self.old.slots ++ None ∷ []) }
        ensures err { OnErr result (self.new ≡ self.old) }
    {
        let id = self.entries.len();
        make_room(&mut self.free, id + 1)?;
        self.entries.push(None)?;
        self.free.flip(id);
        Ok(())
    }

    // Makes so many entries without a slot at least.
    pub(crate) fn reserve(&mut self, spare: usize) -> Result<(), AllocError>
        ensures same { (id : ℕ) → slot_at self.new id ≡ slot_at self.old id }
        ensures ok { OnOk result (spare ≤ vacant_in self.new.slots) }
        ensures keeps { vacant_in self.old.slots ≤ vacant_in self.new.slots }
    {
        for _added in self.vacant()..spare {
            self.push_vacant()?;
        }
        Ok(())
    }
}

// Copies of entries.
fn copy_entries(alloc: Global, entries: &[Option<Slot>]) -> Result<Vec<Option<Slot>>, AllocError>
    ensures len { IfOk result (λ copies. length copies.items ≡ length entries.now) }
    ensures same { IfOk result (λ copies. SameTold entries.now copies.items) }
{
    let mut copies = Vec::with_capacity(alloc, entries.len())?;
    for entry in entries {
        copies.push(copy_entry(entry)?)?;
    }
    Ok(copies)
}

fn copy_entry(entry: &Option<Slot>) -> Result<Option<Slot>, AllocError>
    ensures { IfOk result (λ copy. told_by copy ≡ told_by entry.now) }
{
    match entry {
        Some(slot) => Ok(Some(slot.clone()?)),
        None => Ok(None),
    }
}

// The slot of an entry that has one.
fn slot_of(entry: &mut Option<Slot>) -> &mut Slot
    requires { IsSome entry.old }
    ensures* writes_back { sem 𝓛 (LendsEntry entry.entry result) }
    ensures value { entry.old ≡ Some result.now }
{
    match entry {
        Some(slot) => slot,
        None => unreachable!(),
    }
}

// Makes a row at least so many bits long, and twice as long where it grows. What it tells of
// entries stays, also where memory runs out, as it does for more bits than a table has entries.
fn make_room(free: &mut BitRow, bits: usize) -> Result<(), AllocError>
    ensures kept { (slots : List (Option Slot)) →
        IsFreeRow slots free.old → IsFreeRow slots free.new }
    ensures ok { OnOk result (bits ≤ length free.new.bits) }
    ensures few { OnOk result (bits ≤ most_vertices_in_memory) }
{
    if bits > MOST_ENTRIES {
        return Err(AllocError);
    }
    if bits <= free.len() {
        return Ok(());
    }
    free.grow(bits.max(64))
}
