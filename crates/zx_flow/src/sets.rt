//! A set of vertices for each vertex.

ghost use Rattle.std.specs.Prelude.{◌≡◌, ◌≢◌, ◌<◌, ◌≤◌, ℕ, true, [], ◌∷◌, length, IsOk, IfOk, OnOk, OnErr, ltb};
ghost use Rattle.zx_model.specs.Bits.{xor, member};
ghost use Rattle.zx_calculus.specs.Graph.{in_order};
ghost use Rattle.zx_bits.specs.Sets.{IsBelow};
ghost use Rattle.zx_flow.specs.VertexSets.{set_at, SameSetsAt, SameSetsBut, AreToggledAt};
ghost use Rattle.zx_flow.specs.Internal.Sets.{room_at};

use open_graph::{VertexId, VertexSet};
use std::alloc::{AllocError, Global};
use std::marker::Model;
use std::mem;

/// For each vertex, by its number, a set of vertices: the empty one where none was given. Below a bound,
/// `reach`, the sets change without memory.
#[derive(Drop)]
pub struct VertexSets {
    alloc: Global,
    // The set of those past the end of the lists.
    none: VertexSet,
    lists: Vec<VertexSet>,
    reach: usize,
}

impl Model for VertexSets {
    ghost use Rattle.zx_flow.specs.VertexSets.{VertexSets as Seen};
    ghost use Rattle.zx_flow.specs.Internal.Sets.{AreKept};

    ghost Value = { Seen };

    ghost view = { λ s. record { lists = s.lists.items; reach = s.reach } };

    ghost invariant = { λ s. AreKept s.none.ids s.reach s.lists.items };
}

impl VertexSets {
    /// All sets are empty.
    pub fn new(alloc: Global) -> VertexSets
        ensures { result.lists ≡ [] }
    {
        VertexSets {
            alloc,
            none: VertexSet::new(alloc),
            lists: Vec::new(alloc),
            reach: 0,
        }
    }

    /// The set of a vertex.
    pub fn get(&self, v: VertexId) -> &VertexSet
        ensures { result.now.ids ≡ set_at self.now.lists v }
    {
        match self.lists.get(v.get()) {
            Some(set) => set,
            None => &self.none,
        }
    }

    // Makes place for the set of a vertex.
    pub(crate) fn make_place(&mut self, v: VertexId) -> Result<(), AllocError>
        ensures ok { OnOk result (v < length self.new.lists) }
        ensures grown { length self.old.lists ≤ length self.new.lists }
        ensures same { SameSetsAt self.old.lists self.new.lists }
        ensures reach { self.new.reach ≡ self.old.reach }
        ensures has_room { v < self.old.reach → IsOk result }
    {
        if v.get() < self.reach {
            return Ok(());
        }
        grow(&mut self.lists, self.alloc, v.get())
    }

    // Puts another set in the place of that of a vertex.
    pub(crate) fn put(&mut self, v: VertexId, members: VertexSet)
        requires { v < length self.old.lists }
        ensures own { set_at self.new.lists v ≡ members.ids }
        ensures others { SameSetsBut v self.old.lists self.new.lists }
        ensures length { length self.new.lists ≡ length self.old.lists }
    {
        self.reach = 0;
        self.lists[v.get()] = members;
    }

    // Makes place for the set of a vertex v, with w alone in it. Where memory runs out, v may have any set.
    pub(crate) fn add_one(&mut self, v: VertexId, w: VertexId) -> Result<(), AllocError>
        ensures place { OnOk result (v < length self.new.lists) }
        ensures own { OnOk result (set_at self.new.lists v ≡ w ∷ []) }
        ensures others { SameSetsBut v self.old.lists self.new.lists }
        ensures grown { length self.old.lists ≤ length self.new.lists }
        ensures reach { self.new.reach ≡ self.old.reach }
        ensures has_room { v < self.old.reach → w < self.old.reach → IsOk result }
    {
        self.make_place(v)?;
        let kept = self.kept(v);
        put_within(&mut self.lists[v.get()], kept, w)
    }

    /// Toggles these in the set of a vertex v, without memory where v and these lie below `reach`. Where
    /// memory runs out, all sets stay as they were.
    pub fn toggle(&mut self, v: VertexId, members: &VertexSet) -> Result<(), AllocError>
        ensures ok { OnOk result (AreToggledAt v members.now.ids self.old.lists self.new.lists) }
        ensures err { OnErr result (SameSetsAt self.old.lists self.new.lists) }
        ensures grown { length self.old.lists ≤ length self.new.lists }
        ensures reach { self.new.reach ≡ self.old.reach }
        ensures has_room { v < self.old.reach → IsBelow self.old.reach members.now.ids →
            IsOk result }
    {
        self.make_place(v)?;
        let kept = self.kept(v);
        toggle_within(&mut self.lists[v.get()], kept, members)
    }

    /// Toggles a vertex w in the set of v, without memory where both lie below `reach`. Where memory runs
    /// out, all sets stay as they were.
    pub fn toggle_one(&mut self, v: VertexId, w: VertexId) -> Result<(), AllocError>
        ensures ok { OnOk result (AreToggledAt v (w ∷ []) self.old.lists self.new.lists) }
        ensures err { OnErr result (SameSetsAt self.old.lists self.new.lists) }
        ensures grown { length self.old.lists ≤ length self.new.lists }
        ensures reach { self.new.reach ≡ self.old.reach }
        ensures has_room { v < self.old.reach → w < self.old.reach → IsOk result }
    {
        self.make_place(v)?;
        let kept = self.kept(v);
        toggle_one_within(&mut self.lists[v.get()], kept, w)
    }

    /// Toggles the set of a vertex u in that of v, without memory where v and that set lie below `reach`.
    /// Where v is u, each member is toggled away, and the set is empty then. Where memory runs out, all
    /// sets stay as they were.
    pub fn toggle_set(&mut self, v: VertexId, u: VertexId) -> Result<(), AllocError>
        ensures ok { OnOk result (AreToggledAt v (set_at self.old.lists u)
            self.old.lists self.new.lists) }
        ensures err { OnErr result (SameSetsAt self.old.lists self.new.lists) }
        ensures grown { length self.old.lists ≤ length self.new.lists }
        ensures reach { self.new.reach ≡ self.old.reach }
        ensures has_room { v < self.old.reach →
            IsBelow self.old.reach (set_at self.old.lists u) → IsOk result }
    {
        if v == u {
            self.clear(v);
            return Ok(());
        }
        if u.get() >= self.lists.len() {
            return Ok(());
        }
        self.make_place(v)?;
        self.toggle_other(v, u)
    }

    // Toggles the set of another vertex u in that of v.
    fn toggle_other(&mut self, v: VertexId, u: VertexId) -> Result<(), AllocError>
        requires v_there { v < length self.old.lists }
        requires u_there { u < length self.old.lists }
        requires apart { v ≢ u }
        ensures ok { OnOk result (AreToggledAt v (set_at self.old.lists u)
            self.old.lists self.new.lists) }
        ensures err { OnErr result (SameSetsAt self.old.lists self.new.lists) }
        ensures length { length self.new.lists ≡ length self.old.lists }
        ensures reach { self.new.reach ≡ self.old.reach }
        ensures has_room { v < self.old.reach →
            IsBelow self.old.reach (set_at self.old.lists u) → IsOk result }
    {
        let kept = self.kept(v);
        let none = VertexSet::new(self.alloc);
        let other = mem::replace(&mut self.lists[u.get()], none);
        let done = toggle_within(&mut self.lists[v.get()], kept, &other);
        self.lists[u.get()] = other;
        done
    }

    /// Takes all members out of the set of a vertex. Below `reach` its memory is kept.
    pub fn clear(&mut self, v: VertexId)
        ensures own { set_at self.new.lists v ≡ [] }
        ensures others { SameSetsBut v self.old.lists self.new.lists }
        ensures length { length self.new.lists ≡ length self.old.lists }
        ensures reach { self.new.reach ≡ self.old.reach }
    {
        if v.get() < self.reach {
            self.lists[v.get()].clear();
            return;
        }
        if v.get() < self.lists.len() {
            self.lists[v.get()] = VertexSet::new(self.alloc);
        }
    }

    /// The bound below which sets change without memory.
    pub fn reach(&self) -> usize
        ensures { result ≡ self.now.reach }
    {
        self.reach
    }

    // The same sets once more, with room below the same bound.
    pub(crate) fn copy(&self) -> Result<VertexSets, AllocError>
        ensures same { IfOk result (λ copy. SameSetsAt self.now.lists copy.lists) }
        ensures length { IfOk result (λ copy. length copy.lists ≡ length self.now.lists) }
        ensures reach { IfOk result (λ copy. copy.reach ≡ self.now.reach) }
    {
        let mut lists = self.lists.clone()?;
        reserve_each(&mut lists, self.reach)?;
        Ok(VertexSets {
            alloc: self.alloc,
            none: VertexSet::new(self.alloc),
            lists,
            reach: self.reach,
        })
    }

    // A number above those of all sets and members.
    pub(crate) fn end(&self) -> usize
        ensures sets { length self.now.lists ≤ result }
        ensures members { (v : ℕ) → IsBelow result (set_at self.now.lists v) }
    {
        let mut end = self.lists.len();
        for set in &self.lists {
            end = end.max(end_of(set));
        }
        end
    }

    /// Takes the memory for sets and members below a bound. Where it runs out, some may be taken.
    pub fn reserve(&mut self, bound: usize) -> Result<(), AllocError>
        ensures ok { OnOk result (bound ≤ self.new.reach) }
        ensures grown { length self.old.lists ≤ length self.new.lists }
        ensures same { SameSetsAt self.old.lists self.new.lists }
        ensures reach { self.old.reach ≤ self.new.reach }
    {
        if bound <= self.reach {
            return Ok(());
        }
        grow(&mut self.lists, self.alloc, bound - 1)?;
        reserve_each(&mut self.lists, bound)?;
        self.reach = bound;
        Ok(())
    }

    // Below which bound the room of a vertex's set is kept.
    fn kept(&self, v: VertexId) -> usize
        ensures room { result ≤ room_at self.now.lists v }
        ensures below { v < self.now.reach → result ≡ self.now.reach }
    {
        if v.get() < self.reach { self.reach } else { 0 }
    }
}

// Makes places up to a number.
fn grow(lists: &mut Vec<VertexSet>, alloc: Global, number: usize) -> Result<(), AllocError>
    ensures ok { OnOk result (number < length lists.new.items) }
    ensures grown { length lists.old.items ≤ length lists.new.items }
    ensures same { SameSetsAt lists.old.items lists.new.items }
    ensures room { (p : ℕ) → room_at lists.old.items p ≤ room_at lists.new.items p }
{
    'grow: while lists.len() <= number {
        lists.push(VertexSet::new(alloc))?;
    }
    Ok(())
}

// Gives each set room for all ids below a bound, and takes nothing where that is 0. Where memory runs
// out, some have it.
fn reserve_each(lists: &mut [VertexSet], bound: usize) -> Result<(), AllocError>
    ensures ok { OnOk result ((p : ℕ) → p < length lists.new → bound ≤ room_at lists.new p) }
    ensures length { length lists.new ≡ length lists.old }
    ensures same { SameSetsAt lists.old lists.new }
    ensures room { (p : ℕ) → room_at lists.old p ≤ room_at lists.new p }
{
    if bound == 0 {
        return Ok(());
    }
    for set in lists.iter_mut() {
        set.reserve(bound)?;
    }
    Ok(())
}

// Toggles these in a set, whose room below a bound is kept.
fn toggle_within(set: &mut VertexSet, kept: usize, members: &VertexSet) -> Result<(), AllocError>
    requires { kept ≤ set.old.room }
    ensures ok { OnOk result ((w : ℕ) →
        member w set.new.ids ≡ xor (member w set.old.ids) (member w members.now.ids)) }
    ensures err { OnErr result (set.new.ids ≡ set.old.ids) }
    ensures keeps { kept ≤ set.new.room }
    ensures has_room { IsBelow kept members.now.ids → IsOk result }
{
    if kept == 0 || members.first_from(kept).is_none() {
        return set.toggle_all(members);
    }
    set.reserve(end_of(members))?;
    set.toggle_all(members)
}

// Toggles a vertex in a set, whose room below a bound is kept.
fn toggle_one_within(set: &mut VertexSet, kept: usize, id: VertexId) -> Result<(), AllocError>
    requires { kept ≤ set.old.room }
    ensures ok { OnOk result ((w : ℕ) →
        member w set.new.ids ≡ xor (member w set.old.ids) (member w (id ∷ []))) }
    ensures err { OnErr result (set.new.ids ≡ set.old.ids) }
    ensures keeps { kept ≤ set.new.room }
    ensures rising { OnOk result (in_order ltb set.new.ids ≡ true) }
    ensures has_room { id < kept → IsOk result }
{
    if kept > 0 && id.get() >= kept {
        reserve_place(set, id)?;
    }
    set.toggle(id)
}

// Gives a set room for an id.
fn reserve_place(set: &mut VertexSet, id: VertexId) -> Result<(), AllocError>
    ensures ids { set.new.ids ≡ set.old.ids }
    ensures ok { OnOk result (id < set.new.room) }
    ensures keeps { set.old.room ≤ set.new.room }
{
    match id.get().checked_add(1) {
        Some(end) => set.reserve(end),
        None => Err(AllocError),
    }
}

// Makes a vertex the only one of a set, whose room below a bound is kept.
fn put_within(set: &mut VertexSet, kept: usize, id: VertexId) -> Result<(), AllocError>
    requires { kept ≤ set.old.room }
    ensures ok { OnOk result (set.new.ids ≡ id ∷ []) }
    ensures keeps { kept ≤ set.new.room }
    ensures has_room { id < kept → IsOk result }
{
    set.clear();
    toggle_one_within(set, kept, id)
}

// A number above those of all members.
fn end_of(set: &VertexSet) -> usize
    ensures { IsBelow result set.now.ids }
{
    let mut end = 0;
    'rise: while let Some(id) = set.first_from(end) {
        end = id.get() + 1;
    }
    end
}
