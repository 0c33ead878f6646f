//! Sets of vertices.

ghost use Rattle.std.specs.Prelude.{◌≡◌, ◌↔◌, ◌<◌, ◌≤◌, ◌+◌, ◌*◌, ◌==◌, ◌&&◌, ℕ, [], ◌∷◌, true, false, length};
ghost use Rattle.std.specs.Prelude.{IsOk, IfOk, IfSome, OnOk, OnErr, ltb, count_by};
ghost use Rattle.std.specs.Int.{bit_at};
ghost use Rattle.zx_model.specs.Bits.{xor, member};
ghost use Rattle.zx_calculus.specs.Graph.{in_order, Distinct};
ghost use Rattle.zx_calculus.proofs.Ids.{removed};
ghost use Rattle.zx_bits.specs.Rows.{IsFirstFrom};
ghost use Rattle.zx_bits.specs.Sets.{IsBelow};
ghost use Rattle.open_graph.specs.Internal.Rows.{inserted};

use crate::id::VertexId;
use crate::ids::Ids;
use std::alloc::{AllocError, Global};
use std::marker::Model;
use zx_bits::BitSet;

/// A set of vertices in a row of bits, seen as its ids by rising number, and a bound below which any
/// id can be added without memory.
#[derive(Drop)]
pub struct VertexSet {
    numbers: BitSet,
}

impl Model for VertexSet {
    ghost use Rattle.std.specs.Prelude.{◌≡◌, true, ltb};
    ghost use Rattle.zx_calculus.specs.Graph.{in_order};
    ghost use Rattle.open_graph.specs.VertexSets as sets;

    ghost Value = { sets.VertexSet };

    ghost view = { λ set. record { ids = set.numbers.numbers; room = set.numbers.room } };

    ghost invariant = { λ set. in_order ltb set.numbers.numbers ≡ true };
}

impl Clone for VertexSet {
    ghost is_clone = { λ set copy. copy.ids ≡ set.ids };

    fn clone(&self) -> Result<VertexSet, AllocError> {
        Ok(VertexSet {
            numbers: self.numbers.clone()?,
        })
    }
}

impl VertexSet {
    /// The set without vertices.
    pub fn new(alloc: Global) -> VertexSet
        ensures { result.ids ≡ [] }
    {
        VertexSet {
            numbers: BitSet::new(alloc),
        }
    }

    /// The set of one vertex.
    pub fn one(alloc: Global, id: VertexId) -> Result<VertexSet, AllocError>
        ensures { IfOk result (λ set. set.ids ≡ id ∷ []) }
    {
        let mut numbers = BitSet::new(alloc);
        numbers.toggle(id.get())?;
        Ok(VertexSet { numbers })
    }

    /// How many vertices it has.
    pub fn len(&self) -> usize
        ensures value { result ≡ length self.now.ids }
        ensures rising { in_order ltb self.now.ids ≡ true }
    {
        self.numbers.len()
    }

    /// Whether it has no vertex.
    pub fn is_empty(&self) -> bool
        ensures { (result ≡ true) ↔ (self.now.ids ≡ []) }
    {
        self.numbers.len() == 0
    }

    /// Whether a vertex is in the set.
    pub fn contains(&self, id: VertexId) -> bool
        ensures { result ≡ member id self.now.ids }
    {
        self.numbers.contains(id.get())
    }

    /// The vertices, by rising id.
    pub fn iter(&self) -> Ids<'_>
        ensures value { result ≡ self.now.ids }
        ensures rising { in_order ltb self.now.ids ≡ true }
    {
        Ids {
            numbers: self.numbers.iter(),
        }
    }

    /// Which of the 64 ids from `64 * index` on are in the set, as the bits of a word.
    pub fn word(&self, index: usize) -> u64
        ensures { (k : ℕ) → k < 64 → (bit_at result k == 1) ≡ member (64 * index + k) self.now.ids }
    {
        self.numbers.word(index)
    }

    /// The vertex of the least id that isn't below a number.
    pub fn first_from(&self, start: usize) -> Option<VertexId>
        ensures first { IsFirstFrom (λ id. member id self.now.ids) start result }
        ensures bounded { IfSome result (λ id. id < usize.MAX) }
    {
        self.numbers.first_from(start).map(VertexId::new)
    }

    /// How many vertices two sets have in common.
    pub fn common_with(&self, other: &VertexSet) -> usize
        ensures value { result ≡ count_by (λ id. member id other.now.ids) self.now.ids }
        ensures rising { in_order ltb self.now.ids ≡ true }
    {
        self.numbers.common_with(&other.numbers)
    }

    /// Whether two sets have the same vertices.
    pub fn is_same(&self, other: &VertexSet) -> bool
        ensures value { (result ≡ true) ↔ (self.now.ids ≡ other.now.ids) }
        ensures rising { in_order ltb self.now.ids ≡ true }
        ensures other_rising { in_order ltb other.now.ids ≡ true }
    {
        self.numbers.is_same(&other.numbers)
    }

    /// Adds a vertex that isn't in the set, and takes out one that is. Where memory runs out, the
    /// set is as it was.
    pub fn toggle(&mut self, id: VertexId) -> Result<(), AllocError>
        ensures ok { OnOk result ((w : ℕ) → member w self.new.ids ≡ xor (member w self.old.ids) (w == id)) }
        ensures err { OnErr result (self.new ≡ self.old) }
        ensures has_room { id < self.old.room → IsOk result }
        ensures keeps_room { id < self.old.room → self.old.room ≤ self.new.room }
        ensures rising { in_order ltb self.new.ids ≡ true }
    {
        self.numbers.toggle(id.get())
    }

    // Makes room for an id that isn't below a bound, where the bound isn't 0.
    fn keep_room(&mut self, id: usize, bound: usize) -> Result<(), AllocError>
        ensures ids { self.new.ids ≡ self.old.ids }
        ensures ok { 0 < bound → bound ≤ self.old.room → OnOk result (id < self.new.room) }
        ensures has_room { id < bound → IsOk result }
        ensures keeps_room { self.old.room ≤ self.new.room }
    {
        if bound == 0 || id < bound {
            return Ok(());
        }
        match id.checked_add(1) {
            Some(ids) => self.reserve(ids),
            None => Err(AllocError),
        }
    }

    // Adds a vertex that isn't in the set, and keeps room for all ids below a bound. Where memory
    // runs out, the vertices are as they were.
    pub(crate) fn insert_within(&mut self, id: VertexId, bound: usize) -> Result<(), AllocError>
        requires { member id self.old.ids ≡ false }
        ensures ok { OnOk result (self.new.ids ≡ inserted id self.old.ids) }
        ensures err { OnErr result (self.new.ids ≡ self.old.ids) }
        ensures has_room { id < bound → bound ≤ self.old.room → IsOk result }
        ensures keeps_room { bound ≤ self.old.room → bound ≤ self.new.room }
    {
        self.keep_room(id.get(), bound)?;
        self.insert(id)
    }

    // Toggles each vertex of another set, all of whose ids are below an end, and keeps room for all
    // ids below a bound. Where memory runs out, the vertices are as they were.
    pub(crate) fn toggle_all_within(
        &mut self,
        other: &VertexSet,
        bound: usize,
        end: usize,
    ) -> Result<(), AllocError>
        requires { IsBelow end other.now.ids }
        ensures ok { OnOk result ((w : ℕ) →
            member w self.new.ids ≡ xor (member w self.old.ids) (member w other.now.ids)) }
        ensures err { OnErr result (self.new.ids ≡ self.old.ids) }
        ensures has_room { IsBelow bound other.now.ids → bound ≤ self.old.room → IsOk result }
        ensures keeps_room { bound ≤ self.old.room → bound ≤ self.new.room }
    {
        if bound > 0 && other.first_from(bound).is_some() {
            self.reserve(end)?;
        }
        self.toggle_all(other)
    }

    // Makes it another set, all of whose ids are below an end, and keeps room for all ids below a
    // bound. Where memory runs out, it has no vertices.
    pub(crate) fn copy_within(
        &mut self,
        other: &VertexSet,
        bound: usize,
        end: usize,
    ) -> Result<(), AllocError>
        requires { IsBelow end other.now.ids }
        ensures ok { OnOk result ((w : ℕ) → member w self.new.ids ≡ member w other.now.ids) }
        ensures has_room { IsBelow bound other.now.ids → bound ≤ self.old.room → IsOk result }
        ensures keeps_room { bound ≤ self.old.room → bound ≤ self.new.room }
    {
        self.clear();
        self.toggle_all_within(other, bound, end)
    }

    // Adds a vertex that isn't in the set. Where memory runs out, the set is as it was.
    fn insert(&mut self, id: VertexId) -> Result<(), AllocError>
        requires { member id self.old.ids ≡ false }
        ensures ok { OnOk result (self.new.ids ≡ inserted id self.old.ids) }
        ensures err { OnErr result (self.new ≡ self.old) }
        ensures has_room { id < self.old.room → IsOk result }
        ensures keeps_room { id < self.old.room → self.old.room ≤ self.new.room }
    {
        self.numbers.toggle(id.get())
    }

    // Takes a vertex out. It takes no memory.
    pub(crate) fn remove(&mut self, id: VertexId)
        ensures ids { self.new.ids ≡ removed id self.old.ids }
        ensures keeps_room { self.old.room ≤ self.new.room }
    {
        self.numbers.remove(id.get());
    }

    /// Toggles each vertex of another set. Where memory runs out, the set is as it was.
    pub fn toggle_all(&mut self, other: &VertexSet) -> Result<(), AllocError>
        ensures ok { OnOk result ((w : ℕ) →
            member w self.new.ids ≡ xor (member w self.old.ids) (member w other.now.ids)) }
        ensures err { OnErr result (self.new ≡ self.old) }
        ensures has_room { IsBelow self.old.room other.now.ids → IsOk result }
        ensures keeps_room { IsBelow self.old.room other.now.ids → self.old.room ≤ self.new.room }
    {
        self.numbers.xor(&other.numbers)
    }

    /// Takes the vertices out that aren't in another set. It takes no memory.
    pub fn keep(&mut self, other: &VertexSet)
        ensures members { (w : ℕ) → member w self.new.ids ≡ (member w self.old.ids && member w other.now.ids) }
        ensures keeps_room { self.old.room ≤ self.new.room }
        ensures rising { in_order ltb self.new.ids ≡ true }
    {
        self.numbers.keep(&other.numbers);
    }

    /// Takes all vertices out. It takes no memory, and gives none back.
    pub fn clear(&mut self)
        ensures ids { self.new.ids ≡ [] }
        ensures keeps_room { self.old.room ≤ self.new.room }
    {
        self.numbers.clear();
    }

    /// Takes the memory for all ids below a number. Where it runs out, and at one of the greatest 63
    /// numbers, the set is as it was.
    pub fn reserve(&mut self, ids: usize) -> Result<(), AllocError>
        ensures ids { self.new.ids ≡ self.old.ids }
        ensures ok { OnOk result (ids ≤ self.new.room) }
        ensures err { OnErr result (self.new ≡ self.old) }
        ensures keeps_room { self.old.room ≤ self.new.room }
    {
        self.numbers.reserve(ids)
    }

    /// Toggles each of these. Where memory runs out, some of them are toggled.
    pub fn toggle_each(&mut self, ids: &[VertexId]) -> Result<(), AllocError>
        requires { Distinct ids.now }
        ensures { OnOk result ((w : ℕ) →
            member w self.new.ids ≡ xor (member w self.old.ids) (member w ids.now)) }
    {
        for id in ids {
            self.toggle(*id)?;
        }
        Ok(())
    }
}
