//! An order of vertices, each with a set.

ghost use Rattle.std.specs.Prelude.{◌≡◌, ◌≢◌, ◌<◌, ◌≤◌, ◌+◌, ◌++◌, ℕ, true, false, if◌then◌else◌, ◌==◌, [], ◌∷◌, length, IsOk, IfOk, OnOk, OnErr};
ghost use Rattle.zx_model.specs.Bits.{member};
ghost use Rattle.zx_calculus.specs.Graph.{Distinct};
ghost use Rattle.gflow_laws.specs.Flow.{order_of, set_of, SameSets};
ghost use Rattle.gflow_laws.specs.Tables.{with_sets, without_set};
ghost use Rattle.zx_bits.specs.Sets.{IsBelow};
ghost use Rattle.open_graph.specs.Rooms.{without_place, with_place, IsLeft, IsAtLeast};
ghost use Rattle.zx_flow.specs.Flows.{IsNamed};
ghost use Rattle.zx_flow.specs.Changes.{set_toggled};

use crate::sets::VertexSets;
use open_graph::{VertexId, VertexSet};
use std::alloc::{AllocError, Global};
use std::marker::Model;

// The order, and sets by the number of their vertex.
#[derive(Drop)]
pub(crate) struct Corrections {
    alloc: Global,
    order: Vec<VertexId>,
    sets: VertexSets,
}

impl Model for Corrections {
    ghost use Rattle.std.specs.Prelude.{◌-◌, vec_len, vec_capacity};
    ghost use Rattle.zx_flow.specs.Internal.Sets.{Corrections as Seen, table_of, HoldsOnce};

    ghost Value = { Seen };

    ghost view = { λ c. record {
      table = table_of c.sets.lists c.order.items;
      room = record { spare = vec_capacity c.order - vec_len c.order; reach = c.sets.reach };
    } };

    ghost invariant = { λ c. HoldsOnce c.sets.lists c.order.items };
}

impl Corrections {
    pub(crate) fn new(alloc: Global) -> Corrections
        ensures { result.table ≡ [] }
    {
        Corrections {
            alloc,
            order: Vec::new(alloc),
            sets: VertexSets::new(alloc),
        }
    }

    pub(crate) fn order(&self) -> &[VertexId]
        ensures value { result.now ≡ order_of self.now.table }
        ensures each_once { Distinct (order_of self.now.table) }
    {
        &self.order
    }

    pub(crate) fn set(&self, v: VertexId) -> &VertexSet
        requires { member v (order_of self.now.table) ≡ true }
        ensures { result.now.ids ≡ set_of self.now.table v }
    {
        self.sets.get(v)
    }

    // Another set for a vertex of the order.
    pub(crate) fn replace(&mut self, v: VertexId, set: VertexSet)
        requires { member v (order_of self.old.table) ≡ true }
        ensures { self.new.table ≡
            with_sets (λ u members. if u == v then set.ids else members) self.old.table }
    {
        self.sets.put(v, set);
    }

    // Adds a vertex after all others, with its set.
    pub(crate) fn push(&mut self, v: VertexId, set: VertexSet) -> Result<(), AllocError>
        requires { member v (order_of self.old.table) ≡ false }
        ensures ok { OnOk result (self.new.table ≡
            self.old.table ++ record { vertex = v; members = set.ids } ∷ []) }
        ensures err { OnErr result (self.new.table ≡ self.old.table) }
    {
        self.sets.make_place(v)?;
        self.order.push(v)?;
        self.sets.put(v, set);
        Ok(())
    }

    // Toggles these in the set of a vertex.
    pub(crate) fn toggle(&mut self, v: VertexId, members: &VertexSet) -> Result<(), AllocError>
        requires { member v (order_of self.old.table) ≡ true }
        ensures ok { OnOk result (SameSets self.new.table
            (set_toggled v members.now.ids self.old.table)) }
        ensures err { OnErr result (self.new.table ≡ self.old.table) }
        ensures has_room { v < self.old.room.reach →
            IsBelow self.old.room.reach members.now.ids → IsOk result }
        ensures room { self.new.room ≡ self.old.room }
    {
        self.sets.toggle(v, members)
    }

    // Toggles a vertex w in the set of v.
    pub(crate) fn toggle_one(&mut self, v: VertexId, w: VertexId) -> Result<(), AllocError>
        requires { member v (order_of self.old.table) ≡ true }
        ensures ok { OnOk result (SameSets self.new.table (set_toggled v (w ∷ []) self.old.table)) }
        ensures err { OnErr result (self.new.table ≡ self.old.table) }
        ensures has_room { v < self.old.room.reach → w < self.old.room.reach → IsOk result }
        ensures room { self.new.room ≡ self.old.room }
    {
        self.sets.toggle_one(v, w)
    }

    // Toggles the set of u in that of v.
    pub(crate) fn toggle_set(&mut self, v: VertexId, u: VertexId) -> Result<(), AllocError>
        requires v_there { member v (order_of self.old.table) ≡ true }
        requires u_there { member u (order_of self.old.table) ≡ true }
        requires apart { v ≢ u }
        ensures ok { OnOk result (SameSets self.new.table
            (set_toggled v (set_of self.old.table u) self.old.table)) }
        ensures err { OnErr result (self.new.table ≡ self.old.table) }
        ensures has_room { v < self.old.room.reach →
            IsBelow self.old.room.reach (set_of self.old.table u) → IsOk result }
        ensures room { self.new.room ≡ self.old.room }
    {
        self.sets.toggle_set(v, u)
    }

    // Adds a vertex v after all others, with w as its set.
    pub(crate) fn add_last(&mut self, v: VertexId, w: VertexId) -> Result<(), AllocError>
        requires { member v (order_of self.old.table) ≡ false }
        ensures ok { OnOk result (self.new.table ≡
            self.old.table ++ record { vertex = v; members = w ∷ [] } ∷ []) }
        ensures err { OnErr result (self.new.table ≡ self.old.table) }
        ensures has_room { 0 < self.old.room.spare → v < self.old.room.reach →
            w < self.old.room.reach → IsOk result }
        ensures room { OnOk result (IsLeft (without_place self.old.room) self.new.room) }
        ensures keeps_room { OnErr result (IsLeft self.old.room self.new.room) }
    {
        self.sets.add_one(v, w)?;
        self.order.push(v)?;
        Ok(())
    }

    // Adds a vertex v before all others, with w as its set.
    pub(crate) fn add_first(&mut self, v: VertexId, w: VertexId) -> Result<(), AllocError>
        requires { member v (order_of self.old.table) ≡ false }
        ensures ok { OnOk result (self.new.table ≡
            record { vertex = v; members = w ∷ [] } ∷ self.old.table) }
        ensures err { OnErr result (self.new.table ≡ self.old.table) }
        ensures has_room { 0 < self.old.room.spare → v < self.old.room.reach →
            w < self.old.room.reach → IsOk result }
        ensures room { OnOk result (IsLeft (without_place self.old.room) self.new.room) }
        ensures keeps_room { OnErr result (IsLeft self.old.room self.new.room) }
    {
        self.sets.add_one(v, w)?;
        self.order.insert(0, v)?;
        Ok(())
    }

    // Takes a vertex out of the order, and its set away.
    pub(crate) fn remove(&mut self, v: VertexId)
        requires { member v (order_of self.old.table) ≡ true }
        ensures table { self.new.table ≡ without_set v self.old.table }
        ensures room { self.new.room ≡ with_place self.old.room }
    {
        self.order.retain(|u| *u != v);
        self.sets.clear(v);
    }

    // How many vertices can be added without memory.
    pub(crate) fn spare(&self) -> usize
        ensures { result ≡ self.now.room.spare }
    {
        self.order.capacity().saturating_sub(self.order.len())
    }

    // Below which bound sets change without memory.
    pub(crate) fn reach(&self) -> usize
        ensures { result ≡ self.now.room.reach }
    {
        self.sets.reach()
    }

    // The same once more, with room for as many vertices more, and sets with the same reach.
    pub(crate) fn copy(&self) -> Result<Corrections, AllocError>
        ensures table { IfOk result (λ copy. copy.table ≡ self.now.table) }
        ensures room { IfOk result (λ copy. IsLeft self.now.room copy.room) }
    {
        let mut order = Vec::from_slice(self.alloc, &self.order)?;
        order.reserve(self.spare())?;
        Ok(Corrections {
            alloc: self.alloc,
            order,
            sets: self.sets.copy()?,
        })
    }

    // Takes the memory for so many vertices more, above all that are named.
    pub(crate) fn reserve(&mut self, vertices: usize) -> Result<(), AllocError>
        ensures table { self.new.table ≡ self.old.table }
        ensures room { OnOk result
            (IsAtLeast (record { spare = vertices; reach = vertices }) self.new.room) }
        ensures named { OnOk result ((v : ℕ) → IsNamed self.old.table v →
            v + vertices < self.new.room.reach) }
        ensures keeps_room { IsAtLeast self.old.room self.new.room }
    {
        self.order.reserve(vertices)?;
        match self.sets.end().checked_add(vertices) {
            Some(bound) => self.sets.reserve(bound),
            None => Err(AllocError),
        }
    }

    // Takes the memory that others have: for as many vertices in all, and below the same bound.
    pub(crate) fn reserve_like(&mut self, other: &Corrections) -> Result<(), AllocError>
        ensures table { self.new.table ≡ self.old.table }
        ensures places { OnOk result (other.now.room.spare + length (order_of other.now.table)
            ≤ self.new.room.spare + length (order_of self.new.table)) }
        ensures reach { OnOk result (other.now.room.reach ≤ self.new.room.reach) }
        ensures keeps_room { IsAtLeast self.old.room self.new.room }
    {
        let places = other.order.capacity();
        self.order.reserve(places.saturating_sub(self.order.len()))?;
        self.sets.reserve(other.reach())
    }
}
