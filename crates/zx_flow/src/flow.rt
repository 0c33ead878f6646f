//! Flows.

ghost use Rattle.std.specs.Prelude.{◌≡◌, ◌≢◌, ◌↔◌, ◌<◌, ◌≤◌, ◌+◌, ◌++◌, ℕ, true, false, List, [], ◌∷◌, length, slice_index};
ghost use Rattle.std.specs.Prelude.{IsOk, IfOk, IfNone, IfSome, OnOk, OnErr, ltb};
ghost use Rattle.zx_model.specs.Bits.{member};
ghost use Rattle.zx_calculus.specs.Graph.{in_order, Distinct, WellFormed};
ghost use Rattle.gflow_laws.specs.Seen.{seen, in_odd_neighbourhood};
ghost use Rattle.gflow_laws.specs.Flow.{order_of, set_of, is_in, IsFlow, SameSets};
ghost use Rattle.gflow_laws.specs.Tables.{without_set};
ghost use Rattle.zx_bits.specs.Sets.{IsBelow};
ghost use Rattle.open_graph.specs.Rooms.{without_place, with_place, IsLeft, IsAtLeast};
ghost use Rattle.zx_flow.specs.Flows.{IsNamed, HavePlace, HaveReach};
ghost use Rattle.zx_flow.specs.Changes.{set_toggled};

use crate::corrections::Corrections;
use crate::table::FlowTable;
use open_graph::{Ids, OpenGraph, VertexId, VertexSet};
use std::alloc::{AllocError, Global};
use std::marker::Model;

/// A generalised flow that is kept beside a graph: an order of vertices, each with a set.
#[derive(Drop)]
pub struct Flow {
    alloc: Global,
    corrections: Corrections,
}

impl Model for Flow {
    ghost use Rattle.zx_flow.specs.Flows.{Flow as Seen};

    ghost Value = { Seen };

    ghost view = { λ f. record {
      flow = f.corrections.table;
      room = f.corrections.room;
    } };
}

impl Flow {
    /// The flow of a graph that a table is.
    pub fn of_table(g: &OpenGraph, t: FlowTable) -> Result<Flow, AllocError>
        requires { IsFlow g.now.graph t.table }
        ensures { IfOk result (λ f. f.flow ≡ t.table) }
    {
        Ok(Flow {
            alloc: t.alloc,
            corrections: t.corrections,
        })
    }

    /// The vertices that have a correction set, in their order.
    pub fn order(&self) -> &[VertexId]
        ensures value { result.now ≡ order_of self.now.flow }
        ensures valid { Distinct (order_of self.now.flow) }
    {
        self.corrections.order()
    }

    /// The vertex at a place of the order.
    pub fn vertex_at(&self, i: usize) -> VertexId
        requires { i < length (order_of self.now.flow) }
        ensures value { result ≡ slice_index (order_of self.now.flow) i }
        ensures there { member result (order_of self.now.flow) ≡ true }
    {
        self.order()[i]
    }

    /// The last vertex of the order.
    pub fn last(&self) -> Option<VertexId>
        ensures some { IfSome result (λ v.
            (before : List ℕ) × (order_of self.now.flow ≡ before ++ v ∷ [])) }
        ensures none { IfNone result (order_of self.now.flow ≡ []) }
    {
        self.corrections.order().last().copied()
    }

    /// The correction set of a vertex, by rising id.
    pub fn correction(&self, v: VertexId) -> Ids<'_>
        requires { member v (order_of self.now.flow) ≡ true }
        ensures value { result ≡ set_of self.now.flow v }
        ensures valid { in_order ltb (set_of self.now.flow v) ≡ true }
    {
        self.corrections.set(v).iter()
    }

    /// The correction set of a vertex, as a set.
    pub fn correction_set(&self, v: VertexId) -> &VertexSet
        requires { member v (order_of self.now.flow) ≡ true }
        ensures { result.now.ids ≡ set_of self.now.flow v }
    {
        self.corrections.set(v)
    }

    /// Whether a vertex w is a member of the correction set of v.
    pub fn has(&self, v: VertexId, w: VertexId) -> bool
        requires { member v (order_of self.now.flow) ≡ true }
        ensures { result ≡ is_in (set_of self.now.flow v) w }
    {
        self.corrections.set(v).contains(w)
    }

    /// Whether a vertex w is adjacent to an odd number of members of the set of v.
    pub fn odd_has(&self, g: &OpenGraph, v: VertexId, w: VertexId) -> bool
        requires { member v (order_of self.now.flow) ≡ true }
        ensures { result ≡ in_odd_neighbourhood (seen g.now.graph) (is_in (set_of self.now.flow v)) w }
    {
        let set = self.corrections.set(v);
        g.is_live(w) && set.common_with(g.neighbour_set(w)) % 2 == 1
    }

    /// Toggles these in the set of a vertex, without memory below `reach`. Where memory runs out the
    /// flow stays as it was.
    pub fn toggle(&mut self, v: VertexId, members: &VertexSet) -> Result<(), AllocError>
        requires { member v (order_of self.old.flow) ≡ true }
        ensures ok { OnOk result (SameSets self.new.flow
            (set_toggled v members.now.ids self.old.flow)) }
        ensures err { OnErr result (self.new.flow ≡ self.old.flow) }
        ensures has_room { v < self.old.room.reach →
            IsBelow self.old.room.reach members.now.ids → IsOk result }
        ensures room { self.new.room ≡ self.old.room }
    {
        self.corrections.toggle(v, members)
    }

    /// Toggles the set of a vertex u in that of another one v, without memory below `reach`. Where
    /// memory runs out the flow stays as it was.
    pub fn toggle_set(&mut self, v: VertexId, u: VertexId) -> Result<(), AllocError>
        requires v_there { member v (order_of self.old.flow) ≡ true }
        requires u_there { member u (order_of self.old.flow) ≡ true }
        requires different { v ≢ u }
        ensures ok { OnOk result (SameSets self.new.flow
            (set_toggled v (set_of self.old.flow u) self.old.flow)) }
        ensures err { OnErr result (self.new.flow ≡ self.old.flow) }
        ensures has_room { v < self.old.room.reach →
            IsBelow self.old.room.reach (set_of self.old.flow u) → IsOk result }
        ensures room { self.new.room ≡ self.old.room }
    {
        self.corrections.toggle_set(v, u)
    }

    // Toggles a vertex w in the set of v, without memory below `reach`. Where memory runs out the flow
    // stays as it was.
    pub(crate) fn toggle_one(&mut self, v: VertexId, w: VertexId) -> Result<(), AllocError>
        requires { member v (order_of self.old.flow) ≡ true }
        ensures toggled { OnOk result
            (SameSets self.new.flow (set_toggled v (w ∷ []) self.old.flow)) }
        ensures has_room { v < self.old.room.reach → w < self.old.room.reach → IsOk result }
        ensures room { self.new.room ≡ self.old.room }
    {
        self.corrections.toggle_one(v, w)
    }

    /// Adds a vertex v after all others, corrected by w alone. It uses one of `spare`, and below
    /// `reach` no memory then. Where memory runs out the flow stays as it was.
    pub fn add_last(&mut self, v: VertexId, w: VertexId) -> Result<(), AllocError>
        requires { member v (order_of self.old.flow) ≡ false }
        ensures ok { OnOk result (self.new.flow ≡
            self.old.flow ++ record { vertex = v; members = w ∷ [] } ∷ []) }
        ensures err { OnErr result (self.new.flow ≡ self.old.flow) }
        ensures has_room { 0 < self.old.room.spare → v < self.old.room.reach →
            w < self.old.room.reach → IsOk result }
        ensures room { OnOk result (IsLeft (without_place self.old.room) self.new.room) }
        ensures keeps_room { OnErr result (IsLeft self.old.room self.new.room) }
    {
        self.corrections.add_last(v, w)
    }

    /// Adds a vertex v before all others, corrected by w alone. It uses one of `spare`, and below
    /// `reach` no memory then. Where memory runs out the flow stays as it was.
    pub fn add_first(&mut self, v: VertexId, w: VertexId) -> Result<(), AllocError>
        requires { member v (order_of self.old.flow) ≡ false }
        ensures ok { OnOk result (self.new.flow ≡
            record { vertex = v; members = w ∷ [] } ∷ self.old.flow) }
        ensures err { OnErr result (self.new.flow ≡ self.old.flow) }
        ensures has_room { 0 < self.old.room.spare → v < self.old.room.reach →
            w < self.old.room.reach → IsOk result }
        ensures room { OnOk result (IsLeft (without_place self.old.room) self.new.room) }
        ensures keeps_room { OnErr result (IsLeft self.old.room self.new.room) }
    {
        self.corrections.add_first(v, w)
    }

    /// Takes a vertex out of the order, and its set away. Its place is free for another one.
    pub fn remove(&mut self, v: VertexId)
        requires { member v (order_of self.old.flow) ≡ true }
        ensures flow { self.new.flow ≡ without_set v self.old.flow }
        ensures room { self.new.room ≡ with_place self.old.room }
    {
        self.corrections.remove(v);
    }

    /// Whether the ids of all vertices of a graph are below its reach and that of the flow.
    pub fn has_reach(&self, g: &OpenGraph) -> bool
        ensures value { (result ≡ true) ↔ HaveReach g.now self.now }
        ensures valid { WellFormed g.now.graph }
    {
        g.is_below(g.reach()) && g.is_below(self.corrections.reach())
    }

    /// Whether a graph and the flow each have a place for one vertex more, with all ids below the reach
    /// of both.
    pub fn has_place(&self, g: &OpenGraph) -> bool
        ensures value { (result ≡ true) ↔ HavePlace g.now self.now }
        ensures valid { WellFormed g.now.graph }
    {
        let new = g.next_id();
        let is_below = new < g.reach() && new < self.reach();
        g.spare() > 0 && self.spare() > 0 && is_below && self.has_reach(g)
    }

    /// How many vertices can be added without memory.
    pub fn spare(&self) -> usize
        ensures { result ≡ self.now.room.spare }
    {
        self.corrections.spare()
    }

    /// The bound below which sets change without memory.
    pub fn reach(&self) -> usize
        ensures { result ≡ self.now.room.reach }
    {
        self.corrections.reach()
    }

    /// The same flow once more, with memory for as many vertices more, and with the same reach.
    pub fn copy(&self) -> Result<Flow, AllocError>
        ensures flow { IfOk result (λ copy. copy.flow ≡ self.now.flow) }
        ensures room { IfOk result (λ copy. IsLeft self.now.room copy.room) }
    {
        Ok(Flow {
            alloc: self.alloc,
            corrections: self.corrections.copy()?,
        })
    }

    /// Takes the memory for so many more vertices, and for all ids of the flow and so many more.
    pub fn reserve(&mut self, vertices: usize) -> Result<(), AllocError>
        ensures flow { self.new.flow ≡ self.old.flow }
        ensures room { OnOk result
            (IsAtLeast (record { spare = vertices; reach = vertices }) self.new.room) }
        ensures named { OnOk result ((v : ℕ) → IsNamed self.old.flow v →
            v + vertices < self.new.room.reach) }
        ensures keeps_room { IsAtLeast self.old.room self.new.room }
    {
        self.corrections.reserve(vertices)
    }

    /// Takes the memory that another flow has: for as many vertices in all, and for the sets of all
    /// vertices below its reach. Where it runs out, some may be taken.
    pub fn reserve_like(&mut self, other: &Flow) -> Result<(), AllocError>
        ensures flow { self.new.flow ≡ self.old.flow }
        ensures places { OnOk result (other.now.room.spare + length (order_of other.now.flow)
            ≤ self.new.room.spare + length (order_of self.new.flow)) }
        ensures reach { OnOk result (other.now.room.reach ≤ self.new.room.reach) }
        ensures keeps_room { IsAtLeast self.old.room self.new.room }
    {
        self.corrections.reserve_like(&other.corrections)
    }
}
