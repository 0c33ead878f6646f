//! What rewrites make of the sets of a flow.

ghost use Rattle.std.specs.Prelude.{◌≡◌, ◌<◌, ℕ, true, List, [], ◌∷◌, IsOk, OnOk, OnErr};
ghost use Rattle.zx_model.specs.Bits.{member};
ghost use Rattle.gflow_laws.specs.Seen.{Seen, in_odd_neighbourhood};
ghost use Rattle.gflow_laws.specs.Flow.{order_of, set_of, is_in, SameSets, odd_in};
ghost use Rattle.gflow_laws.specs.Removals.{removal_table};
ghost use Rattle.gflow_laws.specs.Internal.Changes.{AreChanged, complement_change};
ghost use Rattle.zx_bits.specs.Sets.{IsBelow};
ghost use Rattle.open_graph.specs.Rooms.{with_place, IsLeft};
ghost use Rattle.zx_flow.specs.Internal.Beside.{beside_change};
ghost use Rattle.zx_flow.specs.Internal.Clearing.{clearing_change};

use crate::flow::Flow;
use open_graph::VertexId;
use std::alloc::AllocError;

impl Flow {
    /// What a local complement about u makes of the set of v, where v isn't u, whose own set still
    /// stands: `changes` says whether it changes the plane of u, `is_odd` whether u has an odd number
    /// of neighbours in the set. That needs no memory where v, u and the set of u lie below `reach`.
    /// Where memory runs out, a part of this is done.
    pub fn complement_set(
        &mut self,
        u: VertexId,
        v: VertexId,
        changes: bool,
        is_odd: bool,
    ) -> Result<(), AllocError>
        requires u_there { member u (order_of self.old.flow) ≡ true }
        requires v_there { member v (order_of self.old.flow) ≡ true }
        ensures sets { OnOk result ((s : Seen) → changes ≡ odd_in (s.plane u) →
            is_odd ≡ in_odd_neighbourhood s (is_in (set_of self.old.flow v)) u → AreChanged
            (beside_change s u (set_of self.old.flow u)) (v ∷ []) self.old.flow self.new.flow) }
        ensures has_room { v < self.old.room.reach → u < self.old.room.reach →
            IsBelow self.old.room.reach (set_of self.old.flow u) → IsOk result }
        ensures room { self.new.room ≡ self.old.room }
    {
        if v == u {
            return Ok(());
        }
        if !is_odd {
            return Ok(());
        }
        self.toggle_set(v, u)?;
        if changes {
            Ok(())
        } else {
            self.toggle_one(v, u)
        }
    }

    /// What a local complement about u makes of its own set, once all others have changed: `changes`
    /// says whether it changes the plane of u. That needs no memory where u lies below `reach`. Where
    /// memory runs out the flow stays as it was.
    pub fn complement_own(&mut self, u: VertexId, changes: bool) -> Result<(), AllocError>
        requires { member u (order_of self.old.flow) ≡ true }
        ensures sets { OnOk result ((s : Seen) → changes ≡ odd_in (s.plane u) → (own : List ℕ) →
            AreChanged (complement_change s u own) (u ∷ []) self.old.flow self.new.flow) }
        ensures has_room { u < self.old.room.reach → IsOk result }
        ensures room { self.new.room ≡ self.old.room }
    {
        if changes {
            self.toggle_one(u, u)
        } else {
            Ok(())
        }
    }

    /// Takes a vertex out of the order and out of all sets: where it is a member, its own set is
    /// toggled. That needs no memory where the order and that set lie below `reach`. Where memory
    /// runs out, a part of this is done.
    pub fn eliminate(&mut self, u: VertexId) -> Result<(), AllocError>
        requires { member u (order_of self.old.flow) ≡ true }
        ensures flow { OnOk result (SameSets self.new.flow (removal_table u self.old.flow)) }
        ensures has_room { IsBelow self.old.room.reach (order_of self.old.flow) →
            IsBelow self.old.room.reach (set_of self.old.flow u) → IsOk result }
        ensures room { OnOk result (self.new.room ≡ with_place self.old.room) }
        ensures keeps_room { OnErr result (IsLeft self.old.room self.new.room) }
    {
        for i in 0..self.order().len() {
            let v = self.vertex_at(i);
            self.clear(u, v)?;
        }
        self.remove(u);
        Ok(())
    }

    // Takes u out of the set of another vertex v.
    fn clear(&mut self, u: VertexId, v: VertexId) -> Result<(), AllocError>
        requires u_there { member u (order_of self.old.flow) ≡ true }
        requires v_there { member v (order_of self.old.flow) ≡ true }
        ensures sets { OnOk result (AreChanged (clearing_change u (set_of self.old.flow u)) (v ∷ [])
            self.old.flow self.new.flow) }
        ensures has_room { v < self.old.room.reach →
            IsBelow self.old.room.reach (set_of self.old.flow u) → IsOk result }
        ensures room { self.new.room ≡ self.old.room }
    {
        if v == u {
            return Ok(());
        }
        if self.has(v, u) {
            self.toggle_set(v, u)
        } else {
            Ok(())
        }
    }
}
