//! Flows turned over: of each vertex, in the correction sets of which vertices it stands.

ghost use Rattle.std.specs.Prelude.{◌≡◌, ◌++◌, ℕ, ◌||◌, ◌==◌, List, [], ◌∷◌, count_by, IfOk, IfNone, IfSome, OnOk};
ghost use Rattle.gflow_laws.specs.Flow.{Correction, is_in, SameSets};
ghost use Rattle.gflow_laws.specs.Outputs.{row_added_table, advanced_table, last_removed_table};

use crate::ahead::Ahead;
use open_graph::VertexId;
use std::alloc::{AllocError, Global};
use std::marker::Model;
use zx_flow::{Flow, VertexSets};

// Among how many of the next vertices gadgets are looked for, and how many of the next sets are looked at.
const GADGETS_AHEAD: usize = 64;

const SETS_AHEAD: usize = 16;

// A flow turned over: for each vertex, in the correction sets of which vertices it stands.
#[derive(Drop)]
pub(crate) struct Holders {
    order: Vec<VertexId>,
    held: VertexSets,
}

impl Model for Holders {
    ghost use Rattle.zx_extract.specs.Internal.Holders.{Holders as Seen};

    ghost Value = { Seen };

    ghost use Rattle.zx_extract.specs.Internal.Holders.{table_from, IsOrdered};

    ghost view = { λ h. record { flow = table_from h.held.lists h.order.items } };

    ghost invariant = { λ h. IsOrdered h.order.items h.held.lists };
}

impl Holders {
    // The flow, turned over.
    pub(crate) fn of_flow(alloc: Global, f: &Flow) -> Result<Holders, AllocError>
        ensures { IfOk result (λ h. SameSets h.flow f.now.flow) }
    {
        let vertices = f.order();
        let order = Vec::from_slice(alloc, vertices)?;
        let mut held = VertexSets::new(alloc);
        for v in vertices {
            for s in f.correction_set(*v).iter() {
                held.toggle_one(s, *v)?;
            }
        }
        Ok(Holders { order, held })
    }

    // The last vertex of the order.
    pub(crate) fn last(&self) -> Option<VertexId>
        ensures some { IfSome result (λ v. (before : List Correction) × (e : Correction)
            × (self.now.flow ≡ before ++ e ∷ []) × (e.vertex ≡ v)) }
        ensures none { IfNone result (self.now.flow ≡ []) }
    {
        self.order.last().copied()
    }

    // The vertex of the order so many places before the last one.
    pub(crate) fn before_last(&self, places: usize) -> Option<VertexId> {
        let end = self.order.len().saturating_sub(1);
        if places < end {
            Some(self.order[end - places - 1])
        } else {
            None
        }
    }

    // The next sets, those of the vertices before the last one.
    pub(crate) fn sets_ahead(&self) -> Ahead {
        let mut ahead = Ahead::none();
        for places in 0..SETS_AHEAD {
            if let Some(v) = self.before_last(places) {
                ahead.look_at(v);
            }
        }
        ahead
    }

    // The gadgets among the vertices before the last one: each stands in its own correction set.
    pub(crate) fn gadgets_ahead(&self) -> Ahead {
        let mut ahead = Ahead::none();
        for places in 0..GADGETS_AHEAD {
            match self.before_last(places) {
                Some(v) if self.has(v, v) => ahead.look_at(v),
                Some(_) => {}
                None => break,
            }
        }
        ahead
    }

    // Whether a vertex stands in the correction set of another.
    pub(crate) fn has(&self, s: VertexId, v: VertexId) -> bool {
        self.held.get(s).contains(v)
    }

    // Whether a vertex stands in the correction set of the last one.
    pub(crate) fn last_has(&self, s: VertexId) -> bool
        ensures { (before : List Correction) (e : Correction) →
            self.now.flow ≡ before ++ e ∷ [] → result ≡ is_in e.members s }
    {
        match self.order.last() {
            Some(v) => self.held.get(s).contains(*v),
            None => false,
        }
    }

    // In how many correction sets a vertex stands.
    pub(crate) fn count(&self, s: VertexId) -> usize
        ensures { result ≡ count_by (λ e. is_in e.members s) self.now.flow }
    {
        self.held.get(s).len()
    }

    // Toggles c in each set that has t.
    pub(crate) fn add_row(&mut self, c: VertexId, t: VertexId) -> Result<(), AllocError>
        ensures { OnOk result (SameSets self.new.flow (row_added_table c t self.old.flow)) }
    {
        self.held.toggle_set(c, t)
    }

    // Takes the last vertex away, whose set has x alone, and x out of all sets.
    pub(crate) fn advance(&mut self, x: VertexId)
        requires { (before : List Correction) × (e : Correction)
            × (self.old.flow ≡ before ++ e ∷ []) × ((y : ℕ) → is_in e.members y ≡ (y == x)) }
        ensures { (before : List Correction) (e : Correction) → self.old.flow ≡ before ++ e ∷ []
            → SameSets self.new.flow (advanced_table x before) }
    {
        self.held.clear(x);
        self.order.pop();
    }

    // Takes the last vertex away, whose set has itself alone, and out of all sets.
    pub(crate) fn take_alone(&mut self)
        requires { (before : List Correction) × (e : Correction)
            × (self.old.flow ≡ before ++ e ∷ []) × ((y : ℕ) → is_in e.members y ≡ (y == e.vertex)) }
        ensures { (before : List Correction) (e : Correction) → self.old.flow ≡ before ++ e ∷ []
            → SameSets self.new.flow (last_removed_table e before) }
    {
        if let Some(v) = self.order.pop() {
            self.held.clear(v);
        }
    }

    // Takes the last vertex away, whose set has itself and x. Both are toggled in the sets that
    // have it.
    pub(crate) fn take_linked(&mut self, x: VertexId) -> Result<(), AllocError>
        requires { (before : List Correction) × (e : Correction)
            × (self.old.flow ≡ before ++ e ∷ [])
            × ((y : ℕ) → is_in e.members y ≡ ((y == e.vertex) || (y == x))) }
        ensures { OnOk result ((before : List Correction) (e : Correction) →
            self.old.flow ≡ before ++ e ∷ [] →
            SameSets self.new.flow (last_removed_table e before)) }
    {
        if let Some(v) = self.order.last().copied() {
            self.held.toggle_set(x, v)?;
            self.held.clear(v);
            self.order.pop();
        }
        Ok(())
    }
}
