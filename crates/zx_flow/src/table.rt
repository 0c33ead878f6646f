//! Tables of corrections.

ghost use Rattle.std.specs.Prelude.{◌≡◌, ◌++◌, ◌==◌, if◌then◌else◌, true, false, [], ◌∷◌, OnOk, OnErr, ltb};
ghost use Rattle.zx_model.specs.Bits.{member};
ghost use Rattle.zx_calculus.specs.Graph.{in_order, Distinct};
ghost use Rattle.gflow_laws.specs.Flow.{order_of, set_of, SameSets};
ghost use Rattle.gflow_laws.specs.Tables.{with_sets};

use crate::corrections::Corrections;
use open_graph::{Ids, VertexId, VertexSet};
use std::alloc::{AllocError, Global};
use std::marker::Model;

/// An order of vertices, each with a set. It needn't be a flow of any graph.
#[derive(Drop)]
pub struct FlowTable {
    pub(crate) alloc: Global,
    pub(crate) corrections: Corrections,
}

impl Model for FlowTable {
    ghost use Rattle.zx_flow.specs.Flows.{FlowTable as Seen};

    ghost Value = { Seen };

    ghost view = { λ t. record { table = t.corrections.table } };
}

impl FlowTable {
    /// The table without vertices.
    pub fn new(alloc: Global) -> FlowTable
        ensures { result.table ≡ [] }
    {
        FlowTable {
            alloc,
            corrections: Corrections::new(alloc),
        }
    }

    /// Adds a vertex after all others, with its set. Where memory runs out the table stays as
    /// it was.
    pub fn add(&mut self, v: VertexId, members: &[VertexId]) -> Result<(), AllocError>
        requires fresh { member v (order_of self.old.table) ≡ false }
        requires differ { Distinct members.now }
        ensures ok { OnOk result (SameSets self.new.table
            (self.old.table ++ record { vertex = v; members = members.now } ∷ [])) }
        ensures err { OnErr result (self.new.table ≡ self.old.table) }
    {
        let mut set = VertexSet::new(self.alloc);
        set.toggle_each(members)?;
        self.corrections.push(v, set)
    }

    /// Puts a set in the place of that of a vertex.
    pub fn set(&mut self, v: VertexId, members: VertexSet)
        requires { member v (order_of self.old.table) ≡ true }
        ensures { self.new.table ≡
            with_sets (λ u set. if u == v then members.ids else set) self.old.table }
    {
        self.corrections.replace(v, members);
    }

    /// The vertices in their order.
    pub fn order(&self) -> &[VertexId]
        ensures value { result.now ≡ order_of self.now.table }
        ensures valid { Distinct (order_of self.now.table) }
    {
        self.corrections.order()
    }

    /// The set of a vertex, by rising id.
    pub fn correction(&self, v: VertexId) -> Ids<'_>
        requires { member v (order_of self.now.table) ≡ true }
        ensures value { result ≡ set_of self.now.table v }
        ensures valid { in_order ltb (set_of self.now.table v) ≡ true }
    {
        self.corrections.set(v).iter()
    }

    /// The set of a vertex, as a set.
    pub fn correction_set(&self, v: VertexId) -> &VertexSet
        requires { member v (order_of self.now.table) ≡ true }
        ensures { result.now.ids ≡ set_of self.now.table v }
    {
        self.corrections.set(v)
    }
}
