//! The order of a flow, told by ranks.

ghost use Rattle.std.specs.Prelude.{◌≡◌, ℕ, suc, IfOk, OnOk};
ghost use Rattle.zx_calculus.specs.Graph.{Graph, Distinct};
ghost use Rattle.gflow_laws.specs.Flow.{IsFlow};
ghost use Rattle.move_laws.specs.Ranks.{rank_in, ranked};
ghost use Rattle.graph_rewrites.specs.Steps.{step_named};
ghost use Rattle.zx_reduce.specs.Internal.Guiding.{AreRanked, HasFlowIn};
ghost use Rattle.zx_reduce.specs.Internal.Ranked.{AreRanksAfter};

use graph_rewrites::Step;
use open_graph::VertexId;
use std::alloc::{AllocError, Global};
use vertex_map::{Values, VertexMap};
use zx_flow::Flow;

// The rank at which a list begins: as far from the least rank as from the greatest.
const MIDDLE: u64 = 9_223_372_036_854_775_808;

// Ranks of vertices, 0 for those that have none.
pub(crate) struct Rank;

impl Values for Rank {
    type Value = u64;

    ghost absent = { λ _. 0 };

    fn absent(_: usize) -> u64 {
        0
    }
}

/// A rank for each vertex, at its number. The ranks of the vertices of an order rise along it, from
/// `low` on and below `high`; the others don't matter.
#[derive(Drop)]
pub(crate) struct Ranks {
    pub(crate) ranks: VertexMap<Rank>,
    pub(crate) low: u64,
    pub(crate) high: u64,
}

impl Ranks {
    /// Ranks that rise along the order of a flow.
    pub(crate) fn of_flow(alloc: Global, f: &Flow) -> Result<Ranks, AllocError>
        ensures { IfOk result (λ order. (g : Graph) → IsFlow g f.now.flow → HasFlowIn g order) }
    {
        Ranks::of_order(alloc, f.order())
    }

    /// Ranks that rise along this order.
    pub(crate) fn of_order(alloc: Global, order: &[VertexId]) -> Result<Ranks, AllocError>
        requires { Distinct order.now }
        ensures { IfOk result (AreRanked order.now) }
    {
        let mut made = Ranks {
            ranks: VertexMap::new(alloc),
            low: MIDDLE,
            high: MIDDLE,
        };
        for v in order {
            made.add_last(*v)?;
        }
        Ok(made)
    }

    /// Gives a vertex a rank below all others.
    pub(crate) fn add_first(&mut self, v: VertexId) -> Result<(), AllocError>
        ensures ranks { OnOk result ((w : ℕ) →
            rank_in self.new.ranks w ≡ ranked v self.new.low (rank_in self.old.ranks) w) }
        ensures low { OnOk result (self.old.low ≡ suc self.new.low) }
        ensures high { OnOk result (self.new.high ≡ self.old.high) }
    {
        // Memory for so many vertices runs out long before.
        let low = self.low.checked_sub(1).ok_or(AllocError)?;
        self.ranks.set(v.get(), low)?;
        self.low = low;
        Ok(())
    }

    /// Gives a vertex a rank above all others.
    pub(crate) fn add_last(&mut self, v: VertexId) -> Result<(), AllocError>
        ensures ranks { OnOk result ((w : ℕ) →
            rank_in self.new.ranks w ≡ ranked v self.old.high (rank_in self.old.ranks) w) }
        ensures low { OnOk result (self.new.low ≡ self.old.low) }
        ensures high { OnOk result (self.new.high ≡ suc self.old.high) }
    {
        // Memory for so many vertices runs out long before.
        let high = self.high.checked_add(1).ok_or(AllocError)?;
        self.ranks.set(v.get(), self.high)?;
        self.high = high;
        Ok(())
    }

    /// Gives a rank to the vertex that comes into the order where a step splits an end: of an input, the new one.
    pub(crate) fn follow(&mut self, step: &Step, added: VertexId) -> Result<(), AllocError>
        ensures { OnOk result (AreRanksAfter (step_named step.now) added self.old self.new) }
    {
        match step {
            Step::SplitInput(_) => self.add_first(added),
            Step::SplitOutput(b) => self.add_last(*b),
            _ => Ok(()),
        }
    }
}
