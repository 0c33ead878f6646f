//! The last correction set of a flow, and sums of its rows.

ghost use Rattle.std.specs.Prelude.{◌≡◌, ◌<◌, ℕ, true, false, not, ◌&&◌, ◌==◌, length, IfOk, IfNone, IfSome, OnOk};
ghost use Rattle.zx_model.specs.Bits.{member, xor};
ghost use Rattle.zx_calculus.specs.Graph.{end_vertices, joined, plane_of, IsVertex, WellFormed};
ghost use Rattle.zx_calculus.specs.Graph as zx;
ghost use Rattle.circuit_laws.specs.Peeling.{HasPlainOutput, are_plain};
ghost use Rattle.zx_extract.specs.Internal.FrontGraphs.{AreOutputsApart};
ghost use Rattle.zx_extract.specs.Internal.Frontiers.{remainder_of};
ghost use Rattle.zx_extract.specs.Internal.Leading.{IsReady, IsFrontier};
ghost use Rattle.zx_extract.specs.Internal.Lists.{last_set};
ghost use Rattle.zx_extract.specs.Internal.Steps.{HasLast, IsPicked, HasNoOutput, IsGathered, IsGatheredBesideRow, IsRowReplaced};

use crate::ahead::{Ahead, Choices, EVEN, MOST_AHEAD};
use crate::choosing::{Candidate, cheaper};
use crate::frontier::Frontier;
use open_graph::VertexId;
use std::alloc::AllocError;
use zx_gates::Qubit;

impl Frontier {
    // Whether the vertex of an output is in the last set.
    fn corrects_last(&self, q: Qubit) -> bool
        requires plain { are_plain self.now.graph.graph.outputs ≡ true }
        requires last { (v : ℕ) × HasLast self.now.flow.flow v }
        requires on_wires { q < length self.now.graph.graph.outputs }
        ensures { (u : ℕ) → HasPlainOutput self.now.graph.graph q u →
            result ≡ last_set self.now.flow.flow u }
    {
        self.flow.last_has(self.present(q))
    }

    // Counts an output, which is in the last set, at each of the next sets that has it.
    fn add_member(&self, q: Qubit, ahead: &mut Ahead)
        requires plain { are_plain self.now.graph.graph.outputs ≡ true }
        requires on_wires { q < length self.now.graph.graph.outputs }
    {
        let member = self.present(q);
        for place in 0..MOST_AHEAD {
            match ahead.vertex(place) {
                Some(y) if self.flow.has(member, y) => ahead.add(place),
                Some(_) => {}
                None => break,
            }
        }
    }

    // How many outputs the next sets have in sum once the rows of these outputs are gathered at one, but for a number
    // that is the same for each.
    fn member_cost(&self, q: Qubit, ahead: &Ahead, members: &Choices) -> usize
        requires plain { are_plain self.now.graph.graph.outputs ≡ true }
        requires on_wires { q < length self.now.graph.graph.outputs }
    {
        let member = self.present(q);
        let mut cost = EVEN;
        for place in 0..MOST_AHEAD {
            match ahead.vertex(place) {
                Some(y) if self.flow.has(member, y) => cost = ahead.cost(cost, place, members),
                Some(_) => {}
                None => break,
            }
        }
        cost
    }

    // The next sets, and how many of these outputs each has.
    fn sets_ahead(&self, members: &Choices) -> Ahead
        requires { IsReady (remainder_of self.now) }
    {
        let mut ahead = self.flow.sets_ahead();
        for q in 0..self.qubits() {
            if members.has(q) {
                self.add_member(q, &mut ahead);
            }
        }
        ahead
    }

    // An output in the last set, and all outputs in it as choices.
    fn some_member(&self, members: &mut Choices) -> Option<Qubit>
        requires ready { IsReady (remainder_of self.now) }
        requires last { (v : ℕ) × HasLast self.now.flow.flow v }
        ensures some { IfSome result (λ q. IsPicked (remainder_of self.now) q) }
        ensures none { IfNone result (HasNoOutput (remainder_of self.now)) }
    {
        let mut some = None;
        for q in 0..self.qubits() {
            if self.corrects_last(q) {
                members.add(q);
                some = Some(q);
            }
        }
        some
    }

    // Of these outputs those in the last set are the choices, of which one is known: one after whose choice the next
    // sets have the fewest outputs, and of these one that stands in the fewest sets.
    fn cheapest_member(&self, some: Qubit, members: &Choices) -> Qubit
        requires ready { IsReady (remainder_of self.now) }
        requires last { (v : ℕ) × HasLast self.now.flow.flow v }
        requires some { IsPicked (remainder_of self.now) some }
        ensures { IsPicked (remainder_of self.now) result }
    {
        let ahead = self.sets_ahead(members);
        let mut best = Candidate::last_resort(some);
        for q in 0..self.qubits() {
            if !members.has(q) || !self.corrects_last(q) {
                continue;
            }
            let member = Candidate {
                qubit: q,
                cost: self.member_cost(q, &ahead, members),
                beside: self.sets(q),
            };
            best = cheaper(best, member);
        }
        best.qubit
    }

    // Of the outputs in the last set, the one at which its rows are to be gathered.
    pub(crate) fn pick(&self) -> Option<Qubit>
        requires ready { IsReady (remainder_of self.now) }
        requires last { (v : ℕ) × HasLast self.now.flow.flow v }
        ensures some { IfSome result (λ q. IsPicked (remainder_of self.now) q) }
        ensures none { IfNone result (HasNoOutput (remainder_of self.now)) }
    {
        let mut members = Choices::none();
        match self.some_member(&mut members) {
            Some(q) if members.count() > 1 => Some(self.cheapest_member(q, &members)),
            some => some,
        }
    }

    // Adds the rows of the last set to that of an output in it, so that of all outputs only that
    // one is left in the set: in the flow and by gates, while the graph stays.
    pub(crate) fn gather_sets(&mut self, t: Qubit) -> Result<(), AllocError>
        requires ready { IsReady (remainder_of self.old) }
        requires frontier { IsFrontier self.old.graph.graph }
        requires last { (v : ℕ) × HasLast self.old.flow.flow v }
        requires picked { IsPicked (remainder_of self.old) t }
        ensures { OnOk result (IsGatheredBesideRow (remainder_of self.old) t
            (length self.old.graph.graph.outputs) (remainder_of self.new)) }
    {
        for c in 0..self.qubits() {
            if c == t || !self.corrects_last(c) {
                continue;
            }
            self.add_set(c, t)?;
        }
        Ok(())
    }

    // Gives the vertex of an output the neighbours of v that aren't outputs, in place of its own.
    fn replace_row(&mut self, v: VertexId, t: Qubit) -> Result<(), AllocError>
        requires plain { are_plain self.old.graph.graph.outputs ≡ true }
        requires live { IsVertex self.old.graph.graph v }
        requires no_output { member v (end_vertices self.old.graph.graph.outputs) ≡ false }
        requires apart { AreOutputsApart self.old.graph.graph }
        requires on_wires { t < length self.old.graph.graph.outputs }
        ensures { OnOk result (IsRowReplaced (remainder_of self.old) v t (remainder_of self.new)) }
    {
        let link = self.present(t);
        self.graph.replace_row(v, link)
    }

    // Gathers the set of a gadget at an output, whose row is then that of the gadget without its
    // legs.
    pub(crate) fn gather(&mut self, v: VertexId, t: Qubit) -> Result<(), AllocError>
        requires ready { IsReady (remainder_of self.old) }
        requires frontier { IsFrontier self.old.graph.graph }
        requires last { HasLast self.old.flow.flow v }
        requires plane { plane_of self.old.graph.graph v ≡ zx.YZ }
        requires picked { IsPicked (remainder_of self.old) t }
        ensures { OnOk result (IsGathered (remainder_of self.old) t
            (length self.old.graph.graph.outputs) (remainder_of self.new)) }
    {
        self.gather_sets(t)?;
        self.replace_row(v, t)
    }
}
