//! The outputs next to a gadget, its legs, and rows added so that one is left.

ghost use Rattle.std.specs.Prelude.{◌≡◌, ◌<◌, ℕ, true, false, length, IfOk, IfNone, IfSome, OnOk};
ghost use Rattle.zx_model.specs.Bits.{member};
ghost use Rattle.zx_calculus.specs.Graph.{joined, end_vertices, IsVertex};
ghost use Rattle.circuit_laws.specs.Peeling.{HasPlainOutput};
ghost use Rattle.zx_extract.specs.Internal.Frontiers.{remainder_of};
ghost use Rattle.zx_extract.specs.Internal.Leading.{IsReady, IsFrontier};
ghost use Rattle.zx_extract.specs.Internal.Steps.{HasLast, AreLegs, IsSpareLeg, HasNoSpareLeg, AreLegsFree, TakesLegs, IsLegShared, HasOneLegOrInputs};

use crate::ahead::{Ahead, Choices, EVEN, MOST_AHEAD};
use crate::choosing::{Candidate, cheaper};
use crate::frontier::Frontier;
use open_graph::VertexId;
use std::alloc::AllocError;
use zx_gates::Qubit;

impl Frontier {
    // The outputs whose vertices are adjacent to a vertex.
    pub(crate) fn legs(&self, v: VertexId) -> Result<Vec<Qubit>, AllocError>
        requires ready { IsReady (remainder_of self.now) }
        requires live { IsVertex self.now.graph.graph v }
        requires inner { member v (end_vertices self.now.graph.graph.outputs) ≡ false }
        ensures { IfOk result (λ qubits. AreLegs self.now.graph.graph v qubits.items) }
    {
        let mut legs = Vec::new(self.alloc);
        for q in 0..self.qubits() {
            if !self.graph.has(self.present(q), v) {
                continue;
            }
            legs.push(q)?;
        }
        Ok(legs)
    }

    // Whether an output is a leg without an input.
    fn is_spare_leg(&self, v: VertexId, q: Qubit) -> bool
        requires ready { IsReady (remainder_of self.now) }
        requires live { IsVertex self.now.graph.graph v }
        requires inner { member v (end_vertices self.now.graph.graph.outputs) ≡ false }
        requires on_wires { q < length self.now.graph.graph.outputs }
        ensures yes { result ≡ true → IsSpareLeg self.now.graph.graph v q }
        ensures no { (u : ℕ) → result ≡ false → HasPlainOutput self.now.graph.graph q u →
            joined self.now.graph.graph.edges v u ≡ true →
            member u (end_vertices self.now.graph.graph.inputs) ≡ true }
    {
        let leg = self.present(q);
        self.graph.has(leg, v) && !self.graph.has_input(leg)
    }

    // Counts an output, which is a leg, at each of the next gadgets that has it.
    fn add_leg(&self, q: Qubit, ahead: &mut Ahead)
        requires ready { IsReady (remainder_of self.now) }
        requires on_wires { q < length self.now.graph.graph.outputs }
    {
        let leg = self.present(q);
        for place in 0..MOST_AHEAD {
            match ahead.vertex(place) {
                Some(y) if self.graph.has(leg, y) => ahead.add(place),
                Some(_) => {}
                None => break,
            }
        }
    }

    // How many legs the next gadgets have in sum once an output is left of these legs, but for a number that is the
    // same for each.
    fn leg_cost(&self, q: Qubit, ahead: &Ahead, legs: &Choices) -> usize
        requires ready { IsReady (remainder_of self.now) }
        requires on_wires { q < length self.now.graph.graph.outputs }
    {
        let leg = self.present(q);
        let mut cost = EVEN;
        for place in 0..MOST_AHEAD {
            match ahead.vertex(place) {
                Some(y) if self.graph.has(leg, y) => cost = ahead.cost(cost, place, legs),
                Some(_) => {}
                None => break,
            }
        }
        cost
    }

    // The next gadgets, and how many of these legs each has.
    fn gadgets_ahead(&self, legs: &Choices) -> Ahead
        requires { IsReady (remainder_of self.now) }
    {
        let mut ahead = self.flow.gadgets_ahead();
        for q in 0..self.qubits() {
            if legs.has(q) {
                self.add_leg(q, &mut ahead);
            }
        }
        ahead
    }

    // A leg without an input, and all legs as choices.
    fn some_leg(&self, v: VertexId, legs: &mut Choices) -> Option<Qubit>
        requires ready { IsReady (remainder_of self.now) }
        requires live { IsVertex self.now.graph.graph v }
        requires inner { member v (end_vertices self.now.graph.graph.outputs) ≡ false }
        ensures some { IfSome result (λ z. IsSpareLeg self.now.graph.graph v z) }
        ensures none { IfNone result (HasNoSpareLeg self.now.graph.graph v) }
    {
        let mut some = None;
        for q in 0..self.qubits() {
            if self.graph.has(self.present(q), v) {
                legs.add(q);
            }
            if self.is_spare_leg(v, q) {
                some = Some(q);
            }
        }
        some
    }

    // Of these legs those without an input are the choices, of which one is known: one after whose choice the next
    // gadgets have the fewest legs, and of these one with the fewest neighbours.
    fn cheapest_leg(&self, v: VertexId, some: Qubit, legs: &Choices) -> Qubit
        requires ready { IsReady (remainder_of self.now) }
        requires live { IsVertex self.now.graph.graph v }
        requires inner { member v (end_vertices self.now.graph.graph.outputs) ≡ false }
        requires some { IsSpareLeg self.now.graph.graph v some }
        ensures { IsSpareLeg self.now.graph.graph v result }
    {
        let ahead = self.gadgets_ahead(legs);
        let mut best = Candidate::last_resort(some);
        for q in 0..self.qubits() {
            if !legs.has(q) || !self.is_spare_leg(v, q) {
                continue;
            }
            let leg = Candidate {
                qubit: q,
                cost: self.leg_cost(q, &ahead, legs),
                beside: self.graph.degree(self.present(q)),
            };
            best = cheaper(best, leg);
        }
        best.qubit
    }

    // Of the legs without an input, the one that is to be left.
    fn spare_leg(&self, v: VertexId) -> Option<Qubit>
        requires ready { IsReady (remainder_of self.now) }
        requires live { IsVertex self.now.graph.graph v }
        requires inner { member v (end_vertices self.now.graph.graph.outputs) ≡ false }
        ensures some { IfSome result (λ z. IsSpareLeg self.now.graph.graph v z) }
        ensures none { IfNone result (HasNoSpareLeg self.now.graph.graph v) }
    {
        let mut legs = Choices::none();
        match self.some_leg(v, &mut legs) {
            Some(leg) if legs.count() > 1 => Some(self.cheapest_leg(v, leg, &legs)),
            some => some,
        }
    }

    // Adds the row of a leg without an input to those of the other legs, so that it alone is left.
    fn share_leg(&mut self, v: VertexId, z: Qubit) -> Result<(), AllocError>
        requires ready { IsReady (remainder_of self.old) }
        requires frontier { IsFrontier self.old.graph.graph }
        requires last { HasLast self.old.flow.flow v }
        requires free { AreLegsFree (remainder_of self.old) v }
        requires spare { IsSpareLeg self.old.graph.graph v z }
        ensures { OnOk result (IsLegShared (remainder_of self.old) v z
            (length self.old.graph.graph.outputs) (remainder_of self.new)) }
    {
        for q in 0..self.qubits() {
            if q == z {
                continue;
            }
            if !self.graph.has(self.present(q), v) {
                continue;
            }
            self.add_row(z, q)?;
        }
        Ok(())
    }

    // Adds rows of legs of the last vertex, so that one leg is left, unless each has an input.
    pub(crate) fn take_legs(&mut self, v: VertexId) -> Result<(), AllocError>
        requires ready { IsReady (remainder_of self.old) }
        requires frontier { IsFrontier self.old.graph.graph }
        requires last { HasLast self.old.flow.flow v }
        requires free { AreLegsFree (remainder_of self.old) v }
        ensures taken { OnOk result (TakesLegs (remainder_of self.old) v (remainder_of self.new)) }
        ensures one { OnOk result (HasOneLegOrInputs self.new.graph.graph v) }
    {
        match self.spare_leg(v) {
            Some(z) => self.share_leg(v, z),
            None => Ok(()),
        }
    }
}
