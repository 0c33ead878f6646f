//! Vertices taken off a graph in the order of its flow, the last one first.

ghost use Rattle.std.specs.Prelude.{◌≡◌, ◌<◌, ◌+◌, ℕ, List, [], length, IfOk, OnOk};
ghost use Rattle.zx_calculus.specs.Graph.{plane_of};
ghost use Rattle.zx_calculus.specs.Graph as zx;
ghost use Rattle.zx_extract.specs.Internal.Frontiers.{remainder_of};
ghost use Rattle.zx_extract.specs.Internal.Leading.{Remainder, IsReady, IsFrontier, AreTakenOff};
ghost use Rattle.zx_extract.specs.Internal.Steps.{HasLast, IsPicked, IsGathered, HasNoOutput, HasOneOutput, IsAdvanced, IsGadgetTaken, IsLinkedGadgetTaken, AreLegs};

use crate::frontier::Frontier;
use open_graph::{Plane, VertexId};
use std::alloc::AllocError;
use zx_gates::{Gate, Qubit};

impl Frontier {
    // The last vertex, which is in the XY plane, takes the place of an output in its set, where the
    // rows of the set are gathered.
    fn advance(&mut self, v: VertexId, q: Qubit) -> Result<(), AllocError>
        requires ready { IsReady (remainder_of self.old) }
        requires frontier { IsFrontier self.old.graph.graph }
        requires last { HasLast self.old.flow.flow v }
        requires plane { plane_of self.old.graph.graph v ≡ zx.XY }
        requires picked { IsPicked (remainder_of self.old) q }
        ensures { OnOk result ((s : Remainder)
            × IsGathered (remainder_of self.old) q (length self.old.graph.graph.outputs) s
            × IsAdvanced s v q (remainder_of self.new)) }
    {
        self.gather_sets(q)?;
        let here = self.present(q);
        self.graph.move_output(usize::from(q), here, v)?;
        self.flow.advance(here);
        self.write(Gate::H(q))
    }

    // Takes off the last vertex, which is in the YZ plane, where no output is in its set.
    fn take_gadget(&mut self, v: VertexId) -> Result<(), AllocError>
        requires ready { IsReady (remainder_of self.old) }
        requires frontier { IsFrontier self.old.graph.graph }
        requires last { HasLast self.old.flow.flow v }
        requires plane { plane_of self.old.graph.graph v ≡ zx.YZ }
        requires alone { HasNoOutput (remainder_of self.old) }
        ensures { OnOk result ((qubits : List ℕ)
            × AreLegs self.old.graph.graph v qubits
            × IsGadgetTaken (remainder_of self.old) v qubits (remainder_of self.new)) }
    {
        let (_plane, phase) = self.graph.weight(v);
        let legs = self.legs(v)?;
        self.graph.remove_vertex(v)?;
        self.flow.take_alone();
        self.write_gadget(phase, &legs)
    }

    // Takes off the last vertex, which is in the YZ plane, where of the outputs one is in its set.
    fn take_linked_gadget(&mut self, v: VertexId, q: Qubit) -> Result<(), AllocError>
        requires ready { IsReady (remainder_of self.old) }
        requires frontier { IsFrontier self.old.graph.graph }
        requires last { HasLast self.old.flow.flow v }
        requires plane { plane_of self.old.graph.graph v ≡ zx.YZ }
        requires on_wires { q < length self.old.graph.graph.outputs }
        requires gathered { HasOneOutput (remainder_of self.old) q }
        ensures { OnOk result ((qubits : List ℕ)
            × AreLegs self.old.graph.graph v qubits
            × IsLinkedGadgetTaken (remainder_of self.old) v q qubits (remainder_of self.new)) }
    {
        let (_plane, phase) = self.graph.weight(v);
        let legs = self.legs(v)?;
        let link = self.present(q);
        self.graph.remove_vertex(v)?;
        self.flow.take_linked(link)?;
        self.write_linked_gadget(phase, q, &legs)
    }

    // Takes off the last vertex, with the rows of its set gathered at an output in it.
    fn take_through(&mut self, v: VertexId, q: Qubit) -> Result<(), AllocError>
        requires ready { IsReady (remainder_of self.old) }
        requires frontier { IsFrontier self.old.graph.graph }
        requires last { HasLast self.old.flow.flow v }
        requires picked { IsPicked (remainder_of self.old) q }
        ensures taken { OnOk result (AreTakenOff 0 (remainder_of self.old) (remainder_of self.new)) }
        ensures shorter { OnOk result (length self.new.flow.flow + 1 ≡ length self.old.flow.flow) }
    {
        let (plane, _phase) = self.graph.weight(v);
        match plane {
            Plane::YZ => {
                self.gather(v, q)?;
                self.take_legs(v)?;
                self.take_linked_gadget(v, q)
            }
            _ => {
                self.advance(v, q)?;
                self.settle(q, self.qubits())
            }
        }
    }

    // Takes off the last vertex, and answers how often the sum is doubled: once, where that was a gadget on
    // outputs alone.
    fn take_vertex(&mut self, v: VertexId) -> Result<u64, AllocError>
        requires ready { IsReady (remainder_of self.old) }
        requires frontier { IsFrontier self.old.graph.graph }
        requires last { HasLast self.old.flow.flow v }
        ensures taken { IfOk result (λ doublings.
            AreTakenOff doublings (remainder_of self.old) (remainder_of self.new)) }
        ensures shorter { OnOk result (length self.new.flow.flow + 1 ≡ length self.old.flow.flow) }
    {
        match self.pick() {
            Some(q) => {
                self.take_through(v, q)?;
                Ok(0)
            }
            None => {
                self.take_legs(v)?;
                self.take_gadget(v)?;
                Ok(1)
            }
        }
    }

    // Takes off all vertices of the order, and answers how often the sum is doubled.
    pub(crate) fn take_vertices(&mut self) -> Result<u64, AllocError>
        requires ready { IsReady (remainder_of self.old) }
        requires frontier { IsFrontier self.old.graph.graph }
        ensures taken { IfOk result (λ doublings.
            AreTakenOff doublings (remainder_of self.old) (remainder_of self.new)) }
        ensures all { OnOk result (self.new.flow.flow ≡ []) }
    {
        prove!(self.graph.vertex_count() as u64 <= 1 << 32);
        let mut doublings = 0;
        while let Some(v) = self.flow.last() {
            doublings += self.take_vertex(v)?;
        }
        Ok(doublings)
    }
}
