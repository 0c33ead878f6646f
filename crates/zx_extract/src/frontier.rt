//! A graph from whose outputs gates are taken off.

ghost use Rattle.std.specs.Prelude.{◌≡◌, ◌≢◌, ◌<◌, ◌≤◌, ℕ, true, false, [], ◌∷◌, ◌++◌, length, slice_get, Some, IfOk, OnOk};
ghost use Rattle.zx_model.specs.Bits.{member};
ghost use Rattle.zx_calculus.specs.Graph.{end_vertices, IsVertex, WellFormed};
ghost use Rattle.zx_calculus.specs.Toggles.{across, IsToggled};
ghost use Rattle.gflow_laws.specs.Flow.{IsFlow, SameSets};
ghost use Rattle.zx_gates.specs.Circuit.{most_qubits};
ghost use Rattle.zx_gates.specs.Lowering.{phase_gates};
ghost use Rattle.circuit_laws.specs.Peeling.{HasPlainOutput, are_plain};
ghost use Rattle.zx_extract.specs.Internal.Leading.{IsGiven, IsReady, IsFrontier, Leads};
ghost use Rattle.zx_extract.specs.Internal.Lists.{IsPlainAt};
ghost use Rattle.zx_extract.specs.Internal.Steps.{IsPhaseTaken, IsUnjoined, IsRowAdded, IsSetAdded};
ghost use Rattle.zx_extract.specs.Internal.Frontiers.{remainder_of};

use crate::front_graph::FrontGraph;
use crate::holders::Holders;
use open_graph::{End, OpenGraph, VertexId};
use std::alloc::{AllocError, Global};
use zx_flow::Flow;
use zx_gates::{Gate, Qubit};
use zx_model::Sixteenth;

// What is left of a graph and of its flow, and the gates that were taken off, the last one first.
#[derive(Drop)]
pub(crate) struct Frontier {
    pub(crate) alloc: Global,
    pub(crate) graph: FrontGraph,
    pub(crate) flow: Holders,
    pub(crate) gates: Vec<Gate>,
}

impl Frontier {
    // A graph from which nothing was taken yet.
    pub(crate) fn begin(
        alloc: Global,
        graph: OpenGraph,
        flow: &Flow,
    ) -> Result<Frontier, AllocError>
        requires { IsFlow graph.graph flow.now.flow }
        ensures flow { IfOk result (λ f. IsFlow f.graph.graph f.flow.flow) }
        ensures graph { IfOk result (λ f. f.graph.graph ≡ graph.graph) }
        ensures gates { IfOk result (λ f. f.gates.items ≡ []) }
    {
        let graph = FrontGraph::of_graph(alloc, graph)?;
        let flow = Holders::of_flow(alloc, flow)?;
        Ok(Frontier {
            alloc,
            graph,
            flow,
            gates: Vec::new(alloc),
        })
    }

    // How many outputs there are.
    pub(crate) fn qubits(&self) -> Qubit
        requires { length self.now.graph.graph.outputs ≤ most_qubits }
        ensures value { result ≡ length self.now.graph.graph.outputs }
        ensures valid { WellFormed self.now.graph.graph }
    {
        self.graph.outputs().len() as Qubit
    }

    // An output.
    fn output(&self, q: Qubit) -> End
        requires { q < length self.now.graph.graph.outputs }
        ensures { slice_get self.now.graph.graph.outputs q ≡ Some result }
    {
        let outputs = self.graph.outputs();
        outputs[usize::from(q)]
    }

    // The vertex of a plain output.
    pub(crate) fn present(&self, q: Qubit) -> VertexId
        requires plain { are_plain self.now.graph.graph.outputs ≡ true }
        requires on_wires { q < length self.now.graph.graph.outputs }
        ensures { HasPlainOutput self.now.graph.graph q result }
    {
        self.graph.output_vertex(usize::from(q))
    }

    // Writes a gate before all that were taken off so far.
    pub(crate) fn write(&mut self, gate: Gate) -> Result<(), AllocError>
        ensures { OnOk result (remainder_of self.new ≡ record (remainder_of self.old) {
          gates = gate ∷ (remainder_of self.old).gates;
        }) }
    {
        self.gates.push(gate)?;
        Ok(())
    }

    // Writes a controlled NOT gate.
    pub(crate) fn write_cx(&mut self, control: Qubit, target: Qubit) -> Result<(), AllocError>
        ensures { OnOk result (remainder_of self.new ≡ record (remainder_of self.old) {
          gates = Gate.Cx control target ∷ (remainder_of self.old).gates;
        }) }
    {
        self.write(Gate::Cx { control, target })
    }

    // Writes a phase gate, unless its phase is 0.
    pub(crate) fn write_phase(&mut self, q: Qubit, phase: Sixteenth) -> Result<(), AllocError>
        ensures { OnOk result (remainder_of self.new ≡ record (remainder_of self.old) {
          gates = phase_gates q phase ++ (remainder_of self.old).gates;
        }) }
    {
        if phase.get() == 0 {
            return Ok(());
        }
        self.write(Gate::Phase(q, phase))
    }

    // Takes off the Hadamard of an output, where it carries one.
    pub(crate) fn take_mark(&mut self, q: Qubit) -> Result<(), AllocError>
        requires given { IsGiven (remainder_of self.old) }
        requires on_wires { q < length self.old.graph.graph.outputs }
        ensures leads { OnOk result (Leads (remainder_of self.old) 1 0 0 (remainder_of self.new)) }
        ensures given { OnOk result (IsGiven (remainder_of self.new)) }
        ensures plain { OnOk result (IsPlainAt self.new.graph.graph.outputs q) }
        ensures others { OnOk result ((p : ℕ) → IsPlainAt self.old.graph.graph.outputs p →
            IsPlainAt self.new.graph.graph.outputs p) }
    {
        let output = self.output(q);
        if !output.hadamard {
            return Ok(());
        }
        self.graph
            .set_output(usize::from(q), End::plain(output.vertex));
        self.write(Gate::H(q))
    }

    // Takes off the phase of an output.
    pub(crate) fn take_phase(&mut self, q: Qubit) -> Result<(), AllocError>
        requires ready { IsReady (remainder_of self.old) }
        requires on_wires { q < length self.old.graph.graph.outputs }
        ensures { OnOk result (IsPhaseTaken (remainder_of self.old) q (remainder_of self.new)) }
    {
        let here = self.present(q);
        let (plane, phase) = self.graph.weight(here);
        self.graph.set_weight(here, plane, Sixteenth::new(0));
        self.write_phase(q, phase)
    }

    // Takes off the edge between two outputs, where there is one.
    pub(crate) fn take_edge(&mut self, p: Qubit, q: Qubit) -> Result<(), AllocError>
        requires ready { IsReady (remainder_of self.old) }
        requires p_on_wires { p < length self.old.graph.graph.outputs }
        requires q_on_wires { q < length self.old.graph.graph.outputs }
        ensures { OnOk result (IsUnjoined (remainder_of self.old) p q (remainder_of self.new)) }
    {
        let first = self.present(p);
        let second = self.present(q);
        if !self.graph.has_edge(first, second) {
            return Ok(());
        }
        self.graph.toggle_edge(first, second)?;
        self.write(Gate::Cz(p, q))
    }

    // Adds the row of output c, which has no input, to that of output t.
    pub(crate) fn add_row(&mut self, c: Qubit, t: Qubit) -> Result<(), AllocError>
        requires ready { IsReady (remainder_of self.old) }
        requires frontier { IsFrontier self.old.graph.graph }
        requires c_on_wires { c < length self.old.graph.graph.outputs }
        requires t_on_wires { t < length self.old.graph.graph.outputs }
        requires apart { c ≢ t }
        requires no_input { (u : ℕ) → HasPlainOutput self.old.graph.graph c u →
            member u (end_vertices self.old.graph.graph.inputs) ≡ false }
        ensures { OnOk result (IsRowAdded (remainder_of self.old) c t (remainder_of self.new)) }
    {
        let added = self.present(c);
        let to = self.present(t);
        self.graph.add_row(added, to)?;
        self.flow.add_row(added, to)?;
        self.write_cx(t, c)
    }

    // Adds the row of output c to that of output t in the flow alone, and writes the gate.
    pub(crate) fn add_set(&mut self, c: Qubit, t: Qubit) -> Result<(), AllocError>
        requires plain { are_plain self.old.graph.graph.outputs ≡ true }
        requires c_on_wires { c < length self.old.graph.graph.outputs }
        requires t_on_wires { t < length self.old.graph.graph.outputs }
        ensures { OnOk result (IsSetAdded (remainder_of self.old) c t (remainder_of self.new)) }
    {
        let added = self.present(c);
        let to = self.present(t);
        self.flow.add_row(added, to)?;
        self.write(Gate::Cx {
            control: t,
            target: c,
        })
    }
}
