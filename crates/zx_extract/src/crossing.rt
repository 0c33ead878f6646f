//! Wires that are left when all vertices are outputs: how they cross, and their inputs.

ghost use Rattle.std.specs.Prelude.{◌≡◌, ◌≤◌, ◌<◌, ◌*◌, ◌++◌, true, [], ◌∷◌, length, reverse, slice_get, Some, IfOk, OnOk};
ghost use Rattle.std.specs.List.{All};
ghost use Rattle.zx_model.specs.Bits.{member};
ghost use Rattle.zx_calculus.specs.Graph.{end_vertices, WellFormed};
ghost use Rattle.zx_gates.specs.Circuit.{IsOnQubits, most_qubits};
ghost use Rattle.circuit_laws.specs.Gates.{hadamards_from, exchange_gates};
ghost use Rattle.zx_extract.specs.Internal.Frontiers.{remainder_of};
ghost use Rattle.zx_extract.specs.Internal.Leading.{IsReady, IsFrontier, Leads};
ghost use Rattle.zx_extract.specs.Internal.Lists.{in_line};

use crate::frontier::Frontier;
use open_graph::{End, VertexId};
use std::alloc::{AllocError, Global};
use zx_gates::{Gate, GateList, Qubit};

impl Frontier {
    // Writes the exchange of two outputs.
    fn write_exchange(&mut self, p: Qubit, q: Qubit) -> Result<(), AllocError>
        ensures { OnOk result (remainder_of self.new ≡ record (remainder_of self.old) {
          gates = exchange_gates p q ++ (remainder_of self.old).gates;
        }) }
    {
        self.write_cx(p, q)?;
        self.write_cx(q, p)?;
        self.write_cx(p, q)
    }

    // Writes exchanges after which each output is at the vertex of the input of its number.
    pub(crate) fn uncross(&mut self) -> Result<(), AllocError>
        requires ready { IsReady (remainder_of self.old) }
        requires frontier { IsFrontier self.old.graph.graph }
        requires all { self.old.flow.flow ≡ [] }
        requires ends { length self.old.graph.graph.inputs ≡ length self.old.graph.graph.outputs }
        ensures leads { OnOk result (Leads (remainder_of self.old)
            (3 * length self.old.graph.graph.outputs) 0 0
            (record (remainder_of self.new) { graph = in_line self.old.graph.graph })) }
        ensures formed { OnOk result (WellFormed (in_line self.old.graph.graph)) }
        ensures graph { OnOk result (self.new.graph.graph ≡ self.old.graph.graph) }
    {
        let inputs = end_vertices(self.alloc, self.graph.inputs())?;
        let mut outputs = end_vertices(self.alloc, self.graph.outputs())?;
        for q in 0..self.qubits() {
            let place = place_of(&outputs, inputs[usize::from(q)]);
            if place == usize::from(q) {
                continue;
            }
            self.write_exchange(q, place as Qubit)?;
            outputs.swap(usize::from(q), place);
        }
        Ok(())
    }

    // The gates behind the Hadamards of the inputs, the first one first. They leave the frontier.
    pub(crate) fn circuit(&mut self) -> Result<GateList, AllocError>
        requires few { length self.old.graph.graph.inputs ≤ most_qubits }
        requires on_qubits { All (IsOnQubits (length self.old.graph.graph.inputs))
            self.old.gates.items }
        ensures qubits { IfOk result (λ c. c.qubits ≡ length self.old.graph.graph.inputs) }
        ensures gates { IfOk result (λ c. c.gates ≡
            hadamards_from 0 self.old.graph.graph.inputs ++ (remainder_of self.old).gates) }
    {
        let mut circuit = hadamards_from(self.alloc, self.graph.inputs())?;
        add_backwards(&mut circuit, &mut self.gates)?;
        Ok(circuit)
    }
}

// The place of a vertex in a list that has it.
fn place_of(list: &[VertexId], v: VertexId) -> usize
    requires { member v list.now ≡ true }
    ensures { slice_get list.now result ≡ Some v }
{
    for (place, u) in list.iter().enumerate() {
        if *u == v {
            return place;
        }
    }
    unreachable!()
}

// The vertices of ends.
fn end_vertices(alloc: Global, ends: &[End]) -> Result<Vec<VertexId>, AllocError>
    ensures { IfOk result (λ vertices. vertices.items ≡ end_vertices ends.now) }
{
    let mut vertices = Vec::new(alloc);
    for end in ends {
        vertices.push(end.vertex)?;
    }
    Ok(vertices)
}

// The Hadamards of inputs.
fn hadamards_from(alloc: Global, inputs: &[End]) -> Result<GateList, AllocError>
    requires { length inputs.now ≤ most_qubits }
    ensures qubits { IfOk result (λ c. c.qubits ≡ length inputs.now) }
    ensures gates { IfOk result (λ c. c.gates ≡ hadamards_from 0 inputs.now) }
{
    let qubits = inputs.len() as Qubit;
    let mut circuit = GateList::new(alloc, qubits);
    for q in 0..qubits {
        let input = inputs[usize::from(q)];
        if input.hadamard {
            circuit.push(Gate::H(q))?;
        }
    }
    Ok(circuit)
}

// Adds gates that are given backwards.
fn add_backwards(circuit: &mut GateList, backwards: &mut Vec<Gate>) -> Result<(), AllocError>
    requires { All (IsOnQubits circuit.old.qubits) backwards.old.items }
    ensures qubits { OnOk result (circuit.new.qubits ≡ circuit.old.qubits) }
    ensures gates { OnOk result (circuit.new.gates ≡
        circuit.old.gates ++ reverse backwards.old.items) }
{
    while let Some(gate) = backwards.pop() {
        circuit.push(gate)?;
    }
    Ok(())
}
