//! The graph of a circuit, with its flow.

ghost use Rattle.std.specs.Prelude.{◌≡◌, ◌*◌, length, IfOk};
ghost use Rattle.zx_model.specs.Scalar.{IsWithin};
ghost use Rattle.circuit_graph.specs.Translation.{IsTranslation, map_scalar, places};
ghost use Rattle.circuit_graph.specs.Internal.Wires.{graph_so_far};
ghost use Rattle.circuit_graph.specs.Internal.Runs.{Translates};

use crate::wires::Wires;
use open_graph::{OpenGraph, VertexId};
use std::alloc::{AllocError, Global};
use zx_flow::Flow;
use zx_gates::{GateList, counts};
use zx_model::{Scalar, Sixteenth};

/// The open graph of a circuit, and a flow of it: each spider but the last of a wire is corrected by the next one, in
/// the order in which the wires leave them.
#[derive(Drop)]
pub struct Translation {
    /// The graph.
    pub graph: OpenGraph,
    /// The flow.
    pub flow: Flow,
    /// The circuit's map is so many times the sum of the graph.
    pub scalar: Scalar,
}

/// The same graph and flow, and where the phases of the gates went.
#[derive(Drop)]
pub struct Placed {
    /// The graph.
    pub graph: OpenGraph,
    /// The flow.
    pub flow: Flow,
    /// For each gate the vertex to which it adds a phase, where it is a phase gate.
    pub places: Vec<Option<VertexId>>,
}

/// The open graph of a circuit with its flow, and the scalar that the circuit's map is times the sum of the graph.
pub fn translate(alloc: Global, circuit: &GateList) -> Result<Translation, AllocError>
    ensures translation { IfOk result (λ made.
        IsTranslation circuit.now made.graph.graph made.flow.flow) }
    ensures scalar { IfOk result (λ made. made.scalar ≡ map_scalar circuit.now.gates) }
    ensures small { IfOk result (λ made. IsWithin (4 * length circuit.now.gates) made.scalar) }
{
    let wires = wires_of(alloc, circuit)?;
    let graph = wires.graph;
    let flow = Flow::of_table(&graph, wires.table)?;
    Ok(Translation {
        graph,
        flow,
        scalar: scalar_of(circuit),
    })
}

/// The scalar that a circuit's map is times the sum of its graph: half for each gate that is written out.
pub fn scalar_of(circuit: &GateList) -> Scalar
    ensures value { result ≡ map_scalar circuit.now.gates }
    ensures small { IsWithin (4 * length circuit.now.gates) result }
{
    let counts = counts(circuit);
    let power = 2 * (counts.cx + counts.nots);
    Scalar {
        root2: -(power as i64),
        turn: Sixteenth::new(0),
    }
}

/// The same graph with the same flow, and the places of the phases.
pub fn translate_placed(alloc: Global, circuit: &GateList) -> Result<Placed, AllocError>
    ensures translation { IfOk result (λ made.
        IsTranslation circuit.now made.graph.graph made.flow.flow) }
    ensures places { IfOk result (λ made. made.places.items ≡ places circuit.now) }
{
    let (made, places) = wires_placed(alloc, circuit)?;
    let graph = made.graph;
    let flow = Flow::of_table(&graph, made.table)?;
    Ok(Placed {
        graph,
        flow,
        places,
    })
}

// The wires with all gates, and to which vertices these add phases.
fn wires_placed(
    alloc: Global,
    circuit: &GateList,
) -> Result<(Wires, Vec<Option<VertexId>>), AllocError>
    ensures translates { IfOk result (λ made. Translates circuit.now (graph_so_far made.0)) }
    ensures places { IfOk result (λ made. made.1.items ≡ places circuit.now) }
{
    let mut made = Wires::begin(alloc, circuit.qubits())?;
    let mut places = Vec::new(alloc);
    for gate in circuit.gates() {
        places.push(made.place(*gate))?;
        made.add_gate(*gate)?;
    }
    Ok((made, places))
}

// The wires with all gates.
fn wires_of(alloc: Global, circuit: &GateList) -> Result<Wires, AllocError>
    ensures { IfOk result (λ w. Translates circuit.now (graph_so_far w)) }
{
    let mut wires = Wires::begin(alloc, circuit.qubits())?;
    for gate in circuit.gates() {
        wires.add_gate(*gate)?;
    }
    Ok(wires)
}
