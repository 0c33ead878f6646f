//! A graph to a circuit, with the steps and the graph on the way.

ghost use Rattle.std.specs.Prelude.{◌≡◌, ◌≤◌, length, map, IfOk};
ghost use Rattle.gflow_laws.specs.Flow.{IsFlow};
ghost use Rattle.zx_gates.specs.Circuit.{most_qubits};
ghost use Rattle.graph_rewrites.specs.Steps.{step_named};
ghost use Rattle.zx_simplify.specs.Circuits.{SimplifiesTo, IsSimplifiedGraph};

use crate::extracting::extract_tidy;
use open_graph::OpenGraph;
use std::alloc::{AllocError, Global};
use zx_flow::Flow;
use zx_gates::{GateList, ScaledCircuit};
use zx_model::Scalar;
use zx_moves::Trace;
use zx_reduce::reduce_owned;

/// The circuit of a simplified graph, the steps by which the graph was simplified, and what they
/// lead to.
#[derive(Drop)]
pub struct Simplified {
    /// The circuit, after cleanup.
    pub gates: GateList,
    /// The graph's sum is so many times the circuit's map.
    pub scalar: Scalar,
    /// The steps from the graph that was given.
    pub trace: Trace,
    /// The graph to which they lead.
    pub reduced: OpenGraph,
}

/// Simplifies a graph with a flow, and turns what is left into a circuit. It has as many inputs as
/// outputs, at most 1,024.
///
/// # Errors
///
/// Only where memory runs out.
pub fn simplify(alloc: Global, graph: OpenGraph, flow: Flow) -> Result<Simplified, AllocError>
    requires flow { IsFlow graph.graph flow.flow }
    requires ends { length graph.graph.inputs ≡ length graph.graph.outputs }
    requires few { length graph.graph.outputs ≤ most_qubits }
    ensures { IfOk result (λ made. SimplifiesTo graph.graph (map step_named made.trace.steps)
        made.reduced.graph made.gates made.scalar) }
{
    let made = reduce_owned(alloc, graph, flow)?;
    let flow = made.flow;
    let copy = made.graph.copy()?;
    let circuit = extract_tidy(alloc, copy, flow)?;
    Ok(Simplified {
        gates: circuit.gates,
        scalar: made.scalar.times(circuit.scalar),
        trace: made.trace,
        reduced: made.graph,
    })
}

/// Simplifies a graph with a flow, and turns what is left into a circuit, as `simplify`, but tells neither the steps nor
/// the graph to which they lead, which isn't copied. The graph's sum is so many times the circuit's map.
///
/// # Errors
///
/// Only where memory runs out.
pub fn simplify_graph(
    alloc: Global,
    graph: OpenGraph,
    flow: Flow,
) -> Result<ScaledCircuit, AllocError>
    requires flow { IsFlow graph.graph flow.flow }
    requires ends { length graph.graph.inputs ≡ length graph.graph.outputs }
    requires few { length graph.graph.outputs ≤ most_qubits }
    ensures { IfOk result (λ made. IsSimplifiedGraph graph.graph made.gates made.scalar) }
{
    let made = reduce_owned(alloc, graph, flow)?;
    let circuit = extract_tidy(alloc, made.graph, made.flow)?;
    Ok(ScaledCircuit {
        gates: circuit.gates,
        scalar: made.scalar.times(circuit.scalar),
    })
}
