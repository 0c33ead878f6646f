//! The circuit of a graph with a flow.

ghost use Rattle.std.specs.Prelude.{◌≡◌, ◌≢◌, ◌≤◌, ◌*◌, ℕ, pos, length, IfOk};
ghost use Rattle.zx_calculus.specs.Graph.{plane_of, IsVertex};
ghost use Rattle.zx_calculus.specs.Graph as zx;
ghost use Rattle.zx_calculus.specs.Sum.{graph_sum};
ghost use Rattle.zx_calculus.specs.Counts.{odd_phases, not_XY, XY_without_output};
ghost use Rattle.gflow_laws.specs.Flow.{IsFlow};
ghost use Rattle.zx_gates.specs.Circuit.{most_qubits};
ghost use Rattle.zx_gates.specs.Passes.{Implements};
ghost use Rattle.open_graph.specs.OpenGraph.{most_vertices_in_memory};
ghost use Rattle.zx_extract.specs.Extraction.{most_extracted_gates};
ghost use Rattle.zx_extract.specs.Internal.Extracted.{IsCircuitOf, IsTakenApart};
ghost use Rattle.zx_extract.specs.Internal.Frontiers.{remainder_of, IsUntouched};

use crate::frontier::Frontier;
use open_graph::OpenGraph;
use std::alloc::{AllocError, Global};
use zx_flow::Flow;
use zx_gates::ScaledCircuit;
use zx_model::{Scalar, Sixteenth};

/// The circuit of a graph with a flow, taken off the graph gate by gate, from the outputs on.
///
/// The graph has as many inputs as outputs, at most 1,024, and no vertex in the XZ plane. Then gates
/// are found until none is left to find: the only error is want of memory. Beside the circuit stands the
/// scalar between the two: the graph's sum is so many times the circuit's map.
pub fn extract(alloc: Global, g: OpenGraph, f: Flow) -> Result<ScaledCircuit, AllocError>
    requires flow { IsFlow g.graph f.flow }
    requires planes { (v : ℕ) → IsVertex g.graph v → plane_of g.graph v ≢ zx.XZ }
    requires ends { length g.graph.inputs ≡ length g.graph.outputs }
    requires few { length g.graph.outputs ≤ most_qubits }
    ensures kept { IfOk result (λ made. Implements (length g.graph.outputs) (graph_sum g.graph)
        (odd_phases g.graph) (2 * not_XY g.graph) made.gates made.scalar) }
    ensures few_gates { IfOk result (λ made. length made.gates.gates ≤
        most_extracted_gates (length g.graph.outputs) (XY_without_output g.graph) (not_XY g.graph)) }
{
    let mut frontier = Frontier::begin(alloc, g, &f)?;
    frontier.take_apart()
}

impl Frontier {
    // Takes the graph apart, gate by gate, and answers the circuit of all gates.
    fn take_apart(&mut self) -> Result<ScaledCircuit, AllocError>
        requires { IsUntouched self.old }
        ensures { IfOk result (λ made. IsCircuitOf self.old.graph.graph made.gates made.scalar) }
    {
        // So the exponent of the scalar fits.
        prove!(self.graph.vertex_count() as u64 <= 1 << 32);
        let doublings = self.take_all()?;
        let gates = self.circuit()?;
        Ok(ScaledCircuit {
            gates,
            scalar: doubled(doublings),
        })
    }

    // Takes off all gates but the Hadamards of the inputs, and answers how often the sum is doubled.
    fn take_all(&mut self) -> Result<u64, AllocError>
        requires { IsUntouched self.old }
        ensures { IfOk result (λ doublings.
            IsTakenApart doublings self.old.graph.graph (remainder_of self.new)) }
    {
        self.take_marks()?;
        self.settle_all()?;
        let doublings = self.take_vertices()?;
        self.uncross()?;
        Ok(doublings)
    }
}

// The scalar of a sum that was doubled so often.
fn doubled(doublings: u64) -> Scalar
    requires { doublings ≤ most_vertices_in_memory }
    ensures { result ≡ record { root2 = pos (2 * doublings); turn = 0 } }
{
    Scalar {
        root2: 2 * doublings as i64,
        turn: Sixteenth::new(0),
    }
}
