//! Extraction and cleanup in a row.

ghost use Rattle.std.specs.Prelude.{◌≡◌, ◌≤◌, length, IfOk};
ghost use Rattle.zx_calculus.specs.Graph.{WellFormed};
ghost use Rattle.zx_calculus.specs.Reduced.{IsReduced};
ghost use Rattle.gflow_laws.specs.Flow.{IsFlow};
ghost use Rattle.zx_gates.specs.Circuit.{most_qubits};
ghost use Rattle.zx_simplify.specs.Extracting.{Extracts};

use open_graph::OpenGraph;
use std::alloc::{AllocError, Global};
use zx_extract::extract;
use zx_flow::Flow;
use zx_gates::ScaledCircuit;
use zx_peephole::tidy;

/// The tidied circuit of a reduced graph with as many inputs as outputs, at most 1,024. The graph's sum is so many times
/// the circuit's map.
///
/// # Errors
///
/// Only where memory runs out.
pub fn extract_tidy(
    alloc: Global,
    reduced: OpenGraph,
    flow: Flow,
) -> Result<ScaledCircuit, AllocError>
    requires flow { IsFlow reduced.graph flow.flow }
    requires reduced { IsReduced reduced.graph }
    requires well_formed { WellFormed reduced.graph }
    requires ends { length reduced.graph.inputs ≡ length reduced.graph.outputs }
    requires few { length reduced.graph.outputs ≤ most_qubits }
    ensures { IfOk result (λ made. Extracts reduced.graph made.gates made.scalar) }
{
    // So the exponent of the scalar fits.
    prove!(reduced.vertex_count() as u64 <= 1 << 32);
    let made = extract(alloc, reduced, flow)?;
    let mut gates = made.gates;
    let after = tidy(&mut gates);
    Ok(ScaledCircuit {
        gates,
        scalar: made.scalar.times(after),
    })
}
