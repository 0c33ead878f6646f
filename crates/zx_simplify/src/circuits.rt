//! A circuit through its graph and back.

ghost use Rattle.std.specs.Prelude.{IfOk};
ghost use Rattle.zx_simplify.specs.Circuits.{IsSimplified};

use crate::extracting::extract_tidy;
use std::alloc::{AllocError, Global};
use zx_gates::{GateList, ScaledCircuit};
use zx_reduce::grow;

/// The circuit of a circuit's simplified graph, and the scalar that the read one's linear map is times its own. The
/// graph isn't copied on the way.
///
/// # Errors
///
/// Only where memory runs out.
pub fn simplify_circuit(alloc: Global, read: &GateList) -> Result<ScaledCircuit, AllocError>
    ensures { IfOk result (λ made. IsSimplified read.now made.gates made.scalar) }
{
    // A circuit has no more qubits than `extract` takes outputs, and not too many gates.
    prove!(read.qubits() <= 1_024);
    prove!(read.gates().len() <= u32::MAX as usize);
    let grown = grow(alloc, read)?;
    let circuit = extract_tidy(alloc, grown.graph, grown.flow)?;
    Ok(ScaledCircuit {
        gates: circuit.gates,
        scalar: grown.scalar.times(circuit.scalar),
    })
}
