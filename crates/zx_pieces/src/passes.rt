//! Passes over a circuit, each with pieces on more qubits.

ghost use Rattle.std.specs.Prelude.{IfOk};
ghost use Rattle.zx_gates.specs.Passes.{Preserves};
ghost use Rattle.zx_peephole.specs.Tidy.{IsTidy};
ghost use Rattle.piece_laws.specs.Replacement.{IsNoLarger};
ghost use Rattle.zx_pieces.specs.Scaling.{most_root2_of_passes};

use crate::manner::{Manner, is_long, passes};
use crate::replacing::replace_by;
use std::alloc::{AllocError, Global};
use zx_gates::{GateList, ScaledCircuit};
use zx_peephole::tidy;

/// Replaces pieces of a circuit by smaller ones, pass after pass, and tidies what is left. The scalar is
/// answered that the circuit's map is times the new one's.
///
/// # Errors
///
/// Only where memory runs out.
pub fn shrink(alloc: Global, circuit: &GateList) -> Result<ScaledCircuit, AllocError>
    ensures kept { IfOk result (λ made. Preserves most_root2_of_passes circuit.now made.gates made.scalar) }
    ensures no_larger { IfOk result (λ made. IsNoLarger made.gates.gates circuit.now.gates) }
    ensures tidy { IfOk result (λ made. IsTidy made.gates.gates) }
{
    let long = is_long(circuit);
    let first = replace_by(alloc, circuit, &Manner::first(long))?;
    let mut made = first.gates;
    let mut scalar = first.scalar;
    for number in 0..passes(long) {
        let manner = Manner::of_pass(number, long);
        let next = replace_by(alloc, &made, &manner)?;
        made = next.gates;
        scalar = scalar.times(next.scalar);
    }
    scalar = scalar.times(tidy(&mut made));
    Ok(ScaledCircuit {
        gates: made,
        scalar,
    })
}
