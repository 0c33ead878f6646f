//! By which number the map of a circuit is that of another.

ghost use Rattle.std.specs.Prelude.{◌≡◌, IfOk, IfSome};
ghost use Rattle.zx_model.specs.Scalar.{IsScaled};
ghost use Rattle.zx_gates.specs.Maps.{amp};

use crate::comparing::undone_by;
use std::alloc::{AllocError, Global};
use zx_gates::GateList;
use zx_identities::undone_scalar;
use zx_model::Scalar;
use zx_simplify::simplify_circuit;

/// By which number the map of a circuit is that of another, where simplification shows it: where the first
/// followed by the inverse of the second is simplified to no gate. None says nothing.
///
/// # Errors
///
/// Only where memory runs out.
pub fn quotient(alloc: Global, a: &GateList, b: &GateList) -> Result<Option<Scalar>, AllocError>
    requires qubits { a.now.qubits ≡ b.now.qubits }
    ensures { IfOk result (λ found. IfSome found (λ s.
        IsScaled a.now.qubits a.now.qubits (amp a.now.gates) s (amp b.now.gates))) }
{
    // What `qubits` says of a circuit: its gates are on them.
    prove!(b.qubits() <= 1_024);
    let both = undone_by(a, b)?;
    let found = simplify_circuit(alloc, &both)?;
    if found.gates.gates().is_empty() {
        Ok(Some(found.scalar.over(undone_scalar(b))))
    } else {
        Ok(None)
    }
}
