//! Lists of gates that are the identity.

ghost use Rattle.std.specs.Prelude.{◌≡◌, ◌≤◌, [], Bool, List, length, IfOk, IsTrue};
ghost use Rattle.std.specs.List.{list_all};
ghost use Rattle.zx_model.specs.Scalar.{one_scalar};
ghost use Rattle.piece_laws.specs.Replacement.{AreScaled};
ghost use Rattle.zx_identities.specs.BasisStates.{is_without_h, is_by_eighths, AgreeAt};

use crate::packing::grouped;
use crate::parities::{MOST_QUBITS, read};
use crate::weights::are_zero;
use std::alloc::{AllocError, Global};
use zx_gates::{Gate, GateList};

/// Whether gates are the identity, told by the basis states with at most four bits set, or three where all
/// phases are whole eighth turns: yes only where the map is exactly that of no gates; and always, of gates
/// without H on at most 127 qubits that keep each basis state and put no phase there. Of gates with an H,
/// and of more qubits, it says no.
///
/// # Errors
///
/// Only where memory runs out.
pub fn is_identity(alloc: Global, list: &GateList) -> Result<bool, AllocError>
    ensures map { IfOk result (λ same. IsTrue same →
        AreScaled list.now.qubits list.now.gates one_scalar []) }
    ensures all { IfOk result (λ same. IsTrue (list_all is_without_h list.now.gates) → list.now.qubits ≤ 127 →
        ((x : List Bool) → length x ≡ list.now.qubits → AgreeAt 0 list.now.gates [] x) → IsTrue same) }
{
    let gates = list.gates();
    let qubits = usize::from(list.qubits());
    if qubits > MOST_QUBITS || !are_without_h(gates) {
        return Ok(false);
    }
    match read(alloc, gates, qubits)? {
        Some(terms) => {
            let mut groups = grouped(alloc, &terms, qubits + 1)?;
            let most = if are_by_eighths(gates) { 3 } else { 4 };
            Ok(are_zero(&mut groups, 1, qubits + 1, most))
        }
        None => Ok(false),
    }
}

// Whether a gate is neither H nor has a sixteenth turn in it.
fn is_by_eighths(gate: &Gate) -> bool
    ensures { result ≡ is_by_eighths gate.now }
{
    match *gate {
        Gate::H(_) => false,
        Gate::Phase(_, phase) => phase.get() % 2 == 0,
        _ => true,
    }
}

fn is_without_h(gate: &Gate) -> bool
    ensures { result ≡ is_without_h gate.now }
{
    match *gate {
        Gate::H(_) => false,
        _ => true,
    }
}

fn are_by_eighths(gates: &[Gate]) -> bool
    ensures { result ≡ list_all is_by_eighths gates.now }
{
    gates.iter().all(|gate| is_by_eighths(gate))
}

fn are_without_h(gates: &[Gate]) -> bool
    ensures { result ≡ list_all is_without_h gates.now }
{
    gates.iter().all(|gate| is_without_h(gate))
}
