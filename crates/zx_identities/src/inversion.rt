//! The inverses of circuits.

ghost use Rattle.std.specs.Prelude.{◌≡◌, ◌++◌, ◌*◌, IfOk, OnOk};
ghost use Rattle.zx_model.specs.Scalar.{IsWithin};
ghost use Rattle.zx_gates.specs.Circuit.{IsGateOn, gate_limit};
ghost use Rattle.zx_identities.specs.Inverse.{inverse_gate, inverse_of, undone_scalar};

use std::alloc::{AllocError, Global};
use zx_gates::{Gate, GateList, counts};
use zx_model::{Scalar, Sixteenth};

/// The circuit that undoes a circuit, up to a number other than 0: its gates backwards, each with the
/// opposite phase where it is a phase gate.
///
/// # Errors
///
/// Only where memory runs out.
pub fn inverse(alloc: Global, list: &GateList) -> Result<GateList, AllocError>
    ensures qubits { IfOk result (λ made. made.qubits ≡ list.now.qubits) }
    ensures gates { IfOk result (λ made. made.gates ≡ inverse_of list.now.gates) }
{
    let mut made = GateList::new(alloc, list.qubits());
    push_inverse(&mut made, list)?;
    Ok(made)
}

/// Adds the gates that undo a circuit on as many qubits after all others.
///
/// # Errors
///
/// Only where memory runs out.
pub fn push_inverse(made: &mut GateList, list: &GateList) -> Result<(), AllocError>
    requires { made.old.qubits ≡ list.now.qubits }
    ensures qubits { OnOk result (made.new.qubits ≡ made.old.qubits) }
    ensures gates { OnOk result (made.new.gates ≡ made.old.gates ++ inverse_of list.now.gates) }
{
    let gates = list.gates();
    for i in (0..gates.len()).rev() {
        made.push(undone(gates[i]))?;
    }
    Ok(())
}

// The gate that undoes a gate.
fn undone(gate: Gate) -> Gate
    ensures { result ≡ inverse_gate gate }
{
    match gate {
        Gate::Phase(q, phase) => Gate::Phase(q, phase.neg()),
        other => other,
    }
}

/// By which number a circuit followed by its inverse is the identity.
pub fn undone_scalar(circuit: &GateList) -> Scalar
    ensures value { result ≡ undone_scalar circuit.now.gates }
    ensures small { IsWithin (2 * gate_limit) result }
{
    Scalar {
        root2: 2 * counts(circuit).h as i64,
        turn: Sixteenth::new(0),
    }
}
