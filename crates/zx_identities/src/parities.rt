//! Gates without H as parities of the qubits with phases.

ghost use Rattle.std.specs.Prelude.{◌≡◌, ◌≤◌, ◌<◌, ◌+◌, ◌%◌, ◌↔◌, true, ℕ, Bool, List, length, IfOk, OnOk, IfSome, IsSome};
ghost use Rattle.std.specs.List.{All};
ghost use Rattle.zx_model.specs.Phase.{turn};
ghost use Rattle.zx_gates.specs.Circuit.{IsGateOn};
ghost use Rattle.zx_identities.specs.BasisStates.{moved, turned};
ghost use Rattle.zx_identities.specs.Internal.Parities.{state, phase_of, term_phase, controlled_phase, units_from, AreBelow, IsReading, IsUnmoved};

use std::alloc::{AllocError, Global};
use zx_gates::Gate;

/// The most qubits: a parity has a bit for each, and one for what is added.
pub(crate) const MOST_QUBITS: usize = 127;

/// A phase where a parity of the qubits is odd.
#[derive(Clone, Copy)]
pub(crate) struct Term {
    /// Whether 1 is added, in the lowest bit, and then a bit for each qubit.
    pub(crate) parity: u128,
    /// The phase, in sixteenth turns.
    pub(crate) phase: u8,
}

/// The phases of gates without H, each where a parity is odd. None where the gates move a basis state.
pub(crate) fn read(
    alloc: Global,
    gates: &[Gate],
    qubits: usize,
) -> Result<Option<Vec<Term>>, AllocError>
    requires few { qubits ≤ 127 }
    requires on { All (IsGateOn qubits) gates.now }
    ensures reading { IfOk result (λ found. IfSome found (λ terms. IsReading qubits gates.now terms.items)) }
    ensures kept { IfOk result (λ found. IsUnmoved qubits gates.now → IsSome found) }
{
    let mut parities = units(alloc, qubits)?;
    let mut terms = Vec::new(alloc);
    for gate in gates {
        advance(gate, &mut parities, &mut terms)?;
    }
    if are_units(&parities) {
        Ok(Some(terms))
    } else {
        Ok(None)
    }
}

// The parities of the qubits themselves.
fn units(alloc: Global, qubits: usize) -> Result<Vec<u128>, AllocError>
    requires { qubits ≤ 127 }
    ensures { IfOk result (λ made. made.items ≡ units_from qubits 0) }
{
    let mut made = Vec::new(alloc);
    for q in 0..qubits {
        made.push(2 << q)?;
    }
    Ok(made)
}

// Whether the parities are those of the qubits themselves.
fn are_units(parities: &[u128]) -> bool
    requires { length parities.now ≤ 127 }
    ensures { (result ≡ true) ↔ (parities.now ≡ units_from (length parities.now) 0) }
{
    for q in 0..parities.len() {
        if parities[q] != 2 << q {
            return false;
        }
    }
    true
}

// Takes one gate more: the parities on the qubits, and the phases that were on them.
fn advance(gate: &Gate, parities: &mut [u128], terms: &mut Vec<Term>) -> Result<(), AllocError>
    requires { IsGateOn (length parities.old) gate.now }
    ensures state { OnOk result ((x : List Bool) →
        state parities.new x ≡ moved gate.now (state parities.old x)) }
    ensures below { OnOk result ((bits : ℕ) → 0 < bits →
        AreBelow bits parities.old → AreBelow bits parities.new) }
    ensures phase { OnOk result ((x : List Bool) → phase_of terms.new.items x % turn ≡
        (phase_of terms.old.items x + turned gate.now (state parities.old x)) % turn) }
{
    match *gate {
        Gate::H(_) => Ok(()),
        Gate::Phase(q, k) => push(terms, parities[usize::from(q)], k.get()),
        Gate::Cz(q, r) => {
            push_controlled(terms, parities[usize::from(q)], parities[usize::from(r)])
        }
        Gate::Cx { control, target } => {
            let sum = parities[usize::from(control)] ^ parities[usize::from(target)];
            parities[usize::from(target)] = sum;
            Ok(())
        }
        Gate::Not(q) => {
            let turned = parities[usize::from(q)] ^ 1;
            parities[usize::from(q)] = turned;
            Ok(())
        }
    }
}

// Adds a phase on a parity.
fn push(terms: &mut Vec<Term>, parity: u128, phase: u8) -> Result<(), AllocError>
    ensures { OnOk result ((x : List Bool) →
        phase_of terms.new.items x ≡ phase_of terms.old.items x + term_phase parity phase x) }
{
    terms.push(Term { parity, phase })?;
    Ok(())
}

// Adds the phases of a controlled Z on two parities: a quarter turn on each, and one back on their sum.
fn push_controlled(terms: &mut Vec<Term>, one: u128, other: u128) -> Result<(), AllocError>
    ensures { OnOk result ((x : List Bool) → phase_of terms.new.items x % turn ≡
        (phase_of terms.old.items x + controlled_phase one other x) % turn) }
{
    push(terms, one, 4)?;
    push(terms, other, 4)?;
    push(terms, one ^ other, 12)
}
