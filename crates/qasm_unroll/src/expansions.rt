//! What calls of gates without angles come to, kept for the next calls.

ghost use Rattle.std.specs.Prelude.{◌≡◌, ◌++◌, IfSome, OnOk, map};
ghost use Rattle.qasm_unroll.specs.Internal.KeptCalls.{renamed};
ghost use Rattle.qasm_unroll.specs.Internal.KnownCalls.{at, known_of};

use crate::values::qubit_at;
use qasm_names::CalledGate;
use std::alloc::AllocError;
use zx_gates::{ElementaryGate, Elements, Qubit};

/// What a call comes to, whichever its qubits are.
#[derive(Drop)]
pub struct Expansion {
    /// The built-in gates that act. Their qubits are places: 1 is that of the call's first qubit; 0 stands for qubit 0.
    pub gates: Elements,
    /// How many calls are made, with the call itself.
    pub calls: usize,
}

/// What is known of a gate's calls without angles.
#[derive(Drop)]
pub enum Known {
    /// Nothing yet: the gate wasn't called so far.
    Untried,
    /// That nothing is kept of them: something is wrong in such a call, or it makes too many calls.
    Nothing,
    /// What they come to.
    Kept(Expansion),
}

impl Known {
    /// Whether the gate wasn't called so far.
    pub fn is_untried(&self) -> bool {
        matches!(self, Known::Untried)
    }

    /// What is known where the calls come to this, or nothing is kept of them.
    pub fn new(found: Option<Expansion>) -> Known
        ensures { (kept : Expansion) → result ≡ Known.Kept kept → found ≡ Some kept }
    {
        match found {
            Some(kept) => Known::Kept(kept),
            None => Known::Nothing,
        }
    }
}

/// What a call of this gate comes to, where that is kept.
pub fn known_expansion(known: &[Known], called: CalledGate) -> Option<&Expansion>
    ensures { IfSome result (λ kept. known_of known.now called ≡ Some (Known.Kept kept.now)) }
{
    let CalledGate::Gate(number) = called else {
        return None;
    };
    match known.get(number) {
        Some(Known::Kept(kept)) => Some(kept),
        _ => None,
    }
}

/// Adds gates, each on the qubits at its places.
pub fn push_placed(
    gates: &[ElementaryGate],
    qubits: &[Qubit],
    placed: &mut Elements,
) -> Result<(), AllocError>
    ensures { OnOk result (placed.new ≡ placed.old ++ map (renamed (at qubits.now)) gates.now) }
{
    for gate in gates {
        placed.push(placed_gate(gate, qubits))?;
    }
    Ok(())
}

// A gate on the qubits at its places.
fn placed_gate(gate: &ElementaryGate, qubits: &[Qubit]) -> ElementaryGate
    ensures { result ≡ renamed (at qubits.now) gate.now }
{
    match *gate {
        ElementaryGate::U {
            qubit,
            theta,
            phi,
            lambda,
        } => ElementaryGate::U {
            qubit: qubit_at(qubits, usize::from(qubit)),
            theta,
            phi,
            lambda,
        },
        ElementaryGate::Cx { control, target } => ElementaryGate::Cx {
            control: qubit_at(qubits, usize::from(control)),
            target: qubit_at(qubits, usize::from(target)),
        },
    }
}
