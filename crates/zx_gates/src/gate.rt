//! Gates of the circuits that the optimiser works on.

ghost use Rattle.std.specs.Prelude.{◌≡◌, ◌↔◌, true};
ghost use Rattle.zx_gates.specs.Circuit.{IsOnQubits};

use zx_model::Sixteenth;

/// A qubit of a circuit, by its number from 0.
pub type Qubit = u16;

/// A gate. `Phase(q, k)` multiplies the state |1> of `q` by `z^k`, where `z` is the sixteenth root
/// of unity, exp(i*pi/8).
#[derive(Clone, Copy, Debug, PartialEq, Eq)]
pub enum Gate {
    /// The Hadamard gate.
    H(Qubit),
    /// The phase gate of that many sixteenth turns: T at 2, S at 4, Z at 8.
    Phase(Qubit, Sixteenth),
    /// The controlled Z gate.
    Cz(Qubit, Qubit),
    /// The controlled NOT gate.
    Cx {
        /// The qubit that decides, and stays.
        control: Qubit,
        /// The qubit that is negated where the control is 1.
        target: Qubit,
    },
    /// The NOT gate, X.
    Not(Qubit),
}

impl Gate {
    /// Tells whether the gate may stand in a circuit of so many qubits: it acts on qubits below that
    /// number, on two that differ where it acts on two, and its phase isn't 0.
    pub fn is_on_qubits(&self, qubits: Qubit) -> bool
        ensures { (result ≡ true) ↔ IsOnQubits qubits self.now }
    {
        match *self {
            Gate::H(q) | Gate::Not(q) => q < qubits,
            Gate::Phase(q, phase) => q < qubits && phase.get() != 0,
            Gate::Cz(p, q) => p < qubits && q < qubits && p != q,
            Gate::Cx { control, target } => control < qubits
                && target < qubits
                && control != target,
        }
    }
}
