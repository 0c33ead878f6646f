//! Gates as they are kept: their bodies with names resolved.

ghost use Rattle.std.specs.Prelude.{◌≡◌, Some};
ghost use Rattle.qasm_names.specs.Checks.{gate_shape};
ghost use Rattle.qasm_scope.specs.Faults.{has_other_shape};

use qasm_angle::Expr;
use smallvec::SmallVec;

/// The gate that is called.
#[derive(Clone, Copy, Debug, PartialEq, Eq)]
pub enum CalledGate {
    /// The built-in `U`.
    U,
    /// The built-in `CX`.
    Cx,
    /// The declared gate of that number, counted from 0 in the order of declarations.
    Gate(usize),
}

/// A gate that a name stands for.
#[derive(Clone, Copy, Debug, PartialEq, Eq)]
pub struct KnownGate {
    /// The gate that is called by the name.
    pub called: CalledGate,
    /// How many angles it has.
    pub angles: usize,
    /// How many qubits it has.
    pub qubits: usize,
}

impl KnownGate {
    /// Whether these are other numbers of angles and qubits than it has.
    pub fn has_other_shape(&self, angles: usize, qubits: usize) -> bool
        ensures { result ≡ has_other_shape (Some (gate_shape self.now)) angles qubits }
    {
        angles != self.angles || qubits != self.qubits
    }
}

/// A call in the body of a gate.
#[derive(Drop)]
pub struct GateCall {
    /// The gate that is called.
    pub called: CalledGate,
    /// Its angles, in the parameters of the gate whose body this is.
    pub angles: Vec<Expr>,
    /// The places of its qubits among those of that gate.
    pub qubits: SmallVec<usize, 2>,
}

/// A declared gate.
#[derive(Drop)]
pub struct GateBody {
    /// The calls in its body.
    pub calls: Vec<GateCall>,
}
