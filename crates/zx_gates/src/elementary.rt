//! Circuits of the two gates that are built into OpenQASM 2.0, and measurements at their ends.

ghost use Rattle.std.specs.Prelude.{◌≡◌, ◌++◌, [], ◌∷◌, OnOk, OnErr, List};

use crate::gate::Qubit;
use std::alloc::{AllocError, Global};
use std::marker::Model;
use zx_model::Sixteenth;

/// One of the two gates that are built into OpenQASM 2.0.
#[derive(Clone, Copy, Debug, PartialEq, Eq)]
pub enum ElementaryGate {
    /// `U(theta, phi, lambda)`, its angles in sixteenth turns.
    U {
        /// The qubit that it acts on.
        qubit: Qubit,
        /// The angle of the turn about the y axis.
        theta: Sixteenth,
        /// The angle of the turn about the z axis that comes after it.
        phi: Sixteenth,
        /// The angle of the turn about the z axis that comes before it.
        lambda: Sixteenth,
    },
    /// `CX`.
    Cx {
        /// The qubit that decides, and stays.
        control: Qubit,
        /// The qubit that is negated where the control is 1.
        target: Qubit,
    },
}

/// A list of elementary gates, the first to act first.
#[derive(Drop)]
pub struct Elements {
    gates: Vec<ElementaryGate>,
}

impl Model for Elements {
    ghost use Rattle.std.specs.Prelude.{List};
    ghost use Rattle.zx_gates.specs.declared.elementary.ElementaryGate.{ElementaryGate};

    ghost Value = { List ElementaryGate };

    ghost view = { λ elements. elements.gates.items };
}

impl Elements {
    /// The empty list.
    pub fn new(alloc: Global) -> Elements
        ensures { result ≡ [] }
    {
        Elements {
            gates: Vec::new(alloc),
        }
    }

    /// Adds a gate after all others. Where memory runs out the list stays as it was.
    pub fn push(&mut self, gate: ElementaryGate) -> Result<(), AllocError>
        ensures ok { OnOk result (self.new ≡ self.old ++ gate ∷ []) }
        ensures err { OnErr result (self.new ≡ self.old) }
    {
        self.gates.push(gate)?;
        Ok(())
    }

    /// The gates, the first to act first.
    pub fn as_slice(&self) -> &[ElementaryGate]
        ensures { result.now ≡ self.now }
    {
        &self.gates
    }
}

/// A measurement at the end of a circuit: a qubit's value goes to a bit.
#[derive(Clone, Copy, Debug, PartialEq, Eq)]
pub struct Measure {
    /// The qubit that is measured.
    pub qubit: Qubit,
    /// The bit that its value goes to.
    pub bit: u32,
}

/// A list of measurements, in their order in the program.
#[derive(Drop)]
pub struct Measures {
    measures: Vec<Measure>,
}

impl Model for Measures {
    ghost use Rattle.std.specs.Prelude.{List};
    ghost use Rattle.zx_gates.specs.declared.elementary.Measure.{Measure};

    ghost Value = { List Measure };

    ghost view = { λ list. list.measures.items };
}

impl Measures {
    /// The empty list.
    pub fn new(alloc: Global) -> Measures
        ensures { result ≡ [] }
    {
        Measures {
            measures: Vec::new(alloc),
        }
    }

    /// Adds a measurement after all others. Where memory runs out the list stays as it was.
    pub fn push(&mut self, measure: Measure) -> Result<(), AllocError>
        ensures ok { OnOk result (self.new ≡ self.old ++ measure ∷ []) }
        ensures err { OnErr result (self.new ≡ self.old) }
    {
        self.measures.push(measure)?;
        Ok(())
    }

    /// The measurements, in their order.
    pub fn as_slice(&self) -> &[Measure]
        ensures { result.now ≡ self.now }
    {
        &self.measures
    }
}

/// A circuit of elementary gates, and the measurements behind them.
#[derive(Drop)]
pub struct Elementary {
    /// How many qubits there are, at most 1,024.
    pub qubits: u16,
    /// Its gates, fewer than 2^40, on qubits below that number; the two of a `Cx` differ.
    pub gates: Elements,
    /// How many bits there are, at most 65,536.
    pub bits: u32,
    /// Its measurements, of qubits and into bits below their numbers; none of these is named twice.
    pub measured: Measures,
}
