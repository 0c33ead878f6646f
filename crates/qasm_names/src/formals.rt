//! Formal names of gates.

ghost use Rattle.std.specs.Prelude.{◌≡◌, IfOk, []};
ghost use Rattle.qasm_reader.specs.Views.{callee, form_of};
ghost use Rattle.qasm_scope.specs.Faults.{is_hidden};
ghost use Rattle.qasm_names.specs.Places.{ArePlaces, place_in};

use crate::places::Places;
use qasm_reader::{GateHeading, GateName};
use std::alloc::{AllocError, Global};

/// The formal names of a gate.
#[derive(Drop)]
pub struct Formals<'a> {
    /// The places of its parameters.
    pub parameters: Places<'a>,
    /// The places of its qubits.
    pub qubits: Places<'a>,
}

impl<'a> Formals<'a> {
    /// No formal names.
    pub fn none(alloc: Global) -> Formals<'a>
        ensures parameters { ArePlaces result.parameters [] }
        ensures qubits { ArePlaces result.qubits [] }
    {
        Formals {
            parameters: Places::none(alloc),
            qubits: Places::none(alloc),
        }
    }

    /// The formal names of a declaration.
    pub fn new(alloc: Global, heading: &GateHeading<'a>) -> Result<Formals<'a>, AllocError>
        ensures parameters { IfOk result (λ formals.
            ArePlaces formals.parameters (form_of heading.now []).parameters) }
        ensures qubits { IfOk result (λ formals.
            ArePlaces formals.qubits (form_of heading.now []).qubits) }
    {
        Ok(Formals {
            parameters: Places::new(alloc, &heading.parameters)?,
            qubits: Places::new(alloc, &heading.qubits)?,
        })
    }

    /// Whether one of these names hides that of the gate.
    #[inline]
    pub fn hide(&self, gate: &GateName<'a>) -> bool
        ensures { result ≡ is_hidden (place_in self.now.parameters) (place_in self.now.qubits) (callee gate.now) }
    {
        match gate {
            GateName::Declared(name) => {
                self.parameters.find(*name).is_some() || self.qubits.find(*name).is_some()
            }
            _ => false,
        }
    }
}
