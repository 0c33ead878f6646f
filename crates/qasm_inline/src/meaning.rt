//! The circuit that a program means.

ghost use Rattle.std.specs.Prelude.{◌≡◌, ◌⊎◌, ◌∷◌, ◌++◌, [], List, ℕ, None, Some, Err, OnOk, IfOk};
ghost use Rattle.qasm_reader.specs.Syntax.{Placed};
ghost use Rattle.qasm_reader.specs.Views.{gate_form, statement_of, statements_of};
ghost use Rattle.zx_gates.specs.Elementary.{IsElementary};
ghost use Rattle.qasm_scope.specs.declared.causes.Cause.{Cause};
ghost use Rattle.qasm_scope.specs.Meaning.{Means, first_fault, most_calls};
ghost use Rattle.qasm_unroll.specs.Circuits.{HasTaken, gate_at};

use qasm_reader::{GateDeclaration, Program, ProgramElement};
use qasm_unroll::{Circuit, InlineError};
use std::alloc::Global;
use zx_gates::Elementary;

/// The circuit of built-in gates that a program means, or its first fault.
///
/// # Errors
///
/// `Fault` with the first statement that something is wrong with, and what; and `NoMemory` where memory runs out.
pub fn inline(alloc: Global, program: &Program<'_>) -> Result<Elementary, InlineError>
    // The program has no fault, and the circuit is what it means.
    ensures faultless { OnOk result (first_fault most_calls (statements_of program.now) ≡ None) }
    ensures means { IfOk result (λ circuit. Means (statements_of program.now) circuit.qubits
        circuit.gates circuit.bits circuit.measured) }
    ensures valid { IfOk result (λ circuit. IsElementary circuit) }
    // The first fault is told, and a program that has one is refused.
    ensures fault { (cause : Cause) (at : ℕ) → result ≡ Err (InlineError.Fault cause at)
        → first_fault most_calls (statements_of program.now) ≡ Some (cause, at) }
    ensures refused { (cause : Cause) (at : ℕ)
        → first_fault most_calls (statements_of program.now) ≡ Some (cause, at)
        → (result ≡ Err InlineError.NoMemory) ⊎ (result ≡ Err (InlineError.Fault cause at)) }
{
    let mut circuit = Circuit::new(alloc);
    for element in &program.elements {
        take(&mut circuit, element);
    }
    circuit.finish()
}

// Takes in a statement, or a gate's declaration.
fn take<'a>(circuit: &mut Circuit<'a>, element: &ProgramElement<'a>)
    ensures { (program : List Placed) → HasTaken circuit.old program
        → HasTaken circuit.new (program ++ statement_of element.now ∷ []) }
{
    match element {
        ProgramElement::Statement(statement) => circuit.take(statement),
        ProgramElement::Gate { place, declaration } => take_gate(circuit, *place, declaration),
    }
}

// Takes in the declaration of a gate at a place, part by part.
fn take_gate<'a>(circuit: &mut Circuit<'a>, place: usize, declaration: &GateDeclaration<'a>)
    ensures { (program : List Placed) → HasTaken circuit.old program
        → HasTaken circuit.new (program ++ gate_at place (gate_form declaration.now) ∷ []) }
{
    let mut gate = circuit.begin_gate(place, &declaration.heading);
    for statement in &declaration.body {
        circuit.take_in_gate(&mut gate, statement);
    }
    circuit.end_gate(gate);
}
