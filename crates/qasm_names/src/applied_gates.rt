//! The gate and the angles of an application, with their names resolved.

ghost use Rattle.std.specs.Prelude.{◌≡◌, map, true, IfOk, IfSome, IfNone};
ghost use Rattle.qasm_reader.specs.Postfix.{formula_of};
ghost use Rattle.qasm_reader.specs.Views.{callee};
ghost use Rattle.qasm_names.specs.AppliedGates.{IsAppliedGate, gate_faults, has_fault, is_unknown_gate, is_other_shape};
ghost use Rattle.qasm_names.specs.Internal.Called.{IsCalled, is_miscalled};

use crate::expressions::{all_numbered, any_other_name, any_unsupported};
use crate::formals::Formals;
use crate::gates::CalledGate;
use crate::names::Names;
use qasm_angle::Expr;
use qasm_reader::{Expression, GateName};
use std::alloc::{AllocError, Global};

/// The gate that an application calls, and with which angles.
#[derive(Drop)]
pub struct AppliedGate {
    /// The gate.
    pub called: CalledGate,
    /// Its angles, in numbered parameters.
    pub angles: Vec<Expr>,
}

/// What is wrong with the gate of an application, with its angles, or with the number of its qubits.
#[derive(Clone, Copy, Debug, PartialEq, Eq)]
pub struct GateFaults {
    /// An angle holds `^` or a function.
    pub unsupported: bool,
    /// A formal name hides the gate, there is no such gate, or an angle holds a name that is no parameter.
    pub unknown: bool,
    /// Angles or qubits differ in number from the gate's declaration.
    pub wrong_count: bool,
}

/// The gate of an application, to so many qubits, with its angles; none where something is wrong with these.
pub fn applied_gate<'a>(
    alloc: Global,
    names: &Names<'a>,
    formals: &Formals<'a>,
    gate: &GateName<'a>,
    angles: &[Expression<'a>],
    qubits: usize,
) -> Result<Option<AppliedGate>, AllocError>
    ensures some { IfOk result (λ found. IfSome found (λ applied. IsAppliedGate names.now.symbols
        formals.now (callee gate.now) (map formula_of angles.now) qubits applied)) }
    ensures none { IfOk result (λ found. IfNone found (has_fault (gate_faults names.now.symbols
        formals.now (callee gate.now) (map formula_of angles.now) qubits) ≡ true)) }
{
    let Some(called) = called(names, formals, gate, angles.len(), qubits) else {
        return Ok(None);
    };
    match all_numbered(alloc, &formals.parameters, angles)? {
        Some(angles) => Ok(Some(AppliedGate { called, angles })),
        None => Ok(None),
    }
}

/// What is wrong with the gate of an application to so many qubits and with its angles, by one pass for each fault.
pub fn gate_faults<'a>(
    names: &Names<'a>,
    formals: &Formals<'a>,
    gate: &GateName<'a>,
    angles: &[Expression<'a>],
    qubits: usize,
) -> GateFaults
    ensures { result ≡ gate_faults names.now.symbols formals.now (callee gate.now)
        (map formula_of angles.now) qubits }
{
    GateFaults {
        unsupported: any_unsupported(angles),
        unknown: is_unknown(names, formals, gate, angles),
        wrong_count: is_other_shape(names, gate, angles.len(), qubits),
    }
}

// The gate that is called with so many angles on so many qubits; none where a formal name hides it, where there is no
// such gate, and where it has other numbers of them.
fn called<'a>(
    names: &Names<'a>,
    formals: &Formals<'a>,
    gate: &GateName<'a>,
    angles: usize,
    qubits: usize,
) -> Option<CalledGate>
    ensures some { IfSome result (λ called.
        IsCalled names.now.symbols formals.now (callee gate.now) angles qubits called) }
    ensures none { IfNone result (
        is_miscalled names.now.symbols formals.now (callee gate.now) angles qubits ≡ true) }
{
    if formals.hide(gate) {
        return None;
    }
    let known = names.gate(gate)?;
    if known.has_other_shape(angles, qubits) {
        return None;
    }
    Some(known.called)
}

// Whether a formal name hides the gate, there is no such gate, or an angle holds a name that is no parameter.
fn is_unknown<'a>(
    names: &Names<'a>,
    formals: &Formals<'a>,
    gate: &GateName<'a>,
    angles: &[Expression<'a>],
) -> bool
    ensures { result ≡ is_unknown_gate names.now.symbols formals.now (callee gate.now)
        (map formula_of angles.now) }
{
    formals.hide(gate) || names.gate(gate).is_none() || any_other_name(&formals.parameters, angles)
}

// Whether the gate is declared with other numbers of angles and qubits.
fn is_other_shape<'a>(names: &Names<'a>, gate: &GateName<'a>, angles: usize, qubits: usize) -> bool
    ensures { result ≡ is_other_shape names.now.symbols (callee gate.now) angles qubits }
{
    match names.gate(gate) {
        Some(known) => known.has_other_shape(angles, qubits),
        None => false,
    }
}
