//! What calls push: values of expressions, and qubits by their places.

ghost use Rattle.std.specs.Prelude.{◌≡◌, ◌≤◌, ◌-◌, ◌^◌, ◌++◌, Ok, Err, Some, None, IfOk, IfErr, OnOk, drop, length, map, min, slice_index_or};
ghost use Rattle.qasm_angle.specs.Sixteenths.{phase_of_angle};
ghost use Rattle.qasm_angle.specs.Values.{value};
ghost use Rattle.qasm_scope.specs.Angles.{with_cause};
ghost use Rattle.qasm_scope.specs.Applications.{element_at};
ghost use Rattle.qasm_unroll.specs.Internal.KeptCalls.{followed, picked, values_of};
ghost use Rattle.qasm_unroll.specs.Internal.Spans.{span_range, cut_instance, cut_element_at};

use crate::applications::Span;
use qasm_angle::{Angle, AngleError, Expr, eval, to_sixteenth};
use qasm_names::{StatementError, clamped};
use qasm_scope::Cause;
use std::alloc::{AllocError, Global};
use zx_gates::Qubit;
use zx_model::Sixteenth;

/// The angle in sixteenth turns.
pub fn sixteenth_of(angle: &Angle) -> Result<Sixteenth, Cause>
    ensures ok { IfOk result (λ turns. phase_of_angle angle.now ≡ Some turns) }
    ensures err { IfErr result (λ cause. (phase_of_angle angle.now ≡ None) × (cause
        ≡ Cause.NotSixteenthTurn)) }
{
    match to_sixteenth(angle) {
        Some(turns) => Ok(turns),
        None => Err(Cause::NotSixteenthTurn),
    }
}

/// Pushes the values of expressions, from left to right, onto the angles, of which those above the base are the
/// parameters' values.
pub fn push_values(
    alloc: Global,
    expressions: &[Expr],
    base: usize,
    angles: &mut Vec<Angle>,
) -> Result<(), StatementError>
    requires { base ≤ length angles.old.items }
    ensures ok { OnOk result (followed angles.old.items
        (values_of expressions.now (drop base angles.old.items)) ≡ Ok angles.new.items) }
    ensures err { (cause : Cause) → result ≡ Err (StatementError.Wrong cause)
        → values_of expressions.now (drop base angles.old.items) ≡ Err cause }
{
    let top = angles.len();
    for expression in expressions {
        let value = value_of(alloc, expression, &angles[base..top])?;
        angles.push(value)?;
    }
    Ok(())
}

/// Pushes the qubits at these places among those above the base; where there is none, 0.
pub fn push_picked(places: &[usize], base: usize, qubits: &mut Vec<Qubit>) -> Result<(), AllocError>
    requires { base ≤ length qubits.old.items }
    ensures { OnOk result (qubits.new.items
        ≡ qubits.old.items ++ picked (drop base qubits.old.items) places.now) }
{
    let top = qubits.len();
    for place in places {
        let qubit = qubit_at(&qubits[base..top], *place);
        qubits.push(qubit)?;
    }
    Ok(())
}

/// Pushes the qubits of the instance at an index.
pub fn push_instance(
    spans: &[Span],
    index: usize,
    qubits: &mut Vec<Qubit>,
) -> Result<(), AllocError>
    ensures { OnOk result (qubits.new.items
        ≡ qubits.old.items ++ cut_instance (map span_range spans.now) index) }
{
    for span in spans {
        qubits.push(instance_qubit(span, index))?;
    }
    Ok(())
}

/// The qubit at a place; where there is none, 0.
pub fn qubit_at(qubits: &[Qubit], place: usize) -> Qubit
    ensures { result ≡ slice_index_or qubits.now place 0 }
{
    if place < qubits.len() {
        qubits[place]
    } else {
        0
    }
}

/// The qubit of an argument in the instance at an index.
pub fn instance_qubit(span: &Span, index: usize) -> Qubit
    ensures { result ≡ cut_element_at index (span_range span.now) }
{
    match span {
        Span::Single(qubit) => clamped(*qubit),
        Span::Register { first, .. } => clamped(first.saturating_add(index)),
    }
}

/// The bit of an argument in the instance at an index.
pub fn instance_bit(span: &Span, index: usize) -> u32
    ensures { result ≡ min (element_at index (span_range span.now)) (2 ^ 32 - 1) }
{
    match span {
        Span::Single(bit) => clamped_bit(*bit),
        Span::Register { first, .. } => clamped_bit(first.saturating_add(index)),
    }
}

/// A number as one of 32 bits, or the largest of these where it is larger.
pub fn clamped_bit(number: usize) -> u32
    ensures { result ≡ min number (2 ^ 32 - 1) }
{
    u32::try_from(number).unwrap_or(u32::MAX)
}

// The value of an expression.
fn value_of(alloc: Global, expression: &Expr, angles: &[Angle]) -> Result<Angle, StatementError>
    ensures ok { IfOk result (λ angle. with_cause (value expression.now angles.now) ≡ Ok angle) }
    ensures err { (cause : Cause) → result ≡ Err (StatementError.Wrong cause)
        → with_cause (value expression.now angles.now) ≡ Err cause }
{
    match eval(alloc, expression, angles) {
        Ok(angle) => Ok(angle),
        Err(AngleError::Divide) => Err(StatementError::Wrong(Cause::Divide)),
        Err(AngleError::TooLarge) => Err(StatementError::Wrong(Cause::AngleTooLarge)),
        Err(AngleError::NotAnAngle) => Err(StatementError::Wrong(Cause::NotSixteenthTurn)),
        Err(AngleError::NoMemory) => Err(StatementError::NoMemory),
    }
}
