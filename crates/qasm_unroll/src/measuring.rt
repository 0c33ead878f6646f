//! Measurements in statements.

ghost use Rattle.std.specs.Prelude.{◌≡◌, Err, IfErr, IfOk, None, OnOk, Some};
ghost use Rattle.qasm_reader.specs.Syntax.{Act, Measured as MeasuredAs};
ghost use Rattle.qasm_reader.specs.Views.{operand};
ghost use Rattle.qasm_scope.specs.declared.causes.Cause.{Cause};
ghost use Rattle.qasm_scope.specs.Measurements.{are_unlike, measured_by};
ghost use Rattle.qasm_scope.specs.Scope.{Scope};
ghost use Rattle.qasm_names.specs.Kept.{Represents};
ghost use Rattle.qasm_names.specs.Checks.{lookup_by};
ghost use Rattle.qasm_unroll.specs.Internal.KeptMeasures.{Adds, AreFoundSpans, Remembers, found_cause, named_cause, wrong_measure};
ghost use Rattle.qasm_unroll.specs.Internal.Spans.{span_range};

use crate::applications::{Span, span_of};
use crate::measured::Measured;
use qasm_names::{Names, StatementError};
use qasm_reader::Argument;
use qasm_scope::Cause;

// What the two arguments of a measurement stand for.
#[derive(Clone, Copy)]
struct MeasuredSpans {
    from: Span,
    to: Span,
}

/// Measures, where nothing is wrong with the statement.
///
/// # Errors
///
/// `Wrong` with the first cause of `Unknown`, `Index`, `Sizes`, `AfterMeasure` and `BitTwice`; and `NoMemory` where
/// memory runs out.
pub fn measure<'a>(
    names: &Names<'a>,
    measured: &mut Measured,
    from: &Argument<'a>,
    to: &Argument<'a>,
) -> Result<(), StatementError>
    ensures ok { OnOk result ((scope : Scope) → Represents names.now scope → Remembers measured.old
        → wrong_measure scope measured.old.list (operand from.now) (operand to.now) ≡ None) }
    ensures adds { OnOk result ((scope : Scope) → Represents names.now scope
        → Adds measured.old measured.new
        (measured_by scope (Act (MeasuredAs (operand from.now) (operand to.now))))) }
    ensures err { (cause : Cause) (scope : Scope) → result ≡ Err (StatementError.Wrong cause)
        → Represents names.now scope → Remembers measured.old
        → wrong_measure scope measured.old.list (operand from.now) (operand to.now) ≡ Some cause }
{
    let spans = match found(names, from, to) {
        Ok(spans) => spans,
        Err(cause) => return Err(StatementError::Wrong(cause)),
    };
    if let Some(cause) = found_cause(measured, &spans) {
        return Err(StatementError::Wrong(cause));
    }
    measured.add(&spans.from, &spans.to)?;
    Ok(())
}

// What the arguments stand for, or the first of `Unknown` and `Index` that is wrong with them.
fn found<'a>(
    names: &Names<'a>,
    from: &Argument<'a>,
    to: &Argument<'a>,
) -> Result<MeasuredSpans, Cause>
    ensures ok { IfOk result (λ spans. AreFoundSpans (lookup_by names.now.symbols) (operand from.now)
        (operand to.now) (span_range spans.from) (span_range spans.to)) }
    ensures err { IfErr result (λ cause.
        named_cause (lookup_by names.now.symbols) (operand from.now) (operand to.now) ≡ Some cause) }
{
    let Some(qubits) = names.register(from.register) else {
        return Err(Cause::Unknown);
    };
    let Some(bits) = names.bit_register(to.register) else {
        return Err(Cause::Unknown);
    };
    let Some(from) = span_of(qubits, from.index) else {
        return Err(Cause::Index);
    };
    let Some(to) = span_of(bits, to.index) else {
        return Err(Cause::Index);
    };
    Ok(MeasuredSpans { from, to })
}

// The first cause of a measurement whose arguments stand for these.
fn found_cause(measured: &Measured, spans: &MeasuredSpans) -> Option<Cause>
    ensures { Remembers measured.now → result ≡ found_cause measured.now.list
        (span_range spans.now.from) (span_range spans.now.to) }
{
    if are_unlike(&spans.from, &spans.to) {
        Some(Cause::Sizes)
    } else if measured.has_qubit(&spans.from) {
        Some(Cause::AfterMeasure)
    } else if measured.has_bit(&spans.to) {
        Some(Cause::BitTwice)
    } else {
        None
    }
}

// Whether they are neither two registers of one size, nor a qubit and a bit alone.
fn are_unlike(from: &Span, to: &Span) -> bool
    ensures { result ≡ are_unlike (span_range from.now) (span_range to.now) }
{
    match from {
        Span::Single(_) => match to {
            Span::Single(_) => false,
            Span::Register { .. } => true,
        },
        Span::Register { size, .. } => match to {
            Span::Single(_) => true,
            Span::Register { size: bits, .. } => bits != size,
        },
    }
}
