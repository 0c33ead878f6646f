//! Applications of gates in statements.

ghost use Rattle.std.specs.Prelude.{◌≡◌, ◌||◌, [], map, IfOk, IfSome, IfNone, OnOk, None, Some, Err, true, ◌==◌};
ghost use Rattle.std.specs.List.{list_any};
ghost use Rattle.qasm_reader.specs.Syntax.{Act, Applied};
ghost use Rattle.qasm_reader.specs.Views as views;
ghost use Rattle.qasm_scope.specs.Angles.{is_unsupported};
ghost use Rattle.qasm_scope.specs.Applications.{application_events, has_twice, instances, register_sizes};
ghost use Rattle.qasm_names.specs.Kept.{Represents};
ghost use Rattle.qasm_names.specs.Checks.{lookup_by};
ghost use Rattle.qasm_unroll.specs.Internal.KeptCalls.{ComesTo};
ghost use Rattle.qasm_unroll.specs.Internal.KeptMeasures.{Remembers, wrong_next};
ghost use Rattle.qasm_unroll.specs.Internal.KnownCalls.{Knows};
ghost use Rattle.qasm_scope.specs.Faults.{has_no_register, has_other_size, has_unknown, has_wrong_count, wrong_behind, wrong_in};
ghost use Rattle.qasm_scope.specs.Scope.{Scope};
ghost use Rattle.qasm_unroll.specs.Internal.Spans.{span_range, IsResolved, is_unresolved, unresolved_cause, resolved_cause};
ghost use Rattle.qasm_scope.specs.declared.causes.Cause.{Cause};

use crate::applications::{Span, any_no_register, has_other_sizes, spans};
use crate::instances::call_instances;
use crate::measured::Measured;
use crate::overlaps::has_same_qubit;
use crate::unroll::Unrolled;
use qasm_angle::Expr;
use qasm_names::{
    CalledGate, Formals, GateFaults, Names, StatementError, applied_gate, gate_faults,
};
use qasm_reader::Application;
use qasm_scope::Cause;
use std::alloc::{AllocError, Global};

// An application with its names resolved.
#[derive(Drop)]
struct ResolvedApplication {
    // The gate that is applied.
    gate: CalledGate,
    // Its angles.
    angles: Vec<Expr>,
    // What its arguments stand for.
    spans: Vec<Span>,
}

/// Applies a gate, where nothing is wrong with the application.
///
/// # Errors
///
/// `Wrong` with the first cause: of the statement itself, or that a qubit was measured before, or else of the calls
/// that it makes, in their order; and `NoMemory` where memory runs out.
pub fn apply<'a>(
    alloc: Global,
    names: &Names<'a>,
    measured: &Measured,
    unrolled: &mut Unrolled,
    application: &Application<'a>,
) -> Result<(), StatementError>
    ensures ok { OnOk result ((scope : Scope) → Represents names.now scope
        → wrong_in scope (Act (Applied (views.application application.now))) ≡ None) }
    ensures behind { OnOk result ((scope : Scope) → Represents names.now scope
        → Remembers measured.now → wrong_behind scope measured.now.list
        (Act (Applied (views.application application.now))) ≡ None) }
    ensures events { OnOk result ((scope : Scope) → Represents names.now scope
        → Knows scope unrolled.old → ComesTo unrolled.old
        (application_events scope (views.application application.now)) unrolled.new []) }
    ensures knows { OnOk result ((scope : Scope) → Represents names.now scope
        → Knows scope unrolled.old → Knows scope unrolled.new) }
    ensures err { (cause : Cause) (scope : Scope) → result ≡ Err (StatementError.Wrong cause)
        → Represents names.now scope → Remembers measured.now → Knows scope unrolled.old → wrong_next scope
        measured.now unrolled.old (Act (Applied (views.application application.now))) ≡ Some cause }
{
    let Some(resolved) = resolved(alloc, names, application)? else {
        let cause = unresolved_cause(alloc, names, application);
        return Err(StatementError::Wrong(cause));
    };
    if let Some(cause) = resolved_cause(&resolved.spans) {
        return Err(StatementError::Wrong(cause));
    }
    if measured.has_any_qubit(&resolved.spans) {
        return Err(StatementError::Wrong(Cause::AfterMeasure));
    }
    call_instances(
        unrolled,
        &names.gates,
        resolved.gate,
        &resolved.angles,
        &resolved.spans,
    )
}

// An application with its names resolved; none where one of them isn't known, an expression isn't supported, the
// gate has another number of angles or qubits, or an index isn't below its register's size.
fn resolved<'a>(
    alloc: Global,
    names: &Names<'a>,
    application: &Application<'a>,
) -> Result<Option<ResolvedApplication>, AllocError>
    ensures some { IfOk result (λ found. IfSome found (λ r. IsResolved names.now.symbols
        (views.application application.now) r.gate r.angles.items (map span_range r.spans.items))) }
    ensures none { IfOk result (λ found. IfNone found (
        is_unresolved (lookup_by names.now.symbols) (views.application application.now) ≡ true)) }
{
    let formals = Formals::none(alloc);
    let count = application.qubits.len();
    let gate = &application.gate;
    let Some(applied) = applied_gate(alloc, names, &formals, gate, &application.angles, count)?
    else {
        return Ok(None);
    };
    let Some(spans) = spans(alloc, names, &application.qubits)? else {
        return Ok(None);
    };
    Ok(Some(ResolvedApplication {
        gate: applied.called,
        angles: applied.angles,
        spans,
    }))
}

// The first cause of an application that can't be resolved.
fn unresolved_cause<'a>(alloc: Global, names: &Names<'a>, application: &Application<'a>) -> Cause
    ensures { let a = views.application application.now in result
        ≡ unresolved_cause (list_any is_unsupported a.angles) (has_unknown (lookup_by names.now.symbols) a)
        (has_wrong_count (lookup_by names.now.symbols) a) }
{
    let formals = Formals::none(alloc);
    let count = application.qubits.len();
    let faults = gate_faults(
        names,
        &formals,
        &application.gate,
        &application.angles,
        count,
    );
    if faults.unsupported {
        Cause::Unsupported
    } else if is_unknown(names, faults, application) {
        Cause::Unknown
    } else if faults.wrong_count {
        Cause::WrongCount
    } else {
        Cause::Index
    }
}

// Whether a name in an application isn't known, or isn't what is needed there, where this is wrong with its gate.
fn is_unknown<'a>(names: &Names<'a>, faults: GateFaults, application: &Application<'a>) -> bool
    ensures { result ≡ (faults.unknown || list_any (has_no_register (lookup_by names.now.symbols))
        (views.application application.now).qubits) }
{
    faults.unknown || any_no_register(names, &application.qubits)
}

// The first cause of an application whose names are resolved.
fn resolved_cause(spans: &[Span]) -> Option<Cause>
    ensures { result ≡ resolved_cause (has_other_size (register_sizes (map span_range spans.now)))
        (list_any (has_twice ◌==◌) (instances (map span_range spans.now))) }
{
    if has_other_sizes(spans) {
        Some(Cause::Sizes)
    } else if has_same_qubit(spans) {
        Some(Cause::SameQubit)
    } else {
        None
    }
}
