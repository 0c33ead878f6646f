//! Statements: what is wrong with them, and what is declared and applied by them.

ghost use Rattle.std.specs.Prelude.{◌≡◌, [], OnOk, None, Some, Err};
ghost use Rattle.qasm_reader.specs.Views.{sentence, action};
ghost use Rattle.qasm_reader.specs.Syntax.{Act};
ghost use Rattle.qasm_names.specs.Kept.{Represents};
ghost use Rattle.qasm_unroll.specs.Internal.KeptCalls.{ComesTo};
ghost use Rattle.qasm_unroll.specs.Internal.KeptMeasures.{Adds, Remembers, wrong_next};
ghost use Rattle.qasm_unroll.specs.Internal.KnownCalls.{Knows};
ghost use Rattle.qasm_unroll.specs.Internal.Recents.{IsRecent};
ghost use Rattle.qasm_scope.specs.Measurements.{measured_by};
ghost use Rattle.qasm_scope.specs.Meaning.{after_statement, events_of};
ghost use Rattle.qasm_scope.specs.Scope.{Scope};
ghost use Rattle.qasm_scope.specs.declared.causes.Cause.{Cause};

use crate::applications::barrier;
use crate::applying::apply;
use crate::measured::Measured;
use crate::measuring::measure;
use crate::plain::Recent;
use crate::unroll::Unrolled;
use qasm_names::{Names, StatementError, declare_bits, declare_qubits, include};
use qasm_reader::{Operation, StatementKind};
use qasm_scope::Cause;
use std::alloc::Global;

/// Takes in a statement after the first one, where nothing is wrong with it.
pub fn read_statement<'a>(
    alloc: Global,
    names: &mut Names<'a>,
    measured: &mut Measured,
    unrolled: &mut Unrolled,
    recent: &mut Recent<'a>,
    kind: &StatementKind<'a>,
) -> Result<(), StatementError>
    ensures ok { OnOk result ((scope : Scope) → Represents names.old scope → Remembers measured.old
        → Knows scope unrolled.old → wrong_next scope measured.old unrolled.old (sentence kind.now) ≡ None) }
    ensures after { OnOk result ((scope : Scope) → Represents names.old scope
        → Represents names.new (after_statement scope (sentence kind.now))) }
    ensures events { OnOk result ((scope : Scope) → Represents names.old scope
        → Knows scope unrolled.old → ComesTo unrolled.old
        (events_of scope (sentence kind.now)) unrolled.new []) }
    ensures knows { OnOk result ((scope : Scope) → Represents names.old scope
        → Knows scope unrolled.old
        → Knows (after_statement scope (sentence kind.now)) unrolled.new) }
    ensures measures { OnOk result ((scope : Scope) → Represents names.old scope
        → Adds measured.old measured.new (measured_by scope (sentence kind.now))) }
    ensures err { (cause : Cause) (scope : Scope) → result ≡ Err (StatementError.Wrong cause)
        → Represents names.old scope → Remembers measured.old → Knows scope unrolled.old
        → wrong_next scope measured.old unrolled.old (sentence kind.now) ≡ Some cause }
    ensures recent { IsRecent names.old.symbols recent.old → IsRecent names.new.symbols recent.new }
{
    match kind {
        StatementKind::Version(_) => Err(StatementError::Wrong(Cause::SecondVersion)),
        StatementKind::Include(text) => {
            recent.forget();
            include(alloc, names, *text)
        }
        StatementKind::QubitRegister { name, size } => {
            recent.forget();
            declare_qubits(names, *name, *size)
        }
        StatementKind::BitRegister { name, size } => {
            recent.forget();
            declare_bits(names, *name, *size)
        }
        StatementKind::Opaque(_) => Err(StatementError::Wrong(Cause::Unsupported)),
        StatementKind::If { .. } => Err(StatementError::Wrong(Cause::Unsupported)),
        StatementKind::Barrier(arguments) => barrier(names, arguments),
        StatementKind::Operation(operation) => {
            operate(alloc, names, measured, unrolled, recent, operation)
        }
    }
}

// Applies a gate or measures, where nothing is wrong with that. There is no other operation in a circuit.
fn operate<'a>(
    alloc: Global,
    names: &Names<'a>,
    measured: &mut Measured,
    unrolled: &mut Unrolled,
    recent: &mut Recent<'a>,
    operation: &Operation<'a>,
) -> Result<(), StatementError>
    ensures ok { OnOk result ((scope : Scope) → Represents names.now scope → Remembers measured.old
        → Knows scope unrolled.old → wrong_next scope measured.old unrolled.old (Act (action operation.now)) ≡ None) }
    ensures events { OnOk result ((scope : Scope) → Represents names.now scope
        → Knows scope unrolled.old → ComesTo unrolled.old
        (events_of scope (Act (action operation.now))) unrolled.new []) }
    ensures knows { OnOk result ((scope : Scope) → Represents names.now scope
        → Knows scope unrolled.old → Knows scope unrolled.new) }
    ensures measures { OnOk result ((scope : Scope) → Represents names.now scope
        → Adds measured.old measured.new (measured_by scope (Act (action operation.now)))) }
    ensures err { (cause : Cause) (scope : Scope) → result ≡ Err (StatementError.Wrong cause)
        → Represents names.now scope → Remembers measured.old → Knows scope unrolled.old
        → wrong_next scope measured.old unrolled.old (Act (action operation.now)) ≡ Some cause }
    ensures recent { IsRecent names.now.symbols recent.old → IsRecent names.now.symbols recent.new }
{
    match operation {
        Operation::Apply(application) => {
            recent.remember(names, application);
            apply(alloc, names, measured, unrolled, application)
        }
        Operation::Measure { from, to } => measure(names, measured, from, to),
        Operation::Reset(_) => Err(StatementError::Wrong(Cause::Unsupported)),
    }
}
