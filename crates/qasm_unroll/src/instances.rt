//! The instances of an application, one after the other.

ghost use Rattle.std.specs.Prelude.{◌≡◌, [], length, map, OnOk, Err, Some};
ghost use Rattle.qasm_unroll.specs.Internal.KeptCalls.{Numbered, Unrolls, ComesTo, values_of, wrong_from};
ghost use Rattle.qasm_unroll.specs.Internal.KnownCalls.{AreKnown};
ghost use Rattle.qasm_unroll.specs.Internal.Spans.{span_range, instances_events};
ghost use Rattle.qasm_scope.specs.declared.causes.Cause.{Cause};

use crate::applications::{Span, instance_count};
use crate::unroll::Unrolled;
use qasm_angle::Expr;
use qasm_names::{CalledGate, GateBody, StatementError};

/// Calls a gate with these angles in each instance of an application.
pub fn call_instances(
    unrolled: &mut Unrolled,
    gates: &[GateBody],
    called: CalledGate,
    angles: &[Expr],
    spans: &[Span],
) -> Result<(), StatementError>
    ensures ok { OnOk result ((numbered : Numbered) → Unrolls gates.now numbered
        → AreKnown numbered (length gates.now) unrolled.old.known.items → ComesTo unrolled.old
        (instances_events numbered called (values_of angles.now []) (map span_range spans.now)) unrolled.new []) }
    ensures known { OnOk result ((numbered : Numbered) → Unrolls gates.now numbered
        → AreKnown numbered (length gates.now) unrolled.old.known.items
        → AreKnown numbered (length gates.now) unrolled.new.known.items) }
    ensures err { (cause : Cause) (numbered : Numbered) → result ≡ Err (StatementError.Wrong cause) → Unrolls
        gates.now numbered → AreKnown numbered (length gates.now) unrolled.old.known.items → wrong_from unrolled.old
        (instances_events numbered called (values_of angles.now []) (map span_range spans.now)) ≡ Some cause }
{
    unrolled.learn(gates, called)?;
    for index in 0..instance_count(spans) {
        unrolled.instance(gates, called, angles, spans, index)?;
    }
    Ok(())
}
