//! From the two circuits that are read to the line about whether they are the same.

ghost use Rattle.std.specs.Prelude.{◌≡◌, true, false, Contains, None, IfNone, IfOk, IfSome};
ghost use Rattle.zx_gates.specs.declared.elementary.Measure.{Measure as Measured};
ghost use Rattle.zx_gates.specs.Elementary.{IsElementary};
ghost use Rattle.zx_run.specs.Comparing.{HaveSameMeasures, HaveSameWidths};
ghost use Rattle.zx_run.specs.Internal.Verdicts.{HasLeft, IsComparisonOf};

use crate::written::Written;
use std::alloc::{AllocError, Global};
use zx_gates::{Elementary, GateList, Measure, lower};
use zx_same::left_of;

/// The line about two circuits: `same`, or no with `widths N M`, `measures differ` or `not shown K`.
///
/// # Errors
///
/// Only where memory runs out.
pub fn comparison_text(
    alloc: Global,
    one: &Elementary,
    other: &Elementary,
) -> Result<Written, AllocError>
    requires one { IsElementary one.now }
    requires other { IsElementary other.now }
    ensures { IfOk result (λ written.
        IsComparisonOf one.now other.now written.bytes.items written.is_no) }
{
    if one.qubits != other.qubits {
        let these = one.qubits;
        let those = other.qubits;
        let line = format!(in alloc; "widths {these} {those}\n")?;
        return Ok(Written::no(line.into_bytes()));
    }
    if !have_same_measures(one, other) {
        let line = format!(in alloc; "measures differ\n")?;
        return Ok(Written::no(line.into_bytes()));
    }
    line_about_gates(alloc, one, other)
}

// The line about two circuits that agree but for their gates.
fn line_about_gates(
    alloc: Global,
    one: &Elementary,
    other: &Elementary,
) -> Result<Written, AllocError>
    requires one { IsElementary one.now }
    requires other { IsElementary other.now }
    requires widths { HaveSameWidths one.now other.now }
    requires measures { HaveSameMeasures one.now other.now }
    ensures { IfOk result (λ written.
        IsComparisonOf one.now other.now written.bytes.items written.is_no) }
{
    let first = lower(alloc, one)?;
    let second = lower(alloc, other)?;
    let found = left_of(alloc, &first.gates, &second.gates)?;
    // Dropped before the next exit, whose proof would speak of each value that is alive there.
    drop(first);
    drop(second);
    let left = gates_left(&found);
    drop(found);
    match left {
        None => {
            let line = format!(in alloc; "same\n")?;
            Ok(Written::done(line.into_bytes()))
        }
        Some(count) => {
            let line = format!(in alloc; "not shown {count}\n")?;
            Ok(Written::no(line.into_bytes()))
        }
    }
}

// How many gates are left where it isn't shown that the circuits are the same.
fn gates_left(found: &Option<GateList>) -> Option<usize>
    ensures none { IfNone result (found.now ≡ None) }
    ensures some { IfSome result (HasLeft found.now) }
{
    match found {
        None => None,
        Some(left) => Some(left.gates().len()),
    }
}

// Whether two circuits have as many bits and the same measurements.
fn have_same_measures(one: &Elementary, other: &Elementary) -> bool
    ensures same { result ≡ true → HaveSameMeasures one.now other.now }
    ensures differ { result ≡ false → HaveSameMeasures one.now other.now → ⊥ }
{
    if one.bits != other.bits {
        return false;
    }
    let these = one.measured.as_slice();
    let those = other.measured.as_slice();
    if !are_all_in(these, those) {
        return false;
    }
    are_all_in(those, these)
}

// Whether each of these measurements is one of those.
fn are_all_in(these: &[Measure], those: &[Measure]) -> bool
    ensures all { result ≡ true → (measure : Measured) → Contains these.now measure
        → Contains those.now measure }
    ensures some { result ≡ false → ((measure : Measured) → Contains these.now measure
        → Contains those.now measure) → ⊥ }
{
    for measure in these {
        if !is_in(*measure, those) {
            return false;
        }
    }
    true
}

// Whether a measurement is one of those.
fn is_in(measure: Measure, those: &[Measure]) -> bool
    ensures is { result ≡ true → Contains those.now measure }
    ensures other { result ≡ false → Contains those.now measure → ⊥ }
{
    those.contains(&measure)
}
