//! Gates that are nothing or one gate together.

ghost use Rattle.std.specs.Prelude.{◌≡◌, IsTrue};
ghost use Rattle.std.specs.Option.{option_to_list};
ghost use Rattle.zx_peephole.specs.Commuting.{commutes};
ghost use Rattle.zx_peephole.specs.Tidy.{cancels_or_merges, is_turned};
ghost use Rattle.zx_peephole.specs.Internal.Merging.{merged, doublings, conjugated};
ghost use Rattle.zx_peephole.specs.Internal.Stops.{stops, turns};

use crate::commuting::commutes;
use zx_gates::{Gate, Qubit};
use zx_model::Sixteenth;

// Whether two gates, one right after the other, are nothing or one gate.
pub(crate) fn cancels_or_merges(first: &Gate, second: &Gate) -> bool
    ensures { result ≡ cancels_or_merges first.now second.now }
{
    match *first {
        Gate::H(q) => matches!(*second, Gate::H(r) if q == r),
        Gate::Phase(q, _) => matches!(*second, Gate::Phase(r, _) if q == r),
        Gate::Not(q) => matches!(*second, Gate::Not(r) if q == r),
        Gate::Cz(q, r) => is_cz_on(q, r, second),
        Gate::Cx { control, target } => is_cx_on(control, target, second),
    }
}

// The gate that two phase gates of a pair become, if their phases don't add up to 0; other pairs become nothing.
pub(crate) fn merged(first: &Gate, second: &Gate) -> Option<Gate>
    ensures { option_to_list result ≡ merged first.now second.now }
{
    match *first {
        Gate::Phase(_, phase) => with_phase_added(phase, second),
        _ => None,
    }
}

// The power of two that goes with what a pair becomes that begins with the gate: two H are twice nothing.
pub(crate) fn doublings(gate: &Gate) -> u32
    ensures { result ≡ doublings gate.now }
{
    match *gate {
        Gate::H(_) => 1,
        _ => 0,
    }
}

// Whether the first is H, and the second a half turn or NOT of its qubit.
pub(crate) fn turns(hadamard: &Gate, gate: &Gate) -> bool
    ensures { result ≡ turns hadamard.now gate.now }
{
    match *hadamard {
        Gate::H(q) => is_turned(q, gate),
        _ => false,
    }
}

// What a half turn or NOT between two H is with them.
pub(crate) fn conjugated(gate: &Gate) -> Gate
    ensures { result ≡ conjugated gate.now }
{
    match *gate {
        Gate::Phase(q, _) => Gate::Not(q),
        Gate::Not(q) => Gate::Phase(q, Sixteenth::half_turn()),
        other => other,
    }
}

// Whether an earlier gate stops a gate on its way to the front: they are a pair, or don't commute.
pub(crate) fn stops(gate: &Gate, earlier: &Gate) -> bool
    ensures { result ≡ stops gate.now earlier.now }
{
    cancels_or_merges(earlier, gate) || !commutes(earlier, gate)
}

fn is_cz_on(q: Qubit, r: Qubit, gate: &Gate) -> bool
    ensures { result ≡ cancels_or_merges (Gate.Cz q r) gate.now }
{
    match *gate {
        Gate::Cz(s, t) => q == s && r == t || q == t && r == s,
        _ => false,
    }
}

fn is_cx_on(control: Qubit, target: Qubit, gate: &Gate) -> bool
    ensures { result ≡ cancels_or_merges (Gate.Cx control target) gate.now }
{
    match *gate {
        Gate::Cx {
            control: other_control,
            target: other_target,
        } => control == other_control && target == other_target,
        _ => false,
    }
}

fn with_phase_added(phase: Sixteenth, gate: &Gate) -> Option<Gate>
    ensures { option_to_list result ≡ merged (Gate.Phase 0 phase) gate.now }
{
    match *gate {
        Gate::Phase(q, other) => {
            let sum = phase.add(other);
            if sum.get() == 0 {
                None
            } else {
                Some(Gate::Phase(q, sum))
            }
        }
        _ => None,
    }
}

fn is_turned(qubit: Qubit, gate: &Gate) -> bool
    ensures { result ≡ is_turned qubit gate.now }
{
    match *gate {
        Gate::Phase(q, phase) => q == qubit && phase == Sixteenth::half_turn(),
        Gate::Not(q) => q == qubit,
        _ => false,
    }
}
