//! Which gates may pass each other.

ghost use Rattle.std.specs.Prelude.{◌≡◌};
ghost use Rattle.zx_peephole.specs.Commuting.{is_on, are_apart, is_diagonal, shares_control, negate_freely, passes, commutes};

use zx_gates::{Gate, Qubit};

// Whether the gate is on the qubit.
pub(crate) fn is_on(qubit: Qubit, gate: &Gate) -> bool
    ensures { result ≡ is_on qubit gate.now }
{
    match *gate {
        Gate::H(q) | Gate::Phase(q, _) | Gate::Not(q) => q == qubit,
        Gate::Cz(q, r) => q == qubit || r == qubit,
        Gate::Cx { control, target } => control == qubit || target == qubit,
    }
}

// Whether two gates commute by the table.
pub(crate) fn commutes(gate: &Gate, other: &Gate) -> bool
    ensures { result ≡ commutes gate.now other.now }
{
    passes(gate, other) || passes(other, gate)
}

// Whether two gates share no qubit.
fn are_apart(gate: &Gate, other: &Gate) -> bool
    ensures { result ≡ are_apart gate.now other.now }
{
    match *gate {
        Gate::H(q) | Gate::Phase(q, _) | Gate::Not(q) => !is_on(q, other),
        Gate::Cz(q, r) => !is_on(q, other) && !is_on(r, other),
        Gate::Cx { control, target } => !is_on(control, other) && !is_on(target, other),
    }
}

// Whether the gate is a phase gate or Cz.
pub(crate) fn is_diagonal(gate: &Gate) -> bool
    ensures { result ≡ is_diagonal gate.now }
{
    matches!(*gate, Gate::Phase(..) | Gate::Cz(..))
}

// Whether the other is a Cx of whose qubits the gate is on the control alone.
fn shares_control(gate: &Gate, other: &Gate) -> bool
    ensures { result ≡ shares_control gate.now other.now }
{
    match *other {
        Gate::Cx { control, target } => is_on(control, gate) && !is_on(target, gate),
        _ => false,
    }
}

// Whether two gates are Cx or NOT and neither negates what decides on the other.
fn negate_freely(gate: &Gate, other: &Gate) -> bool
    ensures { result ≡ negate_freely gate.now other.now }
{
    match *gate {
        Gate::Cx { control, target } => cx_negates_freely(control, target, other),
        Gate::Not(q) => not_negates_freely(q, other),
        _ => false,
    }
}

fn cx_negates_freely(control: Qubit, target: Qubit, other: &Gate) -> bool
    ensures { result ≡ negate_freely (Gate.Cx control target) other.now }
{
    match *other {
        Gate::Cx {
            control: other_control,
            target: other_target,
        } => target != other_control && other_target != control,
        _ => false,
    }
}

fn not_negates_freely(q: Qubit, other: &Gate) -> bool
    ensures { result ≡ negate_freely (Gate.Not q) other.now }
{
    match *other {
        Gate::Cx { control, target } => q == target && q != control,
        Gate::Not(_) => true,
        _ => false,
    }
}

// The table of commuting gates, the first gate standing for the first that it speaks of.
fn passes(gate: &Gate, other: &Gate) -> bool
    ensures { result ≡ passes gate.now other.now }
{
    are_apart(gate, other)
        || is_diagonal(gate) && (is_diagonal(other) || shares_control(gate, other))
        || negate_freely(gate, other)
}
