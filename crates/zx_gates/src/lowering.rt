//! Circuits of elementary gates, by the gates that the optimiser works on.

ghost use Rattle.std.specs.Prelude.{◌≡◌, ◌<◌, ◌*◌, ◌++◌, ◌∷◌, length, IfOk, OnOk};
ghost use Rattle.zx_gates.specs.Circuit.{gate_odd_phases};
ghost use Rattle.zx_gates.specs.Passes.{Implements};
ghost use Rattle.zx_gates.specs.Elementary.{IsElementary, IsElementaryGateOn, elementary_odd_phases};
ghost use Rattle.zx_gates.specs.ElementaryMaps.{amp_elementary};
ghost use Rattle.zx_gates.specs.Lowering.{lowered, lowered_gate, phase_gates};
ghost use Rattle.zx_gates.specs.Internal.Lowering.{lowering_scalar, unitary_scalar};
ghost use Rattle.zx_gates.specs.declared.elementary.ElementaryGate.TheVariants.{U};

use crate::elementary::{Elementary, ElementaryGate};
use crate::gate::{Gate, Qubit};
use crate::gate_list::GateList;
use crate::scaled_circuit::ScaledCircuit;
use std::alloc::{AllocError, Global};
use zx_model::{Scalar, Sixteenth};

/// The circuit by the optimiser's own gates, and the scalar that its map is times theirs.
pub fn lower(alloc: Global, e: &Elementary) -> Result<ScaledCircuit, AllocError>
    requires { IsElementary e.now }
    ensures list { IfOk result (λ made. made.gates.gates ≡ lowered e.now.gates) }
    ensures kept { IfOk result (λ made. Implements e.now.qubits (amp_elementary e.now.gates)
        (elementary_odd_phases e.now.gates) (2 * length e.now.gates) made.gates made.scalar) }
    ensures odd { IfOk result (λ made.
        gate_odd_phases made.gates.gates ≡ elementary_odd_phases e.now.gates) }
{
    let mut list = GateList::new(alloc, e.qubits);
    let mut scalar = Scalar::one();
    for gate in e.gates.as_slice() {
        push_lowered(&mut list, gate)?;
        scalar = scalar.times(lowering_scalar(gate));
    }
    Ok(ScaledCircuit {
        gates: list,
        scalar,
    })
}

// The scalar that a gate is times the gates that stand for it.
fn lowering_scalar(gate: &ElementaryGate) -> Scalar
    ensures { result ≡ lowering_scalar gate.now }
{
    match *gate {
        ElementaryGate::U { theta, phi, .. } => unitary_scalar(theta, phi),
        ElementaryGate::Cx { .. } => Scalar::one(),
    }
}

// The scalar that U of these two angles is times the gates that stand for it.
fn unitary_scalar(theta: Sixteenth, phi: Sixteenth) -> Scalar
    ensures { result ≡ unitary_scalar theta phi }
{
    match theta.get() {
        0 => Scalar {
            root2: 2,
            turn: Sixteenth::new(0),
        },
        4 => Scalar {
            root2: 1,
            turn: Sixteenth::new(2),
        },
        8 => Scalar {
            root2: 2,
            turn: phi.add(Sixteenth::new(4)),
        },
        12 => Scalar {
            root2: 1,
            turn: Sixteenth::new(14),
        },
        _ => Scalar::one(),
    }
}

// Adds the gates that stand for one.
fn push_lowered(list: &mut GateList, gate: &ElementaryGate) -> Result<(), AllocError>
    requires { IsElementaryGateOn list.old.qubits gate.now }
    ensures qubits { OnOk result (list.new.qubits ≡ list.old.qubits) }
    ensures gates { OnOk result (list.new.gates ≡ list.old.gates ++ lowered_gate gate.now) }
{
    match *gate {
        ElementaryGate::U {
            qubit,
            theta,
            phi,
            lambda,
        } => push_unitary(list, qubit, theta, phi, lambda),
        ElementaryGate::Cx { control, target } => list.push(Gate::Cx { control, target }),
    }
}

// Adds the gates that stand for `U(theta, phi, lambda)`.
fn push_unitary(
    list: &mut GateList,
    q: Qubit,
    theta: Sixteenth,
    phi: Sixteenth,
    lambda: Sixteenth,
) -> Result<(), AllocError>
    requires { q < list.old.qubits }
    ensures qubits { OnOk result (list.new.qubits ≡ list.old.qubits) }
    ensures gates { OnOk result (list.new.gates ≡
        list.old.gates ++ lowered_gate (U q theta phi lambda)) }
{
    let quarter = Sixteenth::quarter_turn();
    let half = Sixteenth::half_turn();
    if theta.get() == 0 {
        push_phase(list, q, phi.add(lambda))
    } else if theta == quarter {
        push_turn(list, q, lambda.add(half), phi)
    } else if theta == half {
        push_phase(list, q, lambda.add(phi.add(half).neg()))?;
        list.push(Gate::Not(q))
    } else if theta == half.add(quarter) {
        push_turn(list, q, lambda, phi.add(half))
    } else {
        push_turn(list, q, lambda.add(quarter.neg()), theta)?;
        list.push(Gate::H(q))?;
        push_phase(list, q, phi.add(quarter))
    }
}

// Adds the phase gate of `before`, H, and the phase gate of `after`.
fn push_turn(
    list: &mut GateList,
    q: Qubit,
    before: Sixteenth,
    after: Sixteenth,
) -> Result<(), AllocError>
    requires { q < list.old.qubits }
    ensures qubits { OnOk result (list.new.qubits ≡ list.old.qubits) }
    ensures gates { OnOk result (list.new.gates ≡
        list.old.gates ++ phase_gates q before ++ Gate.H q ∷ phase_gates q after) }
{
    push_phase(list, q, before)?;
    list.push(Gate::H(q))?;
    push_phase(list, q, after)
}

// Adds the phase gate of a phase, or none where it is 0.
fn push_phase(list: &mut GateList, q: Qubit, phase: Sixteenth) -> Result<(), AllocError>
    requires { q < list.old.qubits }
    ensures qubits { OnOk result (list.new.qubits ≡ list.old.qubits) }
    ensures gates { OnOk result (list.new.gates ≡ list.old.gates ++ phase_gates q phase) }
{
    if phase.get() == 0 {
        return Ok(());
    }
    list.push(Gate::Phase(q, phase))
}
