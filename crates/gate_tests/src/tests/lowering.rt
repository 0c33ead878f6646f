//! That calls succeed with ample memory, and worked lowerings and counts.

ghost use Rattle.std.specs.Prelude.{◌≤◌, ◌<◌, ℕ, length};
ghost use Rattle.std.specs.List.{All};
ghost use Rattle.zx_gates.specs.Elementary.{IsElementaryGateOn, elementary_bound};

use super::circuits::{circuit, cx, phase};
use std::alloc::Global;
use std::test::Fail;
use zx_gates::{
    Counts, Elementary, ElementaryGate, Elements, Gate, GateList, Measure, Measures, Qubit,
    ScaledCircuit, counts, lower,
};
use zx_model::Sixteenth;

#[test]
fn gates_are_added_in_order(rt: HostRuntime) -> Result<(), Fail> {
    let gates = [Gate::H(0), phase(1, 6), cx(1, 0)];
    let list = circuit(&rt, rt.alloc(), 2, &gates)?;
    assert!(rt; list.gates() == gates.as_slice());
    Ok(())
}

#[test]
fn a_circuit_is_taken_apart_and_put_together(rt: HostRuntime) -> Result<(), Fail> {
    let gates = [Gate::H(0), Gate::Cz(0, 1)];
    let mut list = circuit(&rt, rt.alloc(), 2, &gates)?;
    let parts = list.take();
    assert!(rt; parts.links.len() == 2);
    let whole = GateList::from_parts(parts);
    assert!(rt; whole.qubits() == 2);
    assert!(rt; whole.gates() == gates.as_slice());
    Ok(())
}

// Adds the measurements, one after the other.
fn add_measures(measures: &mut Measures, added: &[Measure]) -> Result<(), Fail> {
    for measure in added {
        measures.push(*measure)?;
    }
    Ok(())
}

#[test]
fn measurements_are_added_in_order(rt: HostRuntime) -> Result<(), Fail> {
    let added = [Measure { qubit: 1, bit: 0 }, Measure { qubit: 0, bit: 7 }];
    let mut measures = Measures::new(rt.alloc());
    add_measures(&mut measures, &added)?;
    assert!(rt; measures.as_slice() == added.as_slice());
    Ok(())
}

// What lowering makes of these gates on so many qubits, without measurements.
pub fn lowered(alloc: Global, qubits: Qubit, gates: Elements) -> Result<ScaledCircuit, Fail>
    requires few_qubits { qubits ≤ 1024 }
    requires few_gates { length gates < elementary_bound }
    requires on_qubits { All (IsElementaryGateOn qubits) gates }
{
    let circuit = Elementary {
        qubits,
        gates,
        bits: 0,
        measured: Measures::new(alloc),
    };
    Ok(lower(alloc, &circuit)?)
}

// U on the first qubit, of so many sixteenth turns.
pub fn unitary(angles: [u8; 3]) -> ElementaryGate
    ensures { (qubits : ℕ) → 0 < qubits → IsElementaryGateOn qubits result }
{
    let [theta, phi, lambda] = angles;
    ElementaryGate::U {
        qubit: 0,
        theta: Sixteenth::new(theta % 16),
        phi: Sixteenth::new(phi % 16),
        lambda: Sixteenth::new(lambda % 16),
    }
}

// What lowering makes of U on one qubit.
fn lowered_unitary(alloc: Global, angles: [u8; 3]) -> Result<ScaledCircuit, Fail> {
    let mut gates = Elements::new(alloc);
    gates.push(unitary(angles))?;
    lowered(alloc, 1, gates)
}

// A gate on the first qubit as a byte: the digit of its phase, from 0 to f, `h` or `x`.
fn letter(gate: &Gate) -> u8 {
    match *gate {
        Gate::H(0) => b'h',
        Gate::Phase(0, phase) => digit(phase),
        Gate::Not(0) => b'x',
        _ => b'?',
    }
}

fn digit(phase: Sixteenth) -> u8 {
    let turns = phase.get();
    if turns < 10 {
        b'0' + turns
    } else {
        b'a' + (turns - 10)
    }
}

// Whether U becomes these gates, a byte for each.
fn becomes(alloc: Global, angles: [u8; 3], letters: &[u8]) -> Result<bool, Fail> {
    let made = lowered_unitary(alloc, angles)?;
    Ok(are_spelled(made.gates.gates(), letters))
}

fn are_spelled(gates: &[Gate], letters: &[u8]) -> bool {
    gates.len() == letters.len()
        && gates
            .iter()
            .zip(letters)
            .all(|(gate, byte)| letter(gate) == *byte)
}

// The angles of U, and the gates that it becomes.
const UNITARIES: [([u8; 3], &[u8]); 19] = [
    ([0, 0, 0], b""),
    ([0, 2, 4], b"6"),
    ([0, 6, 10], b""),
    ([0, 1, 0], b"1"),
    ([4, 0, 8], b"h"),
    ([4, 6, 2], b"ah6"),
    ([4, 1, 3], b"bh1"),
    ([8, 0, 8], b"x"),
    ([8, 2, 4], b"ax"),
    ([8, 10, 4], b"2x"),
    ([8, 1, 2], b"9x"),
    ([12, 2, 4], b"4ha"),
    ([12, 3, 5], b"5hb"),
    ([2, 0, 0], b"ch2h4"),
    ([6, 12, 4], b"h6h"),
    ([14, 14, 2], b"eheh2"),
    ([1, 0, 0], b"ch1h4"),
    ([3, 5, 7], b"3h3h9"),
    ([15, 15, 15], b"bhfh3"),
];

#[test]
fn unitaries_become_phases_and_hadamards(rt: HostRuntime) -> Result<(), Fail> {
    for (i, (angles, letters)) in UNITARIES.iter().enumerate() {
        assert!(rt; becomes(rt.alloc(), *angles, letters)?, "row {i}");
    }
    Ok(())
}

#[test]
fn cx_stays(rt: HostRuntime) -> Result<(), Fail> {
    let mut gates = Elements::new(rt.alloc());
    gates.push(ElementaryGate::Cx {
        control: 1,
        target: 0,
    })?;
    let made = lowered(rt.alloc(), 2, gates)?;
    assert!(rt; made.gates.gates() == [cx(1, 0)].as_slice());
    Ok(())
}

#[test]
fn gates_are_counted_by_kind(rt: HostRuntime) -> Result<(), Fail> {
    let gates = [
        Gate::H(0),
        phase(1, 2),
        phase(1, 4),
        phase(0, 14),
        phase(0, 1),
        Gate::Cz(0, 1),
        cx(0, 1),
        cx(1, 0),
        Gate::Not(0),
    ];
    let list = circuit(&rt, rt.alloc(), 2, &gates)?;
    let wanted = Counts {
        total: 9,
        odd: 3,
        two_qubit: 3,
        h: 1,
        phase: 4,
        cz: 1,
        cx: 2,
        nots: 1,
    };
    assert!(rt; counts(&list) == wanted);
    Ok(())
}
