//! That writing succeeds with ample memory, and the text of every kind of gate and of measurements.
use super::circuits::{add, are_joined, circuit, cx, phase};
use qasm_writer::write_text;
use std::alloc::Global;
use std::process::Abort;
use std::test::Fail;
use zx_gates::{Gate, GateList, Measure};

// Whether the text of a circuit without measurements is these lines.
fn is_written(alloc: Global, list: &GateList, lines: &[&[u8]]) -> Result<bool, Fail> {
    Ok(are_joined(&write_text(alloc, list, 0, &[])?, lines))
}

// Adds all phase gates on a qubit.
fn add_phases(rt: &impl Abort, list: &mut GateList, q: u16) -> Result<(), Fail> {
    for turns in 1..16 {
        add(rt, list, phase(q, turns))?;
    }
    Ok(())
}

// The text of a circuit with each kind of gate and each phase.
const EVERY_GATE: [&[u8]; 22] = [
    b"OPENQASM 2.0;\n",
    b"include \"qelib1.inc\";\n",
    b"qreg q[12];\n",
    b"h q[0];\n",
    b"x q[11];\n",
    b"cz q[3],q[10];\n",
    b"cx q[10],q[2];\n",
    b"u1(pi/8) q[1];\n",
    b"t q[1];\n",
    b"u1(3*pi/8) q[1];\n",
    b"s q[1];\n",
    b"u1(5*pi/8) q[1];\n",
    b"u1(3*pi/4) q[1];\n",
    b"u1(7*pi/8) q[1];\n",
    b"z q[1];\n",
    b"u1(9*pi/8) q[1];\n",
    b"u1(5*pi/4) q[1];\n",
    b"u1(11*pi/8) q[1];\n",
    b"sdg q[1];\n",
    b"u1(13*pi/8) q[1];\n",
    b"tdg q[1];\n",
    b"u1(15*pi/8) q[1];\n",
];

#[test]
fn every_gate_has_its_line(rt: HostRuntime) -> Result<(), Fail> {
    let others = [Gate::H(0), Gate::Not(11), Gate::Cz(3, 10), cx(10, 2)];
    let mut list = circuit(&rt, rt.alloc(), 12, &others)?;
    add_phases(&rt, &mut list, 1)?;
    assert!(rt; is_written(rt.alloc(), &list, &EVERY_GATE)?);
    Ok(())
}

#[test]
fn a_circuit_without_qubits_has_no_register(rt: HostRuntime) -> Result<(), Fail> {
    let lines: [&[u8]; 2] = [b"OPENQASM 2.0;\n", b"include \"qelib1.inc\";\n"];
    let list = GateList::new(rt.alloc(), 0);
    assert!(rt; is_written(rt.alloc(), &list, &lines)?);
    Ok(())
}

// A text of one gate and two measurements.
const MEASURED: [&[u8]; 7] = [
    b"OPENQASM 2.0;\n",
    b"include \"qelib1.inc\";\n",
    b"qreg q[2];\n",
    b"creg c[65536];\n",
    b"h q[0];\n",
    b"measure q[1] -> c[0];\n",
    b"measure q[0] -> c[65535];\n",
];

#[test]
fn measurements_stand_behind_the_gates(rt: HostRuntime) -> Result<(), Fail> {
    let measured = [
        Measure { qubit: 1, bit: 0 },
        Measure {
            qubit: 0,
            bit: 65535,
        },
    ];
    let list = circuit(&rt, rt.alloc(), 2, &[Gate::H(0)])?;
    assert!(rt; list.qubits() == 2);
    let text = write_text(rt.alloc(), &list, 65_536, &measured)?;
    assert!(rt; are_joined(&text, &MEASURED));
    Ok(())
}
