//! Circuits of given gates, and bytes in pieces.

use std::alloc::Global;
use std::process::Abort;
use std::test::Fail;
use zx_gates::{Gate, GateList, Qubit};
use zx_model::Sixteenth;

// The phase gate of that many sixteenth turns.
pub fn phase(q: Qubit, turns: u8) -> Gate {
    Gate::Phase(q, Sixteenth::new(turns % 16))
}

pub fn cx(control: Qubit, target: Qubit) -> Gate {
    Gate::Cx { control, target }
}

// The circuit of these gates on so many qubits.
pub fn circuit(
    rt: &impl Abort,
    alloc: Global,
    qubits: Qubit,
    gates: &[Gate],
) -> Result<GateList, Fail> {
    assert!(rt; qubits <= 1024);
    let mut list = GateList::new(alloc, qubits);
    add_all(rt, &mut list, gates)?;
    Ok(list)
}

pub fn add_all(rt: &impl Abort, list: &mut GateList, gates: &[Gate]) -> Result<(), Fail> {
    for gate in gates {
        add(rt, list, *gate)?;
    }
    Ok(())
}

// Adds a gate, which has to be on the list's qubits.
pub fn add(rt: &impl Abort, list: &mut GateList, gate: Gate) -> Result<(), Fail> {
    assert!(rt; gate.is_on_qubits(list.qubits()));
    list.push(gate)?;
    Ok(())
}

// Whether the bytes are these pieces, one after the other.
pub fn are_joined(bytes: &[u8], pieces: &[&[u8]]) -> bool {
    let mut rest = bytes;
    for piece in pieces {
        match rest.strip_prefix(piece) {
            Some(behind) => rest = behind,
            None => return false,
        }
    }
    rest.is_empty()
}
