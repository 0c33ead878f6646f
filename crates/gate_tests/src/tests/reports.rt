//! That reports are made with ample memory, and worked lines.
use super::circuits::{are_joined, circuit, cx, phase};
use std::alloc::Global;
use std::process::Abort;
use std::test::Fail;
use zx_gates::{Counts, Gate, counts};
use zx_report::report;

// No gate at all.
const NONE: Counts = Counts {
    total: 0,
    odd: 0,
    two_qubit: 0,
    h: 0,
    phase: 0,
    cz: 0,
    cx: 0,
    nots: 0,
};

// Whether the report of the numbers of gates read and written is these pieces, one after the other.
fn is_reported(
    alloc: Global,
    read: &Counts,
    written: &Counts,
    pieces: &[&[u8]],
) -> Result<bool, Fail> {
    Ok(are_joined(&report(alloc, read, written)?, pieces))
}

#[test]
fn numbers_stand_beside_their_kinds(rt: HostRuntime) -> Result<(), Fail> {
    let read = Counts {
        total: 1,
        odd: 2,
        two_qubit: 3,
        h: 4,
        phase: 5,
        cz: 6,
        cx: 7,
        nots: 8,
    };
    let written = Counts {
        total: 18446744073709551615,
        odd: 90,
        two_qubit: 100,
        ..NONE
    };
    let lines: [&[u8]; 4] = [
        b"// read gates 1 odd 2 two-qubit 3 h 4 phase 5 cz 6 cx 7 not 8\n",
        b"// written gates 18446744073709551615 odd 90 two-qubit 100",
        b" h 0 phase 0 cz 0 cx 0 not 0",
        b"\n",
    ];
    assert!(rt; is_reported(rt.alloc(), &read, &written, &lines)?);
    Ok(())
}

// The numbers of these gates, on two qubits.
fn counted(rt: &impl Abort, alloc: Global, gates: &[Gate]) -> Result<Counts, Fail> {
    let list = circuit(rt, alloc, 2, gates)?;
    Ok(counts(&list))
}

// Of these gates, read and written, the report has these lines.
fn lines_are(
    rt: &impl Abort,
    alloc: Global,
    read: &[Gate],
    written: &[Gate],
    lines: [&[u8]; 2],
) -> Result<(), Fail> {
    let read = counted(rt, alloc, read)?;
    let written = counted(rt, alloc, written)?;
    assert!(rt; is_reported(alloc, &read, &written, &lines)?);
    Ok(())
}

#[test]
fn circuits_without_gates_have_zeros(rt: HostRuntime) -> Result<(), Fail> {
    let lines: [&[u8]; 2] = [
        b"// read gates 0 odd 0 two-qubit 0 h 0 phase 0 cz 0 cx 0 not 0\n",
        b"// written gates 0 odd 0 two-qubit 0 h 0 phase 0 cz 0 cx 0 not 0\n",
    ];
    lines_are(&rt, rt.alloc(), &[], &[], lines)
}

// Two T, which are one S.
#[test]
fn two_t_become_one_s(rt: HostRuntime) -> Result<(), Fail> {
    let lines: [&[u8]; 2] = [
        b"// read gates 2 odd 2 two-qubit 0 h 0 phase 2 cz 0 cx 0 not 0\n",
        b"// written gates 1 odd 0 two-qubit 0 h 0 phase 1 cz 0 cx 0 not 0\n",
    ];
    let two = [phase(0, 2), phase(0, 2)];
    lines_are(&rt, rt.alloc(), &two, &[phase(0, 4)], lines)
}

// Each kind of gate, in numbers that differ.
#[test]
fn kinds_of_gates_are_told_apart(rt: HostRuntime) -> Result<(), Fail> {
    let gates = [
        Gate::Not(0),
        Gate::Cz(0, 1),
        cx(0, 1),
        cx(1, 0),
        Gate::H(1),
        phase(1, 14),
        phase(1, 8),
    ];
    let lines: [&[u8]; 2] = [
        b"// read gates 7 odd 1 two-qubit 3 h 1 phase 2 cz 1 cx 2 not 1\n",
        b"// written gates 0 odd 0 two-qubit 0 h 0 phase 0 cz 0 cx 0 not 0\n",
    ];
    lines_are(&rt, rt.alloc(), &gates, &[], lines)
}
