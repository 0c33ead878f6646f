//! Gates put into circuits.

use super::parities::add;
use std::alloc::{AllocError, Global};
use std::process::Abort;
use zx_gates::{Gate, GateList, Qubit, ScaledCircuit};
use zx_identities::{Insertion, put_all_in, put_in};
use zx_model::{Scalar, Sixteenth};

// A circuit of these gates.
fn list_of(alloc: Global, qubits: Qubit, gates: &[Gate]) -> Result<GateList, AllocError> {
    let mut list = GateList::new(alloc, qubits % 1025);
    for gate in gates {
        add(&mut list, *gate)?;
    }
    Ok(list)
}

fn phase(q: Qubit, turns: u8) -> Gate {
    Gate::Phase(q, Sixteenth::new(turns % 16))
}

// A Cz between two H, on four qubits.
fn circuit(alloc: Global) -> Result<GateList, AllocError> {
    list_of(alloc, 4, &[Gate::H(1), Gate::Cz(0, 1), Gate::H(1)])
}

// A T and so many sixteenth turns, between H, S and what undoes them, behind so many gates.
fn insertion(
    alloc: Global,
    qubits: Qubit,
    place: usize,
    back: u8,
) -> Result<Insertion, AllocError> {
    let frame = list_of(alloc, 4, &[Gate::H(2), phase(2, 4)])?;
    let inner = list_of(alloc, qubits, &[phase(2, 2), phase(2, back)])?;
    Ok(Insertion {
        place,
        frame,
        inner,
    })
}

// Whether that is put in.
fn is_put_in(alloc: Global, qubits: Qubit, place: usize, back: u8) -> Result<bool, AllocError> {
    let insertion = insertion(alloc, qubits, place, back)?;
    let found = put_in(alloc, &circuit(alloc)?, &insertion)?;
    Ok(found.is_some())
}

#[test]
fn what_is_not_right_is_not_put_in(rt: HostRuntime) -> Result<(), AllocError> {
    let alloc = rt.alloc();
    assert!(rt; is_put_in(alloc, 4, 0, 14)?);
    assert!(rt; is_put_in(alloc, 4, 3, 14)?);
    assert!(rt; !is_put_in(alloc, 4, 4, 14)?);
    assert!(rt; !is_put_in(alloc, 4, 0, 12)?);
    assert!(rt; !is_put_in(alloc, 5, 0, 14)?);
    Ok(())
}

// The circuit with two insertions, of which the second isn't right.
fn made(alloc: Global) -> Result<ScaledCircuit, AllocError> {
    let mut insertions = Vec::new(alloc);
    insertions.push(insertion(alloc, 4, 1, 14)?)?;
    insertions.push(insertion(alloc, 4, 0, 12)?)?;
    put_all_in(alloc, &circuit(alloc)?, &insertions)
}

// Whether the gates of the first stand behind the first gate, with two roots of two in the scalar.
fn is_as_expected(made: &ScaledCircuit) -> bool {
    let gates = [
        Gate::H(1),
        Gate::H(2),
        phase(2, 4),
        phase(2, 2),
        phase(2, 14),
        phase(2, 12),
        Gate::H(2),
        Gate::Cz(0, 1),
        Gate::H(1),
    ];
    let scalar = Scalar {
        root2: -2,
        turn: Sixteenth::new(0),
    };
    made.gates.gates() == gates.as_slice() && made.scalar == scalar
}

#[test]
fn the_frame_is_undone(rt: HostRuntime) -> Result<(), AllocError> {
    let made = made(rt.alloc())?;
    assert!(rt; is_as_expected(&made));
    Ok(())
}
