//! Lists with one phase on each parity of a few qubits.
//!
//! A T on each parity of four qubits, or on each of an affine flat of dimension four, is the identity: see de Beaudrap,
//! Bian and Wang, "Fast and effective techniques for T-count reduction via spider nest identities" (arXiv 2004.05164).

use std::alloc::{AllocError, Global};
use std::process::Abort;
use zx_gates::{Gate, GateList, Qubit};
use zx_identities::is_identity;
use zx_model::Sixteenth;

// Adds a gate, if it is on the list's qubits.
pub(crate) fn add(list: &mut GateList, gate: Gate) -> Result<(), AllocError> {
    if gate.is_on_qubits(list.qubits()) {
        list.push(gate)?;
    }
    Ok(())
}

// The qubit at a place behind the first.
fn place(first: Qubit, q: u16) -> Qubit {
    first % 1000 + q % 8
}

// Adds the other qubits of a mask to one of them, or takes them away again.
fn gather(list: &mut GateList, first: Qubit, mask: u16, target: Qubit) -> Result<(), AllocError> {
    for q in 0..8u16 {
        if q != target && (mask >> q) & 1 == 1 {
            add(
                list,
                Gate::Cx {
                    control: place(first, q),
                    target: place(first, target),
                },
            )?;
        }
    }
    Ok(())
}

// Puts so many sixteenth turns on the parity of a mask of the qubits from the first on.
fn add_parity(list: &mut GateList, first: Qubit, mask: u16, turns: u8) -> Result<(), AllocError> {
    for target in 0..8u16 {
        if (mask >> target) & 1 == 1 {
            gather(list, first, mask, target)?;
            add(
                list,
                Gate::Phase(place(first, target), Sixteenth::new(turns % 16)),
            )?;
            return gather(list, first, mask, target);
        }
    }
    Ok(())
}

// Puts so many sixteenth turns on each parity from one mask to another.
pub(crate) fn add_all(
    list: &mut GateList,
    first: Qubit,
    masks: (u16, u16),
    turns: u8,
) -> Result<(), AllocError> {
    for mask in masks.0..masks.1 {
        add_parity(list, first, mask, turns)?;
    }
    Ok(())
}

// So many sixteenth turns on each parity from one mask to another.
pub(crate) fn all_parities(
    alloc: Global,
    qubits: Qubit,
    masks: (u16, u16),
    turns: u8,
) -> Result<GateList, AllocError> {
    let mut list = GateList::new(alloc, qubits % 1025);
    add_all(&mut list, 0, masks, turns)?;
    Ok(list)
}

// Whether that is the identity.
fn is_nothing(
    alloc: Global,
    qubits: Qubit,
    masks: (u16, u16),
    turns: u8,
) -> Result<bool, AllocError> {
    let list = all_parities(alloc, qubits, masks, turns)?;
    is_identity(alloc, &list)
}

// Qubits, from which parity on and before which one, of which turn; and whether that is the identity.
const SETS: [(Qubit, (u16, u16), u8, bool); 12] = [
    // Fifteen eighths of four qubits.
    (4, (1, 16), 2, true),
    (4, (1, 16), 14, true),
    (4, (1, 15), 2, false),
    (4, (1, 16), 1, false),
    (3, (1, 8), 2, false),
    // Sixteen eighths of an affine flat.
    (5, (16, 32), 2, true),
    (5, (16, 32), 1, false),
    (4, (8, 16), 2, false),
    (4, (8, 16), 4, true),
    // Thirty-one sixteenths of five qubits.
    (5, (1, 32), 1, true),
    (4, (1, 16), 1, false),
    (5, (1, 31), 1, false),
];

#[test]
fn phases_of_all_parities_of_a_set(rt: HostRuntime) -> Result<(), AllocError> {
    for (row, (qubits, masks, turns, nothing)) in SETS.iter().enumerate() {
        let found = is_nothing(rt.alloc(), *qubits, *masks, *turns)?;
        assert!(rt; found == *nothing, "row {row}");
    }
    Ok(())
}

// Whether the fifteen are the identity with other gates behind them.
fn is_nothing_with(alloc: Global, gates: &[Gate]) -> Result<bool, AllocError> {
    let mut list = all_parities(alloc, 4, (1, 16), 2)?;
    for gate in gates {
        add(&mut list, *gate)?;
    }
    is_identity(alloc, &list)
}

#[test]
fn one_gate_more_is_seen(rt: HostRuntime) -> Result<(), AllocError> {
    let alloc = rt.alloc();
    assert!(rt; is_nothing_with(alloc, &[])?);
    assert!(rt; !is_nothing_with(alloc, &[Gate::Cz(0, 1)])?);
    assert!(rt; is_nothing_with(alloc, &[Gate::Cz(0, 1), Gate::Cz(1, 0)])?);
    assert!(rt; !is_nothing_with(alloc, &[Gate::Not(3)])?);
    assert!(rt; is_nothing_with(alloc, &[Gate::Not(3), Gate::Not(3)])?);
    let cx = Gate::Cx {
        control: 2,
        target: 0,
    };
    assert!(rt; !is_nothing_with(alloc, &[cx])?);
    assert!(rt; is_nothing_with(alloc, &[cx, cx])?);
    assert!(rt; !is_nothing_with(alloc, &[Gate::H(0), Gate::H(0)])?);
    Ok(())
}

#[test]
fn a_phase_behind_a_not(rt: HostRuntime) -> Result<(), AllocError> {
    let alloc = rt.alloc();
    let t = Gate::Phase(0, Sixteenth::new(2));
    let back = Gate::Phase(0, Sixteenth::new(14));
    assert!(rt; is_nothing_with(alloc, &[t, back])?);
    assert!(rt; !is_nothing_with(alloc, &[t, Gate::Not(0), back, Gate::Not(0)])?);
    assert!(rt; !is_nothing_with(alloc, &[t, Gate::Not(0), t, Gate::Not(0)])?);
    Ok(())
}

// Three hundred phases on twenty-four qubits.
fn many_phases(alloc: Global, last: u8) -> Result<bool, AllocError> {
    let mut list = all_parities(alloc, 24, (1, 16), 2)?;
    for first in 1..20u16 {
        add_all(&mut list, first, (1, 16), 14)?;
    }
    add(&mut list, Gate::Phase(23, Sixteenth::new(last % 16)))?;
    add(&mut list, Gate::Phase(23, Sixteenth::new(14)))?;
    is_identity(alloc, &list)
}

#[test]
fn many_qubits(rt: HostRuntime) -> Result<(), AllocError> {
    let alloc = rt.alloc();
    assert!(rt; many_phases(alloc, 2)?);
    assert!(rt; !many_phases(alloc, 4)?);
    assert!(rt; is_nothing(alloc, 127, (1, 16), 2)?);
    assert!(rt; !is_nothing(alloc, 128, (1, 16), 2)?);
    Ok(())
}
