//! Worked cleanups, by hand from the tables of commuting gates, pairs and triples.
use super::circuits::{add, add_all, circuit, cx, phase};
use std::alloc::Global;
use std::process::Abort;
use std::test::Fail;
use zx_gates::{Gate, GateList};
use zx_peephole::tidy;

// Whether the gates, on three qubits, are the expected ones after the cleanup.
fn becomes(
    rt: &impl Abort,
    alloc: Global,
    gates: &[Gate],
    expected: &[Gate],
) -> Result<bool, Fail> {
    let mut list = circuit(rt, alloc, 3, gates)?;
    tidy(&mut list);
    Ok(list.gates() == expected)
}

// Asserts that of each row: the gates, and what they become.
fn all_become(rt: &impl Abort, alloc: Global, rows: &[(&[Gate], &[Gate])]) -> Result<(), Fail> {
    for (i, (gates, expected)) in rows.iter().enumerate() {
        assert!(rt; becomes(rt, alloc, gates, expected)?, "row {i}");
    }
    Ok(())
}

#[test]
fn pairs_side_by_side(rt: HostRuntime) -> Result<(), Fail> {
    all_become(
        &rt,
        rt.alloc(),
        &[
            (&[Gate::H(0), Gate::H(0)], &[]),
            (&[Gate::Not(1), Gate::Not(1)], &[]),
            (&[phase(0, 2), phase(0, 2)], &[phase(0, 4)]),
            (&[phase(0, 6), phase(0, 10)], &[]),
            (&[phase(0, 1), phase(0, 1)], &[phase(0, 2)]),
            (&[phase(0, 5), phase(0, 11)], &[]),
            (&[cx(0, 1), cx(0, 1)], &[]),
            (&[cx(0, 1), cx(1, 0)], &[cx(0, 1), cx(1, 0)]),
            (&[Gate::Cz(0, 1), Gate::Cz(1, 0)], &[]),
            (
                &[phase(0, 2), Gate::H(0), Gate::H(0), phase(0, 2)],
                &[phase(0, 4)],
            ),
            (&[Gate::Not(0)], &[Gate::Not(0)]),
        ],
    )
}

#[test]
fn pairs_apart(rt: HostRuntime) -> Result<(), Fail> {
    all_become(
        &rt,
        rt.alloc(),
        &[
            (
                &[phase(0, 2), cx(0, 1), phase(0, 2)],
                &[cx(0, 1), phase(0, 4)],
            ),
            (&[Gate::Not(1), cx(0, 1), Gate::Not(1)], &[cx(0, 1)]),
            (
                &[cx(0, 1), cx(0, 2), Gate::Cz(0, 1), cx(0, 2), cx(0, 1)],
                &[cx(0, 1), Gate::Cz(0, 1), cx(0, 1)],
            ),
            (
                &[cx(0, 2), cx(1, 2), Gate::Not(2), phase(0, 14), cx(0, 2)],
                &[cx(1, 2), Gate::Not(2), phase(0, 14)],
            ),
            (
                &[Gate::H(0), phase(1, 2), cx(1, 2), Gate::H(0)],
                &[phase(1, 2), cx(1, 2)],
            ),
            (
                &[Gate::Cz(0, 2), phase(2, 6), cx(0, 1), Gate::Cz(2, 0)],
                &[phase(2, 6), cx(0, 1)],
            ),
        ],
    )
}

// Phases that Hadamards part, and NOTs that a control parts.
#[test]
fn pairs_that_stay(rt: HostRuntime) -> Result<(), Fail> {
    let stuck = [
        phase(0, 4),
        Gate::H(0),
        phase(0, 4),
        Gate::H(0),
        phase(0, 4),
    ];
    let crossed = [Gate::Not(0), cx(0, 1), Gate::Not(0)];
    all_become(&rt, rt.alloc(), &[(&stuck, &stuck), (&crossed, &crossed)])
}

#[test]
fn triples(rt: HostRuntime) -> Result<(), Fail> {
    let apart = [Gate::H(0), cx(0, 1), phase(0, 8), Gate::H(0)];
    all_become(
        &rt,
        rt.alloc(),
        &[
            (&[Gate::H(0), phase(0, 8), Gate::H(0)], &[Gate::Not(0)]),
            (&[Gate::H(0), Gate::Not(0), Gate::H(0)], &[phase(0, 8)]),
            (
                &[Gate::H(1), cx(0, 2), phase(1, 8), Gate::H(0), Gate::H(1)],
                &[cx(0, 2), Gate::H(0), Gate::Not(1)],
            ),
            (
                &[
                    Gate::H(0),
                    phase(0, 4),
                    phase(0, 4),
                    Gate::H(0),
                    Gate::Not(0),
                ],
                &[],
            ),
            (
                &[Gate::H(0), phase(0, 2), phase(0, 6), Gate::H(0), cx(0, 1)],
                &[Gate::Not(0), cx(0, 1)],
            ),
            (&apart, &apart),
        ],
    )
}

// Adds 1,000 gates that leave nothing to merge, and then the gates that undo them, from the last to the first.
fn add_undone(rt: &impl Abort, list: &mut GateList) -> Result<(), Fail> {
    let done = [Gate::H(0), phase(0, 2)];
    let undone = [phase(0, 14), Gate::H(0)];
    for pair in [&done, &undone] {
        for _ in 0..500 {
            add_all(rt, list, pair)?;
        }
    }
    add(rt, list, cx(0, 1))
}

#[test]
fn two_thousand_gates_undo_one_another(rt: HostRuntime) -> Result<(), Fail> {
    let mut list = GateList::new(rt.alloc(), 3);
    add_undone(&rt, &mut list)?;
    tidy(&mut list);
    assert!(rt; list.gates() == [cx(0, 1)].as_slice());
    Ok(())
}
