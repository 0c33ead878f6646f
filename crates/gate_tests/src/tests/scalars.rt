//! Scalars of lowering, of cleanup and of texts, by hand: the root of two and z = exp(i*pi/8) to which powers.
use super::circuits::{circuit, cx, phase};
use super::lowering::{lowered, unitary};
use qasm_writer::text_scalar;
use std::alloc::Global;
use std::process::Abort;
use std::test::Fail;
use zx_gates::{ElementaryGate, Elements, Gate, GateList};
use zx_model::{Scalar, Sixteenth};
use zx_peephole::tidy;
use zx_report::scalar_line;

// A power of the root of two, times one of z.
fn scalar(root2: i64, turns: u8) -> Scalar {
    Scalar {
        root2,
        turn: Sixteenth::new(turns % 16),
    }
}

// The scalar of U on one qubit, followed by CX.
fn lowering_scalar(alloc: Global, angles: [u8; 3]) -> Result<Scalar, Fail> {
    let mut gates = Elements::new(alloc);
    gates.push(unitary(angles))?;
    gates.push(ElementaryGate::Cx {
        control: 0,
        target: 1,
    })?;
    Ok(lowered(alloc, 2, gates)?.scalar)
}

// The angles of U, and the scalar of its lowering.
const LOWERINGS: [([u8; 3], i64, u8); 7] = [
    ([0, 2, 5], 2, 0),
    ([4, 0, 8], 1, 2),
    ([8, 0, 8], 2, 4),
    ([8, 13, 1], 2, 1),
    ([12, 3, 7], 1, 14),
    ([2, 1, 1], 0, 0),
    ([15, 4, 9], 0, 0),
];

#[test]
fn lowering_tells_scalars(rt: HostRuntime) -> Result<(), Fail> {
    for (angles, root2, turns) in &LOWERINGS {
        let told = lowering_scalar(rt.alloc(), *angles)?;
        assert_eq!(rt; told, scalar(*root2, *turns));
    }
    Ok(())
}

// The cleanup of a list has this scalar, and leaves these gates.
fn leaves(rt: &impl Abort, list: &mut GateList, removed: Scalar, left: &[Gate]) {
    assert_eq!(rt; tidy(list), removed);
    assert_eq!(rt; list.gates(), left);
}

#[test]
fn cleanup_counts_pairs_of_hadamards(rt: HostRuntime) -> Result<(), Fail> {
    let gates = [
        Gate::H(0),
        Gate::H(1),
        Gate::H(1),
        Gate::H(0),
        Gate::H(2),
        phase(2, 8),
        Gate::H(2),
    ];
    let mut list = circuit(&rt, rt.alloc(), 3, &gates)?;
    leaves(&rt, &mut list, scalar(6, 0), &[Gate::Not(2)]);
    leaves(&rt, &mut list, scalar(0, 0), &[Gate::Not(2)]);
    Ok(())
}

#[test]
fn phases_and_nots_that_go_have_no_scalar(rt: HostRuntime) -> Result<(), Fail> {
    let gates = [
        Gate::H(0),
        phase(0, 8),
        phase(0, 8),
        Gate::Not(0),
        Gate::Not(0),
    ];
    let mut list = circuit(&rt, rt.alloc(), 1, &gates)?;
    leaves(&rt, &mut list, scalar(0, 0), &[Gate::H(0)]);
    Ok(())
}

// The scalar of the text of so many of these gates, on two qubits.
fn scalar_of_text(
    rt: &impl Abort,
    alloc: Global,
    gates: &[Gate],
    count: usize,
) -> Result<Scalar, Fail> {
    assert!(rt; count <= gates.len());
    let list = circuit(rt, alloc, 2, &gates[..count])?;
    Ok(text_scalar(&list))
}

#[test]
fn lines_of_texts_have_scalars(rt: HostRuntime) -> Result<(), Fail> {
    let gates = [
        Gate::H(0),
        phase(1, 2),
        Gate::Cz(0, 1),
        cx(1, 0),
        Gate::Not(1),
    ];
    // The scalar without a gate, with the first, and so on.
    let rows = [(0, 0), (1, 2), (3, 2), (7, 6), (7, 6), (9, 10)];
    for (count, (root2, turns)) in rows.iter().enumerate() {
        let told = scalar_of_text(&rt, rt.alloc(), &gates, count)?;
        assert_eq!(rt; told, scalar(*root2, *turns), "{count} gates");
    }
    Ok(())
}

// Whether the line of a scalar is this one.
fn is_line(alloc: Global, told: Scalar, line: &[u8]) -> Result<bool, Fail> {
    Ok(scalar_line(alloc, &told)?.as_slice() == line)
}

// Scalars, by their exponents of the root of two and of z, and their lines.
const LINES: [(i64, u8, &[u8]); 3] = [
    (0, 0, b"// scalar root2 0 turn 0\n"),
    (-12, 15, b"// scalar root2 -12 turn 15\n"),
    (
        4611686018427387904,
        7,
        b"// scalar root2 4611686018427387904 turn 7\n",
    ),
];

#[test]
fn lines_of_scalars(rt: HostRuntime) -> Result<(), Fail> {
    for (root2, turns, line) in &LINES {
        assert!(rt;
            is_line(rt.alloc(), scalar(*root2, *turns), line)?,
            "root2 {root2}"
        );
    }
    Ok(())
}

// 2^62 is the greatest exponent of a product, and that of a scalar times one.
#[test]
fn the_greatest_exponent_is_taken(rt: HostRuntime) -> Result<(), Fail> {
    let greatest = Scalar {
        root2: 4_611_686_018_427_387_904,
        turn: Sixteenth::new(3),
    };
    let product = greatest.times(Scalar::one());
    assert!(rt; product.root2 == 4_611_686_018_427_387_904);
    assert!(rt; product.turn.get() == 3);
    Ok(())
}
