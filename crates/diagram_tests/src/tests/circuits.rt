//! Circuits of diagrams on one qubit, worked out by hand.

use super::drawings::{Drawing, drawn};
use open_graph::VertexId;
use std::alloc::{AllocError, Global};
use std::process::Abort;
use zx_diagram::Colour;
use zx_gates::Gate;
use zx_model::Sixteenth;
use zx_simplify::{Compiled, compile};

// Whether it is a circuit of these gates.
fn has_gates(found: &Compiled, gates: &[Gate]) -> bool {
    match found {
        Compiled::Circuit(circuit) => circuit.gates() == gates,
        Compiled::NoFlow { left: _ } => false,
    }
}

// Whether one vertex is left, this one.
fn leaves(found: &Compiled, v: usize) -> bool {
    match found {
        Compiled::Circuit(_) => false,
        Compiled::NoFlow { left } => left.len() == 1 && left[0] == VertexId::new(v),
    }
}

// What spiders and edges come to, where the first spider has the input and the second the output.
fn compiled(
    rt: &impl Abort,
    alloc: Global,
    spiders: &[(Colour, Sixteenth)],
    edges: &[(usize, usize, bool)],
) -> Result<Compiled, AllocError> {
    let drawing = Drawing {
        spiders,
        edges,
        inputs: &[(0, false)],
        outputs: &[(1, false)],
    };
    let d = drawn(rt, alloc, drawing)?;
    assert!(rt; d.inputs().len() == 1 && d.outputs().len() == 1);
    compile(alloc, d)
}

#[test]
fn a_spider_of_an_eighth_turn_is_a_t_gate(rt: HostRuntime) -> Result<(), AllocError> {
    let spiders = [
        (Colour::Z, Sixteenth::eighth_turn()),
        (Colour::X, Sixteenth::new(0)),
    ];
    let found = compiled(&rt, rt.alloc(), &spiders, &[(0, 1, false)])?;
    assert!(rt; has_gates(&found, &[Gate::Phase(0, Sixteenth::new(2))]));
    Ok(())
}

// The Hadamard edge is half a turn more.
#[test]
fn two_spiders_fuse_and_a_loop_is_half_a_turn(rt: HostRuntime) -> Result<(), AllocError> {
    let spiders = [
        (Colour::Z, Sixteenth::new(2)),
        (Colour::Z, Sixteenth::new(4)),
    ];
    let edges = [(0, 1, false), (0, 1, true)];
    let found = compiled(&rt, rt.alloc(), &spiders, &edges)?;
    assert!(rt; has_gates(&found, &[Gate::Phase(0, Sixteenth::new(14))]));
    Ok(())
}

// Whether a wire is cut between a Z spider and another one, and the first is left.
fn is_cut(
    rt: &impl Abort,
    alloc: Global,
    second: Colour,
    edges: &[(usize, usize, bool)],
) -> Result<bool, AllocError> {
    let spiders = [
        (Colour::Z, Sixteenth::eighth_turn()),
        (second, Sixteenth::new(0)),
    ];
    let found = compiled(rt, alloc, &spiders, edges)?;
    Ok(leaves(&found, 0))
}

// Spiders that no edge joins, and an X spider that two edges join to a Z spider: a wire that is cut.
#[test]
fn a_cut_wire_has_no_flow(rt: HostRuntime) -> Result<(), AllocError> {
    assert!(rt; is_cut(&rt, rt.alloc(), Colour::Z, &[])?);
    assert!(rt; is_cut(&rt, rt.alloc(), Colour::X, &[(0, 1, false), (0, 1, false)])?);
    Ok(())
}
