//! Circuits on two qubits, whose vertices are named in the order of their ids: a and b stand for the qubits, and each H
//! adds one.

use super::trips::{reduced_trip, round_trip};
use graph_rewrites::Step;
use open_graph::VertexId;
use std::alloc::Global;
use std::process::Abort;
use std::test::Fail;
use zx_gates::Gate;
use zx_model::Sixteenth;

fn id(number: usize) -> VertexId {
    VertexId::new(number)
}

fn pivot(u: usize, v: usize) -> Step {
    Step::Pivot(id(u), id(v))
}

fn delete(v: usize) -> Step {
    Step::Delete(id(v))
}

fn phase(turns: Sixteenth) -> Gate {
    Gate::Phase(0, turns)
}

fn t() -> Gate {
    phase(Sixteenth::new(2))
}

// Wire a c d e, with a phase at c and an edge bd. The pivot of c and d, and the deletion of d, leave a gadget c on the
// outputs b and e; b is an input too.
#[test]
fn a_gadget_on_outputs(rt: HostRuntime) -> Result<(), Fail> {
    let gates = [Gate::H(0), t(), Gate::H(0), Gate::Cz(0, 1), Gate::H(0)];
    let steps = [pivot(2, 3), delete(3)];
    round_trip(&rt, rt.alloc(), &gates, &steps)
}

// Wire a c d e f g, with phases at c and e and an edge bd. Gadgets c and e are left, both on the output g.
fn two_gadgets(
    rt: &impl Abort,
    alloc: Global,
    at_c: Sixteenth,
    at_e: Sixteenth,
) -> Result<(), Fail> {
    let gates = [
        Gate::H(0),
        phase(at_c),
        Gate::H(0),
        Gate::Cz(0, 1),
        Gate::H(0),
        phase(at_e),
        Gate::H(0),
        Gate::H(0),
    ];
    let steps = [pivot(2, 3), delete(3), pivot(4, 5), delete(5)];
    round_trip(rt, alloc, &gates, &steps)
}

#[test]
fn gadgets_that_share_an_output(rt: HostRuntime) -> Result<(), Fail> {
    two_gadgets(&rt, rt.alloc(), Sixteenth::new(2), Sixteenth::new(2))
}

// Wire a c d, with a phase at c and an edge bd. The output's end is split from d before the pivot, so it carries a
// Hadamard.
fn boundary_pivot(rt: &impl Abort, alloc: Global, at_c: Sixteenth) -> Result<(), Fail> {
    let gates = [Gate::H(0), phase(at_c), Gate::H(0), Gate::Cz(0, 1)];
    let steps = [Step::SplitOutput(id(3)), pivot(2, 3), delete(3)];
    round_trip(rt, alloc, &gates, &steps)
}

#[test]
fn a_pivot_at_the_boundary(rt: HostRuntime) -> Result<(), Fail> {
    boundary_pivot(&rt, rt.alloc(), Sixteenth::new(2))
}

// Wires a c e g and b d f h, with edges cd, ef and gh. A vertex at each end is left, and the wires cross.
#[test]
fn wires_that_cross(rt: HostRuntime) -> Result<(), Fail> {
    let layer = [Gate::H(0), Gate::H(1), Gate::Cz(0, 1)];
    let mut gates = Vec::new(rt.alloc());
    for _ in 0..3 {
        gates.extend_from_slice(&layer)?;
    }
    let steps = [
        pivot(2, 3),
        delete(2),
        delete(3),
        Step::SplitOutput(id(6)),
        pivot(4, 6),
        delete(4),
        delete(6),
        Step::SplitOutput(id(7)),
        pivot(5, 7),
        delete(5),
        delete(7),
    ];
    round_trip(&rt, rt.alloc(), &gates, &steps)
}

// One, three and five sixteenth turns, of which T gates make none.
fn one() -> Sixteenth {
    Sixteenth::new(1)
}

fn three() -> Sixteenth {
    Sixteenth::new(3)
}

fn five() -> Sixteenth {
    Sixteenth::new(5)
}

#[test]
fn gadgets_of_sixteenth_turns(rt: HostRuntime) -> Result<(), Fail> {
    two_gadgets(&rt, rt.alloc(), one(), three())
}

#[test]
fn a_sixteenth_turn_at_the_boundary(rt: HostRuntime) -> Result<(), Fail> {
    boundary_pivot(&rt, rt.alloc(), five())
}

// Two phases, each on the sum of both bits.
fn two_on_the_sum(first: Sixteenth, second: Sixteenth) -> [Gate; 14] {
    [
        Gate::H(0),
        Gate::Cz(0, 1),
        Gate::H(0),
        phase(first),
        Gate::H(0),
        Gate::Cz(0, 1),
        Gate::H(0),
        Gate::H(0),
        Gate::Cz(0, 1),
        Gate::H(0),
        phase(second),
        Gate::H(0),
        Gate::Cz(0, 1),
        Gate::H(0),
    ]
}

// One and three sixteenth turns are a quarter turn together, which isn't odd; one and one are an
// eighth, which is.
#[test]
fn odd_phases_are_fused(rt: HostRuntime) -> Result<(), Fail> {
    let even_sum = reduced_trip(&rt, rt.alloc(), &two_on_the_sum(one(), three()))?;
    assert_eq!(rt; even_sum, 0);
    let odd_sum = reduced_trip(&rt, rt.alloc(), &two_on_the_sum(one(), one()))?;
    assert_eq!(rt; odd_sum, 1);
    Ok(())
}

#[test]
fn odd_phases_keep_their_map(rt: HostRuntime) -> Result<(), Fail> {
    let gates = [
        phase(one()),
        Gate::H(0),
        phase(three()),
        Gate::Cz(0, 1),
        Gate::H(1),
        Gate::Phase(1, three()),
        Gate::Cz(0, 1),
        Gate::H(0),
        phase(five()),
        Gate::H(1),
        Gate::Phase(1, one()),
        Gate::H(0),
    ];
    reduced_trip(&rt, rt.alloc(), &gates)?;
    Ok(())
}
