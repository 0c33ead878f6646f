//! Teleported phases: circuits whose phases meet or don't, worked by hand, and drawn ones.

ghost use Rattle.std.specs.Prelude.{◌<◌};

use super::sums::{are_proportional, map};
use super::trips::{add, circuit};
use open_graph::OpenGraph;
use std::alloc::Global;
use std::process::Abort;
use std::test::Fail;
use zx_gates::{Gate, GateList, counts};
use zx_model::Sixteenth;
use zx_teleport::teleport;

fn t(q: u16) -> Gate {
    phase(q, Sixteenth::eighth_turn())
}

fn phase(q: u16, turns: Sixteenth) -> Gate {
    Gate::Phase(q, turns)
}

fn cx(control: u16, target: u16) -> Gate {
    Gate::Cx { control, target }
}

fn teleports(rt: &impl Abort, alloc: Global, read: &[Gate], wanted: &[Gate]) -> Result<(), Fail> {
    let found = teleport(alloc, &circuit(rt, alloc, read)?)?;
    assert!(rt; found.gates.gates() == wanted);
    Ok(())
}

#[test]
fn phases_side_by_side(rt: HostRuntime) -> Result<(), Fail> {
    let wanted = [phase(0, Sixteenth::quarter_turn())];
    teleports(&rt, rt.alloc(), &[t(0), t(0)], &wanted)
}

#[test]
fn phases_on_both_sides_of_two_hadamards(rt: HostRuntime) -> Result<(), Fail> {
    let read = [t(0), Gate::H(0), Gate::H(0), t(0)];
    let wanted = [phase(0, Sixteenth::quarter_turn()), Gate::H(0), Gate::H(0)];
    teleports(&rt, rt.alloc(), &read, &wanted)
}

#[test]
fn no_phases(rt: HostRuntime) -> Result<(), Fail> {
    let read = [Gate::H(0), Gate::H(0)];
    teleports(&rt, rt.alloc(), &read, &read)
}

// X T X is T turned backwards, so it cancels with a T on the other side.
#[test]
fn phases_that_cancel(rt: HostRuntime) -> Result<(), Fail> {
    let read = [t(0), Gate::Not(0), t(0), Gate::Not(0)];
    let wanted = [Gate::Not(0), Gate::Not(0)];
    teleports(&rt, rt.alloc(), &read, &wanted)
}

// The parity of two qubits twice, between which they are exchanged.
#[test]
fn phases_of_one_parity(rt: HostRuntime) -> Result<(), Fail> {
    let read = [
        cx(0, 1),
        t(1),
        cx(0, 1),
        Gate::Cz(0, 1),
        cx(1, 0),
        t(0),
        cx(1, 0),
    ];
    let wanted = [
        cx(0, 1),
        phase(1, Sixteenth::quarter_turn()),
        cx(0, 1),
        Gate::Cz(0, 1),
        cx(1, 0),
        cx(1, 0),
    ];
    teleports(&rt, rt.alloc(), &read, &wanted)
}

// Between the phases a Hadamard stands alone.
#[test]
fn phases_that_stay(rt: HostRuntime) -> Result<(), Fail> {
    let read = [t(0), Gate::H(0), t(0)];
    teleports(&rt, rt.alloc(), &read, &read)
}

// A number below a limit, from a linear congruence modulo 2^31.
pub fn draw(seed: &mut u64, limit: u64) -> u64
    requires { 0 < limit }
    ensures { result < limit }
{
    *seed = seed.wrapping_mul(1_103_515_245).wrapping_add(12_345) % 2_147_483_648;
    (*seed / 65_536) % limit
}

pub fn drawn_gate(seed: &mut u64) -> Gate {
    let p = draw(seed, 2) as u16;
    let q = 1 - p;
    match draw(seed, 8) {
        0 => Gate::H(p),
        1 => Gate::H(q),
        2 => Gate::Cz(p, q),
        3 => cx(p, q),
        4 => Gate::Not(p),
        5 => phase(p, Sixteenth::quarter_turn()),
        6 => phase(p, Sixteenth::new(1 + draw(seed, 15) as u8)),
        _ => t(p),
    }
}

// Of drawn circuits of so many gates: each keeps its map, has at most as many odd phases as its
// reduced graph and as it was read with, and some have fewer.
#[test]
fn drawn_circuits(rt: HostRuntime) -> Result<(), Fail> {
    let mut seed = 1;
    let mut fewer = 0u64;
    for length in 1..41 {
        let read = drawn(&rt, rt.alloc(), &mut seed, length)?;
        if has_fewer_odd(&rt, rt.alloc(), &read)? {
            fewer = fewer.saturating_add(1);
        }
    }
    assert!(rt; fewer > 20);
    Ok(())
}

// So many drawn gates on two qubits.
pub fn drawn(
    rt: &impl Abort,
    alloc: Global,
    seed: &mut u64,
    gates: usize,
) -> Result<GateList, Fail> {
    let mut list = GateList::new(alloc, 2);
    for _ in 0..gates {
        add(rt, &mut list, drawn_gate(seed))?;
    }
    Ok(list)
}

// Whether a circuit has fewer odd phases afterwards. It keeps its map, and has at most as many as its reduced graph
// and as it was read with.
fn has_fewer_odd(rt: &impl Abort, alloc: Global, read: &GateList) -> Result<bool, Fail> {
    let found = teleport(alloc, read)?;
    let left = counts(&found.gates).odd;
    let is_kept = are_proportional(&map(&found.gates), &map(read));
    let is_reduced = left <= odd_phases(&found.reduced);
    drop(found);
    assert!(rt; is_kept);
    assert!(rt; is_reduced);
    assert!(rt; left <= counts(read).odd);
    Ok(left < counts(read).odd)
}

fn odd_phases(graph: &OpenGraph) -> u64 {
    let mut odd = 0u64;
    for v in graph.vertices() {
        if graph.is_live(v) && graph.weight(v).1.is_odd() {
            odd = odd.saturating_add(1);
        }
    }
    odd
}
