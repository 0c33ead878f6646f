//! Translations, whose graphs are written down by hand: new vertices have the ids 0, 1, 2 and so on.

ghost use Rattle.std.specs.Prelude.{◌≡◌, ◌≤◌, ◌==◌};
ghost use Rattle.std.specs.List.{list_any};
ghost use Rattle.zx_model.specs.Bits.{member};

use circuit_graph::{Translation, translate};
use open_graph::{End, OpenGraph, VertexId};
use std::alloc::{AllocError, Global};
use zx_flow::Flow;
use zx_gates::{Gate, GateList};
use zx_model::{Scalar, Sixteenth};

// The circuit of those of the gates that are on the qubits.
fn circuit(alloc: Global, qubits: u16, gates: &[Gate]) -> Result<GateList, AllocError>
    requires { qubits ≤ 1024 }
{
    let mut list = GateList::new(alloc, qubits);
    for gate in gates {
        add(&mut list, *gate)?;
    }
    Ok(list)
}

fn add(list: &mut GateList, gate: Gate) -> Result<(), AllocError> {
    if gate.is_on_qubits(list.qubits()) {
        list.push(gate)?;
    }
    Ok(())
}

fn cx(control: u16, target: u16) -> Gate {
    Gate::Cx { control, target }
}

fn t(q: u16) -> Gate {
    Gate::Phase(q, Sixteenth::new(2))
}

fn tdg(q: u16) -> Gate {
    Gate::Phase(q, Sixteenth::new(14))
}

// A letter for a vertex.
fn name(v: VertexId) -> u8 {
    match v.get() {
        0 => b'a',
        1 => b'b',
        2 => b'c',
        3 => b'd',
        4 => b'e',
        _ => b'?',
    }
}

// A phase as one hexadecimal digit.
fn digit(phase: Sixteenth) -> u8 {
    let digits = b"0123456789ABCDEF";
    digits[usize::from(phase.get())]
}

// Adds the phases of the vertices, by rising id.
fn add_phases(text: &mut Vec<u8>, graph: &OpenGraph) -> Result<(), AllocError> {
    for v in graph.vertices() {
        if graph.is_live(v) {
            let (_plane, phase) = graph.weight(v);
            text.push(digit(phase))?;
        }
    }
    Ok(())
}

// Adds the edges, each with its lower end first.
fn add_edges(text: &mut Vec<u8>, graph: &OpenGraph) -> Result<(), AllocError> {
    for v in graph.vertices() {
        if graph.is_live(v) {
            for w in graph.neighbours(v) {
                if v.get() < w.get() {
                    text.push(b' ')?;
                    text.push(name(v))?;
                    text.push(name(w))?;
                }
            }
        }
    }
    Ok(())
}

// Adds the ends after a sign.
fn add_ends(text: &mut Vec<u8>, sign: u8, ends: &[End]) -> Result<(), AllocError> {
    text.push(sign)?;
    for end in ends {
        text.push(name(end.vertex))?;
    }
    Ok(())
}

fn any_equals(order: &[VertexId], v: VertexId) -> bool
    ensures { result ≡ list_any (λ u. v == u) order.now }
{
    order.iter().any(|u| v == *u)
}

fn stands_in(order: &[VertexId], v: VertexId) -> bool
    ensures { result ≡ member v order.now }
{
    any_equals(order, v)
}

// Adds the corrections by their order: each vertex, and the members of its set.
fn add_corrections(text: &mut Vec<u8>, flow: &Flow) -> Result<(), AllocError> {
    text.push(b'<')?;
    for v in flow.order() {
        if stands_in(flow.order(), *v) {
            text.push(b' ')?;
            text.push(name(*v))?;
            for w in flow.correction(*v) {
                text.push(name(w))?;
            }
        }
    }
    Ok(())
}

// What is made of the circuit of those of the gates that are on the qubits.
fn translated(alloc: Global, qubits: u16, gates: &[Gate]) -> Result<Translation, AllocError>
    requires { qubits ≤ 1024 }
{
    let list = circuit(alloc, qubits, gates)?;
    Ok(translate(alloc, &list)?)
}

// Phases, edges, inputs, outputs and the corrections of the flow.
fn drawn(alloc: Global, qubits: u16, gates: &[Gate]) -> Result<Vec<u8>, AllocError>
    requires { qubits ≤ 1024 }
{
    let made = translated(alloc, qubits, gates)?;
    let mut text = Vec::new(alloc);
    add_graph(&mut text, &made.graph)?;
    add_corrections(&mut text, &made.flow)?;
    Ok(text)
}

// Adds phases, edges, inputs and outputs.
fn add_graph(text: &mut Vec<u8>, graph: &OpenGraph) -> Result<(), AllocError> {
    add_phases(text, graph)?;
    add_edges(text, graph)?;
    add_ends(text, b':', graph.inputs())?;
    add_ends(text, b'>', graph.outputs())
}

#[test]
fn a_bell_pair(rt: HostRuntime) -> Result<(), AllocError> {
    let text = drawn(rt.alloc(), 2, &[Gate::H(0), cx(0, 1)])?;
    assert_eq!(rt;
        text.as_slice(),
        b"00000 ac bd cd de:ab>ce< ac bd de".as_slice()
    );
    Ok(())
}

// The edge of Cz vanishes, and phases add up.
#[test]
fn cz_twice(rt: HostRuntime) -> Result<(), AllocError> {
    let gates = [
        Gate::Cz(0, 1),
        tdg(0),
        Gate::Phase(0, Sixteenth::new(6)),
        Gate::Cz(1, 0),
    ];
    let text = drawn(rt.alloc(), 2, &gates)?;
    assert_eq!(rt; text.as_slice(), b"40:ab>ab<".as_slice());
    Ok(())
}

#[test]
fn hadamards_on_one_wire(rt: HostRuntime) -> Result<(), AllocError> {
    let text = drawn(rt.alloc(), 1, &[t(0), Gate::H(0), Gate::H(0), t(0)])?;
    assert_eq!(rt; text.as_slice(), b"202 ab bc:a>c< ab bc".as_slice());
    Ok(())
}

// How often the map of a circuit on two qubits is the sum.
fn scalar(alloc: Global, gates: &[Gate]) -> Result<Scalar, AllocError> {
    let made = translated(alloc, 2, gates)?;
    Ok(made.scalar)
}

// A circuit's map is half the sum for each Cx and Not, and for no other gate.
#[test]
fn scalars_of_translations(rt: HostRuntime) -> Result<(), AllocError> {
    let gates = [
        Gate::H(0),
        cx(0, 1),
        Gate::Not(1),
        Gate::Cz(0, 1),
        t(0),
        cx(1, 0),
    ];
    for (count, root2) in [(1, 0), (2, -2), (3, -4), (5, -4), (6, -6)] {
        let scalar = scalar(rt.alloc(), &gates[..count])?;
        assert_eq!(rt; scalar.root2, root2);
        assert_eq!(rt; scalar.turn, Sixteenth::new(0));
    }
    Ok(())
}

// The phases of the graph of a circuit on three qubits.
fn phases(alloc: Global, gates: &[Gate]) -> Result<Vec<u8>, AllocError> {
    let made = translated(alloc, 3, gates)?;
    let mut text = Vec::new(alloc);
    add_phases(&mut text, &made.graph)?;
    Ok(text)
}

// 3 spiders for the qubits, 2 for H and 12 for Cx, and seven odd phases.
#[test]
fn a_toffoli_gate(rt: HostRuntime) -> Result<(), AllocError> {
    let (a, b, c) = (0, 1, 2);
    let gates = [
        Gate::H(c),
        cx(b, c),
        tdg(c),
        cx(a, c),
        t(c),
        cx(b, c),
        tdg(c),
        cx(a, c),
        t(b),
        t(c),
        Gate::H(c),
        cx(a, b),
        t(a),
        tdg(b),
        cx(a, b),
    ];
    assert_eq!(rt;
        phases(rt.alloc(), &gates)?.as_slice(),
        b"22000E020E0200E00".as_slice()
    );
    Ok(())
}
