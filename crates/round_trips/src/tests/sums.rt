//! The sums of graphs and the maps of circuits, both on two qubits and modulo 65537, worked out here
//! anew. A matrix has its entries by the bits of the inputs and then by those of the outputs; the
//! first qubit has the lowest bit.

use super::modular::{plus, root_power, sign, times};
use open_graph::{End, OpenGraph, Plane, VertexId};
use std::alloc::Global;
use std::process::Abort;
use std::test::Fail;
use zx_gates::{Gate, GateList};
use zx_model::Sixteenth;

pub type Matrix = [[u64; 4]; 4];

// Whether the first matrix is the second one, which isn't 0, times a number other than 0.
pub fn are_proportional(first: &Matrix, second: &Matrix) -> bool {
    for x in 0..4 {
        if second[0][x] != 0 {
            return first[0][x] != 0 && are_in_ratio(first, second, first[0][x], second[0][x]);
        }
    }
    false
}

fn are_in_ratio(first: &Matrix, second: &Matrix, one: u64, other: u64) -> bool {
    for x in 0..4 {
        for y in 0..4 {
            if times(first[x][y], other) != times(second[x][y], one) {
                return false;
            }
        }
    }
    true
}

// ---- graphs

// The sum of a graph with at most ten vertices, none of them in the XZ plane.
pub fn sum(rt: &impl Abort, alloc: Global, graph: &OpenGraph) -> Result<Matrix, Fail> {
    let mut ids = Vec::new(alloc);
    for v in graph.vertices() {
        ids.push(v)?;
    }
    assert!(rt; ids.len() <= 10);
    let labels = 1u32 << ids.len();
    let mut matrix = [[0u64; 4]; 4];
    for x in 0..4u32 {
        for y in 0..4u32 {
            let mut entry = 0;
            for label in 0..labels {
                entry = plus(entry, term(graph, &ids, label, x, y));
            }
            matrix[x as usize][y as usize] = entry;
        }
    }
    Ok(matrix)
}

// What the sum has for one choice of labels.
fn term(graph: &OpenGraph, ids: &[VertexId], labels: u32, x: u32, y: u32) -> u64 {
    let mut product = 1;
    for v in ids {
        product = times(product, vertex_factor(graph, ids, labels, *v));
    }
    product = times(product, ends_factor(graph.inputs(), ids, labels, x));
    times(product, ends_factor(graph.outputs(), ids, labels, y))
}

// The factors of a vertex, and of its edges to vertices of higher ids.
fn vertex_factor(graph: &OpenGraph, ids: &[VertexId], labels: u32, v: VertexId) -> u64 {
    if !graph.is_live(v) {
        return 0;
    }
    let label = label_of(ids, labels, v);
    let (plane, phase) = graph.weight(v);
    let mut product = weight_factor(plane, phase, label);
    for w in graph.neighbours(v) {
        if v.get() < w.get() {
            product = times(product, sign(label && label_of(ids, labels, w)));
        }
    }
    product
}

fn weight_factor(plane: Plane, phase: Sixteenth, label: bool) -> u64 {
    match plane {
        Plane::XY if label => root_power(phase),
        Plane::XY => 1,
        _ => plus(1, times(sign(label), root_power(phase))),
    }
}

fn ends_factor(ends: &[End], ids: &[VertexId], labels: u32, bits: u32) -> u64 {
    let mut product = 1;
    let mut rest = bits;
    for end in ends {
        let bit = rest % 2 == 1;
        let label = label_of(ids, labels, end.vertex);
        rest /= 2;
        if end.hadamard {
            product = times(product, sign(label && bit));
        } else if label != bit {
            return 0;
        }
    }
    product
}

// The label of a vertex, where the first vertex has the lowest bit.
fn label_of(ids: &[VertexId], labels: u32, v: VertexId) -> bool {
    let mut rest = labels;
    for id in ids {
        if *id == v {
            return rest % 2 == 1;
        }
        rest /= 2;
    }
    false
}

// ---- circuits

// The map of a circuit on two qubits, where H has no factor 1/sqrt 2. It is not 0, since no gate's is singular.
pub fn map(circuit: &GateList) -> Matrix {
    let mut matrix = [[0u64; 4]; 4];
    for x in 0..4 {
        let mut state = [0u64; 4];
        state[x] = 1;
        for gate in circuit.gates() {
            state = after(gate, &state);
        }
        matrix[x] = state;
    }
    matrix
}

fn after(gate: &Gate, state: &[u64; 4]) -> [u64; 4] {
    let mut next = [0u64; 4];
    for z in 0..4u32 {
        let amplitude = state[z as usize];
        match *gate {
            Gate::H(q) => {
                add(&mut next, with_bit(z, q, false), amplitude);
                add(
                    &mut next,
                    with_bit(z, q, true),
                    times(sign(bit(z, q)), amplitude),
                );
            }
            Gate::Phase(q, k) => {
                let factor = if bit(z, q) { root_power(k) } else { 1 };
                add(&mut next, z, times(factor, amplitude));
            }
            Gate::Cz(p, q) => add(&mut next, z, times(sign(bit(z, p) && bit(z, q)), amplitude)),
            Gate::Cx { control, target } => {
                let negated = bit(z, control) != bit(z, target);
                add(&mut next, with_bit(z, target, negated), amplitude);
            }
            Gate::Not(q) => add(&mut next, with_bit(z, q, !bit(z, q)), amplitude),
        }
    }
    next
}

fn add(state: &mut [u64; 4], z: u32, amplitude: u64) {
    let place = z as usize % 4;
    state[place] = plus(state[place], amplitude);
}

fn bit(z: u32, q: u16) -> bool {
    q < 2 && (z >> q) % 2 == 1
}

fn with_bit(z: u32, q: u16, value: bool) -> u32 {
    if q >= 2 || bit(z, q) == value {
        z
    } else {
        z ^ (1 << q)
    }
}
