//! Circuits on the qubits alone that they use, and back on those of a larger circuit.

ghost use Rattle.std.specs.Prelude.{◌≡◌, ◌≤◌, ◌<◌, length, IfOk, IfSome};
ghost use Rattle.zx_gates.specs.Circuit.{IsOnQubits, most_qubits};
ghost use Rattle.piece_laws.specs.Places.{ArePlaces, place, placed_gate, placed};

use std::alloc::{AllocError, Global};
use zx_gates::{Gate, GateList, Qubit};

// The most qubits of a circuit.
const MOST_QUBITS: usize = 1_024;

/// The circuit on so many qubits as there are places, which is the given one where it is put on those. None
/// where a gate is on another qubit.
pub(crate) fn narrowed(
    alloc: Global,
    circuit: &GateList,
    places: &[Qubit],
) -> Result<Option<GateList>, AllocError>
    ensures qubits { IfOk result (λ found. IfSome found (λ small. small.qubits ≡ length places.now)) }
    ensures gates { IfOk result (λ found. IfSome found (λ small.
        placed places.now small.gates ≡ circuit.now.gates)) }
{
    if places.len() > MOST_QUBITS {
        return Ok(None);
    }
    let mut small = GateList::new(alloc, places.len() as Qubit);
    for gate in circuit.gates() {
        match narrowed_gate(gate, places) {
            Some(gate) => small.push(gate)?,
            None => return Ok(None),
        }
    }
    Ok(Some(small))
}

/// The circuit on those qubits of a larger one.
pub(crate) fn widened(
    alloc: Global,
    qubits: Qubit,
    small: &GateList,
    places: &[Qubit],
) -> Result<GateList, AllocError>
    requires few { qubits ≤ most_qubits }
    requires places { ArePlaces qubits places.now }
    requires small { small.now.qubits ≡ length places.now }
    ensures qubits { IfOk result (λ made. made.qubits ≡ qubits) }
    ensures gates { IfOk result (λ made. made.gates ≡ placed places.now small.now.gates) }
{
    let mut made = GateList::new(alloc, qubits);
    for gate in small.gates() {
        made.push(widened_gate(gate, places))?;
    }
    Ok(made)
}

// The gate on the numbers of its places.
fn narrowed_gate(gate: &Gate, places: &[Qubit]) -> Option<Gate>
    requires few { length places.now ≤ most_qubits }
    requires on_qubits { IsOnQubits most_qubits gate.now }
    ensures on_qubits { IfSome result (IsOnQubits (length places.now)) }
    ensures gate { IfSome result (λ small. placed_gate places.now small ≡ gate.now) }
{
    match *gate {
        Gate::H(q) => Some(Gate::H(number_of(q, places)?)),
        Gate::Phase(q, phase) => Some(Gate::Phase(number_of(q, places)?, phase)),
        Gate::Cz(p, q) => Some(Gate::Cz(number_of(p, places)?, number_of(q, places)?)),
        Gate::Cx { control, target } => Some(Gate::Cx {
            control: number_of(control, places)?,
            target: number_of(target, places)?,
        }),
        Gate::Not(q) => Some(Gate::Not(number_of(q, places)?)),
    }
}

// The number of a qubit among the places.
fn number_of(q: Qubit, places: &[Qubit]) -> Option<Qubit>
    requires { length places.now ≤ most_qubits }
    ensures below { IfSome result (λ number. number < length places.now) }
    ensures place { IfSome result (λ number. place places.now number ≡ q) }
{
    for number in 0..places.len() {
        if places[number] == q {
            return Some(number as Qubit);
        }
    }
    None
}

// The gate on the places of its qubits.
fn widened_gate(gate: &Gate, places: &[Qubit]) -> Gate
    requires { IsOnQubits (length places.now) gate.now }
    ensures { result ≡ placed_gate places.now gate.now }
{
    match *gate {
        Gate::H(q) => Gate::H(places[usize::from(q)]),
        Gate::Phase(q, phase) => Gate::Phase(places[usize::from(q)], phase),
        Gate::Cz(p, q) => Gate::Cz(places[usize::from(p)], places[usize::from(q)]),
        Gate::Cx { control, target } => Gate::Cx {
            control: places[usize::from(control)],
            target: places[usize::from(target)],
        },
        Gate::Not(q) => Gate::Not(places[usize::from(q)]),
    }
}
