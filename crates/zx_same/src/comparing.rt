//! Two circuits compared, by simplifying the one followed by the inverse of the other.

ghost use Rattle.std.specs.Prelude.{◌≡◌, ◌↔◌, ◌==◌, ◌||◌, [], length, map, true, IsTrue, IsNone, IfNone, IfSome, IfOk};
ghost use Rattle.std.specs.List.{All};
ghost use Rattle.zx_model.specs.Proportional.{Proportional};
ghost use Rattle.zx_gates.specs.Circuit.{IsOnQubits, gate_odd_phases};
ghost use Rattle.zx_gates.specs.Maps.{amp};
ghost use Rattle.graph_rewrites.specs.Steps.{step_named};
ghost use Rattle.zx_same.specs.Bare.{is_bare};
ghost use Rattle.zx_same.specs.Comparing.{IfSame, IfNotShown, IsLeft, IsLeftOfBoth, IsSame};
ghost use Rattle.zx_same.specs.Internal.Simplifying.{Leaves, Simplifies};
ghost use Rattle.zx_identities.specs.Inverse.{undone_by};

use crate::bare::is_bare;
use crate::vanishing::vanishes;
use circuit_graph::translate;
use open_graph::OpenGraph;
use std::alloc::{AllocError, Global};
use zx_gates::{Gate, GateList};
use zx_identities::push_inverse;
use zx_moves::Trace;
use zx_reduce::grow;
use zx_simplify::{Simplified, extract_tidy, simplify};

/// Whether two circuits have one linear map, as far as simplification shows.
#[derive(Drop)]
pub enum Sameness {
    /// The maps are equal up to a number other than 0.
    Same,
    /// It isn't shown that they are. This is left of the first circuit followed by the inverse of the
    /// second.
    NotShown {
        /// The circuit of the reduced graph, after cleanup.
        left: GateList,
        /// The steps from the graph of both circuits.
        trace: Trace,
        /// The graph to which they lead.
        reduced: OpenGraph,
    },
}

/// Compares two circuits on as many qubits. Where it isn't shown that they are the same, their graph is simplified once
/// more as a whole, so that the steps can be told; `left_of` doesn't.
///
/// # Errors
///
/// Only where memory runs out.
pub fn compare(alloc: Global, a: &GateList, b: &GateList) -> Result<Sameness, AllocError>
    requires qubits { a.now.qubits ≡ b.now.qubits }

    // Yes is right, and is said of equal lists.
    ensures same_map { IfOk result (IfSame (Proportional a.now.qubits a.now.qubits
        (amp a.now.gates) (amp b.now.gates))) }
    ensures equal_lists { a.now.gates ≡ b.now.gates → IfOk result IsSame }

    // Circuits without odd phases are told apart.
    ensures clifford { gate_odd_phases a.now.gates ≡ 0 → gate_odd_phases b.now.gates ≡ 0 →
        Proportional a.now.qubits a.now.qubits (amp a.now.gates) (amp b.now.gates) → IfOk result IsSame }

    // Where it isn't shown, this is left.
    ensures left { IfOk result (IfNotShown (λ left steps reduced.
        IsLeftOfBoth a.now b.now left (map step_named steps) reduced)) }
{
    if is_same(alloc, a, b)? {
        return Ok(Sameness::Same);
    }
    compare_whole(alloc, a, b)
}

// Whether it is shown that two circuits have one linear map.
fn is_same(alloc: Global, a: &GateList, b: &GateList) -> Result<bool, AllocError>
    requires qubits { a.now.qubits ≡ b.now.qubits }
    ensures same_map { IfOk result (λ yes. yes ≡ true →
        Proportional a.now.qubits a.now.qubits (amp a.now.gates) (amp b.now.gates)) }
    ensures equal_lists { a.now.gates ≡ b.now.gates → IfOk result IsTrue }
    ensures clifford { gate_odd_phases a.now.gates ≡ 0 → gate_odd_phases b.now.gates ≡ 0 →
        Proportional a.now.qubits a.now.qubits (amp a.now.gates) (amp b.now.gates) → IfOk result IsTrue }
{
    let left = left_of(alloc, a, b)?;
    Ok(left.is_none())
}

// The same by the graph as a whole, with the steps by which it is simplified.
fn compare_whole(alloc: Global, a: &GateList, b: &GateList) -> Result<Sameness, AllocError>
    requires qubits { a.now.qubits ≡ b.now.qubits }
    ensures same_map { IfOk result (IfSame (Proportional a.now.qubits a.now.qubits
        (amp a.now.gates) (amp b.now.gates))) }
    ensures left { IfOk result (IfNotShown (λ left steps reduced.
        IsLeftOfBoth a.now b.now left (map step_named steps) reduced)) }
{
    // The second list is a circuit.
    prove!(b.gates().len() <= u32::MAX as usize);
    let both = undone_by(a, b)?;
    let found = simplify_as_graph(alloc, &both)?;
    drop(both);
    if is_identity(&found) {
        return Ok(Sameness::Same);
    }
    Ok(Sameness::NotShown {
        left: found.gates,
        trace: found.trace,
        reduced: found.reduced,
    })
}

/// Compares two circuits on as many qubits, and answers what is left of the first one followed by the inverse of the
/// second, None where they are shown to have one linear map.
///
/// # Errors
///
/// Only where memory runs out.
pub fn left_of(alloc: Global, a: &GateList, b: &GateList) -> Result<Option<GateList>, AllocError>
    requires qubits { a.now.qubits ≡ b.now.qubits }

    // None is right, and is said of equal lists.
    ensures same_map { IfOk result (λ left. IfNone left
        (Proportional a.now.qubits a.now.qubits (amp a.now.gates) (amp b.now.gates))) }
    ensures equal_lists { a.now.gates ≡ b.now.gates → IfOk result IsNone }

    // Circuits without odd phases are told apart.
    ensures clifford { gate_odd_phases a.now.gates ≡ 0 → gate_odd_phases b.now.gates ≡ 0 →
        Proportional a.now.qubits a.now.qubits (amp a.now.gates) (amp b.now.gates) → IfOk result IsNone }

    ensures left { IfOk result (λ found. IfSome found (IsLeft a.now b.now)) }
{
    if are_equal(a.gates(), b.gates()) {
        return Ok(None);
    }
    let both = undone_by(a, b)?;
    let Some(left) = grown_rest(alloc, &both)? else {
        return Ok(None);
    };
    if vanishes(alloc, &left)? {
        return Ok(None);
    }
    Ok(Some(left))
}

// Whether two lists of gates are equal.
fn are_equal(a: &[Gate], b: &[Gate]) -> bool
    ensures { IsTrue result ↔ (a.now ≡ b.now) }
{
    a == b
}

// The first circuit, followed by the inverse of the second.
pub(crate) fn undone_by(a: &GateList, b: &GateList) -> Result<GateList, AllocError>
    requires { a.now.qubits ≡ b.now.qubits }
    ensures { IfOk result (λ made. made ≡ undone_by a.now b.now) }
{
    let mut made = a.copy()?;
    push_inverse(&mut made, b)?;
    Ok(made)
}

// What is left of a circuit once its graph, which is simplified while it grows, is a circuit again. None where it is
// seen that the circuit is the identity: nothing but wires is left of the graph, or no gate of the circuit.
fn grown_rest(alloc: Global, circuit: &GateList) -> Result<Option<GateList>, AllocError>
    ensures identity { IfOk result (λ rest. IfNone rest
        (Proportional circuit.now.qubits circuit.now.qubits (amp circuit.now.gates) (amp []))) }
    ensures left { IfOk result (λ rest. IfSome rest (Leaves circuit.now)) }
    ensures on_qubits { All (IsOnQubits circuit.now.qubits) circuit.now.gates }
{
    // A circuit has no more qubits than `extract_tidy` takes outputs.
    prove!(circuit.qubits() <= 1_024);
    prove!(circuit.gates().len() <= u32::MAX as usize);
    let grown = grow(alloc, circuit)?;
    let bare = is_bare(&grown.graph);
    let made = extract_tidy(alloc, grown.graph, grown.flow)?;
    if is_nothing(bare, &made.gates) {
        return Ok(None);
    }
    Ok(Some(made.gates))
}

// Whether nothing but wires is left of a graph, or no gate of a circuit.
fn is_nothing(bare: bool, left: &GateList) -> bool
    ensures { result ≡ (bare || (length left.now.gates == 0)) }
{
    bare || left.gates().is_empty()
}

/// What a circuit's graph is simplified to, with the scalar by which the circuit's map is that of what is left.
pub(crate) fn simplify_as_graph(alloc: Global, circuit: &GateList) -> Result<Simplified, AllocError>
    ensures { IfOk result (Simplifies circuit.now) }
{
    // A circuit has no more qubits than a graph may have outputs, and not too many gates.
    prove!(circuit.qubits() <= 1_024);
    prove!(circuit.gates().len() <= u32::MAX as usize);
    let read = translate(alloc, circuit)?;
    let mut made = simplify(alloc, read.graph, read.flow)?;
    made.scalar = read.scalar.times(made.scalar);
    Ok(made)
}

// Whether it is seen that a simplified circuit is the identity: no gate is left, or nothing but wires is
// left of the graph.
fn is_identity(found: &Simplified) -> bool
    ensures { result ≡ ((length found.now.gates.gates == 0) || is_bare found.now.reduced.graph) }
{
    found.gates.gates().is_empty() || is_bare(&found.reduced)
}
