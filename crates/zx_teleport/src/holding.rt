//! Which vertices hold the phases of a circuit's gates together, and the circuit with the phases of its groups.

ghost use Rattle.std.specs.Prelude.{◌≡◌, ◌++◌, true, false, Some, None, [], ◌∷◌, length, get_or, IfOk, OnOk};
ghost use Rattle.zx_gates.specs.Circuit.{IsCircuit, IsOnQubits, is_odd_phase};
ghost use Rattle.circuit_graph.specs.Translation.{places};
ghost use Rattle.phase_groups.specs.Groups.{IsAdded};
ghost use Rattle.teleport_circuits.specs.Circuits.{phase_in, with_phase_in, with_phases, without_idle};
ghost use Rattle.zx_teleport.specs.Internal.Held.{AreHeldBelow, phase_held, phases_held};

use open_graph::VertexId;
use phase_groups::PhaseGroups;
use std::alloc::{AllocError, Global};
use zx_gates::{Gate, GateList};
use zx_model::Sixteenth;

// The phases of the gates of odd phases, as the vertices hold them to which the gates add them.
pub(crate) fn groups_at(
    alloc: Global,
    read: &GateList,
    at: &[Option<VertexId>],
) -> Result<PhaseGroups, AllocError>
    requires { at.now ≡ places read.now }
    ensures { IfOk result (AreHeldBelow read.now (length read.now.gates)) }
{
    let gates = read.gates();
    let mut groups = PhaseGroups::new(alloc, gates.len())?;
    for i in 0..gates.len() {
        hold(&mut groups, i, &gates[i], place_at(at, i))?;
    }
    Ok(groups)
}

// The vertex to which the gate of a number adds its phase, where it is a phase gate.
fn place_at(places: &[Option<VertexId>], i: usize) -> Option<VertexId>
    ensures { result ≡ get_or places.now i None }
{
    if i < places.len() { places[i] } else { None }
}

// The phase of a gate is held by a vertex from now on, where it is odd.
fn hold(
    groups: &mut PhaseGroups,
    i: usize,
    gate: &Gate,
    at: Option<VertexId>,
) -> Result<(), AllocError>
    ensures odd { OnOk result (is_odd_phase gate.now ≡ true → (v : _) → at ≡ Some v →
        IsAdded i v (phase_in gate.now) groups.old groups.new) }
    ensures even { OnOk result (is_odd_phase gate.now ≡ false → groups.new ≡ groups.old) }
{
    match *gate {
        Gate::Phase(_, phase) => {
            if phase.is_odd() {
                add_at(groups, i, at, phase)
            } else {
                Ok(())
            }
        }
        _ => Ok(()),
    }
}

// A vertex holds the phase of a gate as well, if there is one.
fn add_at(
    groups: &mut PhaseGroups,
    i: usize,
    at: Option<VertexId>,
    phase: Sixteenth,
) -> Result<(), AllocError>
    ensures { OnOk result ((v : _) → at ≡ Some v → IsAdded i v phase groups.old groups.new) }
{
    match at {
        Some(v) => groups.add(i, v, phase),
        None => Ok(()),
    }
}

// The circuit with the phases that its gates of odd phases have by their groups.
pub(crate) fn with_groups(
    alloc: Global,
    read: &GateList,
    groups: &PhaseGroups,
) -> Result<GateList, AllocError>
    ensures circuit { OnOk result (IsCircuit read.now) }
    ensures qubits { IfOk result (λ made. made.qubits ≡ read.now.qubits) }
    ensures gates { IfOk result (λ made. made.gates ≡
        without_idle (with_phases (phases_held read.now groups.now) 0 read.now.gates)) }
{
    let mut made = GateList::new(alloc, read.qubits());
    let gates = read.gates();
    for i in 0..gates.len() {
        let phase = held_phase(groups, i, &gates[i]);
        push_with(&mut made, &gates[i], phase)?;
    }
    Ok(made)
}

// The phase of the gate of a number: by its group, where it is odd.
fn held_phase(groups: &PhaseGroups, i: usize, gate: &Gate) -> Sixteenth
    ensures { result ≡ phase_held groups.now i gate.now }
{
    match *gate {
        Gate::Phase(_, phase) if phase.is_odd() => groups.phase(i),
        Gate::Phase(_, phase) => phase,
        _ => Sixteenth::new(0),
    }
}

// Adds a gate with this phase, where it is a phase gate, and none where it is 0 then.
fn push_with(made: &mut GateList, gate: &Gate, phase: Sixteenth) -> Result<(), AllocError>
    requires { IsOnQubits made.old.qubits gate.now }
    ensures qubits { made.new.qubits ≡ made.old.qubits }
    ensures gates { OnOk result (made.new.gates ≡
        made.old.gates ++ without_idle (with_phase_in phase gate.now ∷ [])) }
{
    match *gate {
        Gate::Phase(q, _) => {
            if phase.get() != 0 {
                made.push(Gate::Phase(q, phase))?;
            }
            Ok(())
        }
        other => made.push(other),
    }
}
