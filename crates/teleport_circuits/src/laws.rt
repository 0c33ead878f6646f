//! The law of circuits with other phases.

ghost use Rattle.std.specs.Prelude.{◌≡◌, ◌<◌, ℕ};
ghost use Rattle.zx_model.specs.Phase.{turn};
ghost use Rattle.zx_model.specs.Proportional.{Proportional};
ghost use Rattle.zx_calculus.specs.Sum.{graph_sum};
ghost use Rattle.zx_gates.specs.Circuit.{Circuit, IsCircuit};
ghost use Rattle.zx_gates.specs.Maps.{amp};
ghost use Rattle.circuit_graph.specs.Translation.{translated};
ghost use Rattle.teleport_laws.specs.Shifts.{shifted};
ghost use Rattle.teleport_circuits.specs.Circuits.{added_by, with_gates, with_phases, without_idle, IsSkeleton};

/// The graph of a circuit, with what other phases add at the places of its gates, is the graph of the
/// circuit with these phases, so its sum is the map of that, up to a number other than 0. All other
/// gates stay.
pub fn other_phases_are_added()
    ensures graph { (c : Circuit) (phase : ℕ → ℕ) → IsCircuit c → ((i : ℕ) → phase i < turn) →
        translated (with_gates c (without_idle (with_phases phase 0 c.gates)))
        ≡ shifted (added_by c phase) (translated c) }
    ensures map { (c : Circuit) (phase : ℕ → ℕ) → IsCircuit c → ((i : ℕ) → phase i < turn) →
        Proportional c.qubits c.qubits (graph_sum (shifted (added_by c phase) (translated c)))
        (amp (without_idle (with_phases phase 0 c.gates))) }
    ensures skeleton { (c : Circuit) (phase : ℕ → ℕ) →
        IsSkeleton c.gates (without_idle (with_phases phase 0 c.gates)) }
{}
