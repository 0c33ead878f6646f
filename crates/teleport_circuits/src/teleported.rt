//! The law of teleported phases.

ghost use Rattle.std.specs.Prelude.{◌≤◌, List};
ghost use Rattle.zx_model.specs.Proportional.{Proportional};
ghost use Rattle.zx_calculus.specs.Graph.{Graph};
ghost use Rattle.zx_calculus.specs.Counts.{odd_phases};
ghost use Rattle.zx_calculus.specs.Steps.{Step, IsRun};
ghost use Rattle.zx_gates.specs.Circuit.{Circuit, IsCircuit, gate_odd_phases};
ghost use Rattle.zx_gates.specs.Maps.{amp};
ghost use Rattle.circuit_graph.specs.Translation.{translated};
ghost use Rattle.teleport_circuits.specs.Circuits.{IsSkeleton};
ghost use Rattle.teleport_circuits.specs.Teleporting.{teleported_gates, teleported_circuit, HaveQuotient};

/// Where a run of rewrites leads on from the graph of a circuit, the phases that end up together may
/// be put together: all other gates stay, and the map stays up to a number other than 0. The same run
/// leads from the graph of the new circuit to the same end: where the sum of the first graph is one
/// scalar times the sum at the end, and that of the new graph another, the circuit's map is their
/// quotient times the new map. At most as many phases are odd then as in the graph where the run
/// ends, and as in the circuit.
pub fn teleported_phases_keep_the_map()
    ensures skeleton { (c : Circuit) (steps : List Step) (h : Graph)
        (run : IsRun (translated c) steps h) → IsSkeleton c.gates (teleported_gates c steps h run) }
    ensures map { (c : Circuit) (steps : List Step) (h : Graph)
        (run : IsRun (translated c) steps h) → IsCircuit c →
        Proportional c.qubits c.qubits (amp (teleported_gates c steps h run)) (amp c.gates) }
    ensures same_end { (c : Circuit) (steps : List Step) (h : Graph)
        (run : IsRun (translated c) steps h) → IsCircuit c →
        IsRun (translated (teleported_circuit c steps h run)) steps h }
    ensures scalar { (c : Circuit) (steps : List Step) (h : Graph)
        (run : IsRun (translated c) steps h) → IsCircuit c →
        HaveQuotient c (teleported_circuit c steps h run) h }
    ensures odd { (c : Circuit) (steps : List Step) (h : Graph)
        (run : IsRun (translated c) steps h) → IsCircuit c →
        gate_odd_phases (teleported_gates c steps h run) ≤ odd_phases h }
    ensures fewer { (c : Circuit) (steps : List Step) (h : Graph)
        (run : IsRun (translated c) steps h) → IsCircuit c →
        gate_odd_phases (teleported_gates c steps h run) ≤ gate_odd_phases c.gates }
{}
