//! That the text of a circuit is a text of OpenQASM, and means that circuit.

ghost use Rattle.std.specs.Prelude.{◌≡◌, ℕ, List, length};
ghost use Rattle.zx_model.specs.Proportional.{Proportional};
ghost use Rattle.zx_gates.specs.Circuit.{Circuit, IsCircuit, gate_odd_phases};
ghost use Rattle.zx_gates.specs.Elementary.{elementary_odd_phases};
ghost use Rattle.zx_gates.specs.ElementaryMaps.{amp_elementary};
ghost use Rattle.zx_gates.specs.Lowering.{lowered};
ghost use Rattle.zx_gates.specs.Maps.{amp};
ghost use Rattle.zx_gates.specs.declared.elementary.Measure.{Measure};
ghost use Rattle.qasm_reader.specs.Syntax.{Placed};
ghost use Rattle.qasm_scope.specs.Texts.{IsProgramText, TextMeans, program_size};
ghost use Rattle.qasm_writer.specs.Elements.{elements_of, without_cz};
ghost use Rattle.qasm_writer.specs.Measuring.{AreBehind};
ghost use Rattle.qasm_writer.specs.Written.{written};

/// The text of a circuit with measurements behind it means its elements and those measurements. The elements have the
/// circuit's map up to a nonzero scalar and as many odd phases as it, and they lower to its own gates but that each CZ is
/// H, CX and H. The text has as many statements of gates as the circuit has gates.
pub fn written_texts_mean_their_circuits()
    ensures means { (c : Circuit) (bits : ℕ) (measured : List Measure) → IsCircuit c
        → AreBehind c bits measured → TextMeans (written c bits measured) c.qubits
        (elements_of c.gates) bits measured }
    ensures size { (c : Circuit) (bits : ℕ) (measured : List Measure) → IsCircuit c
        → AreBehind c bits measured → (program : List Placed)
        × IsProgramText (written c bits measured) program × (program_size program ≡ length c.gates) }
    ensures gates { (c : Circuit) → IsCircuit c →
        lowered (elements_of c.gates) ≡ without_cz c.gates }
    ensures odd { (c : Circuit) → IsCircuit c →
        elementary_odd_phases (elements_of c.gates) ≡ gate_odd_phases c.gates }
    ensures map { (c : Circuit) → IsCircuit c →
        Proportional c.qubits c.qubits (amp_elementary (elements_of c.gates)) (amp c.gates) }
{}
