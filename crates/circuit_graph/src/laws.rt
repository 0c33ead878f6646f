//! Graphs of small circuits, for anyone to check by hand.

ghost use Rattle.std.specs.Prelude.{◌≡◌};
ghost use Rattle.circuit_graph.specs.Translation.{translated, translated_table};
ghost use Rattle.circuit_graph.specs.Worked.{bell_circuit, bell_graph, bell_table, double_cz, double_cz_graph, hadamard_circuit, hadamard_graph};

/// A Bell pair with its flow, Cz twice, whose edge vanishes, and H.
pub fn worked_translations()
    ensures bell { translated bell_circuit ≡ bell_graph }
    ensures bell_flow { translated_table bell_circuit ≡ bell_table }
    ensures double_cz { translated double_cz ≡ double_cz_graph }
    ensures hadamard { translated hadamard_circuit ≡ hadamard_graph }
{}
