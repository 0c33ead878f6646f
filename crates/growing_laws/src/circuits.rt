//! The laws of the graphs of circuits, and of those of longer ones.

ghost use Rattle.std.specs.Prelude.{◌≡◌, ℕ, List, []};
ghost use Rattle.zx_model.specs.declared.scalar.Scalar.{Scalar};
ghost use Rattle.zx_calculus.specs.Graph.{Graph};
ghost use Rattle.zx_calculus.specs.Steps.{Step, IsRun};
ghost use Rattle.zx_calculus.specs.StepScalars.{IsSumTimes};
ghost use Rattle.zx_gates.specs.Circuit.{Circuit, circuit_of};
ghost use Rattle.circuit_graph.specs.Translation.{IsTranslation, wires, written_out, spiders_of, translated};
ghost use Rattle.circuit_graph.specs.Translation.{translated_table};
ghost use Rattle.move_laws.specs.Ranks.{HasFlowBy};
ghost use Rattle.growing_laws.specs.Growing.{AreOn, ids_after, grown, IsGrowing, SplitNothing, followed_by};

use zx_gates::Gate;

/// The graph of no gates is wires alone: gates can be put behind it, and it has a flow of nothing,
/// in which any ranks rise.
pub fn growth_begins_with_wires()
    ensures circuit { (n : ℕ) → translated (circuit_of n []) ≡ wires n }
    ensures growing { (n : ℕ) → IsGrowing n n (wires n) }
    ensures flow { (n : ℕ) (rank : ℕ → ℕ) (low high : ℕ) → HasFlowBy (wires n) rank low high }
{}

/// What holds of the graph of a circuit, whoever makes it.
pub fn graphs_of_circuits()
    ensures { (c : Circuit) → AreOn c.qubits c.gates →
        IsTranslation c (translated c) (translated_table c) }
{}

/// More gates behind a circuit are these gates behind its graph. So a run from the graph of the
/// first gates is one from that of all, and so is the exact scalar of what it led to.
pub fn graphs_of_longer_circuits()
    ensures growing { (c : Circuit) → AreOn c.qubits c.gates →
        IsGrowing (spiders_of c) c.qubits (translated c) }
    ensures more { (c : Circuit) (gates : List Gate) → AreOn c.qubits c.gates →
        translated (followed_by c gates) ≡ grown (spiders_of c) (translated c) (written_out gates) }
    ensures ids { (c : Circuit) (gates : List Gate) →
        ids_after (spiders_of c) (written_out gates) ≡ spiders_of (followed_by c gates) }
    ensures run { (c : Circuit) (gates : List Gate) (steps : List Step) (h : Graph) →
        AreOn c.qubits c.gates → AreOn c.qubits gates → SplitNothing steps → IsRun (translated c) steps h →
        IsRun (translated (followed_by c gates)) steps (grown (spiders_of c) h (written_out gates)) }
    ensures scalar { (c : Circuit) (gates : List Gate) (s : Scalar) (h : Graph) → AreOn c.qubits c.gates →
        AreOn c.qubits gates → IsGrowing (spiders_of c) c.qubits h → IsSumTimes (translated c) s h →
        IsSumTimes (translated (followed_by c gates)) s (grown (spiders_of c) h (written_out gates)) }
{}
