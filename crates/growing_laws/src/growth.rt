//! The laws of a graph that is simplified while gates still come.

ghost use Rattle.std.specs.Prelude.{◌≡◌, ℕ, true, false, List, [], ◌∷◌, ◌++◌, length};
ghost use Rattle.zx_model.specs.declared.scalar.Scalar.{Scalar};
ghost use Rattle.zx_calculus.specs.Graph.{Graph, WellFormed};
ghost use Rattle.zx_calculus.specs.Counts.{odd_phases};
ghost use Rattle.zx_calculus.specs.Reduced.{IsReduced};
ghost use Rattle.zx_calculus.specs.StepScalars.{IsSumTimes};
ghost use Rattle.zx_calculus.specs.Steps.{Step, IsStep, IsRun};
ghost use Rattle.move_laws.specs.Orders.{is_split};
ghost use Rattle.zx_gates.specs.Circuit.{Circuit, IsOnQubits};
ghost use Rattle.circuit_laws.specs.Peeling.{are_plain};
ghost use Rattle.circuit_graph.specs.Translation.{wires, written_out, spiders_of, translated};
ghost use Rattle.growing_laws.specs.Growing.{AreOn, placed, next_id, ids_after, IsGrowing, SplitNothing};
ghost use Rattle.growing_laws.specs.Growth.{Reaches, ComesFrom, MayCome, graph_of_gates};

use zx_gates::Gate;

/// A graph that began as wires, and that steps which split nothing and gates behind its outputs
/// made in any order, comes from the graph of these gates. A new spider may have any name that is
/// free.
pub fn graphs_grow_while_they_are_simplified()
    ensures begin { (n : ℕ) → ComesFrom n [] (wires n) }
    ensures step { (n : ℕ) (gates : List Gate) (h : Graph) (s : Step) (after : Graph) →
        AreOn n gates → WellFormed h → ComesFrom n gates h → is_split s ≡ false → IsStep h s after →
        ComesFrom n gates after }
    ensures gate { (new n : ℕ) (gates : List Gate) (h : Graph) (gate : Gate) → AreOn n gates →
        ComesFrom n gates h → MayCome new n h gate →
        ComesFrom n (gates ++ gate ∷ []) (placed new h gate) }
    ensures outputs { (n : ℕ) (gates : List Gate) (h : Graph) → AreOn n gates →
        ComesFrom n gates h → length h.outputs ≡ n }
    ensures plain { (n : ℕ) (gates : List Gate) (h : Graph) → AreOn n gates → ComesFrom n gates h →
        are_plain h.outputs ≡ true }
{}

/// The exact scalar between the graph of the gates and such a graph stays where a gate comes.
pub fn gates_keep_the_scalar_of_growth()
    ensures { (new n : ℕ) (gates : List Gate) (h : Graph) (gate : Gate) (s : Scalar) → AreOn n gates →
        ComesFrom n gates h → MayCome new n h gate → IsSumTimes (graph_of_gates n gates) s h →
        IsSumTimes (graph_of_gates n (gates ++ gate ∷ [])) s (placed new h gate) }
{}

/// Where each new spider has the id that it has in the graph of the gates, one for each spider
/// before, no names change: the graph itself is the end of the run.
pub fn graphs_grow_with_fresh_ids()
    ensures gate { (n : ℕ) (gates : List Gate) (steps : List Step) (h : Graph) (gate : Gate) →
        AreOn n gates → SplitNothing steps → IsRun (graph_of_gates n gates) steps h → IsOnQubits n gate →
        IsRun (graph_of_gates n (gates ++ gate ∷ [])) steps (placed (ids_after n gates) h gate) }
    ensures growing { (n : ℕ) (gates : List Gate) (steps : List Step) (h : Graph) → AreOn n gates →
        SplitNothing steps → IsRun (graph_of_gates n gates) steps h →
        IsGrowing (ids_after n gates) n h }
    ensures next { (n : ℕ) (gates : List Gate) (gate : Gate) →
        ids_after n (gates ++ gate ∷ []) ≡ next_id (ids_after n gates) gate }
    ensures spiders { (c : Circuit) → ids_after c.qubits (written_out c.gates) ≡ spiders_of c }
{}

/// Once all gates are there, any run may go on, also with splits: what it leads to is reached from
/// the graph of the circuit. The graph that is reached has as many odd phases, and is reduced where
/// the other one is.
pub fn grown_graphs_are_reached()
    ensures run { (c : Circuit) (h : Graph) (steps : List Step) (after : Graph) →
        AreOn c.qubits c.gates → WellFormed h → ComesFrom c.qubits (written_out c.gates) h →
        IsRun h steps after → Reaches (translated c) after }
    ensures odd { (g h : Graph) → WellFormed g → WellFormed h → (r : Reaches g h) →
        odd_phases r.graph ≡ odd_phases h }
    ensures reduced { (g h : Graph) → WellFormed g → WellFormed h → (r : Reaches g h) →
        IsReduced h → IsReduced r.graph }
{}
