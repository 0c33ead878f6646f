//! The laws of gates behind a graph.

ghost use Rattle.std.specs.Prelude.{◌≡◌, ◌+◌, ◌≤◌, ◌<◌, ℕ, true, length, List, [], ◌∷◌, count_by};
ghost use Rattle.std.specs.List.{All};
ghost use Rattle.zx_model.specs.Number.{one};
ghost use Rattle.zx_calculus.specs.Graph.{Graph, WellFormed};
ghost use Rattle.zx_calculus.specs.Counts.{odd_phases};
ghost use Rattle.move_laws.specs.Demand.{demand};
ghost use Rattle.zx_gates.specs.Counting.{is_h};
ghost use Rattle.zx_gates.specs.Circuit.{IsOnQubits, gate_odd_phases};
ghost use Rattle.circuit_laws.specs.Followed.{PeelsAt};
ghost use Rattle.circuit_laws.specs.Peeling.{IsSpiderPeel, IsPhasePeel, IsEdgePeel, are_plain};
ghost use Rattle.growing_laws.specs.Growing.{AreBelow, AreOn, IsFree, TakesGates, placed, next_id};
ghost use Rattle.growing_laws.specs.Growing.{ids_after, grown, IsGrowing, IsBasic};

use zx_gates::Gate;

/// A gate that was put behind plain outputs can be taken off again.
pub fn placed_gates_are_peeled()
    ensures spider { (new : ℕ) (g : Graph) → TakesGates new g → (q : ℕ) → q < length g.outputs →
        IsSpiderPeel (placed new g (Gate.H q)) q g }
    ensures phase { (new : ℕ) (g : Graph) → TakesGates new g → (q k : ℕ) → q < length g.outputs →
        IsPhasePeel (placed new g (Gate.Phase q k)) q k g }
    ensures edge { (new : ℕ) (g : Graph) → TakesGates new g → (p q : ℕ) →
        IsOnQubits (length g.outputs) (Gate.Cz p q) →
        IsEdgePeel (placed new g (Gate.Cz p q)) p q g }
{}

/// What is put behind plain outputs so that it can be taken off is such a gate.
pub fn peeled_gates_are_placed()
    ensures spider { (g : Graph) (q : ℕ) (h : Graph) → WellFormed h → (c : IsSpiderPeel h q g) →
        h ≡ placed c.spider g (Gate.H q) }
    ensures phase { (new : ℕ) (g : Graph) (q k : ℕ) (h : Graph) → IsPhasePeel h q k g →
        h ≡ placed new g (Gate.Phase q k) }
    ensures edge { (new : ℕ) (g : Graph) (p q : ℕ) (h : Graph) → WellFormed h → IsEdgePeel h p q g →
        h ≡ placed new g (Gate.Cz p q) }
{}

/// A gate behind plain outputs keeps the form of the graph and that they are plain. The graph is
/// followed by the gate, and has at most its odd phase more.
pub fn placed_gates_keep_form()
    ensures well_formed { (new : ℕ) (g : Graph) → TakesGates new g → (gate : Gate) →
        IsOnQubits (length g.outputs) gate → WellFormed (placed new g gate) }
    ensures plain { (new : ℕ) (g : Graph) → TakesGates new g → (gate : Gate) →
        are_plain (placed new g gate).outputs ≡ true }
    ensures odd { (new : ℕ) (g : Graph) → TakesGates new g → (gate : Gate) →
        IsOnQubits (length g.outputs) gate →
        odd_phases (placed new g gate) ≤ odd_phases g + gate_odd_phases (gate ∷ []) }
    ensures map { (new : ℕ) (g : Graph) → TakesGates new g → (gate : Gate) → IsBasic gate →
        IsOnQubits (length g.outputs) gate → PeelsAt one (placed new g gate) (gate ∷ []) g }
    ensures inputs { (new : ℕ) (g : Graph) (gate : Gate) → (placed new g gate).inputs ≡ g.inputs }
    ensures outputs { (new : ℕ) (g : Graph) (gate : Gate) →
        length (placed new g gate).outputs ≡ length g.outputs }
    ensures vertices { (new : ℕ) (g : Graph) (gate : Gate) →
        length (placed new g gate).vertices ≡ next_id (length g.vertices) gate }
    ensures below { (new bound : ℕ) (g : Graph) (gate : Gate) → new < bound → AreBelow bound g →
        AreBelow bound (placed new g gate) }
{}

/// An H behind a graph raises its demand for ids by at most one, and no other gate raises it.
pub fn gates_raise_the_demand()
    ensures { (new : ℕ) (g : Graph) (gate : Gate) → WellFormed g → IsFree new g →
        demand (placed new g gate) ≤ demand g + count_by is_h (gate ∷ []) }
{}

/// Gates behind a graph: more can come, the graph is followed by these gates, and has at most their
/// odd phases more.
pub fn gates_behind_a_graph()
    ensures next { (new n : ℕ) (g : Graph) (gate : Gate) → IsGrowing new n g → IsOnQubits n gate →
        IsGrowing (next_id new gate) n (placed new g gate) }
    ensures growing { (new n : ℕ) (g : Graph) (gates : List Gate) → IsGrowing new n g →
        AreOn n gates → IsGrowing (ids_after new gates) n (grown new g gates) }
    ensures map { (new n : ℕ) (g : Graph) (gates : List Gate) → IsGrowing new n g →
        All IsBasic gates → AreOn n gates → PeelsAt one (grown new g gates) gates g }
    ensures odd { (new n : ℕ) (g : Graph) (gates : List Gate) → IsGrowing new n g → AreOn n gates →
        odd_phases (grown new g gates) ≤ odd_phases g + gate_odd_phases gates }
{}
