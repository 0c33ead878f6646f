//! The laws of flows beside added gates.

ghost use Rattle.std.specs.Prelude.{◌<◌, ◌≤◌, ℕ, suc, length};
ghost use Rattle.zx_calculus.specs.Graph.{Graph};
ghost use Rattle.zx_gates.specs.Circuit.{IsOnQubits};
ghost use Rattle.move_laws.specs.Ranks.{HasFlowBy, ranked};
ghost use Rattle.circuit_graph.specs.Translation.{last_spider};
ghost use Rattle.growing_laws.specs.Growing.{TakesGates, placed};

use zx_gates::Gate;

/// Where a graph has a flow in which ranks rise, so it has with a gate behind its outputs: H gives
/// the vertex that was at the output a rank above all others, and Phase and Cz leave all ranks.
pub fn gates_keep_a_flow_by_rank()
    ensures spider { (new : ℕ) (g : Graph) → TakesGates new g → (rank : ℕ → ℕ) (low high : ℕ) →
        HasFlowBy g rank low high → (q : ℕ) → q < length g.outputs → low ≤ high →
        HasFlowBy (placed new g (Gate.H q)) (ranked (last_spider g q) high rank) low (suc high) }
    ensures phase { (new : ℕ) (g : Graph) → TakesGates new g → (rank : ℕ → ℕ) (low high : ℕ) →
        HasFlowBy g rank low high → (q k : ℕ) →
        HasFlowBy (placed new g (Gate.Phase q k)) rank low high }
    ensures edge { (new : ℕ) (g : Graph) → TakesGates new g → (rank : ℕ → ℕ) (low high : ℕ) →
        HasFlowBy g rank low high → (p q : ℕ) → IsOnQubits (length g.outputs) (Gate.Cz p q) →
        HasFlowBy (placed new g (Gate.Cz p q)) rank low high }
{}
