//! The gates that are peeled off: on which qubits they are, and how many.

ghost use Rattle.std.specs.Prelude.{ℕ, ◌+◌, ◌*◌, ◌≤◌, List, length};
ghost use Rattle.std.specs.List.{All};
ghost use Rattle.zx_calculus.specs.Graph.{End, Graph, phase_of};
ghost use Rattle.zx_gates.specs.Circuit.{IsOnQubits};
ghost use Rattle.circuit_laws.specs.Gates.{hadamards_from, exchange_gates, gadget_gates, linked_gadget_gates};
ghost use Rattle.zx_gates.specs.Lowering.{phase_gates};
ghost use Rattle.circuit_laws.specs.Peeling.{IsPhaseCleared, IsEdgePeel, IsMarkPeel, IsSpiderPeel, IsRowAddition, IsGadgetPeel, IsLinkedGadgetPeel, IsExchange};

use zx_gates::Gate;

/// Gates that are peeled off are on the qubits of the outputs, and the two of a gate differ.
pub fn peeled_gates_are_on_the_outputs()
    ensures phase { (g : Graph) (q : ℕ) (h : Graph) (c : IsPhaseCleared g q h) →
        All (IsOnQubits (length g.outputs)) (phase_gates q (phase_of g c.vertex)) }
    ensures edge { (g : Graph) (p q : ℕ) (h : Graph) → IsEdgePeel g p q h →
        IsOnQubits (length g.outputs) (Gate.Cz p q) }
    ensures mark { (g : Graph) (q : ℕ) (h : Graph) → IsMarkPeel g q h →
        IsOnQubits (length g.outputs) (Gate.H q) }
    ensures spider { (g : Graph) (q : ℕ) (h : Graph) → IsSpiderPeel g q h →
        IsOnQubits (length h.outputs) (Gate.H q) }
    ensures row { (g : Graph) (c t : ℕ) (h : Graph) → IsRowAddition g c t h →
        IsOnQubits (length g.outputs) (Gate.Cx t c) }
    ensures exchange { (g : Graph) (p q : ℕ) (h : Graph) → IsExchange g p q h →
        All (IsOnQubits (length g.outputs)) (exchange_gates p q) }
    ensures gadget { (g : Graph) (v : ℕ) (qubits : List ℕ) (h : Graph) → IsGadgetPeel g v qubits h →
        All (IsOnQubits (length g.outputs)) (gadget_gates (phase_of g v) qubits) }
    ensures linked_gadget { (g : Graph) (v q : ℕ) (qubits : List ℕ) (h : Graph) →
        IsLinkedGadgetPeel g v q qubits h →
        All (IsOnQubits (length g.outputs)) (linked_gadget_gates (phase_of g v) q qubits) }
    ensures hadamards { (q : ℕ) (ends : List End) →
        All (IsOnQubits (q + length ends)) (hadamards_from q ends) }
{}

/// Gadgets and Hadamards of inputs are few gates.
pub fn peeled_gates_are_few()
    ensures gadget { (k : ℕ) (qubits : List ℕ) →
        length (gadget_gates k qubits) ≤ 2 * length qubits }
    ensures linked_gadget { (k q : ℕ) (qubits : List ℕ) →
        length (linked_gadget_gates k q qubits) ≤ 2 * length qubits + 3 }
    ensures hadamards { (q : ℕ) (ends : List End) → length (hadamards_from q ends) ≤ length ends }
{}
