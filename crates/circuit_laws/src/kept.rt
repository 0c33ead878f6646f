//! Changes at the outputs keep well-formedness, and count odd phases.

ghost use Rattle.std.specs.Prelude.{◌≡◌, ◌+◌, ◌≤◌, ℕ, false, List, [], ◌∷◌};
ghost use Rattle.zx_model.specs.Bits.{member};
ghost use Rattle.zx_calculus.specs.Graph.{XY, Graph, end_vertices, plane_of, phase_of, IsVertex, WellFormed, End};
ghost use Rattle.zx_calculus.specs.Counts.{odd_phases};
ghost use Rattle.zx_gates.specs.Circuit.{gate_odd_phases};
ghost use Rattle.circuit_laws.specs.Gates.{hadamards_from, gadget_gates, linked_gadget_gates};
ghost use Rattle.circuit_laws.specs.Peeling.{IsPhasePeel, IsEdgePeel, IsMarkPeel, IsSpiderPeel, IsRowAddition, IsGadgetPeel, IsLinkedGadgetPeel, IsExchange};

use zx_gates::Gate;

/// Putting a gate after a graph keeps well-formedness.
pub fn added_gates_keep_form()
    ensures phase { (g : Graph) (q k : ℕ) (h : Graph) → WellFormed h → IsPhasePeel g q k h →
        WellFormed g }
    ensures edge { (g : Graph) (p q : ℕ) (h : Graph) → WellFormed h → IsEdgePeel g p q h →
        WellFormed g }
    ensures mark { (g : Graph) (q : ℕ) (h : Graph) → WellFormed h → IsMarkPeel g q h →
        WellFormed g }
    ensures spider { (g : Graph) (q : ℕ) (h : Graph) → WellFormed h → IsSpiderPeel g q h →
        WellFormed g }
    ensures row { (g : Graph) (c t : ℕ) (h : Graph) → WellFormed h → IsRowAddition g c t h →
        WellFormed g }
{}

/// So does taking one off. A spider that goes has no input, and the vertex after it becomes an output, so it is
/// an XY vertex that wasn't one.
pub fn peeled_gates_keep_form()
    ensures edge { (g : Graph) (p q : ℕ) (h : Graph) → WellFormed g → IsEdgePeel g p q h →
        WellFormed h }
    ensures mark { (g : Graph) (q : ℕ) (h : Graph) → WellFormed g → IsMarkPeel g q h →
        WellFormed h }
    ensures spider { (g : Graph) (q : ℕ) (h : Graph) → WellFormed g → (c : IsSpiderPeel g q h) →
        member c.spider (end_vertices g.inputs) ≡ false → IsVertex h c.next → plane_of h c.next ≡ XY →
        member c.next (end_vertices g.outputs) ≡ false → WellFormed h }
    ensures row { (g : Graph) (c t : ℕ) (h : Graph) → WellFormed g → IsRowAddition g c t h →
        WellFormed h }
    ensures exchange { (g : Graph) (p q : ℕ) (h : Graph) → WellFormed g → IsExchange g p q h →
        WellFormed h }
    ensures gadget { (g : Graph) (v : ℕ) (qubits : List ℕ) (h : Graph) → WellFormed g →
        IsGadgetPeel g v qubits h → WellFormed h }
    ensures linked_gadget { (g : Graph) (v q : ℕ) (qubits : List ℕ) (h : Graph) → WellFormed g →
        IsLinkedGadgetPeel g v q qubits h → WellFormed h }
{}

/// A graph has as many odd phases as the gates that are peeled off it and what is left together, but
/// for two cases: where an odd phase was added to another, the graph has one or none of the two, and a
/// gadget on no output gives no gate.
pub fn peeling_counts_odd_phases()
    ensures phase { (g : Graph) (q k : ℕ) (h : Graph) → WellFormed h → IsPhasePeel g q k h →
        odd_phases g ≤ odd_phases h + gate_odd_phases (Gate.Phase q k ∷ []) }
    ensures first_phase { (g : Graph) (q k : ℕ) (h : Graph) → WellFormed h →
        (c : IsPhasePeel g q k h) → phase_of h c.vertex ≡ 0 →
        odd_phases g ≡ odd_phases h + gate_odd_phases (Gate.Phase q k ∷ []) }
    ensures edge { (g : Graph) (p q : ℕ) (h : Graph) → IsEdgePeel g p q h →
        odd_phases g ≡ odd_phases h }
    ensures mark { (g : Graph) (q : ℕ) (h : Graph) → IsMarkPeel g q h →
        odd_phases g ≡ odd_phases h }
    ensures spider { (g : Graph) (q : ℕ) (h : Graph) → IsSpiderPeel g q h →
        odd_phases g ≡ odd_phases h }
    ensures row { (g : Graph) (c t : ℕ) (h : Graph) → IsRowAddition g c t h →
        odd_phases g ≡ odd_phases h }
    ensures exchange { (g : Graph) (p q : ℕ) (h : Graph) → IsExchange g p q h →
        odd_phases g ≡ odd_phases h }
    ensures gadget { (g : Graph) (v : ℕ) (qubits : List ℕ) (h : Graph) → WellFormed g →
        IsGadgetPeel g v qubits h →
        odd_phases h + gate_odd_phases (gadget_gates (phase_of g v) qubits) ≤ odd_phases g }
    ensures linked_gadget { (g : Graph) (v q : ℕ) (qubits : List ℕ) (h : Graph) → WellFormed g →
        IsLinkedGadgetPeel g v q qubits h → odd_phases g ≡
        odd_phases h + gate_odd_phases (linked_gadget_gates (phase_of g v) q qubits) }
    ensures hadamards { (q : ℕ) (ends : List End) → gate_odd_phases (hadamards_from q ends) ≡ 0 }
{}
