//! Each change at the outputs of a graph is gates after it, with its exact cost.

ghost use Rattle.std.specs.Prelude.{◌≡◌, ℕ, Bool, true, not, List, [], ◌∷◌};
ghost use Rattle.std.specs.List.{list_all};
ghost use Rattle.zx_model.specs.Number.{one};
ghost use Rattle.zx_calculus.specs.Graph.{Graph, phase_of, WellFormed};
ghost use Rattle.zx_model.specs.Constants.{two};
ghost use Rattle.circuit_laws.specs.Followed.{PeelsAt, EndsAt};
ghost use Rattle.circuit_laws.specs.Gates.{hadamards_from, exchange_gates, gadget_gates, linked_gadget_gates};
ghost use Rattle.circuit_laws.specs.Peeling.{IsPhasePeel, IsEdgePeel, IsMarkPeel, IsSpiderPeel, IsRowAddition, IsGadgetPeel, IsLinkedGadgetPeel, IsExchange, IsWires};

use zx_gates::Gate;

/// A phase, an edge between two outputs and a Hadamard mark at an output.
pub fn settled_outputs_are_gates()
    ensures phase { (g : Graph) (q k : ℕ) (h : Graph) → WellFormed g → WellFormed h →
        IsPhasePeel g q k h → PeelsAt one g (Gate.Phase q k ∷ []) h }
    ensures edge { (g : Graph) (p q : ℕ) (h : Graph) → WellFormed g → WellFormed h →
        IsEdgePeel g p q h → PeelsAt one g (Gate.Cz p q ∷ []) h }
    ensures mark { (g : Graph) (q : ℕ) (h : Graph) → WellFormed g → WellFormed h →
        IsMarkPeel g q h → PeelsAt one g (Gate.H q ∷ []) h }
{}

/// A spider after the place of an output is a Hadamard gate.
pub fn new_spiders_are_hadamards()
    ensures { (g : Graph) (q : ℕ) (h : Graph) → WellFormed g → WellFormed h →
        IsSpiderPeel g q h → PeelsAt one g (Gate.H q ∷ []) h }
{}

/// Adding the row of output c to that of output t is a Cx that t controls.
pub fn added_rows_are_cx()
    ensures { (g : Graph) (c t : ℕ) (h : Graph) → WellFormed g → WellFormed h →
        IsRowAddition g c t h → PeelsAt one g (Gate.Cx t c ∷ []) h }
{}

/// Two outputs are exchanged by three Cx.
pub fn exchanges_are_three_cx()
    ensures { (g : Graph) (p q : ℕ) (h : Graph) → WellFormed g → WellFormed h →
        IsExchange g p q h → PeelsAt one g (exchange_gates p q) h }
{}

/// A YZ vertex on outputs is a phase gadget, with a factor two. So is one whose other neighbours are those of an
/// output, between two H on that output and without the factor.
pub fn gadgets_are_gates()
    ensures alone { (g : Graph) (v : ℕ) (qubits : List ℕ) (h : Graph) → WellFormed g →
        WellFormed h → IsGadgetPeel g v qubits h →
        PeelsAt two g (gadget_gates (phase_of g v) qubits) h }
    ensures linked { (g : Graph) (v q : ℕ) (qubits : List ℕ) (h : Graph) → WellFormed g →
        WellFormed h → IsLinkedGadgetPeel g v q qubits h →
        PeelsAt one g (linked_gadget_gates (phase_of g v) q qubits) h }
{}

/// Wires alone are the Hadamards of the inputs, and nothing where there is none.
pub fn wires_are_hadamards()
    ensures ends { (g : Graph) → WellFormed g → IsWires g →
        EndsAt one g (hadamards_from 0 g.inputs) }
    ensures plain { (g : Graph) → WellFormed g → IsWires g →
        list_all (λ e. not e.hadamard) g.inputs ≡ true → EndsAt one g [] }
{}
