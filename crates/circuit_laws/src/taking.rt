//! What extraction does to the graph are changes by which gates are peeled off.

ghost use Rattle.std.specs.Prelude.{◌≡◌, ◌+◌, ℕ, false, [], ◌∷◌};
ghost use Rattle.zx_model.specs.Bits.{member};
ghost use Rattle.zx_model.specs.Number.{one};
ghost use Rattle.zx_calculus.specs.Graph.{XY, Graph, end_vertices, plane_of, phase_of, WellFormed};
ghost use Rattle.zx_calculus.specs.Counts.{odd_phases};
ghost use Rattle.zx_gates.specs.Circuit.{gate_odd_phases};
ghost use Rattle.circuit_laws.specs.Followed.{PeelsAt};
ghost use Rattle.zx_gates.specs.Lowering.{phase_gates};
ghost use Rattle.circuit_laws.specs.Peeling.{IsPhaseCleared, IsPhasePeel, IsAdvance, IsSpiderPeel};

use zx_gates::Gate;

/// Taking the phase of an output away peels off its gate, where it isn't 0.
pub fn clearing_a_phase_peels_it()
    ensures gates { (g : Graph) (q : ℕ) (h : Graph) → WellFormed g → (c : IsPhaseCleared g q h) →
        PeelsAt one g (phase_gates q (phase_of g c.vertex)) h }
    ensures odd { (g : Graph) (q : ℕ) (h : Graph) → WellFormed g → (c : IsPhaseCleared g q h) →
        odd_phases g ≡ odd_phases h + gate_odd_phases (phase_gates q (phase_of g c.vertex)) }
    ensures form { (g : Graph) (q : ℕ) (h : Graph) → WellFormed g → IsPhaseCleared g q h →
        WellFormed h }
    ensures peel { (g : Graph) (q : ℕ) (h : Graph) → WellFormed g → (c : IsPhaseCleared g q h) →
        IsPhasePeel g q (phase_of g c.vertex) h }
    ensures none_left { (g : Graph) (q : ℕ) (h : Graph) → WellFormed g →
        (c : IsPhaseCleared g q h) → phase_of h c.vertex ≡ 0 }
{}

/// Advancing the frontier at an output peels off the spider there. It has no input, and its neighbour is an XY vertex
/// without an output.
pub fn advancing_peels_a_spider()
    ensures gates { (g : Graph) (q : ℕ) (h : Graph) → WellFormed g → WellFormed h →
        IsAdvance g q h → PeelsAt one g (Gate.H q ∷ []) h }
    ensures odd { (g : Graph) (q : ℕ) (h : Graph) → WellFormed g → IsAdvance g q h →
        odd_phases g ≡ odd_phases h }
    ensures form { (g : Graph) (q : ℕ) (h : Graph) → WellFormed g → (c : IsAdvance g q h) →
        member c.spider (end_vertices g.inputs) ≡ false → plane_of g c.next ≡ XY →
        member c.next (end_vertices g.outputs) ≡ false → WellFormed h }
    ensures peel { (g : Graph) (q : ℕ) (h : Graph) → WellFormed g → IsAdvance g q h →
        IsSpiderPeel g q h }
{}
