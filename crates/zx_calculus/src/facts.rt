//! What the definitions say of single vertices and small graphs, for anyone to check by hand.

ghost use Rattle.std.specs.Prelude.{◌≡◌, ◌<◌, ℕ, Bool, if◌then◌else◌, List, [], ◌∷◌, length};
ghost use Rattle.zx_model.specs.Number.{zero, one, mul, root_power};
ghost use Rattle.zx_model.specs.Phase.{turn};
ghost use Rattle.zx_model.specs.Bits.{xor};
ghost use Rattle.zx_calculus.specs.Graph.{Kind, Graph, WellFormed};
ghost use Rattle.zx_model.specs.Constants.{two};
ghost use Rattle.zx_calculus.specs.Sum.{graph_sum};
ghost use Rattle.zx_calculus.specs.Turns.{quarter_turned, half_turned, pivoted};
ghost use Rattle.zx_calculus.specs.Complements.{IsLocalComplement};
ghost use Rattle.zx_calculus.specs.Pivots.{IsPivot};
ghost use Rattle.zx_calculus.specs.Gadgets.{IsFuseTwin};
ghost use Rattle.zx_calculus.specs.Steps.{Pivot, FuseTwin, allowed};
ghost use Rattle.zx_calculus.specs.PhaseGates.{phase_graph, gadget_graph};

/// The phase gates, as a spider and as a gadget on one, with its scalar.
pub fn sums_of_phase_gates()
    ensures spider { (k : ℕ) (x y : Bool) →
        graph_sum (phase_graph k) (x ∷ []) (y ∷ []) ≡ (if xor x y then zero else if x then root_power k else one) }
    ensures gadget { (k : ℕ) (x y : Bool) →
        graph_sum (gadget_graph k) (x ∷ []) (y ∷ []) ≡
        (if xor x y then zero else (mul two (if x then root_power k else one))) }
{}

/// Identities of the field that the rewrites keep to: which turns undo one another, and which rewrites agree.
pub fn identities_of_steps()
    ensures two_half_turns { (kind : Kind) → kind.phase < turn → half_turned (half_turned kind) ≡ kind }
    ensures two_quarter_turns { (kind : Kind) → quarter_turned (quarter_turned kind) ≡ half_turned kind }
    ensures two_pivots_of_a_kind { (kind : Kind) → kind.phase < turn → pivoted (pivoted kind) ≡ kind }
    ensures twins_allowed_either_way { (g : Graph) (u v : ℕ) →
        allowed g (FuseTwin u v) ≡ allowed g (FuseTwin v u) }
    ensures twins_fused_either_way { (g : Graph) (u v : ℕ) (h k : Graph) (x y : List Bool) →
        WellFormed g → IsFuseTwin g u v h → IsFuseTwin g v u k → length x ≡ length g.inputs →
        length y ≡ length g.outputs → graph_sum h x y ≡ graph_sum k x y }
    ensures pivot_allowed_either_way { (g : Graph) (u v : ℕ) →
        allowed g (Pivot u v) ≡ allowed g (Pivot v u) }
    ensures pivot_either_way { (g : Graph) (u v : ℕ) (h : Graph) → IsPivot g u v h → IsPivot g v u h }
    ensures two_complements { (g : Graph) (u : ℕ) (h k : Graph) → WellFormed g →
        IsLocalComplement g u h → IsLocalComplement h u k → k.edges ≡ g.edges }
    ensures four_complements { (g : Graph) (u : ℕ) (h i j k : Graph) → WellFormed g →
        IsLocalComplement g u h → IsLocalComplement h u i → IsLocalComplement i u j →
        IsLocalComplement j u k → k ≡ g }
    ensures pivot_as_complements { (g : Graph) (u v : ℕ) (h i j k : Graph) → WellFormed g →
        IsPivot g u v h → IsLocalComplement g u i → IsLocalComplement i v j → IsLocalComplement j u k →
        k.edges ≡ h.edges }
{}
