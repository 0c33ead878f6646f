//! What the definitions of commuting gates and of tidy lists say, for anyone to check by hand.

ghost use Rattle.std.specs.Prelude.{◌≡◌, ◌+◌, ℕ, Bool, false, List, [], ◌∷◌, IsTrue};
ghost use Rattle.zx_model.specs.Number.{Number};
ghost use Rattle.zx_model.specs.Phase.{half_turn, quarter_turn, eighth_turn};
ghost use Rattle.zx_gates.specs.Maps.{acts};
ghost use Rattle.zx_peephole.specs.Commuting.{commutes};
ghost use Rattle.zx_peephole.specs.Tidy.{IsTidy};

use zx_gates::Gate;

/// Gates that commute by the table have maps that commute.
pub fn commuting_gates()
    ensures maps { (g h : Gate) → IsTrue (commutes g h) → (f : List Bool → Number) →
        acts (g ∷ h ∷ []) f ≡ acts (h ∷ g ∷ []) f }
    ensures either_way { (g h : Gate) → commutes g h ≡ commutes h g }
{}

/// The table at a few gates.
pub fn worked_table()
    ensures other_qubits { IsTrue (commutes (Gate.H 0) (Gate.Cx 1 2)) }
    ensures diagonal { IsTrue (commutes (Gate.Cz 0 1) (Gate.Phase 1 (quarter_turn + eighth_turn))) }
    ensures on_control { IsTrue (commutes (Gate.Phase 0 eighth_turn) (Gate.Cx 0 1)) }
    ensures one_target { IsTrue (commutes (Gate.Cx 0 2) (Gate.Cx 1 2)) }
    ensures not_on_target { IsTrue (commutes (Gate.Cx 0 1) (Gate.Not 1)) }

    ensures on_target { commutes (Gate.Phase 1 eighth_turn) (Gate.Cx 0 1) ≡ false }
    ensures on_both { commutes (Gate.Cz 0 1) (Gate.Cx 0 1) ≡ false }
    ensures target_and_control { commutes (Gate.Cx 0 1) (Gate.Cx 1 2) ≡ false }
    ensures not_on_control { commutes (Gate.Not 0) (Gate.Cx 0 1) ≡ false }
    ensures hadamard { commutes (Gate.H 0) (Gate.Phase 0 half_turn) ≡ false }
{}

/// Lists with something left to merge, and a list with nothing.
pub fn worked_lists()
    ensures apart { ¬ IsTidy (Gate.Phase 0 eighth_turn ∷ Gate.Cx 0 1 ∷ Gate.Phase 0 eighth_turn ∷ []) }
    ensures either_order { ¬ IsTidy (Gate.Cz 0 1 ∷ Gate.Cz 1 0 ∷ []) }
    ensures triple { ¬ IsTidy (Gate.H 0 ∷ Gate.Cx 1 2 ∷ Gate.Not 0 ∷ Gate.H 0 ∷ []) }
    ensures nothing_left { IsTidy (Gate.H 0 ∷ Gate.Phase 0 eighth_turn ∷ Gate.H 0 ∷ []) }
{}
