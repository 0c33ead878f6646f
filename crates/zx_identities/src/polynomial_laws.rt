//! Phase polynomials.

ghost use Rattle.std.specs.Prelude.{◌≡◌, ◌≤◌, [], ◌∷◌, ℕ, Bool, true, List, length};
ghost use Rattle.std.specs.List.{All};
ghost use Rattle.zx_model.specs.Phase.{half_turn};
ghost use Rattle.zx_identities.specs.Polynomials.{Term, phase_at, weight, IsEighths};
ghost use Rattle.zx_identities.specs.WorkedPolynomials.{twice_controlled, thrice_controlled};

/// A phase polynomial of whole eighth turns that is 0 at each basis state with at most three bits set is 0
/// at each; of any phases, where it is 0 at each with at most four.
pub fn low_weights_decide()
    ensures eighths { (n : ℕ) (terms : List Term) → All (λ term. IsEighths term.phase) terms →
        ((x : List Bool) → length x ≡ n → weight x ≤ 3 → phase_at terms x ≡ 0) →
        (x : List Bool) → length x ≡ n → phase_at terms x ≡ 0 }
    ensures any { (n : ℕ) (terms : List Term) →
        ((x : List Bool) → length x ≡ n → weight x ≤ 4 → phase_at terms x ≡ 0) →
        (x : List Bool) → length x ≡ n → phase_at terms x ≡ 0 }
{}

/// One bit less isn't enough: the phases of a Z with two controls are 0 where at most two bits are set,
/// and a half turn where all three are; with three controls, by sixteenth turns, one bit later.
pub fn lower_weights_do_not_decide()
    ensures lower_eighths { (x : List Bool) → length x ≡ 3 → weight x ≤ 2 → phase_at twice_controlled x ≡ 0 }
    ensures full_eighths { phase_at twice_controlled (true ∷ true ∷ true ∷ []) ≡ half_turn }
    ensures lower_any { (x : List Bool) → length x ≡ 4 → weight x ≤ 3 → phase_at thrice_controlled x ≡ 0 }
    ensures full_any { phase_at thrice_controlled (true ∷ true ∷ true ∷ true ∷ []) ≡ half_turn }
{}
