//! The laws of inverses. The functions do nothing: their contracts are the laws.

ghost use Rattle.std.specs.Prelude.{◌≡◌, ◌++◌, [], ℕ, List};
ghost use Rattle.std.specs.List.{All};
ghost use Rattle.zx_model.specs.Proportional.{Proportional};
ghost use Rattle.zx_gates.specs.Circuit.{IsGateOn};
ghost use Rattle.zx_gates.specs.Maps.{amp};
ghost use Rattle.zx_gates.specs.declared.gate.Gate.{Gate};
ghost use Rattle.piece_laws.specs.Replacement.{AreScaled};
ghost use Rattle.zx_identities.specs.Inverse.{inverse_of, undone_scalar};

/// A circuit followed by its inverse is the identity, up to a number other than 0, which is told; and what
/// the inverse of a circuit undoes is that circuit, up to a number other than 0.
pub fn inverses_undo_circuits()
    ensures undone { (n : ℕ) (gates : List Gate) → All (IsGateOn n) gates →
        Proportional n n (amp (gates ++ inverse_of gates)) (amp []) }
    ensures scaled { (n : ℕ) (gates : List Gate) → All (IsGateOn n) gates →
        AreScaled n (gates ++ inverse_of gates) (undone_scalar gates) [] }
    ensures twice { (n : ℕ) (gates : List Gate) → All (IsGateOn n) gates →
        inverse_of (inverse_of gates) ≡ gates }
    ensures one_map { (n : ℕ) (first second : List Gate) → All (IsGateOn n) second →
        Proportional n n (amp (first ++ inverse_of second)) (amp []) →
        Proportional n n (amp first) (amp second) }
{}
