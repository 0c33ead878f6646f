//! Small circuits on the qubits of larger ones.

ghost use Rattle.std.specs.Prelude.{◌++◌, ℕ, List, length};
ghost use Rattle.std.specs.List.{All};
ghost use Rattle.zx_gates.specs.Circuit.{IsGateOn};
ghost use Rattle.piece_laws.specs.Places.{ArePlaces, placed};
ghost use Rattle.piece_laws.specs.Replacement.{AreScaled, IsReplacement};

use zx_gates::Gate;
use zx_model::Scalar;

/// What replaces a small circuit replaces it on the qubits of a larger one too, wherever they are,
/// and the scalar between the maps is the same there.
pub fn replacements_are_placed()
    ensures replacement { (n : ℕ) (places : List ℕ) (old new : List Gate) → ArePlaces n places →
        All (IsGateOn (length places)) old → IsReplacement (length places) old new →
        IsReplacement n (placed places old) (placed places new) }
    ensures scaled { (n : ℕ) (places : List ℕ) (old new : List Gate) (s : Scalar) →
        let m = length places in ArePlaces n places → All (IsGateOn m) (old ++ new) →
        AreScaled m old s new → AreScaled n (placed places old) s (placed places new) }
{}
