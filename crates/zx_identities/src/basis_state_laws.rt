//! Lists of gates without H.

ghost use Rattle.std.specs.Prelude.{◌≡◌, ◌++◌, [], ℕ, Bool, List, IsTrue, pos};
ghost use Rattle.std.specs.List.{All, list_all};
ghost use Rattle.zx_model.specs.Number.{mul, root_power};
ghost use Rattle.zx_gates.specs.Circuit.{IsGateOn};
ghost use Rattle.zx_gates.specs.Maps.{amp};
ghost use Rattle.piece_laws.specs.Replacement.{AreScaled};
ghost use Rattle.zx_identities.specs.BasisStates.{moved_by, turned_by, is_without_h, is_by_eighths, AgreeUpTo};

use zx_gates::Gate;

/// A list of gates without H makes of each basis state another, with a phase.
pub fn gates_map_basis_states()
    ensures { (gates : List Gate) → IsTrue (list_all is_without_h gates) → (x y : List Bool) →
        amp gates x y ≡ mul (root_power (turned_by gates x)) (amp [] (moved_by gates x) y) }
{}

/// Two lists of gates without H that make the same of each basis state with at most three bits set have
/// one map, up to the turn by which their phases differ there, where their phases are whole eighth turns;
/// of any phases, where they make the same of each with at most four.
pub fn low_weights_decide_maps()
    ensures eighths { (n k : ℕ) (gates others : List Gate) → All (IsGateOn n) (gates ++ others) →
        IsTrue (list_all is_by_eighths (gates ++ others)) → AgreeUpTo 3 n k gates others →
        AreScaled n gates (record { root2 = pos 0; turn = k }) others }
    ensures any { (n k : ℕ) (gates others : List Gate) → All (IsGateOn n) (gates ++ others) →
        IsTrue (list_all is_without_h (gates ++ others)) → AgreeUpTo 4 n k gates others →
        AreScaled n gates (record { root2 = pos 0; turn = k }) others }
{}
