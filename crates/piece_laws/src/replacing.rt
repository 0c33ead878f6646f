//! Parts of lists that are replaced.

ghost use Rattle.std.specs.Prelude.{◌++◌, ℕ, List};
ghost use Rattle.std.specs.List.{All};
ghost use Rattle.zx_model.specs.Proportional.{Proportional};
ghost use Rattle.zx_gates.specs.Circuit.{IsGateOn};
ghost use Rattle.zx_gates.specs.Maps.{amp};
ghost use Rattle.piece_laws.specs.Reordering.{IsReordered};
ghost use Rattle.piece_laws.specs.Replacement.{AreScaled, IsReplacement};

use zx_gates::Gate;
use zx_model::Scalar;

/// Where a part of a list is replaced by one of the same map up to a number other than 0, so is the
/// list; and no more odd phases or gates in the part are no more in the list. So it is where
/// another order first brings the part to the front of what is left.
pub fn parts_are_replaced()
    ensures map { (n : ℕ) (before old new after : List Gate) →
        Proportional n n (amp old) (amp new) →
        Proportional n n (amp (before ++ old ++ after)) (amp (before ++ new ++ after)) }
    ensures replacement { (n : ℕ) (before old new after : List Gate) →
        IsReplacement n old new → All (IsGateOn n) (before ++ old ++ after) →
        IsReplacement n (before ++ old ++ after) (before ++ new ++ after) }
    ensures in_front { (n : ℕ) (done left piece rest new : List Gate) → IsReplacement n piece new →
        All (IsGateOn n) (done ++ left) → IsReordered left (piece ++ rest) →
        IsReplacement n (done ++ left) (done ++ new ++ rest) }
{}

/// Where a part of a list is replaced, and its map is a scalar times that of what replaces it, the
/// list's map is the same scalar times the new list's. So it is where another order first brings the
/// part to the front of what is left.
pub fn scalars_of_parts_are_kept()
    ensures part { (n : ℕ) (before old new after : List Gate) (s : Scalar) →
        AreScaled n old s new → AreScaled n (before ++ old ++ after) s (before ++ new ++ after) }
    ensures in_front { (n : ℕ) (done left piece rest new : List Gate) (s : Scalar) →
        AreScaled n piece s new → IsReordered left (piece ++ rest) →
        AreScaled n (done ++ left) s (done ++ new ++ rest) }
{}

/// A list may be replaced by itself, and by what replaces its replacement.
pub fn replacements_add_up()
    ensures itself { (n : ℕ) (gates : List Gate) → All (IsGateOn n) gates →
        IsReplacement n gates gates }
    ensures two { (n : ℕ) (a b c : List Gate) → IsReplacement n a b → IsReplacement n b c →
        IsReplacement n a c }
{}
