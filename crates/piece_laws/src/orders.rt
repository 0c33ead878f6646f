//! Lists of gates in another order.

ghost use Rattle.std.specs.Prelude.{◌≡◌, ◌++◌, ◌∷◌, List, IsTrue};
ghost use Rattle.std.specs.List.Sorted.{IsPermutation};
ghost use Rattle.zx_gates.specs.Maps.{amp};
ghost use Rattle.zx_peephole.specs.Commuting.{are_apart};
ghost use Rattle.piece_laws.specs.Reordering.{IsReordered};

use zx_gates::Gate;

/// Neighbours that share no qubit may change places.
pub fn exchanges_reorder()
    ensures { (g h : Gate) (before after : List Gate) → IsTrue (are_apart g h) →
        IsReordered (before ++ g ∷ h ∷ after) (before ++ h ∷ g ∷ after) }
{}

/// Lists with the same gates on each qubit, in the same order, have one map, and the same gates.
pub fn reorderings_keep_maps()
    ensures map { (gates others : List Gate) → IsReordered gates others → amp gates ≡ amp others }
    ensures same_gates { (gates others : List Gate) → IsReordered gates others →
        IsPermutation gates others }
{}
