//! Walks that gather gates on a few qubits.

ghost use Rattle.std.specs.Prelude.{◌≡◌, ◌≤◌, ◌<◌, ◌++◌, [], ◌∷◌, ℕ, List, length};
ghost use Rattle.piece_laws.specs.Reordering.{IsReordered};
ghost use Rattle.piece_laws.specs.Walks.{width, gathered, behind};

use zx_gates::Gate;

/// A walk takes gates on few qubits, and the first gate at least. Another order brings them
/// together in front of those that it passed over.
pub fn walks_gather_pieces()
    ensures reordered { (n most reach : ℕ) (gates : List Gate) →
        IsReordered gates ((gathered n most reach gates).piece ++ behind n most reach gates) }
    ensures width { (n most reach : ℕ) (gates : List Gate) →
        width n (gathered n most reach gates).piece ≤ most }
    ensures fewer { (n most reach : ℕ) (gate : Gate) (gates : List Gate) → 2 ≤ most → 1 ≤ reach →
        length (behind n most reach (gate ∷ gates)) < length (gate ∷ gates) }
{}

/// A walk over four gates that takes two of them.
pub fn worked_walk()
    ensures piece { (gathered 3 2 4 (Gate.Cx 0 1 ∷ Gate.Cz 1 2 ∷ Gate.H 0 ∷ Gate.H 1 ∷ [])).piece ≡
        Gate.Cx 0 1 ∷ Gate.H 0 ∷ [] }
    ensures behind { behind 3 2 4 (Gate.Cx 0 1 ∷ Gate.Cz 1 2 ∷ Gate.H 0 ∷ Gate.H 1 ∷ []) ≡
        Gate.Cz 1 2 ∷ Gate.H 1 ∷ [] }
{}
