//! The laws of steps under other names.

ghost use Rattle.std.specs.Prelude.{◌≡◌, ◌<◌, ℕ, false, List, map, length};
ghost use Rattle.zx_calculus.specs.Graph.{Graph, WellFormed};
ghost use Rattle.zx_calculus.specs.Counts.{odd_phases};
ghost use Rattle.zx_calculus.specs.Reduced.{IsReduced};
ghost use Rattle.zx_calculus.specs.Steps.{Step, IsStep, IsRun, SplitInput, SplitOutput};
ghost use Rattle.zx_calculus.specs.Splits.{new_vertex};
ghost use Rattle.move_laws.specs.Orders.{is_split};
ghost use Rattle.zx_gates.specs.Circuit.{IsOnQubits};
ghost use Rattle.growing_laws.specs.Growing.{IsFree, placed, SplitNothing};
ghost use Rattle.growing_laws.specs.Renaming.{renamed_step, AreAlike, IsRenamed, IsRenamedWith};

use zx_gates::Gate;

/// A step that splits nothing is one of the same graph under other names, and so is a run of such
/// steps; where they lead to are the same graphs under these names.
pub fn steps_take_other_names()
    ensures step { (to back : ℕ → ℕ) (g h : Graph) → AreAlike to back g h →
        (s : Step) (after : Graph) → is_split s ≡ false → IsStep g s after →
        (k : Graph) × IsStep h (renamed_step to s) k × IsRenamed to back after k }
    ensures run { (to back : ℕ → ℕ) (g h : Graph) (steps : List Step) (after : Graph) →
        AreAlike to back g h → SplitNothing steps → IsRun g steps after →
        (k : Graph) × IsRun h (map (renamed_step to) steps) k × IsRenamed to back after k }
{}

/// A gate behind graphs of different names leaves them the same but for names, where a new spider
/// may have a name of its own in each.
pub fn gates_take_other_names()
    ensures spider { (to back : ℕ → ℕ) (g h : Graph) → AreAlike to back g h → (new other q : ℕ) →
        IsFree new g → IsFree other h → q < length g.outputs →
        IsRenamedWith new other to back (placed new g (Gate.H q)) (placed other h (Gate.H q)) }
    ensures phase { (to back : ℕ → ℕ) (g h : Graph) → AreAlike to back g h → (new other q k : ℕ) →
        q < length g.outputs →
        IsRenamed to back (placed new g (Gate.Phase q k)) (placed other h (Gate.Phase q k)) }
    ensures edge { (to back : ℕ → ℕ) (g h : Graph) → AreAlike to back g h → (new other p q : ℕ) →
        IsFree new g → IsFree other h → IsOnQubits (length g.outputs) (Gate.Cz p q) →
        IsRenamed to back (placed new g (Gate.Cz p q)) (placed other h (Gate.Cz p q)) }
{}

/// So do the splits of ends.
pub fn splits_take_other_names()
    ensures input { (to back : ℕ → ℕ) (g h : Graph) → AreAlike to back g h →
        (b : ℕ) (after : Graph) → IsStep g (SplitInput b) after →
        (k : Graph) × IsStep h (SplitInput (to b)) k × IsRenamedWith (new_vertex g) (new_vertex h) to back after k }
    ensures output { (to back : ℕ → ℕ) (g h : Graph) → AreAlike to back g h →
        (b : ℕ) (after : Graph) → IsStep g (SplitOutput b) after →
        (k : Graph) × IsStep h (SplitOutput (to b)) k × IsRenamedWith (new_vertex g) (new_vertex h) to back after k }
{}

/// Names can be turned round and be the same. Graphs that differ in them alone have as many odd
/// phases, and one is reduced where the other is.
pub fn other_names_change_nothing_else()
    ensures itself { (g : Graph) → IsRenamed (λ v. v) (λ v. v) g g }
    ensures back { (to back : ℕ → ℕ) (g h : Graph) → WellFormed g → IsRenamed to back g h →
        IsRenamed back to h g }
    ensures odd { (to back : ℕ → ℕ) (g h : Graph) → AreAlike to back g h →
        odd_phases h ≡ odd_phases g }
    ensures reduced { (to back : ℕ → ℕ) (g h : Graph) → AreAlike to back g h → IsReduced g →
        IsReduced h }
{}
