//! The laws of runs beside added gates.

ghost use Rattle.std.specs.Prelude.{◌≡◌, ℕ, length, List, ◌++◌};
ghost use Rattle.std.specs.List.{All};
ghost use Rattle.zx_model.specs.Number.{Number};
ghost use Rattle.zx_model.specs.declared.scalar.Scalar.{Scalar};
ghost use Rattle.zx_calculus.specs.Graph.{Graph, WellFormed};
ghost use Rattle.zx_calculus.specs.Steps.{Step, IsRun};
ghost use Rattle.zx_calculus.specs.StepScalars.{IsSumTimes};
ghost use Rattle.zx_gates.specs.Circuit.{IsOnQubits};
ghost use Rattle.circuit_laws.specs.Followed.{PeelsAt};
ghost use Rattle.growing_laws.specs.Growing.{AreOn, IsFree, placed, grown, IsGrowing, SplitNothing, IsBasic};

use zx_gates::Gate;

/// A run that splits nothing is one of the graph with gates behind its outputs too, and leads to
/// what these gates behind the graph after it are. To that graph gates can be added as before, and
/// runs go on where others end.
pub fn runs_commute_with_gates()
    ensures gate { (new : ℕ) (g : Graph) (steps : List Step) (h : Graph) (gate : Gate) →
        WellFormed g → SplitNothing steps → IsFree new g → IsOnQubits (length g.outputs) gate →
        IsRun g steps h → IsRun (placed new g gate) steps (placed new h gate) }
    ensures gates { (new n : ℕ) (g : Graph) (steps : List Step) (h : Graph) (gates : List Gate) →
        IsGrowing new n g → SplitNothing steps → AreOn n gates → IsRun g steps h →
        IsRun (grown new g gates) steps (grown new h gates) }
    ensures growing { (new n : ℕ) (g : Graph) (steps : List Step) (h : Graph) → IsGrowing new n g →
        SplitNothing steps → IsRun g steps h → IsGrowing new n h }
    ensures then { (g : Graph) (first : List Step) (h : Graph) (second : List Step) (k : Graph) →
        IsRun g first h → IsRun h second k → IsRun g (first ++ second) k }
{}

/// The exact scalar between two graphs stays where the same gates follow both.
pub fn scalars_stay_behind_gates()
    ensures peeled { (g h : Graph) (s : Scalar) → length h.outputs ≡ length g.outputs →
        IsSumTimes g s h → (c : Number) (gates : List Gate) (k l : Graph) → PeelsAt c k gates g →
        PeelsAt c l gates h → IsSumTimes k s l }
    ensures grown { (new n : ℕ) (g h : Graph) (gates : List Gate) (s : Scalar) → IsGrowing new n g →
        IsGrowing new n h → All IsBasic gates → AreOn n gates → IsSumTimes g s h →
        IsSumTimes (grown new g gates) s (grown new h gates) }
{}
