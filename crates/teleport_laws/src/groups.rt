//! Gates whose phases end up together.

ghost use Rattle.std.specs.Prelude.{◌<◌, ℕ, List};
ghost use Rattle.zx_model.specs.Phase.{turn};
ghost use Rattle.zx_calculus.specs.Graph.{Graph, WellFormed, Distinct};
ghost use Rattle.zx_calculus.specs.Steps.{Step, IsRun};
ghost use Rattle.teleport_laws.specs.Spots.{Spot};
ghost use Rattle.teleport_laws.specs.Groups.{IsBalanced, HasFewOdd, change, teleported};

/// Where the first gate of each group gets the phases of all, what is added to the phases adds up to
/// nothing in each group. At most as many phases are odd then as in the graph at the end.
pub fn groups_are_joined()
    ensures balanced { (phase : ℕ → ℕ) (spot : ℕ → Spot) (gates : List ℕ) →
        ((i : ℕ) → phase i < turn) → Distinct gates →
        IsBalanced (change phase (teleported phase spot gates)) spot gates }
    ensures odd { (g : Graph) (steps : List Step) (h : Graph) (run : IsRun g steps h) →
        WellFormed g → HasFewOdd g steps h run }
{}
