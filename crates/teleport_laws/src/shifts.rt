//! Phases that are added at the vertices.

ghost use Rattle.std.specs.Prelude.{ℕ, List};
ghost use Rattle.zx_calculus.specs.Graph.{Graph, WellFormed};
ghost use Rattle.zx_calculus.specs.Steps.{Step, IsStep, IsRun};
ghost use Rattle.teleport_laws.specs.Shifts.{IsShift, IsFree, shifted, more_after};
ghost use Rattle.teleport_laws.specs.Groups.{LeadsToTheSame, KeepsTheSum};

/// Where phases are added at the vertices of a graph, each rewrite is the same rewrite, and carries
/// the added phases along.
pub fn steps_carry_phases_along()
    ensures { (g : Graph) (s : Step) (h : Graph) (more : ℕ → ℕ) → WellFormed g → IsStep g s h →
        IsShift g more → IsFree more s → IsStep (shifted more g) s (shifted (more_after g s more) h) }
{}

/// Where the phases that are added add up to nothing wherever gates end up together, each list of
/// rewrites leads to the same graph, so the sum is the same up to a number other than 0.
pub fn runs_carry_phases_along()
    ensures same_end { (g : Graph) (steps : List Step) (h : Graph) (run : IsRun g steps h) →
        WellFormed g → LeadsToTheSame g steps h run }
    ensures proportional { (g : Graph) (steps : List Step) (h : Graph) (run : IsRun g steps h) →
        WellFormed g → KeepsTheSum g steps h run }
{}
