//! How the rewrites change the counts that bound simplification, and that a graph without moves is
//! reduced.

ghost use Rattle.std.specs.Prelude.{◌≤◌, ◌+◌, ℕ, length};
ghost use Rattle.zx_calculus.specs.Graph.{Graph, WellFormed};
ghost use Rattle.zx_calculus.specs.Complements.{IsLocalComplement, CountsAfterComplement};
ghost use Rattle.zx_calculus.specs.Deletions.{IsDelete, CountsAfterDeletion};
ghost use Rattle.zx_calculus.specs.Pivots.{IsPivot, CountsAfterPivot};
ghost use Rattle.zx_calculus.specs.Splits.{IsSplitInput, IsSplitOutput};
ghost use Rattle.zx_calculus.specs.Splits.{CountsAfterSplitInput, CountsAfterSplitOutput};
ghost use Rattle.zx_calculus.specs.Gadgets.{IsDropLone, IsFuseInto, IsFuseTwin};
ghost use Rattle.zx_calculus.specs.Gadgets.{CountsAfterDropLone, CountsAfterFuseInto, CountsAfterFuseTwin};
ghost use Rattle.zx_calculus.specs.Counts.{even_interior, odd_phases, not_XY, XY_without_output};
ghost use Rattle.zx_calculus.specs.Reduced.{IsReduced};
ghost use Rattle.zx_calculus.specs.Moves.{IsStuck, HasInnerNeighbours};

/// A local complement about u changes which vertices are XY at u alone.
pub fn counts_after_a_complement()
    ensures { (g : Graph) (u : ℕ) (h : Graph) → WellFormed g → IsLocalComplement g u h →
        CountsAfterComplement g u h }
{}

/// A deleted vertex was interior and of an even phase, and not XY.
pub fn counts_after_a_deletion()
    ensures { (g : Graph) (u : ℕ) (h : Graph) → WellFormed g → IsDelete g u h →
        CountsAfterDeletion g u h }
{}

/// A pivot exchanges XY and YZ at its two vertices alone.
pub fn counts_after_a_pivot()
    ensures { (g : Graph) (u v : ℕ) (h : Graph) → WellFormed g → IsPivot g u v h →
        CountsAfterPivot g u v h }
{}

/// The split of an input makes its vertex interior, unless that has an output.
/// The new vertex has the input.
pub fn counts_after_the_split_of_an_input()
    ensures { (g : Graph) (b new : ℕ) (h : Graph) → WellFormed g → IsSplitInput g b new h →
        CountsAfterSplitInput g b h }
{}

/// The split of an output makes its vertex interior, unless that has an input.
/// The new vertex has the output.
pub fn counts_after_the_split_of_an_output()
    ensures { (g : Graph) (b new : ℕ) (h : Graph) → WellFormed g → IsSplitOutput g b new h →
        CountsAfterSplitOutput g b h }
{}

/// A lone gadget that is dropped was interior.
pub fn counts_after_a_lone_gadget_went()
    ensures { (g : Graph) (u : ℕ) (h : Graph) → WellFormed g → IsDropLone g u h →
        CountsAfterDropLone g u h }
{}

/// Where u is fused into its only neighbour, that has the sum of both phases.
/// It may be a boundary vertex.
pub fn counts_after_fusing_into_a_neighbour()
    ensures { (g : Graph) (u : ℕ) (h : Graph) → WellFormed g → (step : IsFuseInto g u h) →
        CountsAfterFuseInto g u step.into h }
{}

/// Where the twin v is fused into u, that has the sum of both phases; both are interior.
pub fn counts_after_fusing_twins()
    ensures { (g : Graph) (u v : ℕ) (h : Graph) → WellFormed g → IsFuseTwin g u v h →
        CountsAfterFuseTwin g u v h }
{}

/// A vertex counts at most once among the even interior ones and the odd ones.
pub fn counts_are_within_the_vertices()
    ensures { (g : Graph) → WellFormed g → even_interior g + odd_phases g ≤ length g.vertices }
{}

/// A graph in which no move is left is reduced, if each interior XY vertex has a neighbour.
/// In a reduced graph no move is left.
pub fn stuck_is_reduced()
    ensures reduced { (g : Graph) → WellFormed g → IsStuck g → HasInnerNeighbours g → IsReduced g }
    ensures stuck { (g : Graph) → WellFormed g → IsReduced g → IsStuck g }
{}

/// A reduced graph has at most as many vertices without output as inputs and odd phases together.
pub fn reduced_graphs_are_small()
    ensures { (g : Graph) → WellFormed g → IsReduced g →
        XY_without_output g + not_XY g ≤ length g.inputs + odd_phases g }
{}
