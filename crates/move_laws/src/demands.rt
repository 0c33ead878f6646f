//! The laws of how many ids a graph needs.

ghost use Rattle.std.specs.Prelude.{◌≡◌, ◌<◌, ◌≤◌, ◌+◌, ℕ, true, false, not, List, length};
ghost use Rattle.std.specs.List.{list_all};
ghost use Rattle.zx_model.specs.Bits.{one_if};
ghost use Rattle.zx_calculus.specs.Graph.{Graph, IsVertex, WellFormed};
ghost use Rattle.zx_calculus.specs.Counts.{has_input, has_output};
ghost use Rattle.zx_calculus.specs.Splits.{new_vertex};
ghost use Rattle.zx_calculus.specs.Steps.{Step, IsStep, IsRun, SplitInput, SplitOutput};
ghost use Rattle.move_laws.specs.Demand.{demand, taken_out};
ghost use Rattle.move_laws.specs.Orders.{is_split};

/// A rewrite that splits nothing lowers the demand by the vertices that it takes out. A split raises
/// it by one, but where its vertex has both ends the demand stays.
pub fn each_rewrite_changes_the_demand()
    ensures no_split { (g : Graph) (s : Step) (h : Graph) → WellFormed g → is_split s ≡ false →
        IsStep g s h → demand h + taken_out s ≡ demand g }
    ensures split_input { (g : Graph) (b : ℕ) (h : Graph) → WellFormed g →
        IsStep g (SplitInput b) h → demand h + one_if (has_output g b) ≡ demand g + 1 }
    ensures split_output { (g : Graph) (b : ℕ) (h : Graph) → WellFormed g →
        IsStep g (SplitOutput b) h → demand h + one_if (has_input g b) ≡ demand g + 1 }
{}

/// Steps that split nothing never raise the demand. The splits of both ends of a vertex raise it by
/// one, as that of the only end does.
pub fn runs_change_the_demand()
    ensures no_split { (g : Graph) (steps : List Step) (h : Graph) → WellFormed g →
        list_all (λ s. not (is_split s)) steps ≡ true → IsRun g steps h → demand h ≤ demand g }
    ensures only_input { (g : Graph) (b : ℕ) (h : Graph) → WellFormed g → has_output g b ≡ false →
        IsStep g (SplitInput b) h → demand h ≡ demand g + 1 }
    ensures only_output { (g : Graph) (b : ℕ) (h : Graph) → WellFormed g → has_input g b ≡ false →
        IsStep g (SplitOutput b) h → demand h ≡ demand g + 1 }
    ensures both { (g : Graph) (b : ℕ) (k h : Graph) → WellFormed g → has_output g b ≡ true →
        IsStep g (SplitInput b) k → IsStep k (SplitOutput b) h → demand h ≡ demand g + 1 }
{}

/// A new vertex has at most as great an id as there are vertices, so where all ids are below a bound
/// and the vertices are fewer than it, all ids are below it after a rewrite.
pub fn each_rewrite_stays_below_a_bound()
    ensures new { (g : Graph) → WellFormed g → new_vertex g ≤ length g.vertices }
    ensures kept { (g : Graph) (s : Step) (h : Graph) (bound : ℕ) → WellFormed g → IsStep g s h →
        length g.vertices < bound → ((v : ℕ) → IsVertex g v → v < bound) →
        (v : ℕ) → IsVertex h v → v < bound }
{}
