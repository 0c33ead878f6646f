//! The laws of rewrites and of the sums that they keep.

ghost use Rattle.std.specs.Prelude.{◌≡◌, ◌≤◌, ℕ, Bool, List, [], ◌∷◌, length, map, true, false, ◌&&◌, ◌||◌, if◌then◌else◌};
ghost use Rattle.zx_model.specs.Number.{zero, one, add, neg, mul, root_power, sign};
ghost use Rattle.zx_model.specs.Phase.{eighth_turn};
ghost use Rattle.zx_model.specs.Bits.{xor};
ghost use Rattle.zx_model.specs.Scalar.{IsWithin};
ghost use Rattle.zx_calculus.specs.Graph.{XY, XZ, YZ, Graph, WellFormed};
ghost use Rattle.zx_calculus.specs.Sum.{graph_sum, factor, spider};
ghost use Rattle.zx_calculus.specs.Turns.{in_plane};
ghost use Rattle.zx_model.specs.Constants.{two, i, root_of_two};
ghost use Rattle.zx_calculus.specs.Pivots.{IsPivot};
ghost use Rattle.zx_calculus.specs.Splits.{new_vertex};
ghost use Rattle.zx_calculus.specs.Steps.{Step, LocalComplement, Delete, Pivot, SplitInput, DropLone, FuseInto, FuseTwin, IsStep, IsRun, allowed, after};
ghost use Rattle.zx_calculus.specs.StepScalars.{IsSumTimes, KeepsMap, step_scalar};
ghost use Rattle.zx_calculus.specs.Counts.{odd_phases};
ghost use Rattle.zx_calculus.specs.Worked.{path_of_three, path_complemented, path_deleted, path_of_four, path_pivoted, twins, twins_reduced, small_gadgets, small_gadgets_reduced, triangle, triangle_pivoted, path_split, overlapping_gadgets};
ghost use Rattle.zx_calculus.specs.Tables.{all_phases, factors_XY_0, factors_XY_1, factors_XZ_0, factors_XZ_1, factors_YZ_0, factors_YZ_1, hadamard_wire, controlled_z, crossing, marked_spider};

/// Each rewrite keeps the sum: that before is the rewrite's scalar times that after, a power of the root of two times
/// one of z.
pub fn step_keeps_sum()
    ensures scaled { (g : Graph) (s : Step) (h : Graph) → WellFormed g → IsStep g s h →
        IsSumTimes g (step_scalar g s) h }
    ensures small { (g : Graph) (s : Step) → IsWithin 2 (step_scalar g s) }
{}

/// Every list of rewrites keeps the sum up to a nonzero scalar.
pub fn run_keeps_sum()
    ensures { (g : Graph) (steps : List Step) (h : Graph) → WellFormed g → IsRun g steps h → KeepsMap g h }
{}

/// Each rewrite, and so every list of them, keeps well-formedness and the numbers of inputs and outputs.
pub fn step_keeps_form()
    ensures step { (g : Graph) (s : Step) (h : Graph) → WellFormed g → IsStep g s h → WellFormed h }
    ensures run { (g : Graph) (steps : List Step) (h : Graph) → WellFormed g → IsRun g steps h →
        WellFormed h }
    ensures inputs { (g : Graph) (steps : List Step) (h : Graph) → IsRun g steps h →
        length h.inputs ≡ length g.inputs }
    ensures outputs { (g : Graph) (steps : List Step) (h : Graph) → IsRun g steps h →
        length h.outputs ≡ length g.outputs }
{}

/// No rewrite, and so no list of them, raises the number of odd phases.
pub fn step_raises_no_odd_phases()
    ensures step { (g : Graph) (s : Step) (h : Graph) → WellFormed g → IsStep g s h →
        odd_phases h ≤ odd_phases g }
    ensures run { (g : Graph) (steps : List Step) (h : Graph) → WellFormed g → IsRun g steps h →
        odd_phases h ≤ odd_phases g }
{}

/// Rewrites of small graphs, by computation.
pub fn worked_rewrites()
    ensures complemented { after (LocalComplement 1) path_of_three ≡ path_complemented }
    ensures deleted { after (Delete 1) path_complemented ≡ path_deleted }
    ensures pivoted { after (Pivot 1 2) path_of_four ≡ path_pivoted }
    ensures common_neighbour { after (Pivot 1 2) triangle ≡ triangle_pivoted }
    ensures split { after (SplitInput 0) path_of_three ≡ path_split }
    ensures least { new_vertex path_deleted ≡ 1 }
    ensures twins { after (Delete 2) (after (LocalComplement 2) (after (FuseTwin 2 3) twins)) ≡
        twins_reduced }
    ensures small_gadgets { after (FuseInto 1) (after (DropLone 2) small_gadgets) ≡ small_gadgets_reduced }
    ensures boundary { allowed path_of_three (Pivot 0 2) ≡ false }
    ensures allowed { allowed path_of_three (LocalComplement 1) ≡ true }
    ensures twins_allowed { allowed twins (FuseTwin 2 3) ≡ true }
    ensures no_twins { allowed overlapping_gadgets (FuseTwin 2 3) ≡ false }
{}

/// The program makes what the rewrites state, exactly where its test allows them, and nothing else
/// meets them.
pub fn program_is_step()
    ensures allowed { (g : Graph) (s : Step) (h : Graph) → WellFormed g → IsStep g s h →
        allowed g s ≡ true }
    ensures made { (g : Graph) (s : Step) → WellFormed g → allowed g s ≡ true → IsStep g s (after s g) }
    ensures only { (g : Graph) (s : Step) (h : Graph) → WellFormed g → IsStep g s h →
        h ≡ after s g }
{}

/// A run of rewrites has one end.
pub fn run_has_one_end()
    ensures { (g : Graph) (steps : List Step) (h k : Graph) → WellFormed g → IsRun g steps h →
        IsRun g steps k → h ≡ k }
{}

/// The factor of a vertex in each plane, at each phase and label, against a table; scalars in terms of the root
/// of two; and the sum of a graph.
pub fn worked_sums()
    ensures XY_0 { map (λ k. factor (in_plane XY k) false) all_phases ≡ factors_XY_0 }
    ensures XY_1 { map (λ k. factor (in_plane XY k) true) all_phases ≡ factors_XY_1 }
    ensures XZ_0 { map (λ k. factor (in_plane XZ k) false) all_phases ≡ factors_XZ_0 }
    ensures XZ_1 { map (λ k. factor (in_plane XZ k) true) all_phases ≡ factors_XZ_1 }
    ensures YZ_0 { map (λ k. factor (in_plane YZ k) false) all_phases ≡ factors_YZ_0 }
    ensures YZ_1 { map (λ k. factor (in_plane YZ k) true) all_phases ≡ factors_YZ_1 }
    ensures two { two ≡ mul root_of_two root_of_two }
    ensures one_plus_i { add one i ≡ mul root_of_two (root_power eighth_turn) }
    ensures one_minus_i { mul (add one (neg i)) (root_power eighth_turn) ≡ root_of_two }
    ensures hadamard { (x y : Bool) → graph_sum hadamard_wire (x ∷ []) (y ∷ []) ≡ sign (x && y) }
    ensures marked { (k : ℕ) (x y : Bool) →
        graph_sum (marked_spider k) (x ∷ []) (y ∷ []) ≡ mul (spider k x) (sign (x && y)) }
    ensures controlled_z { (x0 x1 y0 y1 : Bool) → graph_sum controlled_z (x0 ∷ x1 ∷ []) (y0 ∷ y1 ∷ []) ≡
        (if xor x0 y0 || xor x1 y1 then zero else sign (x0 && x1)) }
    ensures crossing { (x0 x1 y0 y1 : Bool) → graph_sum crossing (x0 ∷ x1 ∷ []) (y0 ∷ y1 ∷ []) ≡
        (if xor x0 y1 || xor x1 y0 then zero else one) }
{}

/// A pivot done twice gives the graph back.
pub fn pivot_is_its_own_inverse()
    ensures { (g : Graph) (u v : ℕ) (h k : Graph) → WellFormed g → IsPivot g u v h → IsPivot h u v k →
        k ≡ g }
{}
