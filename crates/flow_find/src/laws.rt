//! Why the sets that the rows give correct their vertices.

ghost use Rattle.std.specs.Prelude.{◌≡◌, ◌≢◌, ◌==◌, ◌++◌, [], ℕ, Bool, true, false, List};
ghost use Rattle.zx_model.specs.Bits.{member};
ghost use Rattle.zx_calculus.specs.Graph.{Graph, XY};
ghost use Rattle.gflow_laws.specs.Seen.{Seen};
ghost use Rattle.gflow_laws.specs.Correcting.{Simple};
ghost use Rattle.gflow_laws.specs.Flow.{Corrects, inside_in};
ghost use Rattle.flow_find.specs.declared.row.Row.{Row};
ghost use Rattle.flow_find.specs.Frontiers.{usable, set_from, IsLeft, NoneLeftAfter, AllGoneAfter, IsCorrectable, IsRow, IsFrontier, IsFrontierOf, IsSpanned, with_one};
ghost use Rattle.flow_find.specs.Stuck.{HasFlow, HasSet, IsStuck, IsLargestStuck};

/// A vertex that is left is correctable where some set corrects it and nothing left comes after it,
/// and where it is XY and alone in a row. Where it is correctable, the set that the rows give
/// corrects it in each order in which all that isn't left comes after it.
pub fn the_last_set_is_found()
    ensures some { (s : Seen) (before : ℕ → ℕ → Bool) (left : ℕ → Bool) (v : ℕ) (A : ℕ → Bool) →
        Simple s → IsLeft s left v → NoneLeftAfter before left v → Corrects s before v A →
        IsCorrectable s left v }
    ensures alone { (s : Seen) (left : ℕ → Bool) (v : ℕ) (r : Row) →
        s.plane v ≡ XY → IsRow s left (usable s left) r →
        ((w : ℕ) → member w r.columns.ids ≡ (w == v)) → IsCorrectable s left v }
    ensures found { (s : Seen) (before : ℕ → ℕ → Bool) (left : ℕ → Bool) (v : ℕ) (rows : List Row) →
        Simple s → IsLeft s left v → AllGoneAfter s before left v → IsFrontierOf s left rows →
        IsCorrectable s left v → Corrects s before v (set_from s rows v) }
{}

/// Where a correctable vertex v goes that is in its own set, its neighbours are a sum of the rows
/// already: no row is put for it.
pub fn only_xy_vertices_are_put()
    ensures { (s : Seen) (now : ℕ → Bool) (v : ℕ) (rows : List Row) → Simple s → now v ≡ false →
        inside_in (s.plane v) ≡ true → IsCorrectable s (with_one now v) v →
        IsFrontier s now now (usable s (with_one now v)) rows → IsSpanned s now rows v }
{}

/// Where a graph has a flow, no set of vertices but the empty one is stuck; where it has none, the
/// largest stuck set isn't empty.
pub fn a_flow_leaves_nothing_stuck()
    ensures none { (g : Graph) (stuck : List ℕ) → HasFlow g → IsStuck g stuck → stuck ≡ [] }
    ensures some { (g : Graph) (stuck : List ℕ) → IsLargestStuck g stuck → ¬ HasFlow g →
        stuck ≢ [] }
{}

/// A vertex that some set corrects while many vertices are left is corrected by it while only some
/// of these are. So two stuck sets are one together, and of the largest one there is one.
pub fn stuck_sets_are_one_together()
    ensures fewer { (s : Seen) (few many : ℕ → Bool) (v : ℕ) →
        ((w : ℕ) → few w ≡ true → many w ≡ true) → HasSet s many v → HasSet s few v }
    ensures union { (g : Graph) (one other : List ℕ) → IsStuck g one → IsStuck g other →
        IsStuck g (one ++ other) }
    ensures one_largest { (g : Graph) (one other : List ℕ) → IsLargestStuck g one →
        IsLargestStuck g other → one ≡ other }
{}
