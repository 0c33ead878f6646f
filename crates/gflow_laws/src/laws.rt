//! The laws of flows.

ghost use Rattle.std.specs.Prelude.{◌≡◌, ◌↔◌, ◌&&◌, ℕ, Bool, true, false, ◌==◌, List};
ghost use Rattle.zx_model.specs.Bits.{xor, member};
ghost use Rattle.zx_calculus.specs.Graph.{XY, Graph, ids, plane_of, joined, end_vertices, IsVertex, WellFormed};
ghost use Rattle.zx_calculus.specs.Complements.{IsLocalComplement};
ghost use Rattle.zx_calculus.specs.Deletions.{IsDelete};
ghost use Rattle.zx_calculus.specs.Pivots.{IsPivot};
ghost use Rattle.zx_calculus.specs.Splits.{IsSplitInput, IsSplitOutput};
ghost use Rattle.zx_calculus.specs.Gadgets.{IsDropLone, IsFuseInto, IsFuseTwin};
ghost use Rattle.zx_calculus.specs.Steps.{Step, IsStep, IsRun};
ghost use Rattle.gflow_laws.specs.Seen.{Seen, seen, in_odd_neighbourhood, complemented};
ghost use Rattle.gflow_laws.specs.Flow.{Correction, is_in, IsFlowOf, IsFlow, SameSets, Corrects};
ghost use Rattle.gflow_laws.specs.Kept.{IsKept};
ghost use Rattle.gflow_laws.specs.Tables.{symmetric_difference};
ghost use Rattle.gflow_laws.specs.Steps.{table_after, complement_table, pivot_table, removal_table, split_input_table, split_output_table};
ghost use Rattle.gflow_laws.specs.Correcting.{Distinct, Simple, Strict, Alike, FlowAsFunctions};

/// Each rewrite turns a flow of the old graph into a flow of the new one.
pub fn each_rewrite_keeps_a_flow()
    ensures local_complement { (g : Graph) (u : ℕ) (h : Graph) (table : List Correction) →
        WellFormed g → IsLocalComplement g u h → IsFlow g table → IsFlow h (complement_table (seen g) u table) }
    ensures delete { (g : Graph) (u : ℕ) (h : Graph) (table : List Correction) →
        WellFormed g → IsDelete g u h → IsFlow g table → IsFlow h (removal_table u table) }
    ensures pivot { (g : Graph) (u v : ℕ) (h : Graph) (table : List Correction) →
        WellFormed g → IsPivot g u v h → IsFlow g table → IsFlow h (pivot_table (seen g) u v table) }
    ensures split_input { (g : Graph) (b new : ℕ) (h : Graph) (table : List Correction) →
        WellFormed g → IsSplitInput g b new h → IsFlow g table →
        IsFlow h (split_input_table b new table) }
    ensures split_output { (g : Graph) (b new : ℕ) (h : Graph) (table : List Correction) →
        WellFormed g → IsSplitOutput g b new h → IsFlow g table →
        IsFlow h (split_output_table b new table) }
    ensures drop_lone { (g : Graph) (u : ℕ) (h : Graph) (table : List Correction) →
        WellFormed g → IsDropLone g u h → IsFlow g table → IsFlow h (removal_table u table) }
    ensures fuse_into { (g : Graph) (u : ℕ) (h : Graph) (table : List Correction) →
        WellFormed g → IsFuseInto g u h → IsFlow g table → IsFlow h (removal_table u table) }
    ensures fuse_twin { (g : Graph) (u v : ℕ) (h : Graph) (table : List Correction) →
        WellFormed g → IsFuseTwin g u v h → IsFlow g table → IsFlow h (removal_table v table) }
    ensures step { (g : Graph) (s : Step) (h : Graph) (table : List Correction) →
        WellFormed g → IsStep g s h → IsFlow g table → IsFlow h (table_after g s table) }
{}

/// Whatever a list of rewrites leads to, in any order, from a graph with a flow, has a flow, a sum that is the old
/// one up to a nonzero scalar, and no more odd phases.
pub fn each_run_keeps_a_flow()
    ensures kept { (g : Graph) (steps : List Step) (h : Graph) (table : List Correction) →
        WellFormed g → IsRun g steps h → IsFlow g table → IsKept g h }
    ensures flow { (g : Graph) (steps : List Step) (h : Graph) (table : List Correction) →
        WellFormed g → IsRun g steps h → IsFlow g table → (after : List Correction) × (IsFlow h after) }
{}

/// What the tables after the rewrites are made of.
pub fn parts_of_the_tables()
    // The symmetric difference of two sets is their sum.
    ensures difference { (left right : List ℕ) (w : ℕ) →
        is_in (symmetric_difference left right) w ≡ xor (is_in left w) (is_in right w) }

    // In planes and edges a pivot of u and v is local complements about u, v and u.
    ensures pivot { (g : Graph) (u v : ℕ) (h : Graph) → WellFormed g → IsPivot g u v h →
        Alike (complemented (complemented (complemented (seen g) u) v) u) (seen h) }
    ensures local_complement { (g : Graph) (u : ℕ) (h : Graph) → IsLocalComplement g u h →
        Alike (complemented (seen g) u) (seen h) }
{}

/// An XY vertex without an output has a neighbour, in a graph with a flow.
pub fn an_inner_vertex_has_a_neighbour()
    ensures neighbour { (g : Graph) (table : List Correction) (v : ℕ) →
        IsFlow g table → IsVertex g v → member v (end_vertices g.outputs) ≡ false → plane_of g v ≡ XY →
        (w : ℕ) × (IsVertex g w) × (joined g.edges v w ≡ true) }
    ensures alone { (g : Graph) (table : List Correction) (v : ℕ) →
        IsVertex g v → member v (end_vertices g.outputs) ≡ false → plane_of g v ≡ XY →
        ((w : ℕ) → joined g.edges v w ≡ false) → IsFlow g table → ⊥ }
{}

/// A flow depends on planes, edges and places of ends alone. It depends neither on phases, nor on marks, nor on
/// the order in which ends or the members of sets are listed.
pub fn what_a_flow_depends_on()
    ensures phases_unseen { (g h : Graph) (table : List Correction) → ids g.vertices ≡ ids h.vertices →
        ((v : ℕ) → plane_of g v ≡ plane_of h v) → g.edges ≡ h.edges → end_vertices g.inputs ≡ end_vertices h.inputs →
        end_vertices g.outputs ≡ end_vertices h.outputs → IsFlow g table → IsFlow h table }
    ensures alike { (g h : Graph) (table : List Correction) →
        WellFormed g → WellFormed h → Alike (seen g) (seen h) → IsFlow g table → IsFlow h table }
    ensures same_sets { (g : Graph) (table other : List Correction) → SameSets table other →
        IsFlow g table → IsFlow g other }

    // What a rewrite makes of equal sets are equal sets.
    ensures same_sets_after { (g : Graph) (s : Step) (table other : List Correction) →
        SameSets table other → SameSets (table_after g s table) (table_after g s other) }
{}

/// The conditions of a flow, vertex by vertex, with sets and the order as functions.
pub fn sets_correct_their_vertices()
    ensures as_functions { (s : Seen) (table : List Correction) →
        IsFlowOf s table ↔ FlowAsFunctions s table }

    // The parity of neighbours in a set is linear in the set.
    ensures linear { (s : Seen) (A B : ℕ → Bool) (v : ℕ) →
        in_odd_neighbourhood s (λ w. xor (A w) (B w)) v
        ≡ xor (in_odd_neighbourhood s A v) (in_odd_neighbourhood s B v) }

    // The set of a later vertex can be absorbed.
    ensures absorption { (s : Seen) (before : ℕ → ℕ → Bool) (v u : ℕ) (A B : ℕ → Bool) →
        Strict before → member v s.ids ≡ true → before v u ≡ true →
        Corrects s before v A → Corrects s before u B → Corrects s before v (λ w. xor (A w) (B w)) }

    // After a local complement about u, each set serves with u toggled where it has an odd number of neighbours
    // in the set.
    ensures complement { (s : Seen) (before : ℕ → ℕ → Bool) (u v : ℕ) (A : ℕ → Bool) →
        Simple s → member u s.ids ≡ true → s.input u ≡ false → member v s.ids ≡ true → Corrects s before v A →
        Corrects (complemented s u) before v (λ w. xor (A w) (in_odd_neighbourhood s A u && (w == u))) }

    // A set serves in each view that agrees on the vertices, and in each order that keeps what comes later.
    ensures transport { (s t : Seen) (before later : ℕ → ℕ → Bool) (v : ℕ) (A B : ℕ → Bool) →
        Distinct s.ids → Distinct t.ids → Alike s t → member v s.ids ≡ true → ((w : ℕ) → A w ≡ B w) →
        ((w : ℕ) → before v w ≡ true → later v w ≡ true) → Corrects s before v A → Corrects t later v B }
{}
