//! The laws of flows where a graph changes at its outputs: where gates are put behind it, or taken off its end.

ghost use Rattle.std.specs.Prelude.{◌≡◌, ◌≢◌, ◌≤◌, ◌&&◌, ◌==◌, ℕ, true, false, not, List, [], ◌∷◌, ◌++◌, length};
ghost use Rattle.zx_model.specs.Bits.{xor, member};
ghost use Rattle.zx_calculus.specs.Graph.{XY, YZ, Graph, joined, plane_of, end_vertices, Distinct, IsVertex, WellFormed};
ghost use Rattle.gflow_laws.specs.Seen.{Seen, seen, in_odd_neighbourhood};
ghost use Rattle.gflow_laws.specs.Flow.{Correction, is_in, order_of, IsFlow};
ghost use Rattle.gflow_laws.specs.Removals.{removal_table};
ghost use Rattle.gflow_laws.specs.Splits.{split_output_table};
ghost use Rattle.gflow_laws.specs.Correcting.{Simple, Alike, FlowAsFunctions};
ghost use Rattle.gflow_laws.specs.Outputs.{toggled, with_row_added, MayAddRow, row_added_set, row_added_table, IsLast, IsLeafOutput, others, without_vertex, advanced, advanced_table, last_removed_table, IsNewOutput};

/// A flow doesn't see the edges between outputs: one of them may come or go.
pub fn toggled_outputs()
    ensures flow { (s : Seen) (p q : ℕ) (table : List Correction) → s.output p ≡ true →
        s.output q ≡ true → FlowAsFunctions s table → FlowAsFunctions (toggled s p q) table }
    ensures simple { (s : Seen) (p q : ℕ) → p ≢ q → Simple s → Simple (toggled s p q) }
    ensures graph { (g : Graph) (p q : ℕ) (h : Graph) (table : List Correction) → WellFormed g →
        WellFormed h → Alike (toggled (seen g) p q) (seen h) → member p (end_vertices g.outputs) ≡ true →
        member q (end_vertices g.outputs) ≡ true → IsFlow g table → IsFlow h table }
{}

/// The neighbours of an output c that has no input are toggled at another output t: c is toggled in the sets that
/// have t.
pub fn added_rows()
    ensures flow { (s : Seen) (c t : ℕ) (table : List Correction) → Simple s → MayAddRow s c t →
        FlowAsFunctions s table → FlowAsFunctions (with_row_added s c t) (row_added_table c t table) }
    ensures simple { (s : Seen) (c t : ℕ) → Simple s → Simple (with_row_added s c t) }
    ensures members { (c t : ℕ) (members : List ℕ) (w : ℕ) → is_in (row_added_set c t members) w ≡
        xor (is_in members w) (is_in members t && w == c) }
    ensures graph { (g : Graph) (c t : ℕ) (h : Graph) (table : List Correction) → WellFormed g →
        WellFormed h → MayAddRow (seen g) c t → Alike (with_row_added (seen g) c t) (seen h) →
        IsFlow g table → IsFlow h (row_added_table c t table) }
{}

/// The set of the last vertex of a flow, where no edge joins two outputs: what else is in it are outputs, none of
/// them an input. At an XY vertex the rows of the set add up to that vertex alone, at a YZ vertex those of the other
/// members to its neighbours that aren't outputs.
pub fn last_vertex()
    ensures members { (s : Seen) (pre : List Correction) (e : Correction) → IsLast s pre e → (w : ℕ) →
        is_in e.members w ≡ true → w ≢ e.vertex → (s.output w ≡ true) × (s.input w ≡ false) }
    ensures XY { (s : Seen) (pre : List Correction) (e : Correction) → IsLast s pre e →
        s.plane e.vertex ≡ XY → (w : ℕ) → member w s.ids ≡ true →
        in_odd_neighbourhood s (is_in e.members) w ≡ (w == e.vertex) }
    ensures YZ { (s : Seen) (pre : List Correction) (e : Correction) → IsLast s pre e →
        s.plane e.vertex ≡ YZ → (w : ℕ) → member w s.ids ≡ true →
        in_odd_neighbourhood s (others e) w ≡ (s.adjacent e.vertex w && not (s.output w)) }
    ensures YZ_itself { (s : Seen) (pre : List Correction) (e : Correction) → IsLast s pre e →
        s.plane e.vertex ≡ YZ → in_odd_neighbourhood s (others e) e.vertex ≡ false }
    ensures graph { (g : Graph) (pre : List Correction) (e : Correction) → WellFormed g →
        IsFlow g (pre ++ e ∷ []) → ((p q : ℕ) → member p (end_vertices g.outputs) ≡ true →
        member q (end_vertices g.outputs) ≡ true → joined g.edges p q ≡ false) → IsLast (seen g) pre e }
{}

/// The last vertex stays the last while rows are added. With one member left, the sum of the rows is the row of this
/// member; with none left all neighbours are outputs.
pub fn gathered_rows()
    ensures added { (s : Seen) (c t : ℕ) (pre : List Correction) (e : Correction) → MayAddRow s c t →
        IsLast s pre e → IsLast (with_row_added s c t) (row_added_table c t pre)
        record { vertex = e.vertex; members = row_added_set c t e.members } }
    ensures XY { (s : Seen) (pre : List Correction) (e : Correction) → IsLast s pre e →
        s.plane e.vertex ≡ XY → (x : ℕ) → ((y : ℕ) → is_in e.members y ≡ (y == x)) → (w : ℕ) →
        member w s.ids ≡ true → s.adjacent x w ≡ (w == e.vertex) }
    ensures YZ { (s : Seen) (pre : List Correction) (e : Correction) → IsLast s pre e →
        s.plane e.vertex ≡ YZ → (x : ℕ) → ((y : ℕ) → others e y ≡ (y == x)) → (w : ℕ) →
        member w s.ids ≡ true → s.adjacent x w ≡ (s.adjacent e.vertex w && not (s.output w)) }
    ensures YZ_alone { (s : Seen) (pre : List Correction) (e : Correction) → IsLast s pre e →
        s.plane e.vertex ≡ YZ → ((y : ℕ) → others e y ≡ false) → (w : ℕ) →
        member w s.ids ≡ true → s.adjacent e.vertex w ≡ true → s.output w ≡ true }
{}

/// The last vertex becomes an output in the place of an output x whose only neighbour it is: x goes, from all sets
/// too.
pub fn advanced_output()
    ensures flow { (s : Seen) (pre : List Correction) (e : Correction) (x : ℕ) → Simple s →
        IsLeafOutput s x e.vertex → FlowAsFunctions s (pre ++ e ∷ []) →
        FlowAsFunctions (advanced s x e.vertex) (advanced_table x pre) }
    ensures graph { (g : Graph) (pre : List Correction) (e : Correction) (x : ℕ) (h : Graph) →
        WellFormed g → WellFormed h → Alike (advanced (seen g) x e.vertex) (seen h) →
        IsLeafOutput (seen g) x e.vertex → IsFlow g (pre ++ e ∷ []) → IsFlow h (advanced_table x pre) }
{}

/// A vertex that isn't XY and has no output goes. Where it was the last, its set is toggled in those before that have
/// it.
pub fn removed_vertex()
    ensures flow { (s : Seen) (u : ℕ) (table : List Correction) → member u s.ids ≡ true →
        s.plane u ≢ XY → s.output u ≡ false → FlowAsFunctions s table →
        FlowAsFunctions (without_vertex s u) (removal_table u table) }
    ensures graph { (g : Graph) (u : ℕ) (h : Graph) (table : List Correction) → WellFormed g →
        WellFormed h → IsVertex g u → plane_of g u ≢ XY → Alike (without_vertex (seen g) u) (seen h) →
        IsFlow g table → IsFlow h (removal_table u table) }
    ensures last { (pre : List Correction) (e : Correction) → Distinct (order_of (pre ++ e ∷ [])) →
        removal_table e.vertex (pre ++ e ∷ []) ≡ last_removed_table e pre }
{}

/// A new spider behind an output, which moves there, comes into the set of the old one, and that comes last; the mark of
/// the moved output doesn't matter.
pub fn new_output()
    ensures { (g : Graph) (b : ℕ) (h : Graph) (table : List Correction) → WellFormed g →
        (step : IsNewOutput g b h) → IsFlow g table → IsFlow h (split_output_table b step.new table) }
{}

/// With every vertex an output, and as many inputs as outputs, every vertex is an input too.
pub fn all_inputs()
    ensures same_members { (xs ys : List ℕ) → Distinct xs → length ys ≤ length xs →
        ((w : ℕ) → member w xs ≡ true → member w ys ≡ true) → (w : ℕ) → member w xs ≡ member w ys }
    ensures all_ends { (g : Graph) → WellFormed g → IsFlow g [] →
        length g.inputs ≡ length g.outputs → (v : ℕ) → IsVertex g v →
        (member v (end_vertices g.inputs) ≡ true) × (member v (end_vertices g.outputs) ≡ true) }
{}
