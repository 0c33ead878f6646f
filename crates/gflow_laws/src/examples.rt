//! The definitions, tried on small graphs.

ghost use Rattle.std.specs.Prelude.{◌≡◌, ℕ, true, false, List, [], ◌∷◌};
ghost use Rattle.zx_calculus.specs.Graph.{XY, XZ, YZ, Graph};
ghost use Rattle.zx_calculus.specs.Steps.{LocalComplement, Delete, Pivot, DropLone, FuseInto, FuseTwin, SplitInput, SplitOutput, after};
ghost use Rattle.zx_calculus.specs.Worked.{path_of_three, path_complemented, path_deleted, path_of_four, path_pivoted, twins, twins_reduced, small_gadgets, small_gadgets_reduced};
ghost use Rattle.gflow_laws.specs.Seen.{seen, in_odd_neighbourhood};
ghost use Rattle.gflow_laws.specs.Flow.{Correction, is_in, IsFlowOf, IsFlow, input_holds, order_holds, odd_holds, XY_holds};
ghost use Rattle.gflow_laws.specs.Splits.{split_input_table, split_output_table};
ghost use Rattle.gflow_laws.specs.Steps.{table_after};
ghost use Rattle.gflow_laws.specs.Outputs.{with_row_added, row_added_table, advanced, advanced_table};
ghost use Rattle.gflow_laws.specs.Examples.{Condition, Input, Order, Odd, PlaneOf, FailsAlone, correct, apart, linked, beside_a_wire, pair, shared_output, beside_an_output, output_with_an_input, adjacent_outputs, by_both, each_by_the_other, first_by_second, path_table, path_complemented_table, path_deleted_table, path_of_four_table, path_pivoted_table, by_itself};

/// An input apart from an output has no flow by this table: at vertex 0 the condition of its plane fails, and
/// no other does. With an edge between them the table is a flow.
pub fn two_ends_need_an_edge()
    ensures input { input_holds (seen apart) (1 ∷ []) ≡ true }
    ensures order { order_holds (0 ∷ []) 0 (1 ∷ []) ≡ true }
    ensures odd { odd_holds (seen apart) (0 ∷ []) 0 (1 ∷ []) ≡ true }
    ensures plane { XY_holds (seen apart) 0 (1 ∷ []) ≡ false }
    ensures no_flow { IsFlow apart first_by_second → ⊥ }
    ensures flow { IsFlow linked first_by_second }
{}

/// Each condition of a flow can be the only one that fails. With the order turned round, or with a set that is right
/// for the plane, there is a flow.
pub fn each_condition_fails_alone()
    // A table of which a condition fails is no flow.
    ensures no_flow { (g : Graph) (table : List Correction) (v : ℕ) (condition : Condition) →
        FailsAlone g table v condition → IsFlow g table → ⊥ }

    // An input in the set.
    ensures input { FailsAlone beside_a_wire first_by_second 0 Input }

    // A member of the set that doesn't come after the vertex.
    ensures order { FailsAlone pair each_by_the_other 1 Order }

    // A vertex with an odd number of neighbours in the set that doesn't come after the vertex.
    ensures odd { FailsAlone shared_output (correct 0 (3 ∷ []) ∷ correct 1 (2 ∷ []) ∷ []) 1 Odd }
    ensures odd_in_order { IsFlow shared_output (correct 1 (2 ∷ []) ∷ correct 0 (3 ∷ []) ∷ []) }

    // A set that is right for another plane.
    ensures XY { FailsAlone (beside_an_output XY) by_both 0 (PlaneOf XY) }
    ensures XZ { FailsAlone (beside_an_output XZ) (by_itself 0 ∷ []) 0 (PlaneOf XZ) }
    ensures YZ { FailsAlone (beside_an_output YZ) by_both 0 (PlaneOf YZ) }
    ensures flow_XY { IsFlow (beside_an_output XY) first_by_second }
    ensures flow_XZ { IsFlow (beside_an_output XZ) by_both }
    ensures flow_YZ { IsFlow (beside_an_output YZ) (by_itself 0 ∷ []) }
{}

/// The flow of a path of three, whose middle is complemented about, then deleted.
pub fn flow_of_a_path_of_three()
    ensures before { IsFlow path_of_three path_table }
    ensures table_complemented { table_after path_of_three (LocalComplement 1) path_table ≡
        path_complemented_table }
    ensures complemented { IsFlow path_complemented path_complemented_table }
    ensures table_deleted { table_after path_complemented (Delete 1) path_complemented_table ≡
        path_deleted_table }
    ensures deleted { IsFlow path_deleted path_deleted_table }
{}

/// The flow of a path of four, whose middle two are pivoted.
pub fn flow_of_a_path_of_four()
    ensures before { IsFlow path_of_four path_of_four_table }
    ensures table_pivoted { table_after path_of_four (Pivot 1 2) path_of_four_table ≡
        path_pivoted_table }
    ensures pivoted { IsFlow path_pivoted path_pivoted_table }
{}

/// The ends of a path of three are split.
pub fn flow_of_split_ends()
    ensures table_input { table_after path_of_three (SplitInput 0) path_table ≡
        split_input_table 0 3 path_table }
    ensures input { IsFlow (after (SplitInput 0) path_of_three) (split_input_table 0 3 path_table) }
    ensures table_output { table_after path_of_three (SplitOutput 2) path_table ≡
        split_output_table 2 3 path_table }
    ensures output { IsFlow (after (SplitOutput 2) path_of_three) (split_output_table 2 3 path_table) }
{}

/// Phase gadgets correct themselves: twins that are fused, complemented about and deleted.
pub fn flow_of_twin_gadgets()
    ensures before { IsFlow twins (by_itself 2 ∷ by_itself 3 ∷ []) }
    ensures table_fused { table_after twins (FuseTwin 2 3) (by_itself 2 ∷ by_itself 3 ∷ []) ≡
        by_itself 2 ∷ [] }
    ensures fused { IsFlow (after (FuseTwin 2 3) twins) (by_itself 2 ∷ []) }
    ensures table_complemented { table_after (after (FuseTwin 2 3) twins) (LocalComplement 2)
        (by_itself 2 ∷ []) ≡ by_itself 2 ∷ [] }
    ensures complemented { IsFlow (after (LocalComplement 2) (after (FuseTwin 2 3) twins)) (by_itself 2 ∷ []) }
    ensures table_deleted { table_after (after (LocalComplement 2) (after (FuseTwin 2 3) twins)) (Delete 2)
        (by_itself 2 ∷ []) ≡ [] }
    ensures deleted { IsFlow twins_reduced [] }
{}

/// A gadget without neighbours is dropped, one with one neighbour is fused into it.
pub fn flow_of_small_gadgets()
    ensures before { IsFlow small_gadgets (by_itself 1 ∷ by_itself 2 ∷ []) }
    ensures table_dropped { table_after small_gadgets (DropLone 2)
        (by_itself 1 ∷ by_itself 2 ∷ []) ≡ by_itself 1 ∷ [] }
    ensures dropped { IsFlow (after (DropLone 2) small_gadgets) (by_itself 1 ∷ []) }
    ensures table_fused { table_after (after (DropLone 2) small_gadgets) (FuseInto 1)
        (by_itself 1 ∷ []) ≡ [] }
    ensures fused { IsFlow small_gadgets_reduced [] }
{}

/// Changes at the outputs: output 3 is added to output 2, and where an output has one neighbour, the last vertex
/// becomes an output in its place.
pub fn flow_at_the_outputs()
    ensures table_added { row_added_table 3 2 (correct 1 (2 ∷ []) ∷ correct 0 (3 ∷ []) ∷ []) ≡
        correct 1 (2 ∷ 3 ∷ []) ∷ correct 0 (3 ∷ []) ∷ [] }
    ensures added { IsFlowOf (with_row_added (seen shared_output) 3 2)
        (correct 1 (2 ∷ 3 ∷ []) ∷ correct 0 (3 ∷ []) ∷ []) }
    ensures table_advanced { advanced_table 3 (correct 1 (2 ∷ 3 ∷ []) ∷ []) ≡ correct 1 (2 ∷ []) ∷ [] }
    ensures advanced { IsFlowOf (advanced (with_row_added (seen shared_output) 3 2) 3 0) (correct 1 (2 ∷ []) ∷ []) }
{}

/// What the laws at the outputs suppose is needed.
pub fn outputs_of_another_kind()
    // A row that is added from an output with an input brings this input into a set.
    ensures with_an_input { IsFlow output_with_an_input (correct 0 (2 ∷ []) ∷ []) }
    ensures added { IsFlowOf (with_row_added (seen output_with_an_input) 1 2)
        (row_added_table 1 2 (correct 0 (2 ∷ []) ∷ [])) → ⊥ }

    // With an edge between outputs another than the last vertex has an odd number of neighbours in its set.
    ensures adjacent { IsFlow adjacent_outputs first_by_second }
    ensures odd { in_odd_neighbourhood (seen adjacent_outputs) (is_in (1 ∷ [])) 2 ≡ true }
{}
