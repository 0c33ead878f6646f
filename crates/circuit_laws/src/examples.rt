//! Small graphs and their gates, for anyone to check by hand.

ghost use Rattle.std.specs.Prelude.{ℕ, ◌<◌, [], ◌∷◌};
ghost use Rattle.zx_model.specs.Phase.{turn, eighth_turn};
ghost use Rattle.zx_model.specs.Proportional.{Proportional};
ghost use Rattle.zx_calculus.specs.Sum.{graph_sum};
ghost use Rattle.zx_gates.specs.Maps.{amp};
ghost use Rattle.circuit_laws.specs.Followed.{Peels, Ends};
ghost use Rattle.circuit_laws.specs.Peeling.{IsMarkPeel, IsEdgePeel, IsGadgetPeel, IsLinkedGadgetPeel, IsRowAddition, IsExchange, IsAdvance, IsWires};
ghost use Rattle.circuit_laws.specs.Gates.{exchange_gates, linked_gadget_gates};
ghost use Rattle.circuit_laws.specs.Worked.{bell_pair, bell_unmarked, bell_wires, wires_with_gadget, two_wires, before_addition, after_addition, crossing, linked_gadget, unlinked, advanced_wires};

use zx_gates::Gate;

/// A Bell pair is made by H and Cx: entry by entry, and by what is peeled off its graph.
pub fn bell_pair_is_h_and_cx()
    ensures entries { Proportional 2 2 (graph_sum bell_pair) (amp (Gate.H 0 ∷ Gate.Cx 0 1 ∷ [])) }
    ensures mark { IsMarkPeel bell_pair 1 bell_unmarked }
    ensures edge { IsEdgePeel bell_unmarked 0 1 bell_wires }
    ensures wires { IsWires bell_wires }
    ensures gates { Ends bell_pair (Gate.H 0 ∷ Gate.H 1 ∷ Gate.Cz 0 1 ∷ Gate.H 1 ∷ []) }
{}

/// A gadget on two wires is a phase gate between two Cx.
pub fn gadget_is_a_phase_between_two_cx()
    ensures entries { Proportional 2 2 (graph_sum (wires_with_gadget eighth_turn))
        (amp (Gate.Cx 1 0 ∷ Gate.Phase 0 eighth_turn ∷ Gate.Cx 1 0 ∷ [])) }
    ensures gadget { (k : ℕ) → IsGadgetPeel (wires_with_gadget k) 2 (0 ∷ 1 ∷ []) two_wires }
{}

/// The row of output 1 is added to that of output 0 by a Cx that 0 controls, and not by the reversed one.
pub fn the_direction_of_an_added_row()
    ensures added { IsRowAddition before_addition 1 0 after_addition }
    ensures gate { Peels before_addition (Gate.Cx 0 1 ∷ []) after_addition }
    ensures not_reversed { ¬ Peels before_addition (Gate.Cx 1 0 ∷ []) after_addition }
{}

/// Wires that cross are exchanged by three Cx.
pub fn crossing_wires_are_three_cx()
    ensures entries { Proportional 2 2 (graph_sum crossing) (amp (exchange_gates 0 1)) }
    ensures exchange { IsExchange crossing 0 1 two_wires }
{}

/// A gadget on the input of a Hadamard gate and on a wire: it is peeled off through the gate's output, then the gate.
pub fn gadget_through_an_output()
    ensures gadget { (k : ℕ) → IsLinkedGadgetPeel (linked_gadget k) 3 0 (1 ∷ []) unlinked }
    ensures advance { IsAdvance unlinked 0 advanced_wires }
    ensures gates { (k : ℕ) → k < turn →
        Ends (linked_gadget k) (Gate.H 0 ∷ linked_gadget_gates k 0 (1 ∷ [])) }
{}
