//! What the definitions of linear maps say of small circuits, for anyone to check by hand, and the laws of lowering.

ghost use Rattle.std.specs.Prelude.{◌≡◌, ℕ, Bool, List, [], ◌∷◌, length};
ghost use Rattle.std.specs.List.{All};
ghost use Rattle.zx_model.specs.Phase.{half_turn, quarter_turn, eighth_turn, opposite_phase};
ghost use Rattle.zx_model.specs.Proportional.{Proportional};
ghost use Rattle.zx_gates.specs.declared.elementary.ElementaryGate.{ElementaryGate};
ghost use Rattle.zx_gates.specs.declared.elementary.Elementary.{Elementary};
ghost use Rattle.zx_gates.specs.Circuit.{Circuit, IsCircuit, IsOnQubits, gate_odd_phases};
ghost use Rattle.zx_gates.specs.Elementary.{IsElementary, IsElementaryGateOn, elementary_odd_phases};
ghost use Rattle.zx_gates.specs.ElementaryMaps.{amp_elementary};
ghost use Rattle.zx_gates.specs.Lowering.{lowered};
ghost use Rattle.zx_gates.specs.Maps.{amp, swap_two, IsZeroRow, IsZeroMap};

use crate::gate::Gate;

/// Maps of small circuits, up to a nonzero scalar.
pub fn worked_maps()
    // on one qubit
    ensures two_hadamards { Proportional 1 1 (amp (Gate.H 0 ∷ Gate.H 0 ∷ [])) (amp []) }
    ensures hadamard_z_hadamard { Proportional 1 1
        (amp (Gate.H 0 ∷ Gate.Phase 0 half_turn ∷ Gate.H 0 ∷ [])) (amp (Gate.Not 0 ∷ [])) }
    ensures hadamard_x_hadamard { Proportional 1 1 (amp (Gate.H 0 ∷ Gate.Not 0 ∷ Gate.H 0 ∷ []))
        (amp (Gate.Phase 0 half_turn ∷ [])) }
    ensures two_nots { Proportional 1 1 (amp (Gate.Not 0 ∷ Gate.Not 0 ∷ [])) (amp []) }
    ensures two_ts_are_s { Proportional 1 1
        (amp (Gate.Phase 0 eighth_turn ∷ Gate.Phase 0 eighth_turn ∷ []))
        (amp (Gate.Phase 0 quarter_turn ∷ [])) }
    ensures two_roots_of_t_are_t { Proportional 1 1 (amp (Gate.Phase 0 1 ∷ Gate.Phase 0 1 ∷ []))
        (amp (Gate.Phase 0 eighth_turn ∷ [])) }
    ensures s_and_its_inverse { Proportional 1 1
        (amp (Gate.Phase 0 quarter_turn ∷ Gate.Phase 0 (opposite_phase quarter_turn) ∷ []))
        (amp []) }
    ensures t_between_nots_undoes_t { Proportional 1 1
        (amp (Gate.Not 0 ∷ Gate.Phase 0 eighth_turn ∷
        Gate.Not 0 ∷ Gate.Phase 0 eighth_turn ∷ [])) (amp []) }
    ensures t_is_not_s { ¬ Proportional 1 1 (amp (Gate.Phase 0 eighth_turn ∷ []))
        (amp (Gate.Phase 0 quarter_turn ∷ [])) }

    // on two qubits
    ensures cz_by_cx { Proportional 2 2 (amp (Gate.Cz 0 1 ∷ []))
        (amp (Gate.H 1 ∷ Gate.Cx 0 1 ∷ Gate.H 1 ∷ [])) }
    ensures cz_is_symmetric { Proportional 2 2 (amp (Gate.Cz 0 1 ∷ [])) (amp (Gate.Cz 1 0 ∷ [])) }
    ensures two_cx { Proportional 2 2 (amp (Gate.Cx 0 1 ∷ Gate.Cx 0 1 ∷ [])) (amp []) }
    ensures three_cx_exchange { Proportional 2 2
        (amp (Gate.Cx 0 1 ∷ Gate.Cx 1 0 ∷ Gate.Cx 0 1 ∷ [])) swap_two }
{}

/// Lowering keeps the linear map up to a nonzero scalar, and the number of odd phases.
pub fn lowering_keeps_map_and_odd_phases()
    ensures map { (n : ℕ) (gates : List ElementaryGate) → All (IsElementaryGateOn n) gates →
        Proportional n n (amp_elementary gates) (amp (lowered gates)) }
    ensures odd { (gates : List ElementaryGate) →
        gate_odd_phases (lowered gates) ≡ elementary_odd_phases gates }
{}

/// No circuit's map is the zero map, and no row of its matrix is zero. So the maps that are equal to one up to a
/// nonzero scalar are not all maps, nor is zero among them.
pub fn no_map_is_zero()
    ensures circuit { (c : Circuit) → IsCircuit c → ¬ IsZeroMap c.qubits (amp c.gates) }
    ensures elementary { (e : Elementary) → IsElementary e →
        ¬ IsZeroMap e.qubits (amp_elementary e.gates) }
    ensures row { (n : ℕ) (gates : List Gate) (y : List Bool) → All (IsOnQubits n) gates →
        length y ≡ n → ¬ IsZeroRow n (amp gates) y }
    ensures elementary_row { (n : ℕ) (gates : List ElementaryGate) (y : List Bool) →
        All (IsElementaryGateOn n) gates → length y ≡ n → ¬ IsZeroRow n (amp_elementary gates) y }
{}
