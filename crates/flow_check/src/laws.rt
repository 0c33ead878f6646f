//! What first failures are.

ghost use Rattle.std.specs.Prelude.{◌≡◌, ◌↔◌, ℕ, true, List};
ghost use Rattle.std.specs.List.{list_all};
ghost use Rattle.gflow_laws.specs.Seen.{Seen};
ghost use Rattle.gflow_laws.specs.Flow.{Correction, order_of, IsTableOf, IsFlowOf};
ghost use Rattle.flow_check.specs.declared.verdict.Condition.{Condition};
ghost use Rattle.flow_check.specs.Failures.{all_hold, IsFirstFailure};

/// A table is a flow exactly where all conditions hold at each vertex of the order. There is one
/// first failure at most, and none in a flow.
pub fn a_first_failure_is_alone()
    ensures flow { (s : Seen) (table : List Correction) → IsTableOf s table →
        IsFlowOf s table ↔ (list_all (all_hold s table) (order_of table) ≡ true) }
    ensures no_flow { (s : Seen) (table : List Correction) (v : ℕ) (condition : Condition) →
        IsFirstFailure s table v condition → IsFlowOf s table → ⊥ }
    ensures alone { (s : Seen) (table : List Correction) (v w : ℕ) (first other : Condition) →
        IsFirstFailure s table v first → IsFirstFailure s table w other →
        (v ≡ w) × (first ≡ other) }
{}
