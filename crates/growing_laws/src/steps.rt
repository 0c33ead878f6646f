//! The laws of steps and runs beside added gates.

ghost use Rattle.std.specs.Prelude.{◌≡◌, ℕ, false, length};
ghost use Rattle.zx_calculus.specs.Graph.{Graph, WellFormed};
ghost use Rattle.zx_calculus.specs.Steps.{Step, IsStep};
ghost use Rattle.zx_calculus.specs.StepScalars.{step_scalar};
ghost use Rattle.move_laws.specs.Orders.{is_split};
ghost use Rattle.zx_gates.specs.Circuit.{IsOnQubits};
ghost use Rattle.growing_laws.specs.Growing.{IsFree, placed};

use zx_gates::Gate;

/// A step that splits nothing is one of the graph with a gate behind its outputs too, and leads to
/// what the gate behind the graph after it is. Its exact scalar is the same in both.
pub fn steps_commute_with_gates()
    ensures step { (new : ℕ) (g : Graph) (s : Step) (h : Graph) (gate : Gate) → WellFormed g →
        is_split s ≡ false → IsFree new g → IsOnQubits (length g.outputs) gate → IsStep g s h →
        IsStep (placed new g gate) s (placed new h gate) }
    ensures scalar { (new : ℕ) (g : Graph) (s : Step) (h : Graph) (gate : Gate) → WellFormed g →
        is_split s ≡ false → IsFree new g → IsOnQubits (length g.outputs) gate → IsStep g s h →
        step_scalar (placed new g gate) s ≡ step_scalar g s }
{}
