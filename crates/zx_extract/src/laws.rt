//! What a flow says of the rows of the outputs.

ghost use Rattle.std.specs.Prelude.{◌≡◌, ℕ, Bool, false, List, length};
ghost use Rattle.zx_calculus.specs.Graph.{Graph, WellFormed};
ghost use Rattle.gflow_laws.specs.Flow.{Correction, IsFlow};
ghost use Rattle.zx_extract.specs.Independence.{HasOutputsAlone, SumsToZero};

/// The rows of the outputs that are no inputs, over the vertices that are no outputs, are linearly
/// independent: where a set of them sums to zero, it is empty.
pub fn rows_of_outputs_are_independent()
    ensures { (g : Graph) (table : List Correction) (set : ℕ → Bool) → WellFormed g →
        IsFlow g table → length g.inputs ≡ length g.outputs → HasOutputsAlone g set →
        SumsToZero g set → (w : ℕ) → set w ≡ false }
{}
