//! Sets of vertices.

ghost use Rattle.std.specs.Prelude.{◌≡◌, ◌&&◌, ◌==◌, ℕ, not, IfOk, OnOk};
ghost use Rattle.zx_model.specs.Bits.{member};
ghost use Rattle.zx_calculus.specs.Graph.{Distinct};
ghost use Rattle.gflow_laws.specs.Flow.{is_in};

use open_graph::{VertexId, VertexSet};
use std::alloc::{AllocError, Global};

// The set of these vertices.
pub(crate) fn set_of(alloc: Global, vertices: &[VertexId]) -> Result<VertexSet, AllocError>
    requires { Distinct vertices.now }
    ensures { IfOk result (λ set. (w : ℕ) → is_in set.ids w ≡ member w vertices.now) }
{
    let mut set = VertexSet::new(alloc);
    set.toggle_each(vertices)?;
    Ok(set)
}

// Takes a vertex out of a set.
pub(crate) fn take_out(set: &mut VertexSet, v: VertexId) -> Result<(), AllocError>
    ensures { OnOk result ((w : ℕ) → is_in set.new.ids w ≡ (not (w == v) && is_in set.old.ids w)) }
{
    if !set.contains(v) {
        return Ok(());
    }
    set.toggle(v)
}
