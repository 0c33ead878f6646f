//! Sets that calls on a graph fill for their own use.

ghost use Rattle.std.specs.Prelude.{◌≡◌, ◌≤◌, ℕ, OnOk};
ghost use Rattle.open_graph.specs.Internal.Room.{CanHold};

use crate::vertex_set::VertexSet;
use std::alloc::{AllocError, Global};

// Two sets, of which nothing is kept from call to call but their memory.
#[derive(Drop)]
pub(crate) struct Scratch {
    pub(crate) near: VertexSet,
    pub(crate) far: VertexSet,
}

impl Scratch {
    pub(crate) fn new(alloc: Global) -> Scratch {
        Scratch {
            near: VertexSet::new(alloc),
            far: VertexSet::new(alloc),
        }
    }

    // Takes the memory for all ids below a bound in both sets. Where it runs out, one may have it.
    pub(crate) fn reserve(&mut self, bound: usize) -> Result<(), AllocError>
        ensures keeps { (reach : ℕ) → CanHold reach self.old → CanHold reach self.new }
        ensures ok { OnOk result (CanHold bound self.new) }
    {
        self.near.reserve(bound)?;
        self.far.reserve(bound)
    }
}
