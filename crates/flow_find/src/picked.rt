//! Which rows are added.

ghost use Rattle.std.specs.Prelude.{◌≡◌, ◌&&◌, ◌==◌, ℕ, IfOk};
ghost use Rattle.zx_model.specs.Bits.{member};
ghost use Rattle.zx_calculus.specs.Graph.{IsVertex};
ghost use Rattle.gflow_laws.specs.Seen.{seen};
ghost use Rattle.flow_find.specs.Frontiers.{around};

use open_graph::{OpenGraph, VertexId, VertexSet};
use std::alloc::{AllocError, Global};

// The neighbours of a vertex, itself, or both.
#[derive(Drop)]
pub(crate) struct Around {
    pub(crate) vertex: VertexId,
    pub(crate) neighbours: bool,
    pub(crate) itself: bool,
}

impl Around {
    // Whether a vertex is one of these.
    pub(crate) fn has(&self, g: &OpenGraph, w: VertexId) -> bool
        requires { IsVertex g.now.graph self.now.vertex }
        ensures { result ≡ around (seen g.now.graph)
            self.now.vertex self.now.neighbours self.now.itself w }
    {
        let is_near = self.neighbours && g.has_edge(self.vertex, w);
        let is_there = self.itself && w == self.vertex;
        is_near != is_there
    }

    // The vertex alone, where its neighbours are among these; otherwise none.
    pub(crate) fn own_member(&self, alloc: Global) -> Result<VertexSet, AllocError>
        ensures { IfOk result (λ set. (w : ℕ) →
            member w set.ids ≡ (self.now.neighbours && (w == self.now.vertex))) }
    {
        if self.neighbours {
            VertexSet::one(alloc, self.vertex)
        } else {
            Ok(VertexSet::new(alloc))
        }
    }
}
