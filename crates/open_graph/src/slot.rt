//! What is kept of a vertex.

ghost use Rattle.std.specs.Prelude.{◌≡◌};

use crate::plane::Plane;
use crate::vertex_set::VertexSet;
use std::alloc::AllocError;
use zx_model::Sixteenth;

// A vertex: its plane and phase, its neighbours, and the places of its ends among inputs and outputs.
#[derive(Drop)]
pub(crate) struct Slot {
    pub(crate) plane: Plane,
    pub(crate) phase: Sixteenth,
    pub(crate) row: VertexSet,
    pub(crate) input: Option<usize>,
    pub(crate) output: Option<usize>,
}

impl Clone for Slot {
    ghost is_clone = { λ slot copy. (copy.plane ≡ slot.plane) × (copy.phase ≡ slot.phase)
        × (copy.row.ids ≡ slot.row.ids) × (copy.input ≡ slot.input) × (copy.output ≡ slot.output) };

    fn clone(&self) -> Result<Slot, AllocError> {
        Ok(Slot {
            plane: self.plane,
            phase: self.phase,
            row: self.row.clone()?,
            input: self.input,
            output: self.output,
        })
    }
}
