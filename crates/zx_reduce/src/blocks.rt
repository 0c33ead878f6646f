//! Blocks of spiders, in the order in which these come.

use crate::levels::{LEVELS, block_size, level_between};
use open_graph::VertexId;
use std::alloc::{AllocError, Global};
use vertex_map::{Values, VertexMap};
use zx_gates::Qubit;

// The numbers of the blocks in which vertices came; those of the circuit's begin came in the first one.
struct Birth;

impl Values for Birth {
    type Value = usize;

    ghost absent = { λ _. 0 };

    fn absent(_: usize) -> usize {
        0
    }
}

// How far the present block is, and in which block each vertex came. Blocks are parted in pairs, pairs of
// pairs and so on: a vertex between two blocks has the level of the least such group that has both.
#[derive(Drop)]
pub(crate) struct Blocks {
    born: VertexMap<Birth>,
    size: usize,
    left: usize,
    number: usize,
}

impl Blocks {
    // Before the first spider of so many qubits.
    pub(crate) fn begin(alloc: Global, qubits: Qubit) -> Blocks {
        let size = block_size(usize::from(qubits));
        Blocks {
            born: VertexMap::new(alloc),
            size,
            left: size,
            number: 0,
        }
    }

    // Writes down that a vertex comes in the present block.
    pub(crate) fn bear(&mut self, v: VertexId) -> Result<(), AllocError> {
        self.born.set(v.get(), self.number)
    }

    // A vertex is as old as another from now on.
    pub(crate) fn inherit(&mut self, v: VertexId, other: VertexId) -> Result<(), AllocError> {
        let number = self.born.get(other.get());
        self.born.set(v.get(), number)
    }

    // The level of a vertex behind which the present block is.
    pub(crate) fn level_of(&self, v: VertexId) -> u8 {
        level_between(self.born.get(v.get()), self.number)
    }

    // Counts a spider, and answers up to which level groups of blocks end with it, where a block does.
    pub(crate) fn count(&mut self) -> Option<usize> {
        self.left = self.left.saturating_sub(1);
        if self.left > 0 {
            return None;
        }
        self.left = self.size;
        self.number = self.number.saturating_add(1);
        Some((self.number.trailing_zeros() as usize).min(LEVELS - 1))
    }
}
