//! Spiders at the other ends of plain edges.

ghost use Rattle.std.specs.Prelude.{◌≡◌, ◌<◌, ◌++◌, [], ◌∷◌, length, slice_index_or, OnOk};

use std::alloc::{AllocError, Global};
use std::marker::Model;

// The spiders at the other ends of a spider's plain edges, one for each end of an edge.
#[derive(Drop)]
pub(crate) struct Near {
    spiders: Vec<usize>,
}

impl Model for Near {
    ghost use Rattle.std.specs.Prelude.{ℕ, List};

    ghost Value = { List ℕ };

    ghost view = { λ near. near.spiders.items };
}

impl Near {
    // No spiders.
    pub(crate) fn new(alloc: Global) -> Near
        ensures { result ≡ [] }
    {
        Near {
            spiders: Vec::new(alloc),
        }
    }

    // Adds a spider after all others.
    pub(crate) fn push(&mut self, spider: usize) -> Result<(), AllocError>
        ensures { OnOk result (self.new ≡ self.old ++ spider ∷ []) }
    {
        self.spiders.push(spider)?;
        Ok(())
    }

    // Adds all of another list.
    pub(crate) fn append(&mut self, other: Near) -> Result<(), AllocError>
        ensures { OnOk result (self.new ≡ self.old ++ other) }
    {
        self.spiders.extend_from_slice(&other.spiders)
    }

    // How many there are.
    pub(crate) fn len(&self) -> usize
        ensures { result ≡ length self.now }
    {
        self.spiders.len()
    }

    // The spider at a place.
    pub(crate) fn at(&self, i: usize) -> usize
        requires { i < length self.now }
        ensures { result ≡ slice_index_or self.now i 0 }
    {
        self.spiders[i]
    }
}
