//! Ids of vertices.

ghost use Rattle.std.specs.Prelude.{◌≡◌};

use std::marker::Model;

/// The id of a vertex. That of a removed vertex is given again once it is the least that is free.
#[derive(Clone, Copy, Debug, Default, PartialEq, Eq)]
pub struct VertexId {
    number: usize,
}

impl Model for VertexId {
    ghost use Rattle.std.specs.Prelude.{ℕ};

    ghost Value = { ℕ };

    ghost view = { λ id. id.number };

    ghost inverse = { λ n. record { number = n } };
}

impl VertexId {
    /// The id of this number.
    pub fn new(number: usize) -> VertexId
        ensures { result ≡ number }
    {
        VertexId { number }
    }

    /// The number of the id.
    pub fn get(self) -> usize
        ensures { result ≡ self }
    {
        self.number
    }
}
