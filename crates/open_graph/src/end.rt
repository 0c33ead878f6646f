//! Ends of wires.

use crate::id::VertexId;
use std::marker::Model;

/// An input or output wire of a graph.
#[derive(Clone, Copy, Debug, PartialEq, Eq)]
pub struct End {
    /// The vertex that holds it.
    pub vertex: VertexId,
    /// Whether the wire carries a Hadamard.
    pub hadamard: bool,
}

impl Model for End {
    ghost use Rattle.zx_calculus.specs.Graph.{End as Wire};

    ghost Value = { Wire };

    ghost view = { λ e. record { vertex = e.vertex; hadamard = e.hadamard } };

    ghost inverse = { λ w. record { vertex = w.vertex; hadamard = w.hadamard } };
}

impl End {
    ghost use Rattle.std.specs.Prelude.{◌≡◌, false};

    /// An end without a Hadamard.
    pub fn plain(vertex: VertexId) -> End
        ensures { result ≡ record { vertex = vertex; hadamard = false } }
    {
        End {
            vertex,
            hadamard: false,
        }
    }
}
