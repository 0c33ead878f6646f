//! Spiders.

use zx_model::Sixteenth;

/// The colour of a spider: the basis in which it copies.
#[derive(Clone, Copy, Debug, PartialEq, Eq)]
pub enum Colour {
    /// A Z spider, often drawn green or white.
    Z,
    /// An X spider, often drawn red or grey: a Z spider with a Hadamard on each of its wires.
    X,
}

/// A spider of a diagram.
#[derive(Clone, Copy, Debug, PartialEq, Eq)]
pub struct Spider {
    /// Its colour.
    pub colour: Colour,
    /// Its phase.
    pub phase: Sixteenth,
}
