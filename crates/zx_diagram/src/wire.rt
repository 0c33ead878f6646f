//! Wires between spiders, and wires that end outside.

/// An edge between two spiders, or from a spider to itself.
#[derive(Clone, Copy, Debug, PartialEq, Eq)]
pub struct Wire {
    /// The number of the spider at one end.
    pub a: usize,
    /// The number of the spider at the other end.
    pub b: usize,
    /// Whether the wire carries a Hadamard.
    pub hadamard: bool,
}

/// An input or output wire of a diagram.
#[derive(Clone, Copy, Debug, PartialEq, Eq)]
pub struct Leg {
    /// The number of the spider that it is at.
    pub spider: usize,
    /// Whether the wire carries a Hadamard.
    pub hadamard: bool,
}
