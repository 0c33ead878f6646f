//! Diagrams of the ZX-calculus: Z and X spiders, plain edges and Hadamard edges, inputs and outputs.
//!
//! Proved: each call adds its one part after the others of its kind, and all else stays; readers
//! tell the lists; edges and ends are at spiders that are there; want of memory leaves the diagram
//! as it was. What a diagram means, its linear map as a sum over labels, stands in `specs/`.
//!
//! ```rust
//! let mut d = Diagram::new(alloc);
//! let u = d.add_spider(Colour::Z, Sixteenth::eighth_turn())?;
//! let v = d.add_spider(Colour::X, Sixteenth::new(0))?;
//! d.add_edge(u, v, false)?;
//! d.add_output(v, true)?;
//! ```
#![tactic(auto)]

mod diagram;
mod spider;
mod wire;

pub use diagram::Diagram;
pub use spider::{Colour, Spider};
pub use wire::{Leg, Wire};
