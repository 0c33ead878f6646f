//! Circuits made smaller piece by piece, each piece shown to be the same.
//!
//! Proved of `replace_pieces` and `shrink`: the circuit that they make has as many qubits, no more odd
//! phases, and no more gates on two qubits; or as many of these and no more gates in all. The old
//! circuit's map is a scalar other than 0 times the new one's, which they answer. That it has fewer
//! gates isn't proved. Whatever proposes another list for a piece, it is taken only where `zx_same`
//! shows by which scalar the maps differ. Of `shrink` besides, that no gates in what it makes cancel or
//! merge. `product` multiplies scalars as long as they stay small.
//!
//! One list for a piece is what `pauli_network` makes of it, another what a search finds, which writes the
//! piece again and again, part by part: gates on a few qubits from a place on, past gates that they commute
//! with. What has as many gates on two qubits is taken as well, since later tries may find more from there.
//! Places, sizes and noise come from a generator: equal arguments give equal circuits. Nothing is proved of
//! the search but that what it makes is a circuit on as many qubits.
//!
//! Inside:
//!
//! - `manner`, `passes`: which pieces are taken, pass by pass; `shrink`.
//! - `walking`, `choosing`: gates on a few qubits gathered to a piece.
//! - `narrowing`: a piece on its own qubits alone, and back.
//! - `searching`, `parts`, `drawing`: the search for another list.
//! - `replacing`, `scaling`: `replace_pieces`, and the scalar.
//!
//! ```rust
//! let smaller = shrink(alloc, &circuit)?;
//! ```
#![tactic(auto)]

mod choosing;
mod drawing;
mod manner;
mod narrowing;
mod parts;
mod passes;
mod replacing;
mod scaling;
mod searching;
mod walking;

pub use passes::shrink;
pub use replacing::replace_pieces;
pub use scaling::product;
