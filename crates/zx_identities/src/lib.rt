//! Gates that are the identity: a circuit and what undoes it, and gates without H that do nothing, told by the basis
//! states of low weight and put into circuits.
//!
//! Proved of `inverse` and `push_inverse`: which gates they make, in which order. By the laws a circuit
//! followed by its inverse is the identity, by the scalar that `undone_scalar` tells, and circuits of which
//! one undoes the other have one map.
//!
//! Proved of `is_identity`: whoever made the gates, it says yes only where their map is exactly that of no
//! gates; and of gates without H, on at most 127 qubits, that keep each basis state and put no phase there,
//! it always does. Of `put_in` and `put_all_in`: on as many qubits, the circuit's map is a told scalar
//! times that of the new one, whatever was asked to be put in. A T on each parity of four qubits is an
//! example: de Beaudrap, Bian and Wang, "Fast and effective techniques for T-count reduction via spider
//! nest identities" (arXiv 2004.05164).
//!
//! The laws behind it are functions that do nothing. A gate other than H makes of each basis state one basis
//! state with a phase, so a list of them is told by what it makes of each. A phase polynomial of whole eighth
//! turns that is 0 where at most three bits are set is 0 at all: its coefficients of higher degree are whole
//! turns, and those of degree one to three are its signature tensor. And gates that are the identity may stand
//! anywhere in a circuit between others and their inverse, with the scalar told.
//!
//! Inside:
//!
//! - `inversion`, `inverse_laws`: what undoes a circuit.
//! - `polynomial_laws`, `basis_state_laws`: phase polynomials, and gates without H.
//! - `insertion_laws`: gates that are the identity, between others and their inverse.
//! - `parities`: gates without H as parities of the qubits with phases.
//! - `packing`: 64 of those to a word.
//! - `weights`: all basis states of low weight.
//! - `checking`: `is_identity`.
//! - `inserting`: `put_in`, `put_all_in`.
//!
//! ```rust
//! let back = inverse(alloc, &circuit)?;
//! let made = put_all_in(alloc, &circuit, &insertions)?;
//! ```
#![tactic(auto)]

mod basis_state_laws;
mod checking;
mod inserting;
mod insertion_laws;
mod inverse_laws;
mod inversion;
mod packing;
mod parities;
mod polynomial_laws;
mod weights;

pub use basis_state_laws::{gates_map_basis_states, low_weights_decide_maps};
pub use checking::is_identity;
pub use inserting::{Insertion, put_all_in, put_in};
pub use insertion_laws::identities_are_put_in;
pub use inverse_laws::inverses_undo_circuits;
pub use inversion::{inverse, push_inverse, undone_scalar};
pub use polynomial_laws::{low_weights_decide, lower_weights_do_not_decide};
