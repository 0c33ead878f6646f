//! Phases in sixteenth turns, and the exact numbers that linear maps of circuits are made of.
//!
//! Proved: `Sixteenth` is arithmetic modulo 16; the exact numbers form a commutative ring in which
//! z^8 = -1, without zero divisors; proportionality is an equivalence; `Scalar`, a power of the
//! root of two times one of z, multiplies and divides as the scalars of matrices do; and laws of
//! sums over labels.
//!
//! ```rust
//! let t = Sixteenth::new(2);     // the phase of a T gate
//! let s = t.add(t);              // s.get() is 4, and s.is_odd() is false
//! ```
#![tactic(auto)]

mod laws;
mod scalar;
mod sixteenth;

pub use laws::{
    bits_form_a_field, numbers_form_a_commutative_ring, numbers_have_no_zero_divisors,
    proportionality_is_an_equivalence, root_is_a_primitive_sixteenth_root, scalars_multiply,
    sums_over_labels, which_phases_are_odd,
};
pub use scalar::Scalar;
pub use sixteenth::Sixteenth;
