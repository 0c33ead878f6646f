//! Exact angles of OpenQASM expressions: each is r + s*pi for fractions r and s.
//!
//! Proved: `eval` gives the value of an expression's tree, or what is wrong with the first
//! operation in postfix order that has none; `Literal::read` gives the exact value of a number as
//! it is spelled, with its limits; `to_sixteenth` answers an angle's sixteenth turns exactly where
//! it has them; the operations on fractions in lowest terms.
//!
//! ```rust
//! let angle = eval(alloc, &expression, &[])?;
//! let phase = to_sixteenth(&angle);    // None where it is no whole number of sixteenth turns
//! ```
#![tactic(auto)]

mod angle;
mod errors;
mod evaluation;
mod expression;
mod fraction;
mod laws;
mod literal;
mod scaling;
mod significand;
mod sixteenths;

pub use angle::Angle;
pub use errors::{AngleError, AngleFault};
pub use evaluation::{eval, folded};
pub use expression::{Expr, ExprItem, Operation};
pub use fraction::Fraction;
pub use laws::{
    lowest_terms, sixteenths_are_unique, steps_of_trees, worked_angles, worked_numbers,
    worked_phases,
};
pub use literal::Literal;
pub use sixteenths::to_sixteenth;
