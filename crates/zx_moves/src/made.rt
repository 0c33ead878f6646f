//! What moves come to.

use zx_model::Scalar;

/// What moves came to: the sum before is so many times the sum after, and so many moves were made.
#[derive(Drop)]
pub struct Made {
    /// The sum before is so many times the sum after.
    pub scalar: Scalar,
    /// How many moves were made.
    pub moves: u64,
}
