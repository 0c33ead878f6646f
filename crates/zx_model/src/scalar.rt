//! Scalars: powers of the root of two times powers of z.

ghost use Rattle.std.specs.Prelude.{◌≡◌};
ghost use Rattle.zx_model.specs.Scalar.{one_scalar, product_of_scalars, quotient_of_scalars, most_root2, IsWithin};

use crate::sixteenth::Sixteenth;

/// A scalar other than 0: a power of the root of two times a power of z = exp(i*pi/8).
#[derive(Clone, Copy, Debug, PartialEq, Eq)]
pub struct Scalar {
    /// The exponent of the root of two.
    pub root2: i64,
    /// The exponent of z, in sixteenth turns.
    pub turn: Sixteenth,
}

impl Scalar {
    /// The scalar 1.
    pub fn one() -> Scalar
        ensures { result ≡ one_scalar }
    {
        Scalar {
            root2: 0,
            turn: Sixteenth::new(0),
        }
    }

    /// The product of two scalars; the exponent of its root of two is at most 2^62 in size.
    pub fn times(self, other: Scalar) -> Scalar
        requires { IsWithin most_root2 (product_of_scalars self other) }
        ensures { result ≡ product_of_scalars self other }
    {
        Scalar {
            root2: self.root2 + other.root2,
            turn: self.turn.add(other.turn),
        }
    }

    /// This scalar over another; the exponent of the quotient's root of two is at most 2^62 in size.
    pub fn over(self, other: Scalar) -> Scalar
        requires { IsWithin most_root2 (quotient_of_scalars self other) }
        ensures { result ≡ quotient_of_scalars self other }
    {
        Scalar {
            root2: self.root2 - other.root2,
            turn: self.turn.add(other.turn.neg()),
        }
    }
}
