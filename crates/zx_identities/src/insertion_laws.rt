//! Gates that are the identity, put into a circuit.

ghost use Rattle.std.specs.Prelude.{◌++◌, [], ℕ, List};
ghost use Rattle.std.specs.List.{All};
ghost use Rattle.zx_model.specs.Scalar.{one_scalar, product_of_scalars};
ghost use Rattle.zx_gates.specs.Circuit.{IsGateOn};
ghost use Rattle.piece_laws.specs.Replacement.{AreScaled};
ghost use Rattle.zx_identities.specs.Inverse.{inverse_of, undone_scalar};

use zx_gates::Gate;
use zx_model::Scalar;

/// Gates that are the identity may stand anywhere in a circuit, between any gates and what undoes those:
/// the map changes by twice the root of two for each H of the gates around them. So may gates whose map is
/// a number.
pub fn identities_are_put_in()
    ensures identity { (n : ℕ) (before frame inner after : List Gate) → All (IsGateOn n) frame →
        AreScaled n inner one_scalar [] →
        AreScaled n (before ++ (frame ++ inner ++ inverse_of frame) ++ after) (undone_scalar frame) (before ++ after) }
    ensures scaled { (n : ℕ) (before frame inner after : List Gate) (s : Scalar) → All (IsGateOn n) frame →
        AreScaled n inner s [] → AreScaled n (before ++ (frame ++ inner ++ inverse_of frame) ++ after)
        (product_of_scalars s (undone_scalar frame)) (before ++ after) }
{}
