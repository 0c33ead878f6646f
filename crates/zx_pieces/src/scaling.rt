//! Products of scalars that stay small.

ghost use Rattle.std.specs.Prelude.{◌≡◌, IfSome};
ghost use Rattle.zx_model.specs.Scalar.{IsWithin, product_of_scalars};
ghost use Rattle.zx_pieces.specs.Scaling.{most_root2_of_pass};

use zx_model::Scalar;

// The greatest exponent of the root of two, in size.
const MOST_ROOT2: u64 = 1 << 50;

/// The product of two scalars, where its exponent of the root of two is at most 2^50 in size.
pub fn product(s: &Scalar, t: &Scalar) -> Option<Scalar>
    ensures value { IfSome result (λ made. made ≡ product_of_scalars s.now t.now) }
    ensures within { IfSome result (IsWithin most_root2_of_pass) }
{
    let root2 = s.root2.checked_add(t.root2)?;
    if root2.unsigned_abs() > MOST_ROOT2 {
        return None;
    }
    Some(Scalar {
        root2,
        turn: s.turn.add(t.turn),
    })
}
