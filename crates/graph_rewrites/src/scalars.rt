//! By which scalars the rewrites change the sum.

ghost use Rattle.std.specs.Prelude.{◌≡◌};
ghost use Rattle.zx_model.specs.Scalar.{product_of_scalars, IsWithin};
ghost use Rattle.zx_calculus.specs.Scalars.{turn_by};
ghost use Rattle.zx_calculus.specs.Complements.{complement_scalar_in};
ghost use Rattle.zx_calculus.specs.Deletions.{delete_scalar_in};
ghost use Rattle.open_graph.specs.Planes.{plane_named};

use open_graph::Plane;
use zx_model::{Scalar, Sixteenth};

// The scalar of a local complement about a vertex of this plane and phase, where the turns of its neighbours
// give this power of z: the sum before is so many times the sum after.
pub(crate) fn complement_scalar(plane: Plane, phase: Sixteenth, powers: Sixteenth) -> Scalar
    ensures { result ≡ product_of_scalars (complement_scalar_in (plane_named plane) phase) (turn_by powers) }
{
    own_complement_scalar(plane, phase).times(turn_by(powers))
}

// The scalar of the deletion of a vertex of a half turn in this plane, where the turns of its neighbours
// give this power of z: the sum before is so many times the sum after.
pub(crate) fn delete_scalar(plane: Plane, powers: Sixteenth) -> Scalar
    ensures { result ≡ product_of_scalars (delete_scalar_in (plane_named plane)) (turn_by powers) }
{
    own_delete_scalar(plane).times(turn_by(powers))
}

// What the vertex gives to the scalar of a local complement about it.
fn own_complement_scalar(plane: Plane, phase: Sixteenth) -> Scalar
    ensures value { result ≡ complement_scalar_in (plane_named plane) phase }
    ensures small { IsWithin 2 result }
{
    match plane {
        Plane::XY => Scalar {
            root2: -1,
            turn: Sixteenth::new(14),
        },
        Plane::XZ => Scalar {
            root2: 1,
            turn: phase.add(Sixteenth::new(14)),
        },
        Plane::YZ => Scalar::one(),
    }
}

// What a vertex of a half turn gives to the scalar of its deletion.
fn own_delete_scalar(plane: Plane) -> Scalar
    ensures value { result ≡ delete_scalar_in (plane_named plane) }
    ensures small { IsWithin 2 result }
{
    let turn = match plane {
        Plane::XY | Plane::YZ => Sixteenth::new(0),
        Plane::XZ => Sixteenth::quarter_turn(),
    };
    Scalar { root2: 2, turn }
}

// A power of z alone.
fn turn_by(turn: Sixteenth) -> Scalar
    ensures { result ≡ turn_by turn }
{
    Scalar { root2: 0, turn }
}
