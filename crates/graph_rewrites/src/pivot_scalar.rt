//! By which scalar a pivot changes the sum.

ghost use Rattle.std.specs.Prelude.{◌≡◌, true};
ghost use Rattle.zx_model.specs.Scalar.{IsWithin};
ghost use Rattle.zx_calculus.specs.Graph.{plane_of, phase_of, IsVertex, WellFormed};
ghost use Rattle.zx_calculus.specs.Steps.{allowed, Pivot};
ghost use Rattle.zx_calculus.specs.StepScalars.{step_scalar};
ghost use Rattle.zx_calculus.specs.Pivots.{pivot_scalar_in, common_neighbours};
ghost use Rattle.zx_calculus.specs.Scalars.{half_powers};

use open_graph::{OpenGraph, Plane, VertexId};
use zx_model::{Scalar, Sixteenth};

// The scalar of a pivot of two adjacent interior vertices: the sum before is so many times the sum after.
pub(crate) fn pivot_scalar(g: &OpenGraph, u: VertexId, v: VertexId) -> Scalar
    requires { allowed g.now.graph (Pivot u v) ≡ true }
    ensures value { result ≡ step_scalar g.now.graph (Pivot u v) }
    ensures valid { WellFormed g.now.graph }
{
    let half = Scalar {
        root2: -2,
        turn: Sixteenth::new(0),
    };
    let turned = Scalar {
        root2: 0,
        turn: common_half_powers(g, u, v),
    };
    let both = own_scalar(g, u).times(own_scalar(g, v));
    half.times(both.times(turned))
}

// What one of the two vertices gives.
fn own_scalar(g: &OpenGraph, u: VertexId) -> Scalar
    requires { IsVertex g.now.graph u }
    ensures value { result ≡ pivot_scalar_in (plane_of g.now.graph u) (phase_of g.now.graph u) }
    ensures small { IsWithin 2 result }
    ensures valid { WellFormed g.now.graph }
{
    let (plane, phase) = g.weight(u);
    match plane {
        Plane::XY => Scalar::one(),
        Plane::XZ => Scalar {
            root2: 1,
            turn: phase.add(Sixteenth::new(14)),
        },
        Plane::YZ => Scalar {
            root2: 2,
            turn: Sixteenth::new(0),
        },
    }
}

// The power of z that a half turn of each common neighbour of two vertices gives.
fn common_half_powers(g: &OpenGraph, u: VertexId, v: VertexId) -> Sixteenth
    requires u_live { IsVertex g.now.graph u }
    requires v_live { IsVertex g.now.graph v }
    ensures value { result ≡ half_powers g.now.graph (common_neighbours g.now.graph u v) }
{
    let mut sum = Sixteenth::new(0);
    for p in g.neighbours(u) {
        if g.has_edge(v, p) {
            let (plane, phase) = g.weight(p);
            sum = sum.add(plane.half_power(phase));
        }
    }
    sum
}
