//! Turns about the Z axis.

ghost use Rattle.std.specs.Prelude.{◌≡◌};
ghost use Rattle.zx_calculus.specs.Turns.{in_plane};
ghost use Rattle.open_graph.specs.Planes.{plane_named};

use crate::plane::Plane;
use zx_model::Sixteenth;

/// How far vertices turn about the Z axis.
#[derive(Clone, Copy, Debug, PartialEq, Eq)]
pub enum Turn {
    /// By a quarter.
    Quarter,
    /// By a half.
    Half,
}

impl Turn {
    ghost use Rattle.open_graph.specs.Turns.{turned_by, power_of};

    // Plane and phase after the turn.
    pub(crate) fn turned(self, plane: Plane, phase: Sixteenth) -> (Plane, Sixteenth)
        ensures { in_plane (plane_named result.0) result.1 ≡ turned_by self (in_plane (plane_named plane) phase) }
    {
        match self {
            Turn::Quarter => plane.with_quarter(phase),
            Turn::Half => plane.with_half(phase),
        }
    }

    // The power of z that the sum gets by the turn of a vertex of this plane and phase.
    pub(crate) fn power(self, plane: Plane, phase: Sixteenth) -> Sixteenth
        ensures { result ≡ power_of self (in_plane (plane_named plane) phase) }
    {
        match self {
            Turn::Quarter => plane.quarter_power(phase),
            Turn::Half => plane.half_power(phase),
        }
    }
}
