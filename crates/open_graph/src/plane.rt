//! Planes of measurement.

ghost use Rattle.std.specs.Prelude.{◌≡◌};
ghost use Rattle.zx_calculus.specs.Turns.{in_plane, quarter_turned, half_turned};
ghost use Rattle.zx_calculus.specs.Scalars.{quarter_power_in, half_power_in};

use zx_model::Sixteenth;

/// The plane of the Bloch sphere in which a vertex is measured.
#[derive(Clone, Copy, Debug, PartialEq, Eq)]
pub enum Plane {
    /// The plane of the X and Y axes.
    XY,
    /// The plane of the X and Z axes.
    XZ,
    /// The plane of the Y and Z axes.
    YZ,
}

impl Plane {
    ghost use Rattle.open_graph.specs.Planes.{plane_named};

    // Plane and phase after a quarter turn about the Z axis.
    pub(crate) fn with_quarter(self, phase: Sixteenth) -> (Plane, Sixteenth)
        ensures { in_plane (plane_named result.0) result.1 ≡ quarter_turned (in_plane (plane_named self) phase) }
    {
        match self {
            Plane::XY => (Plane::XY, phase.add(Sixteenth::quarter_turn())),
            Plane::XZ => (Plane::YZ, phase.neg()),
            Plane::YZ => (Plane::XZ, phase),
        }
    }

    // Plane and phase after a half turn about the Z axis.
    pub(crate) fn with_half(self, phase: Sixteenth) -> (Plane, Sixteenth)
        ensures { in_plane (plane_named result.0) result.1 ≡ half_turned (in_plane (plane_named self) phase) }
    {
        match self {
            Plane::XY => (Plane::XY, phase.add(Sixteenth::half_turn())),
            Plane::XZ => (Plane::XZ, phase.neg()),
            Plane::YZ => (Plane::YZ, phase.neg()),
        }
    }

    /// The power of z that the sum gets by a quarter turn of a vertex of this plane and phase, in
    /// sixteenth turns.
    pub fn quarter_power(self, phase: Sixteenth) -> Sixteenth
        ensures { result ≡ quarter_power_in (plane_named self) phase }
    {
        match self {
            Plane::XY | Plane::YZ => Sixteenth::new(0),
            Plane::XZ => phase,
        }
    }

    /// The power of z that the sum gets by a half turn of a vertex of this plane and phase, in
    /// sixteenth turns.
    pub fn half_power(self, phase: Sixteenth) -> Sixteenth
        ensures { result ≡ half_power_in (plane_named self) phase }
    {
        match self {
            Plane::XY => Sixteenth::new(0),
            Plane::XZ | Plane::YZ => phase,
        }
    }
}
