//! The scalar of a circuit's text.

ghost use Rattle.std.specs.Prelude.{◌≡◌, ◌*◌, length};
ghost use Rattle.zx_model.specs.Scalar.{IsScaled, IsWithin};
ghost use Rattle.zx_gates.specs.ElementaryMaps.{amp_elementary};
ghost use Rattle.zx_gates.specs.Maps.{amp};
ghost use Rattle.qasm_writer.specs.Elements.{elements_of};
ghost use Rattle.qasm_writer.specs.Internal.LineScalars.{line_scalar};

use zx_gates::{Gate, GateList};
use zx_model::{Scalar, Sixteenth};

/// The scalar that the map of a circuit's text is times the circuit's own. It takes no memory.
pub fn text_scalar(g: &GateList) -> Scalar
    ensures scaled { IsScaled g.now.qubits g.now.qubits
        (amp_elementary (elements_of g.now.gates)) result (amp g.now.gates) }
    ensures small { IsWithin (4 * length g.now.gates) result }
{
    let mut scalar = Scalar::one();
    for gate in g.gates() {
        scalar = scalar.times(line_scalar(gate));
    }
    scalar
}

// The scalar that what a gate's line means is times the gate.
fn line_scalar(gate: &Gate) -> Scalar
    ensures { result ≡ line_scalar gate.now }
{
    match *gate {
        Gate::H(_) => Scalar {
            root2: 1,
            turn: Sixteenth::eighth_turn(),
        },
        Gate::Phase(..) => Scalar {
            root2: 2,
            turn: Sixteenth::new(0),
        },
        Gate::Cz(..) => Scalar {
            root2: 4,
            turn: Sixteenth::quarter_turn(),
        },
        Gate::Cx { .. } => Scalar::one(),
        Gate::Not(_) => Scalar {
            root2: 2,
            turn: Sixteenth::quarter_turn(),
        },
    }
}
