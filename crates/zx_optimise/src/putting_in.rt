//! Gates that are the identity put in, and phases put together.

ghost use Rattle.std.specs.Prelude.{◌≡◌, ℕ, IfOk, IfSome};
ghost use Rattle.zx_gates.specs.Circuit.{Circuit};
ghost use Rattle.zx_optimise.specs.Bounds.{most_root2_of_fewer};
ghost use Rattle.zx_optimise.specs.Internal.Making.{IsMadeOf, most_root2_of_one};

use std::alloc::{AllocError, Global};
use zx_gates::{GateList, ScaledCircuit, counts};
use zx_identities::{Insertion, put_in};
use zx_peephole::tidy;
use zx_pieces::product;
use zx_teleport::teleport;

/// The circuit with gates put in, where they are shown to be the identity, and its phases put together; after
/// cleanup. The old circuit's map is the scalar times that of the new one.
///
/// # Errors
///
/// Only where memory runs out.
pub(crate) fn teleported_with(
    alloc: Global,
    list: &GateList,
    insertion: &Insertion,
) -> Result<Option<ScaledCircuit>, AllocError>
    ensures { IfOk result (λ found. IfSome found (IsMadeOf most_root2_of_fewer list.now)) }
{
    let Some(longer) = put_in(alloc, list, insertion)? else {
        return Ok(None);
    };
    let made = teleported(alloc, &longer.gates)?;
    Ok(joined(&longer, made))
}

/// The same of a circuit that is made of another one, if fewer phases are odd then.
///
/// # Errors
///
/// Only where memory runs out.
pub(crate) fn with_fewer(
    alloc: Global,
    circuit: &ScaledCircuit,
    insertion: &Insertion,
) -> Result<Option<ScaledCircuit>, AllocError>
    ensures { (read : Circuit) → IsMadeOf most_root2_of_fewer read circuit.now →
        IfOk result (λ found. IfSome found (IsMadeOf most_root2_of_fewer read)) }
{
    match teleported_with(alloc, &circuit.gates, insertion)? {
        Some(made) if counts(&made.gates).odd < counts(&circuit.gates).odd => {
            Ok(joined(circuit, made))
        }
        _ => Ok(None),
    }
}

/// The circuit with phases put together, after cleanup.
///
/// # Errors
///
/// Only where memory runs out.
pub(crate) fn teleported(alloc: Global, list: &GateList) -> Result<ScaledCircuit, AllocError>
    ensures { IfOk result (IsMadeOf most_root2_of_one list.now) }
{
    let found = teleport(alloc, list)?;
    let mut gates = found.gates;
    let scalar = found.scalar.times(tidy(&mut gates));
    Ok(ScaledCircuit { gates, scalar })
}

/// A circuit with the scalar of one that it was made of by the way, where the exponent stays small.
pub(crate) fn joined(middle: &ScaledCircuit, made: ScaledCircuit) -> Option<ScaledCircuit>
    ensures made { (k : ℕ) (read : Circuit) → IsMadeOf most_root2_of_fewer read middle.now →
        IsMadeOf k middle.now.gates made → IfSome result (IsMadeOf most_root2_of_fewer read) }
    ensures gates { IfSome result (λ new. new.gates ≡ made.gates) }
{
    let scalar = product(&middle.scalar, &made.scalar)?;
    Some(ScaledCircuit {
        gates: made.gates,
        scalar,
    })
}
