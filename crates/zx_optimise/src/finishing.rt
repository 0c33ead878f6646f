//! Circuits with fewer odd phases, and with pieces of them replaced by smaller ones.

ghost use Rattle.std.specs.Prelude.{◌≡◌, ◌<◌, ◌⊎◌, IfOk, IfSome};
ghost use Rattle.zx_gates.specs.Circuit.{Circuit, gate_odd_phases};
ghost use Rattle.zx_gates.specs.Passes.{Preserves};
ghost use Rattle.zx_peephole.specs.Tidy.{IsTidy};
ghost use Rattle.zx_optimise.specs.Bounds.{most_root2_of_fewer};
ghost use Rattle.zx_optimise.specs.Internal.Making.{IsMadeOf};

use crate::limits::{LONG, MOST_QUBITS, MOST_WHOLE, WHOLE_EFFORT};
use crate::long_lists::by_pieces;
use crate::putting_in::joined;
use crate::rounds::ends;
use std::alloc::{AllocError, Global};
use zx_gates::{GateList, ScaledCircuit, counts};
use zx_model::Scalar;
use zx_pieces::{replace_pieces, shrink};

/// A circuit with fewer odd phases, by phases put in that do nothing together, and with pieces of it replaced by
/// smaller ones, where such is found. The circuit's map is the scalar times its own.
///
/// # Errors
///
/// Only where memory runs out.
pub fn with_fewer_odd_phases(
    alloc: Global,
    list: &GateList,
) -> Result<Option<ScaledCircuit>, AllocError>
    ensures kept { IfOk result (λ found. IfSome found (λ made.
        Preserves most_root2_of_fewer list.now made.gates made.scalar)) }
    ensures fewer { IfOk result (λ found. IfSome found (λ made.
        gate_odd_phases made.gates.gates < gate_odd_phases list.now.gates)) }
    ensures tidy { IfOk result (λ found. IfSome found (λ made. IsTidy made.gates.gates)) }
{
    if list.qubits() > MOST_QUBITS {
        return Ok(None);
    }
    match shortest(alloc, list)? {
        Some(made) if counts(&made.gates).odd < counts(list).odd => Ok(Some(made)),
        _ => Ok(None),
    }
}

// Of such circuits one with the fewest odd phases, and of these one with the fewest gates on two qubits.
fn shortest(alloc: Global, list: &GateList) -> Result<Option<ScaledCircuit>, AllocError>
    ensures made { IfOk result (λ found. IfSome found (IsMadeOf most_root2_of_fewer list.now)) }
    ensures tidy { IfOk result (λ found. IfSome found (λ made. IsTidy made.gates.gates)) }
{
    if counts(list).odd > LONG {
        return match by_pieces(alloc, list)? {
            Some(made) => finished(alloc, &made),
            None => Ok(None),
        };
    }
    let ends = ends(alloc, list, WHOLE_EFFORT)?;
    let mut best = None;
    for end in &ends {
        best = cheaper(best, finished(alloc, end)?);
    }
    Ok(best)
}

// The circuit with pieces of it replaced by smaller ones.
fn finished(alloc: Global, circuit: &ScaledCircuit) -> Result<Option<ScaledCircuit>, AllocError>
    ensures made { (read : Circuit) → IsMadeOf most_root2_of_fewer read circuit.now →
        IfOk result (λ found. IfSome found (IsMadeOf most_root2_of_fewer read)) }
    ensures tidy { IfOk result (λ found. IfSome found (λ made. IsTidy made.gates.gates)) }
{
    let whole = written_again(alloc, &circuit.gates)?;
    let Some(whole) = joined(circuit, whole) else {
        return Ok(None);
    };
    let made = shrink(alloc, &whole.gates)?;
    Ok(joined(&whole, made))
}

// The circuit written again as a whole, where it isn't too long and becomes smaller.
fn written_again(alloc: Global, list: &GateList) -> Result<ScaledCircuit, AllocError>
    ensures { IfOk result (IsMadeOf most_root2_of_fewer list.now) }
{
    if list.gates().len() > MOST_WHOLE {
        return Ok(ScaledCircuit {
            gates: list.copy()?,
            scalar: Scalar::one(),
        });
    }
    replace_pieces(alloc, list, usize::MAX, MOST_WHOLE)
}

// The one with fewer odd phases, or as many and fewer gates on two qubits.
fn cheaper(best: Option<ScaledCircuit>, other: Option<ScaledCircuit>) -> Option<ScaledCircuit>
    ensures { (result ≡ best) ⊎ (result ≡ other) }
{
    match (best, other) {
        (Some(best), Some(other)) => {
            let (this, that) = (counts(&best.gates), counts(&other.gates));
            if (that.odd, that.two_qubit) < (this.odd, this.two_qubit) {
                Some(other)
            } else {
                Some(best)
            }
        }
        (None, other) => other,
        (best, None) => best,
    }
}
