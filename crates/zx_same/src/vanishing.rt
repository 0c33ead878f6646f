//! Circuits that are shown to be the identity by gates put in that are it.

ghost use Rattle.std.specs.Prelude.{◌≡◌, [], true, IfOk, IfSome};
ghost use Rattle.zx_model.specs.Proportional.{Proportional};
ghost use Rattle.zx_gates.specs.Maps.{amp};
ghost use Rattle.zx_same.specs.Internal.Vanishing.{HaveOneMap};

use crate::comparing::simplify_as_graph;
use identity_search::{propose_shortly, propose_vanishing};
use std::alloc::{AllocError, Global};
use zx_gates::{GateList, counts};
use zx_identities::{Insertion, put_in};

// How often gates are put in at most.
const ROUNDS: u64 = 60;

// How often that is begun anew where it led to fewer odd phases, and for how many at most.
const SEEDS: u64 = 4;

const MOST_ODD: u64 = 200;

// How many groups are drawn that may vanish as a whole.
const WHOLE_TRIES: usize = 40;

// How many groups are drawn of which a part may vanish: so many at most, and fewer where there are so many gates that
// more than this number of them would be looked at.
const MOST_TRIES: usize = 200;

const LOOKED_AT: usize = 1_000_000;

/// Whether a circuit is shown to be the identity up to a number other than 0: gates that are the identity are put in,
/// and it is simplified, as long as fewer odd phases are left and until no gate is. Equal circuits give equal answers.
///
/// # Errors
///
/// Only where memory runs out.
pub(crate) fn vanishes(alloc: Global, left: &GateList) -> Result<bool, AllocError>
    ensures { IfOk result (λ yes. yes ≡ true →
        Proportional left.now.qubits left.now.qubits (amp left.now.gates) (amp [])) }
{
    let odd = counts(left).odd;
    for seed in 0..SEEDS {
        let made = with_few_odd(alloc, left, seed)?;
        if made.gates().is_empty() {
            return Ok(true);
        }
        if odd > MOST_ODD || counts(&made).odd == odd {
            break;
        }
    }
    Ok(false)
}

// The circuit with gates put in that are the identity, simplified each time, as long as fewer odd phases are left.
fn with_few_odd(alloc: Global, circuit: &GateList, seed: u64) -> Result<GateList, AllocError>
    ensures { IfOk result (HaveOneMap circuit.now) }
{
    let mut current = circuit.copy()?;
    for round in 0..ROUNDS {
        let seed = seed.wrapping_mul(ROUNDS).wrapping_add(round);
        let Some(made) = with_fewer_odd(alloc, &current, seed)? else {
            break;
        };
        current = made;
    }
    Ok(current)
}

// The same once, where fewer odd phases are left then.
fn with_fewer_odd(
    alloc: Global,
    circuit: &GateList,
    seed: u64,
) -> Result<Option<GateList>, AllocError>
    ensures { IfOk result (λ found. IfSome found (HaveOneMap circuit.now)) }
{
    let Some(insertion) = proposed(alloc, circuit, seed)? else {
        return Ok(None);
    };
    let Some(longer) = put_in(alloc, circuit, &insertion)? else {
        return Ok(None);
    };
    let made = simplify_as_graph(alloc, &longer.gates)?;
    if counts(&made.gates).odd < counts(circuit).odd {
        return Ok(Some(made.gates));
    }
    Ok(None)
}

// What may be put in: what lets a whole group vanish, else what may leave fewer odd phases.
fn proposed(alloc: Global, circuit: &GateList, seed: u64) -> Result<Option<Insertion>, AllocError> {
    if let Some(insertion) = propose_vanishing(alloc, circuit, WHOLE_TRIES, seed)? {
        return Ok(Some(insertion));
    }
    let tries = LOOKED_AT
        .checked_div(circuit.gates().len())
        .unwrap_or(MOST_TRIES);
    propose_shortly(alloc, circuit, tries.min(MOST_TRIES), seed)
}
