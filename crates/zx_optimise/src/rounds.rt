//! Phases put in as long as fewer odd ones are left.

ghost use Rattle.std.specs.Prelude.{IfOk, IfSome, OnOk};
ghost use Rattle.std.specs.List.{All};
ghost use Rattle.zx_gates.specs.Circuit.{Circuit};
ghost use Rattle.zx_optimise.specs.Bounds.{most_root2_of_fewer};
ghost use Rattle.zx_optimise.specs.Internal.Making.{IsMadeOf};

use crate::limits::{FEW_TRIES, MOST_SEEDS, ROUNDS, SEEDS, TRIES};
use crate::putting_in::{joined, teleported_with, with_fewer};
use identity_search::{propose_at_length, propose_shortly};
use std::alloc::{AllocError, Global};
use zx_gates::{GateList, ScaledCircuit, counts};
use zx_identities::Insertion;
use zx_model::Scalar;

/// Circuits with fewer odd phases, all with as many, by phases put in that do nothing together; none where such aren't
/// found. The circuit's map is each one's scalar times its own. Of the whole effort so many hundredths are made.
///
/// # Errors
///
/// Only where memory runs out.
pub(crate) fn ends(
    alloc: Global,
    list: &GateList,
    percent: u64,
) -> Result<Vec<ScaledCircuit>, AllocError>
    ensures { IfOk result (λ ends. All (IsMadeOf most_root2_of_fewer list.now) ends.items) }
{
    let mut ends = long_ends(alloc, list, percent)?;
    if ends.is_empty() {
        let made = by_some_seeds(alloc, list, percent)?;
        if counts(&made.gates).odd < counts(list).odd {
            keep(&mut ends, made)?;
        }
    }
    Ok(ends)
}

// The same by a long search, where one group has most of the odd phases.
fn long_ends(alloc: Global, list: &GateList, percent: u64) -> Result<Vec<ScaledCircuit>, AllocError>
    ensures { IfOk result (λ ends. All (IsMadeOf most_root2_of_fewer list.now) ends.items) }
{
    let odd = counts(list).odd;
    let mut ends = Vec::new(alloc);
    for insertion in &propose_at_length(alloc, list, percent, 1)? {
        if let Some(end) = long_end(alloc, list, insertion)? {
            if counts(&end.gates).odd < odd {
                keep(&mut ends, end)?;
            }
        }
    }
    Ok(ends)
}

// Keeps an end beside those with as many odd phases, or in the place of those with more.
fn keep(ends: &mut Vec<ScaledCircuit>, end: ScaledCircuit) -> Result<(), AllocError>
    ensures { (read : Circuit) → All (IsMadeOf most_root2_of_fewer read) ends.old.items →
        IsMadeOf most_root2_of_fewer read end → OnOk result (All (IsMadeOf most_root2_of_fewer read) ends.new.items) }
{
    let odd = counts(&end.gates).odd;
    let least = ends
        .first()
        .map_or(u64::MAX, |first| counts(&first.gates).odd);
    if odd < least {
        ends.clear();
    }
    if odd <= least {
        ends.push(end)?;
    }
    Ok(())
}

// The circuit with gates put in by a long search, and by short ones behind it.
fn long_end(
    alloc: Global,
    list: &GateList,
    insertion: &Insertion,
) -> Result<Option<ScaledCircuit>, AllocError>
    ensures { IfOk result (λ found. IfSome found (IsMadeOf most_root2_of_fewer list.now)) }
{
    let Some(made) = teleported_with(alloc, list, insertion)? else {
        return Ok(None);
    };
    let more = in_rounds(alloc, &made.gates, FEW_TRIES, 0)?;
    Ok(joined(&made, more))
}

// The circuit with phases put in, by some seeds where it has few odd ones, as long as they gain: that with the fewest.
fn by_some_seeds(alloc: Global, list: &GateList, percent: u64) -> Result<ScaledCircuit, AllocError>
    ensures { IfOk result (IsMadeOf most_root2_of_fewer list.now) }
{
    let odd = counts(list).odd;
    let tries = (odd / 2).saturating_add(TRIES).saturating_mul(percent) / 100;
    let mut best = in_rounds(alloc, list, tries, 0)?;
    if counts(&best.gates).odd < odd {
        for seed in 1..SEEDS.checked_div(odd).unwrap_or(0).min(MOST_SEEDS) {
            let other = in_rounds(alloc, list, tries, seed)?;
            if counts(&other.gates).odd < counts(&best.gates).odd {
                best = other;
            }
        }
    }
    Ok(best)
}

// The circuit with phases put in, as long as fewer are odd then, by this number of tries each time.
fn in_rounds(
    alloc: Global,
    list: &GateList,
    tries: u64,
    seed: u64,
) -> Result<ScaledCircuit, AllocError>
    ensures { IfOk result (IsMadeOf most_root2_of_fewer list.now) }
{
    let mut current = ScaledCircuit {
        gates: list.copy()?,
        scalar: Scalar::one(),
    };
    for round in 0..ROUNDS {
        let seed = seed.wrapping_mul(ROUNDS).wrapping_add(round);
        let Some(insertion) = propose_shortly(alloc, &current.gates, tries as usize, seed)? else {
            break;
        };
        if let Some(made) = with_fewer(alloc, &current, &insertion)? {
            current = made;
        }
    }
    Ok(current)
}
