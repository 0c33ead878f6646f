//! Circuits through the graph and back.

ghost use Rattle.std.specs.Prelude.{◌≡◌, ◌≤◌, true, false, length, nat_le, IfOk, IfSome};
ghost use Rattle.zx_model.specs.Scalar.{IsWithin};
ghost use Rattle.zx_gates.specs.Circuit.{Circuit};
ghost use Rattle.zx_extract.specs.Simplified.{gate_bound};
ghost use Rattle.zx_optimise.specs.Optimising.{bound_of, most_optimised_root2, IsBest, IsCleaned, CostsNoMoreThanRead, CostsNoMoreThanTeleported, IsPlain, Optimises};
ghost use Rattle.zx_optimise.specs.Internal.Candidates.{is_dearer, most_whole_root2, IsCandidate, CostsNoMoreThan, IsTakenOver, IsTeleportedCleanup, Offers};

use crate::finishing::with_fewer_odd_phases;
use std::alloc::{AllocError, Global};
use zx_gates::{Counts, GateList, Qubit, ScaledCircuit, counts};
use zx_peephole::tidy;
use zx_pieces::shrink;
use zx_simplify::simplify_circuit;
use zx_teleport::teleport;

// How many gates on two qubits an odd phase less may cost.
const MOST_EACH: u64 = 20;

/// The optimised circuit, and the scalar that the read one's linear map is times its own: it has no more odd
/// phases, and few gates for these and its qubits.
///
/// Without `best` it is the plain one, which simplification of the graph, extraction and cleanup make. With `best` there
/// are further candidates, of which those are taken into account that have few enough gates: the read circuit after
/// cleanup; the one whose phases alone are changed, after cleanup; two that have pieces of this one and of the plain
/// one replaced by smaller circuits; and what phases that do nothing together, put into the one whose phases alone are
/// changed, make of it. The candidate with the fewest odd phases is taken, then that with the fewest gates on two
/// qubits, then the shortest, and the plain one where it is as cheap.
///
/// # Errors
///
/// Only where memory runs out.
pub fn optimise(alloc: Global, read: &GateList, best: bool) -> Result<ScaledCircuit, AllocError>
    ensures optimises { IfOk result (λ made.
        Optimises most_optimised_root2 read.now made.gates made.scalar) }
    ensures plain { best ≡ false → IfOk result (λ made. IsPlain read.now made.gates) }
    ensures best { best ≡ true → IfOk result (λ made. IsBest read.now made.gates) }
{
    if best {
        best_of(alloc, read)
    } else {
        plain(alloc, read)
    }
}

// The circuit of the reduced graph, after cleanup.
fn plain(alloc: Global, read: &GateList) -> Result<ScaledCircuit, AllocError>
    ensures offers { IfOk result (Offers most_whole_root2 read.now) }
    ensures plain { IfOk result (λ made. IsPlain read.now made.gates) }
{
    simplify_circuit(alloc, read)
}

// The best of all candidates: the plain one, or one that is cheaper.
fn best_of(alloc: Global, read: &GateList) -> Result<ScaledCircuit, AllocError>
    ensures offers { IfOk result (Offers most_optimised_root2 read.now) }
    ensures best { IfOk result (λ made. IsBest read.now made.gates) }
{
    let plain = plain(alloc, read)?;
    let best = beside_shrunk(alloc, read, plain)?;
    let best = beside_read(read, best)?;
    beside_teleported(alloc, read, best)
}

// The cheaper one of the plain circuit and the one with pieces of it replaced, which are looked for where it has less
// than three quarters of the read one's gates on two qubits alone: else the teleported one is a better start.
fn beside_shrunk(
    alloc: Global,
    read: &GateList,
    plain: ScaledCircuit,
) -> Result<ScaledCircuit, AllocError>
    requires { Offers most_whole_root2 read.now plain }
    ensures offers { IfOk result (Offers most_optimised_root2 read.now) }
    ensures than_plain { IfOk result (IsTakenOver plain) }
{
    if !is_worth_shrinking(&plain.gates, read) {
        return Ok(plain);
    }
    let shrunk = shrunk(alloc, &plain)?;
    Ok(cheaper(read, plain, shrunk))
}

// Whether a circuit has less than three quarters of another one's gates on two qubits.
fn is_worth_shrinking(this: &GateList, that: &GateList) -> bool {
    counts(this).two_qubit / 3 < counts(that).two_qubit / 4
}

// The candidate with pieces of it replaced by smaller circuits.
fn shrunk(alloc: Global, candidate: &ScaledCircuit) -> Result<ScaledCircuit, AllocError>
    requires { IsWithin most_whole_root2 candidate.now.scalar }
    ensures { (read : Circuit) → IsCandidate most_whole_root2 read candidate.now →
        IfOk result (IsCandidate most_optimised_root2 read) }
{
    let made = shrink(alloc, &candidate.gates)?;
    Ok(ScaledCircuit {
        gates: made.gates,
        scalar: candidate.scalar.times(made.scalar),
    })
}

// The cheaper one of a circuit and the read one after cleanup.
fn beside_read(read: &GateList, best: ScaledCircuit) -> Result<ScaledCircuit, AllocError>
    requires { Offers most_optimised_root2 read.now best }
    ensures offers { IfOk result (Offers most_optimised_root2 read.now) }
    ensures than_best { IfOk result (IsTakenOver best) }
    ensures than_read { IfOk result (λ made. CostsNoMoreThanRead read.now made.gates) }
{
    let cleaned = cleaned(read)?;
    Ok(cheaper(read, best, cleaned))
}

// The cheapest one of a circuit, the one whose phases alone are changed, what pieces of that are replaced by, and what
// has fewer odd phases than that.
fn beside_teleported(
    alloc: Global,
    read: &GateList,
    best: ScaledCircuit,
) -> Result<ScaledCircuit, AllocError>
    requires { Offers most_optimised_root2 read.now best }
    ensures offers { IfOk result (Offers most_optimised_root2 read.now) }
    ensures than_best { IfOk result (IsTakenOver best) }
    ensures than_teleported { IfOk result (λ made. CostsNoMoreThanTeleported read.now made.gates) }
{
    let teleported = teleported(alloc, read)?;
    let shrunk = shrunk(alloc, &teleported)?;
    let fewer = fewer(alloc, &teleported)?;
    let best = cheaper(read, cheaper(read, best, teleported), shrunk);
    Ok(beside_fewer(read, best, fewer))
}

// The candidate with fewer odd phases, by phases put in that do nothing together, if one is found.
fn fewer(alloc: Global, candidate: &ScaledCircuit) -> Result<Option<ScaledCircuit>, AllocError>
    requires { IsWithin most_whole_root2 candidate.now.scalar }
    ensures { (read : Circuit) → IsCandidate most_whole_root2 read candidate.now →
        IfOk result (λ found. IfSome found (IsCandidate most_optimised_root2 read)) }
{
    match with_fewer_odd_phases(alloc, &candidate.gates)? {
        Some(made) => Ok(Some(ScaledCircuit {
            gates: made.gates,
            scalar: candidate.scalar.times(made.scalar),
        })),
        None => Ok(None),
    }
}

// The cheaper one of a circuit and one with fewer odd phases, if there is one, and each odd phase that it has less costs
// at most `MOST_EACH` gates on two qubits.
fn beside_fewer(read: &GateList, best: ScaledCircuit, fewer: Option<ScaledCircuit>) -> ScaledCircuit
    requires best { Offers most_optimised_root2 read.now best }
    requires candidate { IfSome fewer (IsCandidate most_optimised_root2 read.now) }
    ensures offers { Offers most_optimised_root2 read.now result }
    ensures than_best { IsTakenOver best result }
{
    match fewer {
        Some(fewer) if is_worth_it(&best.gates, &fewer.gates) => cheaper(read, best, fewer),
        _ => best,
    }
}

// Whether each odd phase that another circuit has less costs at most `MOST_EACH` gates on two qubits.
fn is_worth_it(this: &GateList, that: &GateList) -> bool {
    let (this, that) = (counts(this), counts(that));
    let saved = this.odd.saturating_sub(that.odd);
    that.two_qubit
        <= this
            .two_qubit
            .saturating_add(saved.saturating_mul(MOST_EACH))
}

// The circuit whose phases alone are changed, after cleanup.
fn teleported(alloc: Global, read: &GateList) -> Result<ScaledCircuit, AllocError>
    ensures cleanup { IfOk result (λ made. IsTeleportedCleanup read.now made.gates) }
    ensures candidate { IfOk result (IsCandidate most_whole_root2 read.now) }
{
    let found = teleport(alloc, read)?;
    let mut gates = found.gates;
    let scalar = found.scalar.times(tidy(&mut gates));
    Ok(ScaledCircuit { gates, scalar })
}

// A candidate, or another one where that is within the bound and cheaper.
fn cheaper(read: &GateList, best: ScaledCircuit, candidate: ScaledCircuit) -> ScaledCircuit
    requires best { Offers most_optimised_root2 read.now best }
    requires candidate { IsCandidate most_optimised_root2 read.now candidate }
    ensures offers { Offers most_optimised_root2 read.now result }
    ensures than_best { IsTakenOver best result }
    ensures than_candidate { length candidate.gates.gates ≤ bound_of read.now →
        CostsNoMoreThan result.gates candidate.gates }
{
    let count = counts(&candidate.gates);
    if !is_within_bound(read.qubits(), counts(read).odd, count.total) {
        return best;
    }
    if is_dearer(counts(&best.gates), count) {
        candidate
    } else {
        best
    }
}

// Whether so many gates are within the bound for what is written, for a read circuit of so many qubits
// and odd phases.
fn is_within_bound(qubits: Qubit, odd: u64, gates: u64) -> bool
    ensures { result ≡ nat_le gates (gate_bound qubits odd) }
{
    let n = u128::from(qubits);
    u128::from(gates) <= 4 * n * n + 6 * n + 3 * n * u128::from(odd)
}

// Whether one circuit has more odd phases than another, or as many and more gates on two qubits, or as
// many of both and more gates.
fn is_dearer(this: Counts, that: Counts) -> bool
    ensures { result ≡ is_dearer this that }
{
    if this.odd != that.odd {
        return this.odd > that.odd;
    }
    if this.two_qubit != that.two_qubit {
        return this.two_qubit > that.two_qubit;
    }
    this.total > that.total
}

// The read circuit after cleanup.
fn cleaned(read: &GateList) -> Result<ScaledCircuit, AllocError>
    ensures cleaned { IfOk result (λ made. IsCleaned read.now made.gates) }
    ensures candidate { IfOk result (IsCandidate most_whole_root2 read.now) }
{
    let mut gates = read.copy()?;
    let scalar = tidy(&mut gates);
    Ok(ScaledCircuit { gates, scalar })
}
