//! Pieces of a circuit, one after the other, replaced by smaller ones.

ghost use Rattle.std.specs.Prelude.{◌≡◌, ◌≤◌, ◌<◌, ◌-◌, ◌+◌, ◌++◌, length, drop, IfOk, IfSome, IsSome, OnOk, IsTrue};
ghost use Rattle.std.specs.List.{All};
ghost use Rattle.zx_model.specs.Scalar.{IsWithin};
ghost use Rattle.zx_gates.specs.Circuit.{gate_odd_phases, most_qubits, IsCircuit, IsGateOn};
ghost use Rattle.zx_gates.specs.Passes.{Preserves};
ghost use Rattle.piece_laws.specs.Places.{ArePlaces, placed};
ghost use Rattle.piece_laws.specs.Replacement.{AreScaled, IsNoLarger, IsReplacement};
ghost use Rattle.zx_pieces.specs.Internal.Working.{AddsScaled, IsAt, left_of};
ghost use Rattle.zx_pieces.specs.Scaling.{most_root2_of_pass};

use crate::manner::{Effort, Manner};
use crate::narrowing::{narrowed, widened};
use crate::scaling::product;
use crate::searching::search;
use crate::walking::gather;
use pauli_network::propose;
use std::alloc::{AllocError, Global};
use zx_gates::{Gate, GateList, Qubit, ScaledCircuit, counts};
use zx_model::Scalar;
use zx_peephole::tidy;
use zx_same::quotient;

// The seed of what a search draws.
const SEED: u64 = 1;

/// Replaces pieces of a circuit by smaller circuits of the same map, where such are found. A piece is
/// on at most `most` qubits, or has one gate alone; its gates stand among `reach` gates in a row, or
/// did so after pieces before it were taken out. The scalar is answered that the circuit's map is times
/// the new one's; a piece stays as it is where its exponent of the root of two would be more than 2^50
/// in size.
///
/// # Errors
///
/// Only where memory runs out.
pub fn replace_pieces(
    alloc: Global,
    circuit: &GateList,
    most: usize,
    reach: usize,
) -> Result<ScaledCircuit, AllocError>
    ensures kept { IfOk result (λ made. Preserves most_root2_of_pass circuit.now made.gates made.scalar) }
    ensures no_larger { IfOk result (λ made. IsNoLarger made.gates.gates circuit.now.gates) }
{
    replace_by(
        alloc,
        circuit,
        &Manner {
            qubits: most,
            gates: usize::MAX,
            reach,
            effort: Effort::ONCE,
        },
    )
}

/// The same where pieces are gathered in this manner.
pub(crate) fn replace_by(
    alloc: Global,
    circuit: &GateList,
    manner: &Manner,
) -> Result<ScaledCircuit, AllocError>
    ensures kept { IfOk result (λ made. Preserves most_root2_of_pass circuit.now made.gates made.scalar) }
    ensures no_larger { IfOk result (λ made. IsNoLarger made.gates.gates circuit.now.gates) }
{
    let gates = circuit.gates();
    let mut work = Work {
        done: GateList::new(alloc, circuit.qubits()),
        scalar: Scalar::one(),
        passed: Vec::new(alloc),
        next: 0,
    };
    'pieces: while work.next < gates.len() || !work.passed.is_empty() {
        work.replace_one(alloc, gates, manner)?;
    }
    Ok(ScaledCircuit {
        gates: work.done,
        scalar: work.scalar,
    })
}

// Where the replacement stands.
#[derive(Drop)]
struct Work {
    // The pieces so far, as they were replaced.
    done: GateList,
    // By what the circuit's map is that of what is done and what is left.
    scalar: Scalar,
    // The gates that were passed over.
    passed: Vec<Gate>,
    // The first gate that wasn't reached.
    next: usize,
}

impl Work {
    // Gathers a piece from the gates that are left, and puts what replaces it behind what is done.
    fn replace_one(
        &mut self,
        alloc: Global,
        gates: &[Gate],
        manner: &Manner,
    ) -> Result<(), AllocError>
        requires at { IsAt self.old.done.qubits gates.now self.old }
        requires some { 0 < left_of gates.now self.old }
        ensures qubits { OnOk result (self.new.done.qubits ≡ self.old.done.qubits) }
        ensures at { OnOk result (IsAt self.old.done.qubits gates.now self.new) }
        ensures fewer { OnOk result (left_of gates.now self.new < left_of gates.now self.old) }
    {
        self.fill(gates, manner.reach)?;
        let walk = gather(alloc, self.done.qubits(), &self.passed, manner)?;
        self.scalar = add_piece(
            &mut self.done,
            self.scalar,
            alloc,
            &walk.piece,
            &walk.places,
            manner.effort,
        )?;
        self.passed = walk.passed;
        Ok(())
    }

    // Puts gates behind those that were passed over, up to so many of both, one at least if there is
    // one.
    fn fill(&mut self, gates: &[Gate], reach: usize) -> Result<(), AllocError>
        requires { self.old.next ≤ length gates.now }
        ensures done { self.new.done ≡ self.old.done }
        ensures scalar { self.new.scalar ≡ self.old.scalar }
        ensures within { OnOk result (self.new.next ≤ length gates.now) }
        ensures same { OnOk result (self.new.passed.items ++ drop self.new.next gates.now ≡
            self.old.passed.items ++ drop self.old.next gates.now) }
        ensures some { 0 < left_of gates.now self.old → OnOk result (0 < length self.new.passed.items) }
    {
        let rest = &gates[self.next..];
        let room = reach.saturating_sub(self.passed.len()).max(1);
        let count = rest.len().min(room);
        self.passed.extend_from_slice(&rest[..count])?;
        self.next += count;
        Ok(())
    }
}

// Adds a piece on these qubits after all other gates, or what replaces it. This scalar is answered, times
// that of what replaces it.
fn add_piece(
    done: &mut GateList,
    scalar: Scalar,
    alloc: Global,
    piece: &GateList,
    places: &[Qubit],
    effort: Effort,
) -> Result<Scalar, AllocError>
    requires places { ArePlaces piece.now.qubits places.now }
    requires piece { IsCircuit piece.now }
    requires same { done.old.qubits ≡ piece.now.qubits }
    requires small { IsWithin most_root2_of_pass scalar }
    ensures { IfOk result (AddsScaled piece.now done.old done.new scalar) }
{
    match replacement(alloc, piece, places, effort)? {
        Some(made) => add_smaller(done, scalar, &made.gates, made.scalar, piece),
        None => {
            append(done, piece)?;
            Ok(scalar)
        }
    }
}

// The same where the piece's map is a factor times that of this circuit, which replaces it as long as the
// scalar stays small.
fn add_smaller(
    done: &mut GateList,
    scalar: Scalar,
    made: &GateList,
    factor: Scalar,
    piece: &GateList,
) -> Result<Scalar, AllocError>
    requires piece { IsCircuit piece.now }
    requires same { done.old.qubits ≡ piece.now.qubits }
    requires qubits { made.now.qubits ≡ piece.now.qubits }
    requires replacement { IsReplacement piece.now.qubits piece.now.gates made.now.gates }
    requires scaled { AreScaled piece.now.qubits piece.now.gates factor made.now.gates }
    requires small { IsWithin most_root2_of_pass scalar }
    ensures { IfOk result (AddsScaled piece.now done.old done.new scalar) }
{
    match product(&scalar, &factor) {
        Some(product) => {
            append(done, made)?;
            Ok(product)
        }
        None => {
            append(done, piece)?;
            Ok(scalar)
        }
    }
}

// What a piece on these qubits is replaced by: a smaller circuit that is shown to be the same, if one is
// found.
fn replacement(
    alloc: Global,
    piece: &GateList,
    places: &[Qubit],
    effort: Effort,
) -> Result<Option<ScaledCircuit>, AllocError>
    requires { ArePlaces piece.now.qubits places.now }
    ensures qubits { IfOk result (λ found. IfSome found (λ made.
        made.gates.qubits ≡ piece.now.qubits)) }
    ensures replacement { IfOk result (λ found. IfSome found (λ made.
        IsReplacement piece.now.qubits piece.now.gates made.gates.gates)) }
    ensures scaled { IfOk result (λ found. IfSome found (λ made.
        AreScaled piece.now.qubits piece.now.gates made.scalar made.gates.gates)) }
{
    match narrowed(alloc, piece, places)? {
        Some(small) => widened_smaller(alloc, piece.qubits(), &small, places, effort),
        None => Ok(None),
    }
}

// The same for a piece on its own qubits alone, which are these of so many.
fn widened_smaller(
    alloc: Global,
    qubits: Qubit,
    small: &GateList,
    places: &[Qubit],
    effort: Effort,
) -> Result<Option<ScaledCircuit>, AllocError>
    requires few { qubits ≤ most_qubits }
    requires places { ArePlaces qubits places.now }
    requires small { small.now.qubits ≡ length places.now }
    requires gates { All (IsGateOn (length places.now)) small.now.gates }
    ensures qubits { IfOk result (λ found. IfSome found (λ made. made.gates.qubits ≡ qubits)) }
    ensures replacement { IfOk result (λ found. IfSome found (λ made.
        IsReplacement qubits (placed places.now small.now.gates) made.gates.gates)) }
    ensures scaled { IfOk result (λ found. IfSome found (λ made.
        AreScaled qubits (placed places.now small.now.gates) made.scalar made.gates.gates)) }
{
    match smaller(alloc, small, effort)? {
        Some(made) => Ok(Some(ScaledCircuit {
            gates: widened(alloc, qubits, &made.gates, places)?,
            scalar: made.scalar,
        })),
        None => Ok(None),
    }
}

// A smaller circuit that is shown to be the same, if one is found.
fn smaller(
    alloc: Global,
    piece: &GateList,
    effort: Effort,
) -> Result<Option<ScaledCircuit>, AllocError>
    ensures qubits { IfOk result (λ found. IfSome found (λ made.
        made.gates.qubits ≡ piece.now.qubits)) }
    ensures replacement { IfOk result (λ found. IfSome found (λ made.
        IsReplacement piece.now.qubits piece.now.gates made.gates.gates)) }
    ensures scaled { IfOk result (λ found. IfSome found (λ made.
        AreScaled piece.now.qubits piece.now.gates made.scalar made.gates.gates)) }
{
    let Some(gates) = proposal(alloc, piece, effort)? else {
        return Ok(None);
    };
    match scalar_to_smaller(alloc, piece, &gates)? {
        Some(scalar) => Ok(Some(ScaledCircuit { gates, scalar })),
        None => Ok(None),
    }
}

// Another circuit on as many qubits, after cleanup.
fn proposal(alloc: Global, piece: &GateList, effort: Effort) -> Result<Option<GateList>, AllocError>
    ensures { IfOk result (λ found. IfSome found (λ made. made.qubits ≡ piece.now.qubits)) }
{
    let Some(mut made) = proposed(alloc, piece, effort)? else {
        return Ok(None);
    };
    tidy(&mut made);
    Ok(Some(made))
}

// What is proposed with an effort.
fn proposed(alloc: Global, piece: &GateList, effort: Effort) -> Result<Option<GateList>, AllocError>
    ensures { IfOk result (λ found. IfSome found (λ made. made.qubits ≡ piece.now.qubits)) }
{
    let gates = piece.gates().len();
    match effort.tries_of(gates) {
        0 => propose(alloc, piece),
        tries => search(alloc, piece, tries, effort.idle_of(gates), SEED),
    }
}

// By which scalar a circuit's map is that of a smaller one, if it is smaller and this is shown.
fn scalar_to_smaller(
    alloc: Global,
    piece: &GateList,
    made: &GateList,
) -> Result<Option<Scalar>, AllocError>
    requires { piece.now.qubits ≡ made.now.qubits }
    ensures odd { IfOk result (λ found. IsSome found →
        gate_odd_phases made.now.gates ≤ gate_odd_phases piece.now.gates) }
    ensures size { IfOk result (λ found. IsSome found → IsNoLarger made.now.gates piece.now.gates) }
    ensures scaled { IfOk result (λ found. IfSome found (λ s.
        AreScaled piece.now.qubits piece.now.gates s made.now.gates)) }
{
    if is_smaller(made, piece) {
        quotient(alloc, piece, made)
    } else {
        Ok(None)
    }
}

// Whether a circuit has no more odd phases than another, and fewer gates on two qubits, or as many of
// these and fewer gates in all.
fn is_smaller(this: &GateList, that: &GateList) -> bool
    ensures odd { IsTrue result → gate_odd_phases this.now.gates ≤ gate_odd_phases that.now.gates }
    ensures size { IsTrue result → IsNoLarger this.now.gates that.now.gates }
{
    let (this, that) = (counts(this), counts(that));
    if this.odd > that.odd {
        return false;
    }
    if this.two_qubit != that.two_qubit {
        return this.two_qubit < that.two_qubit;
    }
    this.total < that.total
}

// Adds the gates of a circuit after all others.
fn append(list: &mut GateList, other: &GateList) -> Result<(), AllocError>
    requires { list.old.qubits ≡ other.now.qubits }
    ensures qubits { OnOk result (list.new.qubits ≡ list.old.qubits) }
    ensures gates { OnOk result (list.new.gates ≡ list.old.gates ++ other.now.gates) }
{
    for gate in other.gates() {
        list.push(*gate)?;
    }
    Ok(())
}
