//! Long lists, piece by piece.

ghost use Rattle.std.specs.Prelude.{◌≡◌, ◌≤◌, ◌<◌, ◌++◌, length, IfOk, IfSome, OnOk};
ghost use Rattle.std.specs.List.{All};
ghost use Rattle.zx_gates.specs.Circuit.{IsGateOn, most_qubits};
ghost use Rattle.zx_optimise.specs.Bounds.{most_root2_of_fewer};
ghost use Rattle.zx_optimise.specs.Internal.Making.{IsMadeOf, IsMadeUpTo};

use crate::putting_in::{joined, teleported};
use crate::rounds::ends;
use std::alloc::{AllocError, Global};
use zx_gates::{Gate, GateList, Qubit, ScaledCircuit, counts};
use zx_model::Scalar;
use zx_pieces::product;

// How many odd phases a piece has.
const PIECE: u64 = 300;

// Up to how many odd phases in all each piece gets the whole effort; with more it gets less in proportion, but so many
// hundredths at least.
const WHOLE: u64 = 2_000;

const LEAST_PERCENT: u64 = 20;

/// The circuit with phases put in, piece by piece, and put together then. The circuit's map is the scalar times that of
/// the new one.
///
/// # Errors
///
/// Only where memory runs out.
pub(crate) fn by_pieces(alloc: Global, list: &GateList) -> Result<Option<ScaledCircuit>, AllocError>
    ensures { IfOk result (λ found. IfSome found (IsMadeOf most_root2_of_fewer list.now)) }
{
    let gates = list.gates();
    let percent = percent_for(counts(list).odd);
    let mut made = ScaledCircuit {
        gates: GateList::new(alloc, list.qubits()),
        scalar: Scalar::one(),
    };
    let mut start = 0;
    while start < gates.len() {
        let end = end_of_piece(gates, start);
        add_piece(alloc, &mut made, list, start, end, percent)?;
        start = end;
    }
    let whole = teleported(alloc, &made.gates)?;
    Ok(joined(&made, whole))
}

// The effort for each piece of a circuit with so many odd phases, in hundredths.
fn percent_for(odd: u64) -> u64 {
    let percent = (WHOLE * 100).checked_div(odd).unwrap_or(100);
    percent.clamp(LEAST_PERCENT, 100)
}

// Adds what is made of the gates from one place to another.
fn add_piece(
    alloc: Global,
    made: &mut ScaledCircuit,
    list: &GateList,
    start: usize,
    end: usize,
    percent: u64,
) -> Result<(), AllocError>
    requires made { IsMadeUpTo list.now.qubits list.now.gates start made.old }
    requires some { start < end }
    requires within { end ≤ length list.now.gates }
    ensures { OnOk result (IsMadeUpTo list.now.qubits list.now.gates end made.new) }
{
    let piece = piece_of(alloc, list.qubits(), &list.gates()[start..end])?;
    let ends = ends(alloc, &piece, percent)?;
    if let Some(end) = ends.first() {
        if let Some(scalar) = product(&made.scalar, &end.scalar) {
            push_all(&mut made.gates, end.gates.gates())?;
            made.scalar = scalar;
            return Ok(());
        }
    }
    push_all(&mut made.gates, piece.gates())
}

// The circuit of these gates.
fn piece_of(alloc: Global, qubits: Qubit, gates: &[Gate]) -> Result<GateList, AllocError>
    requires few { qubits ≤ most_qubits }
    requires on { All (IsGateOn qubits) gates.now }
    ensures qubits { IfOk result (λ piece. piece.qubits ≡ qubits) }
    ensures gates { IfOk result (λ piece. piece.gates ≡ gates.now) }
{
    let mut piece = GateList::new(alloc, qubits);
    push_all(&mut piece, gates)?;
    Ok(piece)
}

// Adds gates after all others.
fn push_all(made: &mut GateList, gates: &[Gate]) -> Result<(), AllocError>
    requires { All (IsGateOn made.old.qubits) gates.now }
    ensures qubits { OnOk result (made.new.qubits ≡ made.old.qubits) }
    ensures gates { OnOk result (made.new.gates ≡ made.old.gates ++ gates.now) }
{
    for gate in gates {
        made.push(*gate)?;
    }
    Ok(())
}

// The place behind so many odd phases from a place on, or the end.
fn end_of_piece(gates: &[Gate], start: usize) -> usize
    requires { start < length gates.now }
    ensures some { start < result }
    ensures within { result ≤ length gates.now }
{
    let mut odd = 0_u64;
    for place in start..gates.len() {
        if let Gate::Phase(_, phase) = gates[place] {
            if phase.is_odd() {
                odd = odd.saturating_add(1);
                if odd >= PIECE {
                    return place + 1;
                }
            }
        }
    }
    gates.len()
}
