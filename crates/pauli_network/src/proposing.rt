//! Circuits that may stand for others.

ghost use Rattle.std.specs.Prelude.{◌≡◌, ◌≤◌, IfOk, IfSome};
ghost use Rattle.zx_gates.specs.Circuit.{most_qubits};

use crate::network::{Limits, Network};
use crate::noise::Noise;
use crate::strings::MOST_QUBITS;
use std::alloc::{AllocError, Global};
use zx_gates::{Gate, GateList, Qubit};

// How many looks at a string there are for each gate.
const LOOKS: u64 = 100_000;

/// A circuit that may have the map of another one, and fewer gates on two qubits, where such is found. Nothing is
/// promised of either.
///
/// # Errors
///
/// Only where memory runs out.
pub fn propose(alloc: Global, circuit: &GateList) -> Result<Option<GateList>, AllocError>
    ensures { IfOk result (λ found. IfSome found (λ made. made.qubits ≡ circuit.now.qubits)) }
{
    let qubits = circuit.qubits();
    if qubits > MOST_QUBITS {
        return Ok(None);
    }
    let mut forwards = Rewriter::new(alloc);
    let mut backwards = Rewriter::new(alloc);
    forwards.rewrite_with(qubits, circuit.gates(), false, Noise::none())?;
    backwards.rewrite_with(qubits, circuit.gates(), true, Noise::none())?;
    match shorter(forwards.written(), backwards.written()) {
        Some(gates) => circuit_of(alloc, qubits, gates),
        None => Ok(None),
    }
}

/// Writes gates again by the same means as `propose`, from one end alone, and with a little noise from a seed in what
/// is chosen. Nothing is promised of what is written. The memory is used again for the next list.
#[derive(Drop)]
pub struct Rewriter {
    network: Network,
    // What was written last, if no limit was met.
    written: Vec<Gate>,
    is_written: bool,
}

impl Rewriter {
    /// Nothing is written yet.
    pub fn new(alloc: Global) -> Rewriter {
        Rewriter {
            network: Network::new(alloc),
            written: Vec::new(alloc),
            is_written: false,
        }
    }

    /// Writes gates on so many qubits again.
    ///
    /// # Errors
    ///
    /// Only where memory runs out.
    pub fn rewrite(
        &mut self,
        qubits: Qubit,
        gates: &[Gate],
        is_backwards: bool,
        seed: u64,
    ) -> Result<(), AllocError> {
        self.rewrite_with(qubits, gates, is_backwards, Noise::of_seed(seed))
    }

    /// The gates that were written last, with no more gates on two qubits before cleanup, where such were found.
    pub fn written(&self) -> Option<&[Gate]> {
        if self.is_written {
            Some(&self.written)
        } else {
            None
        }
    }

    // The same with this noise.
    fn rewrite_with(
        &mut self,
        qubits: Qubit,
        gates: &[Gate],
        is_backwards: bool,
        noise: Noise,
    ) -> Result<(), AllocError> {
        self.is_written = false;
        if qubits > MOST_QUBITS {
            return Ok(());
        }
        let limits = limits_for(gates);
        if is_backwards {
            invert(&mut self.written, gates)?;
            self.is_written = self.network.rewrite(qubits, &self.written, limits, noise)?;
            invert(&mut self.written, self.network.made())
        } else {
            self.is_written = self.network.rewrite(qubits, gates, limits, noise)?;
            self.written.clear();
            self.written.extend_from_slice(self.network.made())
        }
    }
}

// The limits for gates: those on two qubits are to become no more.
fn limits_for(gates: &[Gate]) -> Limits {
    let count = u64::try_from(gates.len()).unwrap_or(u64::MAX);
    Limits {
        two_qubit: two_qubit_gates(gates).saturating_add(1),
        looks: LOOKS.saturating_mul(count),
    }
}

// How many gates are on two qubits.
fn two_qubit_gates(gates: &[Gate]) -> usize {
    gates
        .iter()
        .filter(|gate| matches!(gate, Gate::Cz(..) | Gate::Cx { .. }))
        .count()
}

// The list with fewer gates on two qubits, or as many and no more gates in all.
fn shorter<'a>(a: Option<&'a [Gate]>, b: Option<&'a [Gate]>) -> Option<&'a [Gate]> {
    match (a, b) {
        (Some(a), Some(b)) => Some(shorter_of(a, b)),
        (Some(a), None) => Some(a),
        (None, b) => b,
    }
}

fn shorter_of<'a>(a: &'a [Gate], b: &'a [Gate]) -> &'a [Gate] {
    let (first, second) = (two_qubit_gates(a), two_qubit_gates(b));
    if first < second || (first == second && a.len() <= b.len()) {
        a
    } else {
        b
    }
}

/// Makes a list that of the gates backwards, each with the opposite phase.
///
/// # Errors
///
/// Only where memory runs out.
pub fn invert(made: &mut Vec<Gate>, gates: &[Gate]) -> Result<(), AllocError> {
    made.clear();
    for gate in gates.iter().rev() {
        let inverse = match *gate {
            Gate::Phase(q, phase) => Gate::Phase(q, phase.neg()),
            other => other,
        };
        made.push(inverse)?;
    }
    Ok(())
}

/// The circuit of gates, where each is on its qubits.
///
/// # Errors
///
/// Only where memory runs out.
pub fn circuit_of(
    alloc: Global,
    qubits: Qubit,
    gates: &[Gate],
) -> Result<Option<GateList>, AllocError>
    requires { qubits ≤ most_qubits }
    ensures { IfOk result (λ found. IfSome found (λ made. made.qubits ≡ qubits)) }
{
    let mut made = GateList::new(alloc, qubits);
    for gate in gates {
        if !gate.is_on_qubits(qubits) {
            return Ok(None);
        }
        made.push(*gate)?;
    }
    Ok(Some(made))
}
