//! Phases that can be brought to a place in a list of gates.

use pauli_network::{Frame, PauliString};
use std::alloc::{AllocError, Global};
use zx_gates::{Gate, Qubit};
use zx_model::Sixteenth;

// How many phases on each side of a place are looked at.
const MOST_SEEN: usize = 500;

/// A phase, and the string that it is about where it is brought to the place.
#[derive(Clone, Copy)]
pub(crate) struct Arrival {
    /// The string.
    pub(crate) string: PauliString,
    /// The phase.
    pub(crate) phase: Sixteenth,
}

/// The phases of an odd number of eighth turns that nothing keeps from a place, nearest first: those that stand behind
/// it, or before it.
///
/// # Errors
///
/// Only where memory runs out.
pub(crate) fn arrivals(
    alloc: Global,
    qubits: Qubit,
    gates: &[Gate],
    place: usize,
    is_behind: bool,
) -> Result<Vec<Arrival>, AllocError> {
    let mut frame = Frame::new(alloc);
    frame.begin(qubits)?;
    let mut side = Side {
        frame,
        seen: Vec::new(alloc),
        arrived: Vec::new(alloc),
    };
    if is_behind {
        for gate in gates.get(place..).unwrap_or(&[]) {
            side.read(gate)?;
            if side.seen.len() >= MOST_SEEN {
                break;
            }
        }
    } else {
        for gate in gates.get(..place).unwrap_or(&[]).iter().rev() {
            side.read_backwards(gate)?;
            if side.seen.len() >= MOST_SEEN {
                break;
            }
        }
    }
    Ok(side.arrived)
}

// One side of a place, as far as it was read.
#[derive(Drop)]
struct Side {
    frame: Frame,
    // The strings of all phases so far that aren't Clifford gates.
    seen: Vec<PauliString>,
    arrived: Vec<Arrival>,
}

impl Side {
    fn read(&mut self, gate: &Gate) -> Result<(), AllocError> {
        match *gate {
            Gate::Phase(q, phase) if phase.is_odd() => self.meet(q, phase),
            _ => {
                self.frame.read(gate);
                Ok(())
            }
        }
    }

    // The gate's inverse comes next, but that its own phase is brought to the place.
    fn read_backwards(&mut self, gate: &Gate) -> Result<(), AllocError> {
        match *gate {
            Gate::Phase(q, phase) if phase.is_odd() => self.meet(q, phase),
            Gate::Phase(q, phase) => {
                self.frame.read(&Gate::Phase(q, phase.neg()));
                Ok(())
            }
            _ => {
                self.frame.read(gate);
                Ok(())
            }
        }
    }

    fn meet(&mut self, q: Qubit, phase: Sixteenth) -> Result<(), AllocError> {
        let string = self.frame.z(q);
        if phase.get() % 2 == 0 && !self.seen.iter().any(|other| other.anticommutes(&string)) {
            self.arrived.push(Arrival { string, phase })?;
        }
        self.seen.push(string)?;
        Ok(())
    }
}
