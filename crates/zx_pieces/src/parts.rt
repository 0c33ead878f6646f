//! Parts of a list of gates that can be brought together.

ghost use Rattle.std.specs.Prelude.{◌≡◌, ◌≤◌, IfOk, IfSome};
ghost use Rattle.zx_gates.specs.Circuit.{most_qubits};

use std::alloc::{AllocError, Global};
use zx_gates::{Gate, Qubit};

/// The most qubits of a list.
pub(crate) const MOST_QUBITS: Qubit = 64;

/// Gates on a few qubits, and those that they were taken past.
#[derive(Drop)]
pub(crate) struct Part {
    /// The gates that were taken.
    pub(crate) taken: Vec<Gate>,
    /// Those that were passed over.
    pub(crate) passed: Vec<Gate>,
    /// How many gates were read.
    pub(crate) read: usize,
    /// The qubits of the gates that were taken, as bits.
    pub(crate) on: u64,
    // The qubits past which no gate can be brought that is a function of Z there.
    shut_to_z: u64,
    // The same for X.
    shut_to_x: u64,
}

/// How large a part may be.
#[derive(Clone, Copy)]
pub(crate) struct Size {
    /// The most qubits.
    pub(crate) qubits: u32,
    /// The most gates.
    pub(crate) gates: usize,
    /// Of how many gates it may be taken.
    pub(crate) reach: usize,
}

impl Part {
    /// No gates.
    pub(crate) fn new(alloc: Global) -> Part {
        Part {
            taken: Vec::new(alloc),
            passed: Vec::new(alloc),
            read: 0,
            on: 0,
            shut_to_z: 0,
            shut_to_x: 0,
        }
    }

    /// Takes a part of gates: the first one, and those that can be brought to it.
    pub(crate) fn take(&mut self, gates: &[Gate], size: Size) -> Result<(), AllocError> {
        self.taken.clear();
        self.passed.clear();
        self.read = 0;
        self.on = 0;
        self.shut_to_z = 0;
        self.shut_to_x = 0;
        for gate in &gates[..size.reach.min(gates.len())] {
            if self.is_shut(size) {
                break;
            }
            self.read_gate(gate, size)?;
        }
        Ok(())
    }

    // Whether no gate can be taken any more.
    fn is_shut(&self, size: Size) -> bool {
        self.taken.len() >= size.gates
            || (self.on & !(self.shut_to_z & self.shut_to_x) == 0 && !self.taken.is_empty())
    }

    fn read_gate(&mut self, gate: &Gate, size: Size) -> Result<(), AllocError> {
        self.read = self.read.saturating_add(1);
        let on = self.on | qubits_of(gate);
        if self.taken.is_empty() || (self.is_free(gate) && on.count_ones() <= size.qubits) {
            self.on = on;
            self.taken.push(*gate)?;
        } else {
            self.shut(gate);
            self.passed.push(*gate)?;
        }
        Ok(())
    }

    // Whether a gate commutes with all that were passed over.
    fn is_free(&self, gate: &Gate) -> bool {
        let shut = match *gate {
            Gate::H(q) => (self.shut_to_z | self.shut_to_x) & bit(q),
            Gate::Phase(q, _) => self.shut_to_z & bit(q),
            Gate::Not(q) => self.shut_to_x & bit(q),
            Gate::Cz(p, q) => self.shut_to_z & (bit(p) | bit(q)),
            Gate::Cx { control, target } => {
                (self.shut_to_z & bit(control)) | (self.shut_to_x & bit(target))
            }
        };
        shut == 0
    }

    // A gate is passed over.
    fn shut(&mut self, gate: &Gate) {
        match *gate {
            Gate::H(q) => {
                self.shut_to_z |= bit(q);
                self.shut_to_x |= bit(q);
            }
            Gate::Phase(q, _) => self.shut_to_x |= bit(q),
            Gate::Not(q) => self.shut_to_z |= bit(q),
            Gate::Cz(p, q) => self.shut_to_x |= bit(p) | bit(q),
            Gate::Cx { control, target } => {
                self.shut_to_x |= bit(control);
                self.shut_to_z |= bit(target);
            }
        }
    }

    /// Writes the part on its own qubits alone, and the places that these have, and answers how many they are.
    pub(crate) fn narrow(
        &self,
        small: &mut Vec<Gate>,
        places: &mut Vec<Qubit>,
    ) -> Result<Qubit, AllocError> {
        let mut numbers = [0; MOST_QUBITS as usize];
        places.clear();
        let mut left = self.on;
        for number in 0..self.on.count_ones() {
            let place = left.trailing_zeros();
            if let Some(there) = numbers.get_mut(place as usize) {
                *there = number as Qubit;
            }
            places.push(place as Qubit)?;
            left &= left.wrapping_sub(1);
        }
        small.clear();
        for gate in &self.taken {
            small.push(moved(gate, &numbers))?;
        }
        Ok(self.on.count_ones() as Qubit)
    }
}

/// The gate where each of its qubits is the one that stands at its number.
pub(crate) fn moved(gate: &Gate, to: &[Qubit]) -> Gate {
    match *gate {
        Gate::H(q) => Gate::H(place(to, q)),
        Gate::Phase(q, phase) => Gate::Phase(place(to, q), phase),
        Gate::Cz(p, q) => Gate::Cz(place(to, p), place(to, q)),
        Gate::Cx { control, target } => Gate::Cx {
            control: place(to, control),
            target: place(to, target),
        },
        Gate::Not(q) => Gate::Not(place(to, q)),
    }
}

fn place(to: &[Qubit], q: Qubit) -> Qubit {
    to.get(usize::from(q)).copied().unwrap_or(0)
}

// The bit of a qubit.
fn bit(q: Qubit) -> u64 {
    1_u64.wrapping_shl(u32::from(q))
}

// The qubits of a gate, as bits.
fn qubits_of(gate: &Gate) -> u64 {
    match *gate {
        Gate::H(q) => bit(q),
        Gate::Phase(q, _) => bit(q),
        Gate::Not(q) => bit(q),
        Gate::Cz(p, q) => bit(p) | bit(q),
        Gate::Cx { control, target } => bit(control) | bit(target),
    }
}
