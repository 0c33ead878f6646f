//! Phases about parities that do nothing together, as gates.

use crate::groups::Term;
use std::alloc::{AllocError, Global};
use zx_gates::{Gate, Qubit};
use zx_model::Sixteenth;

// The most qubits of a column.
const WIDTH: usize = 64;

/// The gates that undo these terms, put an eighth turn about each of these columns, and mend what differs by Clifford
/// gates: each phase by itself, between controlled NOTs there and back. A term whose column is among the others stays.
///
/// # Errors
///
/// Only where memory runs out.
pub(crate) fn idle_gates(
    alloc: Global,
    old: &[Term],
    new: &[u64],
) -> Result<Vec<Gate>, AllocError> {
    let mut list = PhaseList::new(alloc)?;
    for term in old {
        if !new.contains(&term.column) {
            list.add(term.column, term.phase.neg())?;
        }
    }
    for column in new {
        if !old.iter().any(|term| term.column == *column) {
            list.add(*column, Sixteenth::eighth_turn())?;
        }
    }
    list.mend()?;
    Ok(list.gates)
}

// Phases about parities, as gates, and what they make of the labels with one bit and with two.
#[derive(Drop)]
struct PhaseList {
    gates: Vec<Gate>,
    // The sum of the phases about the columns with both of two bits, in sixteenth turns.
    sums: Vec<u8>,
}

impl PhaseList {
    fn new(alloc: Global) -> Result<PhaseList, AllocError> {
        let mut sums = Vec::new(alloc);
        sums.resize(WIDTH * WIDTH, 0)?;
        Ok(PhaseList {
            gates: Vec::new(alloc),
            sums,
        })
    }

    // One phase more.
    fn add(&mut self, column: u64, phase: Sixteenth) -> Result<(), AllocError> {
        for i in 0..WIDTH as Qubit {
            if has(column, i) {
                for j in 0..WIDTH as Qubit {
                    if has(column, j) {
                        self.count(i, j, phase);
                    }
                }
            }
        }
        self.write(column, phase)
    }

    fn count(&mut self, i: Qubit, j: Qubit, phase: Sixteenth) {
        if let Some(sum) = self.sums.get_mut(place_of(i, j)) {
            *sum = sum.wrapping_add(phase.get()) % 16;
        }
    }

    fn sum(&self, i: Qubit, j: Qubit) -> u8 {
        self.sums.get(place_of(i, j)).copied().unwrap_or(0)
    }

    // Writes the gates of one phase.
    fn write(&mut self, column: u64, phase: Sixteenth) -> Result<(), AllocError> {
        let Some(high) = 63_u32.checked_sub(column.leading_zeros()) else {
            return Ok(());
        };
        let target = high as Qubit;
        for control in 0..target {
            if has(column, control) {
                self.gates.push(Gate::Cx { control, target })?;
            }
        }
        if phase.get() != 0 {
            self.gates.push(Gate::Phase(target, phase))?;
        }
        for control in (0..target).rev() {
            if has(column, control) {
                self.gates.push(Gate::Cx { control, target })?;
            }
        }
        Ok(())
    }

    // Writes Clifford gates, so that nothing is left of the phases, where no more than such is.
    fn mend(&mut self) -> Result<(), AllocError> {
        for i in 0..WIDTH as Qubit {
            let mut turns = 16_u8.wrapping_sub(self.sum(i, i));
            for j in 0..WIDTH as Qubit {
                if i != j && self.is_controlled_z(i, j) {
                    turns = turns.wrapping_add(4);
                    if i < j {
                        self.write(bit(i) | bit(j), Sixteenth::quarter_turn().neg())?;
                    }
                }
            }
            if turns % 16 != 0 {
                self.gates.push(Gate::Phase(i, Sixteenth::new(turns % 16)))?;
            }
        }
        Ok(())
    }

    // Whether twice the phases about columns with both of two bits, which come off where both are set, are half a turn.
    fn is_controlled_z(&self, i: Qubit, j: Qubit) -> bool {
        self.sum(i, j) % 8 == 4
    }
}

fn bit(q: Qubit) -> u64 {
    1_u64.wrapping_shl(u32::from(q))
}

fn has(column: u64, q: Qubit) -> bool {
    column.wrapping_shr(u32::from(q)) % 2 == 1
}

fn place_of(i: Qubit, j: Qubit) -> usize {
    usize::from(i)
        .wrapping_mul(WIDTH)
        .wrapping_add(usize::from(j))
}
