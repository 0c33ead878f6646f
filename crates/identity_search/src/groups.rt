//! Groups of phases about strings that commute.

use crate::arrivals::{Arrival, arrivals};
use crate::drawing::Drawing;
use pauli_network::PauliString;
use std::alloc::{AllocError, Global};
use zx_gates::{Gate, Qubit};
use zx_model::Sixteenth;

// How many columns there have to be more than are independent, so that a flat may gain.
const LEAST_EXCESS: usize = 4;

/// Phases that can be brought together at a place, as phases about parities behind Clifford gates.
#[derive(Drop)]
pub(crate) struct Group {
    /// The place.
    pub(crate) place: usize,
    /// The Clifford gates that make each string one of Z alone.
    pub(crate) frame: Vec<Gate>,
    /// The phases about parities.
    pub(crate) terms: Vec<Term>,
}

/// A phase about a parity.
#[derive(Clone, Copy)]
pub(crate) struct Term {
    /// The qubits of the parity, as bits.
    pub(crate) column: u64,
    /// The phase.
    pub(crate) phase: Sixteenth,
}

impl Group {
    /// A drawn group at a place: of the phases that come there from both sides, one after the other that commutes with
    /// those before.
    pub(crate) fn draw(
        alloc: Global,
        qubits: Qubit,
        gates: &[Gate],
        place: usize,
        drawing: &mut Drawing,
    ) -> Result<Group, AllocError> {
        let behind = arrivals(alloc, qubits, gates, place, true)?;
        let before = arrivals(alloc, qubits, gates, place, false)?;
        let mut members = Vec::with_capacity(alloc, behind.len())?;
        match drawing.below(3) {
            0 => {
                join(&mut members, &behind)?;
                join(&mut members, &before)?;
            }
            1 => {
                join(&mut members, &before)?;
                join(&mut members, &behind)?;
            }
            _ => {
                let mut all = Vec::with_capacity(alloc, behind.len())?;
                all.extend_from_slice(&behind)?;
                all.extend_from_slice(&before)?;
                shuffle(&mut all, drawing);
                join(&mut members, &all)?;
            }
        }
        diagonal(alloc, place, members)
    }

    /// The columns of the terms, each of those that stand an odd number of times.
    pub(crate) fn columns(&self, alloc: Global) -> Result<Vec<u64>, AllocError> {
        let mut columns: Vec<u64> = Vec::with_capacity(alloc, self.terms.len())?;
        for term in &self.terms {
            match columns.iter().position(|column| *column == term.column) {
                Some(number) if number < columns.len() => {
                    columns.swap_remove(number);
                }
                _ if term.column != 0 => columns.push(term.column)?,
                _ => {}
            }
        }
        Ok(columns)
    }
}

/// Whether there are so many more columns than independent ones that a flat may hold half of its points.
pub(crate) fn are_dependent(alloc: Global, columns: &[u64]) -> Result<bool, AllocError> {
    let rank = rank(alloc, columns)?;
    Ok(columns.len().saturating_sub(rank) >= LEAST_EXCESS)
}

// How many of these columns are independent.
fn rank(alloc: Global, columns: &[u64]) -> Result<usize, AllocError> {
    let mut reduced: Vec<u64> = Vec::new(alloc);
    for column in columns {
        let mut left = *column;
        for other in &reduced {
            left = left.min(left ^ *other);
        }
        if left != 0 {
            reduced.push(left)?;
        }
    }
    Ok(reduced.len())
}

/// Whether phases of an eighth turn about these columns are a Clifford map: any three bits, equal ones too, are set
/// in an even number.
pub(crate) fn is_clifford(columns: &[u64]) -> bool {
    for i in 0..64_u32 {
        for j in 0..=i {
            let mut sum = 0;
            for column in columns {
                if column.wrapping_shr(i) & column.wrapping_shr(j) & 1 == 1 {
                    sum ^= *column;
                }
            }
            let to_j = 2_u64.wrapping_shl(j).wrapping_sub(1);
            if sum & to_j != 0 {
                return false;
            }
        }
    }
    true
}

// Puts in what commutes with all that is there.
fn join(members: &mut Vec<Arrival>, others: &[Arrival]) -> Result<(), AllocError> {
    for arrival in others {
        let is_free = !members
            .iter()
            .any(|member| member.string.anticommutes(&arrival.string));
        if is_free {
            members.push(*arrival)?;
        }
    }
    Ok(())
}

fn shuffle(all: &mut [Arrival], drawing: &mut Drawing) {
    for number in 0..all.len() {
        let other = drawing.below(number.saturating_add(1));
        if other < all.len() {
            all.swap(number, other);
        }
    }
}

// The group of phases about strings that commute.
fn diagonal(alloc: Global, place: usize, mut members: Vec<Arrival>) -> Result<Group, AllocError> {
    let mut frame = Vec::new(alloc);
    for number in 0..members.len() {
        let string = match members.get(number) {
            Some(member) => member.string,
            None => break,
        };
        if string.x_bits() != 0 {
            turn_to_z(&mut frame, &mut members, number, string)?;
        }
    }
    let mut terms = Vec::with_capacity(alloc, members.len())?;
    for member in &members {
        let phase = if member.string.is_negative() {
            member.phase.neg()
        } else {
            member.phase
        };
        terms.push(Term {
            column: member.string.z_bits(),
            phase,
        })?;
    }
    Ok(Group {
        place,
        frame,
        terms,
    })
}

// Adds gates that make a member's string one of Z alone. Those that are so before stay so, since they commute with it.
fn turn_to_z(
    frame: &mut Vec<Gate>,
    members: &mut [Arrival],
    number: usize,
    string: PauliString,
) -> Result<(), AllocError> {
    let Ok(pivot) = u16::try_from(string.x_bits().trailing_zeros()) else {
        return Ok(());
    };
    for target in 0..64_u16 {
        if target != pivot && string.at(target).x {
            let gate = Gate::Cx {
                control: pivot,
                target,
            };
            pass(frame, members, gate)?;
        }
    }
    let is_y = members
        .get(number)
        .is_some_and(|member| member.string.at(pivot).z);
    if is_y {
        pass(
            frame,
            members,
            Gate::Phase(pivot, Sixteenth::quarter_turn().neg()),
        )?;
    }
    pass(frame, members, Gate::H(pivot))
}

// Adds a gate in front of all strings.
fn pass(frame: &mut Vec<Gate>, members: &mut [Arrival], gate: Gate) -> Result<(), AllocError> {
    for member in members {
        member.string.pass(&gate);
    }
    frame.push(gate)?;
    Ok(())
}
