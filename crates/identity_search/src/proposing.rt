//! Which phases may be put in.

use crate::drawing::Drawing;
use crate::groups::{Group, are_dependent, is_clifford};
use crate::idle::idle_gates;
use crate::populations::{Effort, search, search_shortly};
use crate::walk::Walk;
use pauli_network::circuit_of;
use std::alloc::{AllocError, Global};
use zx_gates::{Gate, GateList, Qubit};
use zx_identities::Insertion;

// The most qubits of a list.
const MOST_QUBITS: Qubit = 64;

// How many columns there have to be, so that a flat may gain.
const FEWEST_COLUMNS: usize = 8;

// How many steps a short walk has besides those that gain.
const SHORT_STEPS: usize = 100;

// How many groups are drawn to find one with most of the phases.
const DRAWN: usize = 3;

// How many odd phases are near the middle.
const NEAR_MIDDLE: usize = 32;

/// What may be put into a circuit so that it has fewer odd phases once those that meet are put together, where most of
/// them are in one group that can be brought together: by one long search with so many hundredths of the usual effort,
/// some ends of it, each for the circuit as it is. Nothing is promised of them. Equal arguments give equal ones.
///
/// # Errors
///
/// Only where memory runs out.
pub fn propose_at_length(
    alloc: Global,
    circuit: &GateList,
    percent: u64,
    seed: u64,
) -> Result<Vec<Insertion>, AllocError> {
    let mut found = Vec::new(alloc);
    let mut drawing = Drawing::new(seed);
    let Some(group) = large_group(alloc, circuit, &mut drawing)? else {
        return Ok(found);
    };
    let columns = group.columns(alloc)?;
    let effort = Effort::for_columns(columns.len()).part(percent);
    for new in search(alloc, &columns, effort, u64::from(drawing.word()))? {
        if new.len() < columns.len() {
            if let Some(insertion) = exchange(alloc, circuit.qubits(), &group, &new)? {
                found.push(insertion)?;
            }
        }
    }
    Ok(found)
}

/// The same by short searches of groups at drawn places, until one gains, or so many have gained nothing.
///
/// # Errors
///
/// Only where memory runs out.
pub fn propose_shortly(
    alloc: Global,
    circuit: &GateList,
    tries: usize,
    seed: u64,
) -> Result<Option<Insertion>, AllocError> {
    let (qubits, gates) = (circuit.qubits(), circuit.gates());
    let Some(places) = places_in(alloc, circuit)? else {
        return Ok(None);
    };
    let mut drawing = Drawing::new(seed);
    let mut walk = Walk::new(alloc, &[], u64::from(drawing.word()))?;
    for _ in 0..tries {
        let place = drawn_place(&places, gates.len(), &mut drawing);
        let group = Group::draw(alloc, qubits, gates, place, &mut drawing)?;
        let columns = group.columns(alloc)?;
        if may_gain(alloc, &columns)? {
            let new = search_shortly(alloc, &mut walk, &columns, SHORT_STEPS)?;
            if new.len() < columns.len() {
                return exchange(alloc, qubits, &group, &new);
            }
        }
    }
    Ok(None)
}

/// What may be put into a circuit so that all phases of a group vanish but for Clifford gates, where one of the groups
/// at so many places allows that: every other place is near the middle, where gates stand that were put into one of two
/// circuits, if this is the one followed by the inverse of the other. Nothing is promised of it. Equal arguments give
/// equal ones.
///
/// # Errors
///
/// Only where memory runs out.
pub fn propose_vanishing(
    alloc: Global,
    circuit: &GateList,
    tries: usize,
    seed: u64,
) -> Result<Option<Insertion>, AllocError> {
    let (qubits, gates) = (circuit.qubits(), circuit.gates());
    let Some(places) = places_in(alloc, circuit)? else {
        return Ok(None);
    };
    let mut drawing = Drawing::new(seed);
    for number in 0..tries {
        let place = if number % 2 == 0 {
            middle_place(&places, gates.len(), &mut drawing)
        } else {
            drawn_place(&places, gates.len(), &mut drawing)
        };
        let group = Group::draw(alloc, qubits, gates, place, &mut drawing)?;
        let columns = group.columns(alloc)?;
        if columns.len() >= FEWEST_COLUMNS && is_clifford(&columns) {
            return exchange(alloc, qubits, &group, &[]);
        }
    }
    Ok(None)
}

// The places of all odd phases; none where these are too few, or the qubits too many.
fn places_in(alloc: Global, circuit: &GateList) -> Result<Option<Vec<usize>>, AllocError> {
    let mut places = Vec::new(alloc);
    for (place, gate) in circuit.gates().iter().enumerate() {
        if let Gate::Phase(_, phase) = *gate {
            if phase.is_odd() {
                places.push(place)?;
            }
        }
    }
    if circuit.qubits() > MOST_QUBITS || places.len() < FEWEST_COLUMNS {
        return Ok(None);
    }
    Ok(Some(places))
}

// That of an odd phase, or the end.
fn drawn_place(places: &[usize], end: usize, drawing: &mut Drawing) -> usize {
    let number = drawing.below(places.len().saturating_add(1));
    places.get(number).copied().unwrap_or(end)
}

// That of one of the odd phases in the middle.
fn middle_place(places: &[usize], end: usize, drawing: &mut Drawing) -> usize {
    let first = (places.len() / 2).saturating_sub(NEAR_MIDDLE / 2);
    let number = first.saturating_add(drawing.below(NEAR_MIDDLE));
    places.get(number).copied().unwrap_or(end)
}

// A drawn group that has more than three fifths of all odd phases, if one is met.
fn large_group(
    alloc: Global,
    circuit: &GateList,
    drawing: &mut Drawing,
) -> Result<Option<Group>, AllocError> {
    let (qubits, gates) = (circuit.qubits(), circuit.gates());
    let Some(places) = places_in(alloc, circuit)? else {
        return Ok(None);
    };
    for _ in 0..DRAWN {
        let place = drawn_place(&places, gates.len(), drawing);
        let group = Group::draw(alloc, qubits, gates, place, drawing)?;
        let columns = group.columns(alloc)?;
        let is_large = columns.len() / 3 > places.len() / 5;
        if is_large && may_gain(alloc, &columns)? {
            return Ok(Some(group));
        }
    }
    Ok(None)
}

// Whether a flat may hold half of its points.
fn may_gain(alloc: Global, columns: &[u64]) -> Result<bool, AllocError> {
    Ok(columns.len() >= FEWEST_COLUMNS && are_dependent(alloc, columns)?)
}

// What puts phases about these columns in the place of a group's.
fn exchange(
    alloc: Global,
    qubits: Qubit,
    group: &Group,
    new: &[u64],
) -> Result<Option<Insertion>, AllocError> {
    if qubits > MOST_QUBITS {
        return Ok(None);
    }
    let Some(frame) = circuit_of(alloc, qubits, &group.frame)? else {
        return Ok(None);
    };
    let Some(inner) = circuit_of(alloc, qubits, &idle_gates(alloc, &group.terms, new)?)? else {
        return Ok(None);
    };
    Ok(Some(Insertion {
        place: group.place,
        frame,
        inner,
    }))
}
