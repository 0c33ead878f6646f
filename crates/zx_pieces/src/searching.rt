//! The search.

ghost use Rattle.std.specs.Prelude.{◌≡◌, IfOk, IfSome};

use crate::drawing::Drawing;
use crate::parts::{MOST_QUBITS, Part, Size, moved};
use pauli_network::{Rewriter, circuit_of, invert};
use std::alloc::{AllocError, Global};
use std::mem;
use zx_gates::{Gate, GateList, Qubit, counts};
use zx_peephole::tidy;

// Along how many gates a part is taken.
const REACH: usize = 300;

// After how many tries the list is turned around.
const TURN: usize = 64;

// After how many changes the list is tidied.
const CLEANUP: usize = 16;

/// A circuit that may have the map of another one, and fewer gates on two qubits, where such is found in so many
/// tries, at most `idle` of them in a row without a gain. Nothing is promised of either. Equal arguments give equal
/// circuits.
///
/// # Errors
///
/// Only where memory runs out.
pub(crate) fn search(
    alloc: Global,
    circuit: &GateList,
    tries: usize,
    idle: usize,
    seed: u64,
) -> Result<Option<GateList>, AllocError>
    ensures { IfOk result (λ found. IfSome found (λ made. made.qubits ≡ circuit.now.qubits)) }
{
    let qubits = circuit.qubits();
    if qubits > MOST_QUBITS || counts(circuit).two_qubit < 2 {
        return Ok(None);
    }
    let mut lists = Lists::new(alloc, circuit, seed)?;
    for number in 0..tries {
        if number % TURN == TURN - 1 {
            lists.turn_around()?;
        }
        lists.try_once(alloc)?;
        if lists.idle > idle {
            break;
        }
    }
    if lists.is_backwards {
        lists.turn_around()?;
    }
    circuit_of(alloc, qubits, &lists.best)
}

// The lists so far.
#[derive(Drop)]
struct Lists {
    qubits: Qubit,
    current: Vec<Gate>,
    best: Vec<Gate>,
    best_size: Length,
    // Whether both are backwards.
    is_backwards: bool,
    // How often the list has changed.
    changes: usize,
    drawing: Drawing,
    // How many tries have gained nothing since the best list was found.
    idle: usize,
    // Memory that each try uses again: the next list, and the part that is written again, on its own qubits alone, which
    // have these places.
    next: Vec<Gate>,
    part: Part,
    small: Vec<Gate>,
    places: Vec<Qubit>,
    rewriter: Rewriter,
}

// How long a list is.
#[derive(Clone, Copy)]
struct Length {
    two_qubit: usize,
    total: usize,
}

impl Length {
    fn of(gates: &[Gate]) -> Length {
        let two_qubit = gates
            .iter()
            .filter(|gate| matches!(gate, Gate::Cz(..) | Gate::Cx { .. }))
            .count();
        Length {
            two_qubit,
            total: gates.len(),
        }
    }

    fn is_below(self, other: Length) -> bool {
        self.two_qubit < other.two_qubit
            || (self.two_qubit == other.two_qubit && self.total < other.total)
    }
}

impl Lists {
    fn new(alloc: Global, circuit: &GateList, seed: u64) -> Result<Lists, AllocError> {
        let mut current = Vec::new(alloc);
        current.extend_from_slice(circuit.gates())?;
        let mut best = Vec::new(alloc);
        best.extend_from_slice(circuit.gates())?;
        Ok(Lists {
            qubits: circuit.qubits(),
            current,
            best,
            best_size: Length::of(circuit.gates()),
            is_backwards: false,
            changes: 0,
            drawing: Drawing::new(seed),
            idle: 0,
            next: Vec::new(alloc),
            part: Part::new(alloc),
            small: Vec::new(alloc),
            places: Vec::new(alloc),
            rewriter: Rewriter::new(alloc),
        })
    }

    // Both lists backwards.
    fn turn_around(&mut self) -> Result<(), AllocError> {
        invert(&mut self.next, &self.current)?;
        mem::swap(&mut self.current, &mut self.next);
        invert(&mut self.next, &self.best)?;
        mem::swap(&mut self.best, &mut self.next);
        self.is_backwards = !self.is_backwards;
        Ok(())
    }

    // Writes a part of the list again.
    fn try_once(&mut self, alloc: Global) -> Result<(), AllocError> {
        self.idle = self.idle.saturating_add(1);
        let start = self
            .drawing
            .place(self.current.len())
            .min(self.current.len());
        let size = Size {
            qubits: self.drawing.width(),
            gates: self.drawing.size(),
            reach: REACH,
        };
        self.part.take(&self.current[start..], size)?;
        if Length::of(&self.part.taken).two_qubit < 2 {
            return Ok(());
        }
        let seed = self.drawing.seed();
        let qubits = self.part.narrow(&mut self.small, &mut self.places)?;
        self.rewriter
            .rewrite(qubits, &self.small, seed % 2 == 1, seed / 2)?;
        match self.written(alloc, qubits)? {
            Some(made) => self.change(alloc, start, made.gates()),
            None => Ok(()),
        }
    }

    // What the part was written as, after cleanup, where it is on no more pairs of qubits.
    fn written(&self, alloc: Global, qubits: Qubit) -> Result<Option<GateList>, AllocError> {
        let Some(gates) = self.rewriter.written() else {
            return Ok(None);
        };
        if qubits > MOST_QUBITS {
            return Ok(None);
        }
        let Some(mut made) = circuit_of(alloc, qubits, gates)? else {
            return Ok(None);
        };
        tidy(&mut made);
        Ok(Some(made))
    }

    // Puts gates in the part's place.
    fn change(&mut self, alloc: Global, start: usize, gates: &[Gate]) -> Result<(), AllocError> {
        self.next.clear();
        self.next
            .extend_from_slice(&self.current[..start.min(self.current.len())])?;
        for gate in gates {
            self.next.push(moved(gate, &self.places))?;
        }
        self.next.extend_from_slice(&self.part.passed)?;
        let end = start.saturating_add(self.part.read).min(self.current.len());
        self.next.extend_from_slice(&self.current[end..])?;
        mem::swap(&mut self.current, &mut self.next);
        self.changes = self.changes.wrapping_add(1);
        if self.changes % CLEANUP == 0 {
            self.tidy_current(alloc)?;
        }
        self.keep_best()
    }

    // Tidies the list.
    fn tidy_current(&mut self, alloc: Global) -> Result<(), AllocError> {
        if self.qubits > MOST_QUBITS {
            return Ok(());
        }
        if let Some(mut list) = circuit_of(alloc, self.qubits, &self.current)? {
            tidy(&mut list);
            self.current.clear();
            self.current.extend_from_slice(list.gates())?;
        }
        Ok(())
    }

    // Keeps the list if it is the best so far.
    fn keep_best(&mut self) -> Result<(), AllocError> {
        let size = Length::of(&self.current);
        if size.is_below(self.best_size) {
            self.best_size = size;
            self.idle = 0;
            self.best.clear();
            self.best.extend_from_slice(&self.current)?;
        }
        Ok(())
    }
}
