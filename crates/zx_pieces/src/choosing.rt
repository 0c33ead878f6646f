//! Which qubits a piece is on.
//!
//! Nothing is proved of the choice: any set of qubits gives a piece.

use crate::walking::qubits_of;
use std::alloc::{AllocError, Global};
use zx_gates::{Gate, Qubit};

/// A flag for each of so many qubits, whether a piece that begins with the first of these gates is on it: at most
/// so many, one after the other that with which the piece grows most; none, where the first gate is on more.
pub(crate) fn connected(
    alloc: Global,
    qubits: Qubit,
    gates: &[Gate],
    most: usize,
) -> Result<Vec<bool>, AllocError> {
    let mut chosen = Vec::new(alloc);
    if most >= usize::from(qubits) {
        chosen.resize(usize::from(qubits), true)?;
        return Ok(chosen);
    }
    chosen.resize(usize::from(qubits), false)?;
    let mut width = 0_usize;
    if let Some(gate) = gates.first() {
        let (first, second) = qubits_of(gate);
        width = if first == second { 1 } else { 2 };
        if width > most {
            return Ok(chosen);
        }
        choose(&mut chosen, first);
        choose(&mut chosen, second);
    }
    for _ in width..most {
        match next_qubit(alloc, qubits, gates, &chosen)? {
            Some(q) => choose(&mut chosen, q),
            None => break,
        }
    }
    Ok(chosen)
}

fn choose(chosen: &mut [bool], q: Qubit) {
    if let Some(flag) = chosen.get_mut(usize::from(q)) {
        *flag = true;
    }
}

// The qubit with which a piece on the chosen ones grows most.
fn next_qubit(
    alloc: Global,
    qubits: Qubit,
    gates: &[Gate],
    chosen: &[bool],
) -> Result<Option<Qubit>, AllocError> {
    let mut growth = Growth::new(alloc, qubits, chosen)?;
    for gate in gates {
        let (first, second) = qubits_of(gate);
        if first != second {
            growth.meet(first, second);
            if growth.open == 0 {
                break;
            }
        }
    }
    Ok(growth.best())
}

// How a piece goes on at a qubit.
#[derive(Clone, Copy, PartialEq, Eq)]
enum End {
    // It does.
    Open,
    // It does with a qubit more.
    With(Qubit),
    // It does with more qubits than one, or not at all.
    Closed,
}

#[derive(Clone, Copy)]
struct Mark {
    is_chosen: bool,
    end: End,
    // How many gates on two qubits the piece would gain with the qubit.
    gain: u32,
}

// What a piece would gain with a qubit more.
#[derive(Drop)]
struct Growth {
    qubits: Qubit,
    marks: Vec<Mark>,
    // At how many of the chosen qubits it may go on yet.
    open: usize,
}

impl Growth {
    fn new(alloc: Global, qubits: Qubit, chosen: &[bool]) -> Result<Growth, AllocError> {
        let mut marks = Vec::new(alloc);
        let mut open = 0_usize;
        for flag in chosen {
            if *flag {
                open = open.saturating_add(1);
            }
            marks.push(Mark {
                is_chosen: *flag,
                end: End::Open,
                gain: 0,
            })?;
        }
        Ok(Growth {
            qubits,
            marks,
            open,
        })
    }

    fn mark(&self, q: Qubit) -> Mark {
        self.marks.get(usize::from(q)).copied().unwrap_or(Mark {
            is_chosen: false,
            end: End::Closed,
            gain: 0,
        })
    }

    // A gate on two qubits comes next.
    fn meet(&mut self, p: Qubit, q: Qubit) {
        let (at_p, at_q) = (self.mark(p), self.mark(q));
        match (at_p.is_chosen, at_q.is_chosen) {
            (true, true) => self.join(p, q, both(at_p.end, at_q.end)),
            (true, false) => self.join(p, q, with(at_p.end, at_q.end, q)),
            (false, true) => self.join(p, q, with(at_q.end, at_p.end, p)),
            (false, false) => self.join(p, q, End::Closed),
        }
    }

    // Behind the gate, the piece goes on so at its qubits.
    fn join(&mut self, p: Qubit, q: Qubit, end: End) {
        if let End::With(r) = end {
            if let Some(mark) = self.marks.get_mut(usize::from(r)) {
                mark.gain = mark.gain.saturating_add(1);
            }
        }
        self.set_end(p, end);
        self.set_end(q, end);
    }

    fn set_end(&mut self, q: Qubit, end: End) {
        if let Some(mark) = self.marks.get_mut(usize::from(q)) {
            if mark.is_chosen && mark.end != End::Closed && end == End::Closed {
                self.open = self.open.saturating_sub(1);
            }
            if mark.is_chosen || end == End::Closed {
                mark.end = end;
            }
        }
    }

    // The first of the qubits that gain most.
    fn best(&self) -> Option<Qubit> {
        let mut found: Option<Qubit> = None;
        let mut most = 0_u32;
        for q in 0..self.qubits {
            let mark = self.mark(q);
            if !mark.is_chosen && mark.gain > most {
                found = Some(q);
                most = mark.gain;
            }
        }
        found
    }
}

// How a piece goes on behind a gate on two of its qubits.
fn both(p: End, q: End) -> End {
    if p == End::Open {
        return q;
    }
    if q == End::Open || p == q {
        return p;
    }
    End::Closed
}

// The same for a gate on one of its qubits and this one.
fn with(here: End, there: End, q: Qubit) -> End {
    if there == End::Closed {
        return End::Closed;
    }
    if here == End::Open || here == End::With(q) {
        End::With(q)
    } else {
        End::Closed
    }
}
