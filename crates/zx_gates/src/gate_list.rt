//! Circuits as lists of gates.

ghost use Rattle.std.specs.Prelude.{◌≡◌, ◌≤◌, ◌<◌, ◌+◌, ◌++◌, [], ◌∷◌, length, slice_set, take, drop};
ghost use Rattle.std.specs.Prelude.{IfOk, OnOk, OnErr};
ghost use Rattle.std.specs.List.{All};
ghost use Rattle.zx_gates.specs.Circuit.{Circuit, IsCircuit, IsGateOn, IsOnQubits, HasRoom, gate_limit, most_qubits, circuit_of};

use crate::gate::{Gate, Qubit};
use std::alloc::{AllocError, Global};
use std::marker::Model;
use std::mem;

// The most gates that a list may have, so that a link can name each of them.
const MOST_GATES: usize = u32::MAX as usize;

/// The most qubits that a circuit may have.
pub const MOST_QUBITS: usize = 1024;

/// Room beside a gate for a link to another gate of its list, one for each of its qubits.
#[derive(Clone, Copy, Debug, PartialEq, Eq)]
pub struct Links {
    /// The link for the first qubit.
    pub first: u32,
    /// The link for the second qubit.
    pub second: u32,
}

/// Room beside a qubit for a mark for each other qubit, 128 to a word.
pub type Marks = [u128; MOST_QUBITS / 128];

/// What a circuit is made of, for a pass that works on all of it.
#[derive(Drop)]
pub struct Parts {
    /// How many qubits there are.
    pub qubits: Qubit,
    /// The gates, the first to act first.
    pub gates: Vec<Gate>,
    /// Room for the links of each gate; what they hold is for the pass to say.
    pub links: Vec<Links>,
    /// Room for a link of each qubit, where there are gates.
    pub last: Vec<u32>,
    /// Room for the marks of each qubit, where there are gates.
    pub marks: Vec<Marks>,
}

/// A circuit: a number of qubits, at most 1,024, and the gates on them, the first to act first. The qubits
/// of a gate are below that number and differ, no phase gate has the phase 0, and phases are below a whole turn.
/// There is room for links beside the gates, and for a link and marks beside each qubit from the first gate on, so
/// that a pass that wants them needs no memory.
#[derive(Drop)]
pub struct GateList {
    qubits: Qubit,
    gates: Vec<Gate>,
    links: Vec<Links>,
    last: Vec<u32>,
    marks: Vec<Marks>,
}

impl Model for GateList {
    ghost use Rattle.std.specs.Prelude.{length};
    ghost use Rattle.zx_gates.specs.Circuit.{Circuit, HasRoom, circuit_of};

    ghost Value = { Circuit };

    ghost view = { λ list. circuit_of list.qubits list.gates.items };

    ghost invariant = { λ list. HasRoom (circuit_of list.qubits list.gates.items) (length list.links.items)
        (length list.last.items) (length list.marks.items) };
}

impl GateList {
    /// The circuit without gates.
    pub fn new(alloc: Global, qubits: Qubit) -> GateList
        requires { qubits ≤ most_qubits }
        ensures { result ≡ record { qubits = qubits; gates = [] } }
    {
        GateList {
            qubits,
            gates: Vec::new(alloc),
            links: Vec::new(alloc),
            last: Vec::new(alloc),
            marks: Vec::new(alloc),
        }
    }

    /// The same circuit once more.
    pub fn copy(&self) -> Result<GateList, AllocError>
        ensures { IfOk result (λ copy. copy ≡ self.now) }
    {
        Ok(GateList {
            qubits: self.qubits,
            gates: self.gates.clone()?,
            links: self.links.clone()?,
            last: self.last.clone()?,
            marks: self.marks.clone()?,
        })
    }

    /// How many qubits there are.
    pub fn qubits(&self) -> Qubit
        ensures value { result ≡ self.now.qubits }
        ensures valid { IsCircuit self.now }
    {
        self.qubits
    }

    /// The gates, the first to act first.
    pub fn gates(&self) -> &[Gate]
        ensures value { result.now ≡ self.now.gates }
        ensures valid { IsCircuit self.now }
        ensures few { length self.now.gates < gate_limit }
    {
        &self.gates
    }

    /// Adds a gate after all others. Where memory runs out the list stays as it was; more than 2^32 - 1 gates
    /// don't fit into memory either.
    pub fn push(&mut self, gate: Gate) -> Result<(), AllocError>
        requires { IsOnQubits self.old.qubits gate }
        ensures qubits { self.new.qubits ≡ self.old.qubits }
        ensures ok { OnOk result (self.new.gates ≡ self.old.gates ++ gate ∷ []) }
        ensures err { OnErr result (self.new ≡ self.old) }
    {
        if self.gates.len() >= MOST_GATES {
            return Err(AllocError);
        }
        if self.gates.is_empty() {
            let qubits = usize::from(self.qubits);
            self.last.resize(qubits, 0)?;
            self.marks.resize(qubits, [0; MOST_QUBITS / 128])?;
        }
        if self.links.len() <= self.gates.len() {
            self.links.push(Links {
                first: 0,
                second: 0,
            })?;
        }
        self.gates.push(gate)?;
        Ok(())
    }

    /// Adds gates after all others, in their order. Where memory runs out, some of them may be there.
    pub fn push_all(&mut self, gates: &[Gate]) -> Result<(), AllocError>
        requires { All (IsGateOn self.old.qubits) gates.now }
        ensures qubits { OnOk result (self.new.qubits ≡ self.old.qubits) }
        ensures gates { OnOk result (self.new.gates ≡ self.old.gates ++ gates.now) }
    {
        for gate in gates {
            self.push(*gate)?;
        }
        Ok(())
    }

    /// Puts a gate in the place of another. It takes no memory.
    pub fn set(&mut self, i: usize, gate: Gate)
        requires index { i < length self.old.gates }
        requires gate { IsOnQubits self.old.qubits gate }
        ensures { self.new ≡ record self.old { gates = slice_set self.old.gates i gate } }
    {
        self.gates[i] = gate;
    }

    /// Takes a gate out, so that those behind it move up by one place. It takes no memory.
    pub fn remove(&mut self, i: usize)
        requires { i < length self.old.gates }
        ensures { self.new ≡ record self.old
            { gates = take i self.old.gates ++ drop (i + 1) self.old.gates } }
    {
        self.gates.remove(i);
    }

    /// Takes the circuit apart, and leaves one without qubits behind.
    pub fn take(&mut self) -> Parts
        ensures circuit { circuit_of result.qubits result.gates.items ≡ self.old }
        ensures room { HasRoom self.old (length result.links.items) (length result.last.items)
            (length result.marks.items) }
    {
        let alloc = *self.gates.allocator();
        let list = mem::replace(self, GateList::new(alloc, 0));
        Parts {
            qubits: list.qubits,
            gates: list.gates,
            links: list.links,
            last: list.last,
            marks: list.marks,
        }
    }

    /// Puts a circuit together.
    pub fn from_parts(parts: Parts) -> GateList
        requires { HasRoom (circuit_of parts.qubits parts.gates.items) (length parts.links.items)
            (length parts.last.items) (length parts.marks.items) }
        ensures { result ≡ circuit_of parts.qubits parts.gates.items }
    {
        GateList {
            qubits: parts.qubits,
            gates: parts.gates,
            links: parts.links,
            last: parts.last,
            marks: parts.marks,
        }
    }
}
