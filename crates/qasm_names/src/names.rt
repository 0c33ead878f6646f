//! What names stand for.

ghost use Rattle.std.specs.Prelude.{◌≡◌, ◌+◌, ◌≤◌, ◌∷◌, [], OnOk, IfSome};
ghost use Rattle.zx_gates.specs.Circuit.{most_qubits};
ghost use Rattle.zx_gates.specs.Elementary.{most_bits};
ghost use Rattle.qasm_reader.specs.Views.{callee};
ghost use Rattle.std.specs.Option.{is_some, option_map};
ghost use Rattle.qasm_names.specs.Checks.{gate_shape, kept_by, lookup_by};
ghost use Rattle.qasm_names.specs.Kept.{Represents, DeclaresGate, called_for, found, number_in, kept_body, symbol_bits, symbol_taken, symbol_shape, symbol_register};
ghost use Rattle.qasm_scope.specs.Faults.{shape_of};
ghost use Rattle.qasm_scope.specs.Scope.{Scope, Qubits, Bits, bit_count, declared, qubit_count};

use crate::gates::{CalledGate, GateBody, KnownGate};
use qasm_reader::GateName;
use std::alloc::{AllocError, Global};
use std::collections::BTreeMap;

/// What a name stands for.
#[derive(Clone, Copy, Debug, PartialEq, Eq)]
pub enum Symbol {
    /// A register of qubits.
    Qubits {
        /// The number of its first qubit.
        first: usize,
        /// How many qubits it has.
        size: usize,
    },
    /// A register of bits.
    Bits {
        /// The number of its first bit.
        first: usize,
        /// How many bits it has.
        size: usize,
    },
    /// A gate.
    Gate {
        /// Its number among the declared gates, from 0.
        number: usize,
        /// How many angles it has.
        angles: usize,
        /// How many qubits it has.
        qubits: usize,
        /// Whether the program may declare the name again.
        replaceable: bool,
    },
}

/// The declarations so far.
#[derive(Drop)]
pub struct Names<'a> {
    /// What each name stands for.
    pub symbols: BTreeMap<&'a [u8], Symbol>,
    /// The declared gates.
    pub gates: Vec<GateBody>,
    /// How many qubits are declared.
    pub qubits: usize,
    /// How many bits are declared.
    pub bits: usize,
}

impl<'a> Names<'a> {
    /// No declarations.
    pub fn new(alloc: Global) -> Names<'a>
        ensures { Represents result [] }
    {
        Names {
            symbols: BTreeMap::new(alloc),
            gates: Vec::new(alloc),
            qubits: 0,
            bits: 0,
        }
    }

    /// What a name stands for.
    pub fn find(&self, name: &'a [u8]) -> Option<Symbol>
        ensures { result ≡ found name.now self.now.symbols }
    {
        self.symbols.get(&name).copied()
    }

    /// Whether a name is declared.
    pub fn is_declared(&self, name: &'a [u8]) -> bool
        ensures { result ≡ is_some (found name.now self.now.symbols) }
    {
        self.find(name).is_some()
    }

    /// Whether a name may not be declared again.
    pub fn is_taken(&self, name: &'a [u8]) -> bool
        ensures { result ≡ symbol_taken (found name.now self.now.symbols) }
    {
        is_taken(self.find(name))
    }

    /// The gate of a name, if there is one.
    pub fn gate(&self, gate: &GateName<'a>) -> Option<KnownGate>
        ensures shape { option_map gate_shape result ≡ shape_of (lookup_by self.now.symbols) (callee gate.now) }
        ensures called { IfSome result (λ known. known.called
            ≡ called_for (kept_by self.now.symbols) (callee gate.now)) }
    {
        match gate {
            GateName::U => Some(KnownGate {
                called: CalledGate::U,
                angles: 3,
                qubits: 1,
            }),
            GateName::Cx => Some(KnownGate {
                called: CalledGate::Cx,
                angles: 0,
                qubits: 2,
            }),
            GateName::Declared(name) => declared_gate(self.find(*name)),
        }
    }

    /// The first qubit of a register of qubits, and its size; none where there is no such register.
    pub fn register(&self, name: &'a [u8]) -> Option<(usize, usize)>
        ensures { result ≡ symbol_register (found name.now self.now.symbols) }
    {
        register(self.find(name))
    }

    /// The first bit of a register of bits, and its size; none where there is no such register.
    pub fn bit_register(&self, name: &'a [u8]) -> Option<(usize, usize)>
        ensures { result ≡ symbol_bits (found name.now self.now.symbols) }
    {
        bit_register(self.find(name))
    }

    /// Declares a register of bits after all others.
    pub fn declare_bits(&mut self, name: &'a [u8], size: usize) -> Result<(), AllocError>
        requires { self.old.bits + size ≤ most_bits }
        ensures { OnOk result ((scope : Scope) → Represents self.old scope
            → Represents self.new (declared name.now (Bits (bit_count scope) size) ∷ scope)) }
    {
        let first = self.bits;
        self.symbols.insert(name, Symbol::Bits { first, size })?;
        self.bits += size;
        Ok(())
    }

    /// Declares a register of qubits after all others.
    pub fn declare_qubits(&mut self, name: &'a [u8], size: usize) -> Result<(), AllocError>
        requires { self.old.qubits + size ≤ most_qubits }
        ensures { OnOk result ((scope : Scope) → Represents self.old scope
            → Represents self.new (declared name.now (Qubits (qubit_count scope) size) ∷ scope)) }
    {
        let first = self.qubits;
        self.symbols.insert(name, Symbol::Qubits { first, size })?;
        self.qubits += size;
        Ok(())
    }

    /// Takes memory for so many further gates.
    pub fn reserve_gates(&mut self, more: usize) -> Result<(), AllocError>
        ensures { OnOk result ((scope : Scope) → Represents self.old scope → Represents self.new scope) }
    {
        self.gates.reserve(more)?;
        Ok(())
    }

    /// Declares a gate.
    pub fn declare_gate(
        &mut self,
        name: &'a [u8],
        angles: usize,
        qubits: usize,
        body: GateBody,
        replaceable: bool,
    ) -> Result<(), AllocError>
        ensures { OnOk result (DeclaresGate self.old self.new name.now angles qubits
            (kept_body body) replaceable) }
    {
        let number = self.gates.len();
        self.gates.push(body)?;
        self.symbols.insert(
            name,
            Symbol::Gate {
                number,
                angles,
                qubits,
                replaceable,
            },
        )?;
        Ok(())
    }
}

// Whether what a name stands for may not be declared again.
fn is_taken(symbol: Option<Symbol>) -> bool
    ensures { result ≡ symbol_taken symbol }
{
    match symbol {
        Some(Symbol::Gate { replaceable, .. }) => !replaceable,
        Some(_) => true,
        None => false,
    }
}

// The declared gate that a name stands for.
fn declared_gate(symbol: Option<Symbol>) -> Option<KnownGate>
    ensures shape { option_map gate_shape result ≡ symbol_shape symbol }
    ensures called { IfSome result (λ known. known.called ≡ CalledGate.Gate (number_in symbol)) }
{
    match symbol {
        Some(
            Symbol::Gate {
                number,
                angles,
                qubits,
                ..
            },
        ) => Some(KnownGate {
            called: CalledGate::Gate(number),
            angles,
            qubits,
        }),
        _ => None,
    }
}

// The first qubit and the size of a register of qubits.
fn register(symbol: Option<Symbol>) -> Option<(usize, usize)>
    ensures { result ≡ symbol_register symbol }
{
    match symbol {
        Some(Symbol::Qubits { first, size }) => Some((first, size)),
        _ => None,
    }
}

// The first bit and the size of a register of bits.
fn bit_register(symbol: Option<Symbol>) -> Option<(usize, usize)>
    ensures { result ≡ symbol_bits symbol }
{
    match symbol {
        Some(Symbol::Bits { first, size }) => Some((first, size)),
        _ => None,
    }
}
