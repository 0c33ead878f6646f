//! What was measured so far.

ghost use Rattle.std.specs.Prelude.{◌≡◌, ◌∷◌, [], OnOk, map};
ghost use Rattle.std.specs.List.{list_any};
ghost use Rattle.qasm_scope.specs.Measurements.{bits_of, count_in, holds_any, qubits_of};
ghost use Rattle.qasm_unroll.specs.Internal.KeptMeasures.{Adds, Inserts, Remembers, cut_measures};
ghost use Rattle.qasm_unroll.specs.Internal.Spans.{span_range};

use crate::applications::Span;
use crate::values::{instance_bit, instance_qubit};
use std::alloc::{AllocError, Global};
use zx_bits::BitSet;
use zx_gates::{Measure, Measures};

/// The measurements so far, and sets of their qubits and bits.
#[derive(Drop)]
pub struct Measured {
    list: Measures,
    qubits: BitSet,
    bits: BitSet,
}

impl Measured {
    /// Nothing is measured.
    pub fn new(alloc: Global) -> Measured
        ensures none { result.list ≡ [] }
        ensures remembers { Remembers result }
    {
        Measured {
            list: Measures::new(alloc),
            qubits: BitSet::new(alloc),
            bits: BitSet::new(alloc),
        }
    }

    /// The measurements.
    pub fn into_list(self) -> Measures
        ensures { result ≡ self.list }
    {
        self.list
    }

    /// Whether a qubit was measured that one of the arguments has.
    #[inline]
    pub fn has_any_qubit(&self, spans: &[Span]) -> bool
        ensures { Remembers self.now → result
            ≡ list_any (holds_any (qubits_of self.now.list)) (map span_range spans.now) }
    {
        !self.list.as_slice().is_empty() && any_holds(&self.qubits, spans)
    }

    /// Whether a qubit was measured that an argument has.
    pub fn has_qubit(&self, span: &Span) -> bool
        ensures { Remembers self.now → result
            ≡ holds_any (qubits_of self.now.list) (span_range span.now) }
    {
        holds_any(&self.qubits, span)
    }

    /// Whether the value of a qubit went to a bit that an argument has.
    pub fn has_bit(&self, span: &Span) -> bool
        ensures { Remembers self.now → result
            ≡ holds_any (bits_of self.now.list) (span_range span.now) }
    {
        holds_any(&self.bits, span)
    }

    /// Measures the qubits of an argument into the bits of another one.
    pub fn add(&mut self, from: &Span, to: &Span) -> Result<(), AllocError>
        ensures { OnOk result (Adds self.old self.new
            (cut_measures (span_range from.now) (span_range to.now))) }
    {
        for index in 0..span_count(from) {
            self.push(Measure {
                qubit: instance_qubit(from, index),
                bit: instance_bit(to, index),
            })?;
        }
        Ok(())
    }

    // One measurement more.
    fn push(&mut self, measure: Measure) -> Result<(), AllocError>
        ensures { OnOk result (Adds self.old self.new (measure ∷ [])) }
    {
        insert(&mut self.qubits, usize::from(measure.qubit))?;
        insert(&mut self.bits, measure.bit as usize)?;
        self.list.push(measure)
    }
}

// Puts a number into a set.
fn insert(set: &mut BitSet, number: usize) -> Result<(), AllocError>
    ensures { OnOk result (Inserts set.old.numbers number set.new.numbers) }
{
    if set.contains(number) {
        Ok(())
    } else {
        set.toggle(number)
    }
}

// Whether one of the arguments has a number of the set.
fn any_holds(set: &BitSet, spans: &[Span]) -> bool
    ensures { result ≡ list_any (holds_any set.now.numbers) (map span_range spans.now) }
{
    spans.iter().any(|span| holds_any(set, span))
}

// Whether an argument has a number of the set.
fn holds_any(set: &BitSet, span: &Span) -> bool
    ensures { result ≡ holds_any set.now.numbers (span_range span.now) }
{
    match span {
        Span::Single(place) => set.contains(*place),
        Span::Register { first, size } => match set.first_from(*first) {
            Some(place) => place - *first < *size,
            None => false,
        },
    }
}

// How many qubits or bits an argument has.
fn span_count(span: &Span) -> usize
    ensures { result ≡ count_in (span_range span.now) }
{
    match span {
        Span::Single(_) => 1,
        Span::Register { size, .. } => *size,
    }
}
