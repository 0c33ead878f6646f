//! Applications without angles, whose names were looked up before.

ghost use Rattle.std.specs.Prelude.{◌≡◌, ◌<◌, map, IfOk, IfSome, true, false, None, Some};
ghost use Rattle.qasm_names.specs.Checks.{Symbols, gate_shape, kept_by, lookup_by};
ghost use Rattle.qasm_names.specs.Kept.{called_for};
ghost use Rattle.qasm_scope.specs.Faults.{shape_of};
ghost use Rattle.qasm_reader.specs.Syntax.{Declared};
ghost use Rattle.qasm_reader.specs.Views.{callee, operand};
ghost use Rattle.qasm_scope.specs.Applications.{Single};
ghost use Rattle.qasm_unroll.specs.Internal.KeptMeasures.{Remembers};
ghost use Rattle.qasm_unroll.specs.Internal.Recents.{IsPlainCall, IsPlainlyApplied, IsPlainlyCalled, IsRecent, plainly_applied};
ghost use Rattle.qasm_unroll.specs.Internal.Spans.{IsSpan, span_range};

use crate::applications::{LastRegister, Span, span_of};
use crate::measured::Measured;
use crate::overlaps::has_same_qubit;
use crate::unroll::Unrolled;
use qasm_names::{CalledGate, KnownGate, Names};
use qasm_reader::{Application, Argument, GateName};
use std::alloc::AllocError;

// How many gates are remembered.
const ROWS: usize = 64;

// The name of a declared gate, and what it stands for.
#[derive(Clone, Copy)]
struct NamedGate<'a> {
    name: &'a [u8],
    gate: KnownGate,
}

/// What names stood for that were applied, as long as nothing is declared: gates, each at a row that its name tells,
/// and the register that was last.
#[derive(Drop)]
pub struct Recent<'a> {
    gates: [Option<NamedGate<'a>>; ROWS],
    register: Option<LastRegister<'a>>,
}

impl<'a> Recent<'a> {
    /// Nothing is remembered.
    pub fn new() -> Recent<'a>
        ensures { (symbols : Symbols) → IsRecent symbols result }
    {
        Recent {
            gates: [None; ROWS],
            register: None,
        }
    }

    /// Forgets all.
    pub fn forget(&mut self)
        ensures { (symbols : Symbols) → IsRecent symbols self.new }
    {
        *self = Recent::new();
    }

    /// Remembers what is applied without angles, and to what.
    pub fn remember(&mut self, names: &Names<'a>, application: &Application<'a>)
        ensures { IsRecent names.now.symbols self.old → IsRecent names.now.symbols self.new }
    {
        if !application.angles.is_empty() {
            return;
        }
        if let Some(first) = application.qubits.first() {
            self.remember_register(names, first);
        }
        if let GateName::Declared(name) = application.gate {
            self.remember_gate(names, name);
        }
    }

    // Remembers what the name of a register stands for.
    fn remember_register(&mut self, names: &Names<'a>, argument: &Argument<'a>)
        ensures { IsRecent names.now.symbols self.old → IsRecent names.now.symbols self.new }
    {
        if self.place(argument).is_none() {
            self.register = Some(LastRegister::look_up(names, argument.register));
        }
    }

    // Remembers what the name of a gate stands for.
    fn remember_gate(&mut self, names: &Names<'a>, name: &'a [u8])
        ensures { IsRecent names.now.symbols self.old → IsRecent names.now.symbols self.new }
    {
        if self.named(name).is_some() {
            return;
        }
        if let Some(gate) = names.gate(&GateName::Declared(name)) {
            self.gates[row_of(name)] = Some(NamedGate { name, gate });
        }
    }

    // What the name of a gate stands for, where it is remembered.
    fn named(&self, name: &[u8]) -> Option<KnownGate>
        ensures { IfSome result (λ gate. (symbols : Symbols) → IsRecent symbols self.now
            → (shape_of (lookup_by symbols) (Declared name.now) ≡ Some (gate_shape gate))
            × (gate.called ≡ called_for (kept_by symbols) (Declared name.now))) }
    {
        match &self.gates[row_of(name)] {
            Some(known) => {
                if known.name == name {
                    Some(known.gate)
                } else {
                    None
                }
            }
            None => None,
        }
    }

    // The call of the gate of this name without angles and with so many qubits, where it is remembered.
    fn called(&self, gate: &GateName<'_>, qubits: usize) -> Option<CalledGate>
        ensures { IfSome result (λ called. (symbols : Symbols) → IsRecent symbols self.now
            → IsPlainCall symbols (callee gate.now) qubits called) }
    {
        match gate {
            GateName::Declared(name) => {
                let known = self.named(name)?;
                if known.angles == 0 && known.qubits == qubits {
                    Some(known.called)
                } else {
                    None
                }
            }
            GateName::Cx => {
                if qubits == 2 {
                    Some(CalledGate::Cx)
                } else {
                    None
                }
            }
            GateName::U => None,
        }
    }

    // The qubit at an index of the register that was last, if it has one.
    fn place(&self, argument: &Argument<'_>) -> Option<usize>
        ensures { IfSome result (λ place. (symbols : Symbols) → IsRecent symbols self.now
            → IsSpan (lookup_by symbols) (operand argument.now) (Single place)) }
    {
        let last = self.register?;
        if last.name != argument.register {
            return None;
        }
        match span_of(last.register?, argument.index) {
            Some(Span::Single(place)) => Some(place),
            _ => None,
        }
    }
}

/// Applies a gate without angles, where all names are remembered and nothing is wrong with the application; tells
/// whether it did.
pub fn apply_plain(
    recent: &Recent<'_>,
    measured: &Measured,
    unrolled: &mut Unrolled,
    gate: &GateName<'_>,
    qubits: &[Argument<'_>],
) -> Result<bool, AllocError>
    ensures applied { IfOk result (λ done. done ≡ true → (symbols : Symbols) → IsRecent symbols recent.now
        → Remembers measured.now → IsPlainlyApplied symbols measured.now unrolled.old
        (plainly_applied (callee gate.now) (map operand qubits.now)) unrolled.new) }
    ensures known { unrolled.new.known ≡ unrolled.old.known }
    ensures left { IfOk result (λ done. done ≡ false → unrolled.new ≡ unrolled.old) }
{
    let Some(called) = recent.called(gate, qubits.len()) else {
        return Ok(false);
    };
    match qubits {
        [one] => match recent.place(one) {
            Some(place) => call_plain(measured, unrolled, called, &[Span::Single(place)]),
            None => Ok(false),
        },
        [one, two] => match recent.place(one) {
            Some(first) => match recent.place(two) {
                Some(second) => {
                    let spans = [Span::Single(first), Span::Single(second)];
                    call_plain(measured, unrolled, called, &spans)
                }
                None => Ok(false),
            },
            None => Ok(false),
        },
        _ => Ok(false),
    }
}

// Calls a gate without angles on single qubits, where they differ and none of them was measured, and where there is a
// copy; tells whether it did.
fn call_plain(
    measured: &Measured,
    unrolled: &mut Unrolled,
    called: CalledGate,
    spans: &[Span],
) -> Result<bool, AllocError>
    ensures called { IfOk result (λ done. done ≡ true → Remembers measured.now
        → IsPlainlyCalled measured.now unrolled.old called (map span_range spans.now) unrolled.new) }
    ensures known { unrolled.new.known ≡ unrolled.old.known }
    ensures left { IfOk result (λ done. done ≡ false → unrolled.new ≡ unrolled.old) }
{
    if has_same_qubit(spans) || measured.has_any_qubit(spans) {
        return Ok(false);
    }
    unrolled.copy(called, spans)
}

// The row of a name.
fn row_of(name: &[u8]) -> usize
    ensures { result < 64 }
{
    match name {
        [first, .., last] => (usize::from(*first) * 7 + usize::from(*last) * 3 + name.len() % ROWS)
            % ROWS,
        [only] => usize::from(*only) % ROWS,
        [] => 0,
    }
}
