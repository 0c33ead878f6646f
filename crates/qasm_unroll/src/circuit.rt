//! A circuit that takes in the statements of a program one at a time, and a gate's declaration in parts.

ghost use Rattle.std.specs.Prelude.{◌≡◌, ◌-◌, ◌^◌, ◌∷◌, ◌++◌, [], List, ℕ, Some, IfOk, codes, map, min, true, false, if◌then◌else◌};
ghost use Rattle.std.specs.Str.{bytes_eq};
ghost use Rattle.qasm_reader.specs.Parts.{with_statement};
ghost use Rattle.qasm_reader.specs.Syntax.{GateForm, Placed};
ghost use Rattle.qasm_reader.specs.Views.{body_sentence, callee, form_of, operand, placed, sentence};
ghost use Rattle.qasm_scope.specs.declared.causes.Cause.{Cause};
ghost use Rattle.qasm_unroll.specs.Circuits.{HasBegun, HasBegunAs, HasTaken, HasTakenAt, IsCircuitAnswer, IsOpen, applied_at, gate_at};
ghost use Rattle.qasm_unroll.specs.Internal.Recents.{IsRecent};
ghost use Rattle.qasm_scope.specs.Meaning.{is_version};

use crate::error::InlineError;
use crate::measured::Measured;
use crate::plain::{Recent, apply_plain};
use crate::statements::read_statement;
use crate::unroll::Unrolled;
use crate::values::clamped_bit;
use qasm_names::{GateInProgress, Names, StatementError, clamped};
use qasm_reader::{Argument, BodyStatement, GateHeading, GateName, Statement, StatementKind};
use qasm_scope::Cause;
use std::alloc::{AllocError, Global};
use zx_gates::Elementary;

// What a circuit awaits.
#[derive(Clone, Copy)]
enum Stage {
    // The version, which has to stand first.
    Empty,
    // Statements after the version.
    Open,
    // Nothing more: a statement was wrong, or memory ran out.
    Stopped(InlineError),
}

/// A circuit of built-in gates that takes in the statements of a program, in their order.
#[derive(Drop)]
pub struct Circuit<'a> {
    alloc: Global,
    stage: Stage,
    names: Names<'a>,
    measured: Measured,
    unrolled: Unrolled,
    recent: Recent<'a>,
}

/// A gate's declaration that is taken in up to a statement of its body.
#[derive(Drop)]
pub struct OpenGate<'a> {
    /// The place of the declaration's first byte in the text.
    pub place: usize,
    // What is kept of it; nothing where the circuit takes in nothing more.
    kept: Option<GateInProgress<'a>>,
}

impl<'a> Circuit<'a> {
    /// The circuit of no statements.
    pub fn new(alloc: Global) -> Circuit<'a>
        ensures { HasTaken result [] }
    {
        Circuit {
            alloc,
            stage: Stage::Empty,
            names: Names::new(alloc),
            measured: Measured::new(alloc),
            unrolled: Unrolled::new(alloc),
            recent: Recent::new(),
        }
    }

    /// Takes in the next statement. After a fault, or where memory ran out, it does nothing: `finish` tells it.
    pub fn take(&mut self, statement: &Statement<'a>)
        ensures { (program : List Placed) → HasTaken self.old program
            → HasTaken self.new (program ++ placed statement.now ∷ []) }
    {
        match self.stage {
            Stage::Empty => self.stage = after_first(statement),
            Stage::Open => self.stage = self.after_next(statement),
            Stage::Stopped(_) => {}
        }
    }

    /// Takes in an application without angles, at whichever place, where its gate and the register of its qubits were
    /// applied before, and nothing is wrong with it; tells whether it did.
    ///
    /// # Errors
    ///
    /// Where memory runs out.
    pub fn take_plain(
        &mut self,
        gate: &GateName<'_>,
        qubits: &[Argument<'_>],
    ) -> Result<bool, AllocError>
        ensures taken { IfOk result (λ taken. taken ≡ true → (program : List Placed) (place : ℕ)
            → HasTaken self.old program
            → HasTaken self.new (program ++ applied_at place (callee gate.now) (map operand qubits.now) ∷ [])) }
        ensures left { IfOk result (λ taken. taken ≡ false → self.new ≡ self.old) }
    {
        match self.stage {
            Stage::Open => apply_plain(
                &self.recent,
                &self.measured,
                &mut self.unrolled,
                gate,
                qubits,
            ),
            _ => Ok(false),
        }
    }

    /// Begins with a gate's declaration, whose first byte is at this place. The statements of its body are to follow, and
    /// then its end.
    pub fn begin_gate(&mut self, place: usize, heading: &GateHeading<'a>) -> OpenGate<'a>
        ensures begun { (program : List Placed) → HasTaken self.old program
            → HasBegun self.new result program (form_of heading.now []) }
        ensures place { result.place ≡ place }
    {
        match self.stage {
            Stage::Empty => {
                self.stage = without_version(place);
                OpenGate { place, kept: None }
            }
            Stage::Open => OpenGate {
                place,
                kept: self.begun(heading),
            },
            Stage::Stopped(_) => OpenGate { place, kept: None },
        }
    }

    /// Takes in the next statement of the body of the gate that was begun last.
    pub fn take_in_gate(&mut self, gate: &mut OpenGate<'a>, statement: &BodyStatement<'a>)
        ensures taken { (program : List Placed) (form : GateForm)
            → HasBegun self.old gate.old program form → HasBegun self.new gate.new program
            (with_statement form (body_sentence statement.now)) }
        ensures place { gate.new.place ≡ gate.old.place }
    {
        if let Some(kept) = &mut gate.kept {
            if let Err(AllocError) = kept.take(self.alloc, &self.names, statement) {
                self.stage = Stage::Stopped(InlineError::NoMemory);
                gate.kept = None;
            }
        }
    }

    /// Ends the declaration of the gate that was begun last. What is wrong with it is told from here on.
    pub fn end_gate(&mut self, gate: OpenGate<'a>)
        ensures { (program : List Placed) (form : GateForm)
            → HasBegun self.old gate.entry program form
            → HasTaken self.new (program ++ gate_at gate.entry.place form ∷ []) }
    {
        let OpenGate { place, kept } = gate;
        if let Some(kept) = kept {
            self.stage = self.after_gate(place, kept);
        }
    }

    /// The circuit that the statements mean, or the first fault of them.
    ///
    /// # Errors
    ///
    /// `Fault` with the first statement that something is wrong with, and what; and `NoMemory` where memory ran out.
    pub fn finish(self) -> Result<Elementary, InlineError>
        ensures { (program : List Placed) → HasTaken self.entry program
            → IsCircuitAnswer program result }
    {
        match self.stage {
            Stage::Empty => Err(InlineError::Fault {
                cause: Cause::Version,
                at: 0,
            }),
            Stage::Open => Ok(Elementary {
                qubits: self.qubits(),
                bits: self.bits(),
                gates: self.unrolled.into_gates(),
                measured: self.measured.into_list(),
            }),
            Stage::Stopped(error) => Err(error),
        }
    }

    // How many qubits are declared, cut off at the largest number of 16 bits.
    fn qubits(&self) -> u16
        ensures { result ≡ min self.now.names.qubits (2 ^ 16 - 1) }
    {
        clamped(self.names.qubits)
    }

    // How many bits are declared, cut off at the largest number of 32 bits.
    fn bits(&self) -> u32
        ensures { result ≡ min self.now.names.bits (2 ^ 32 - 1) }
    {
        clamped_bit(self.names.bits)
    }

    // What is kept of a gate behind the version, before the first statement of its body.
    fn begun(&mut self, heading: &GateHeading<'a>) -> Option<GateInProgress<'a>>
        ensures { (program : List Placed) (place : ℕ) → IsOpen program self.old.names self.old.measured
            self.old.unrolled → IsRecent self.old.names.symbols self.old.recent
            → HasBegunAs result self.new program place (form_of heading.now []) }
    {
        match GateInProgress::new(self.alloc, &self.names, heading) {
            Ok(gate) => Some(gate),
            Err(AllocError) => {
                self.stage = Stage::Stopped(InlineError::NoMemory);
                None
            }
        }
    }

    // The stage after a gate behind the version.
    fn after_gate(&mut self, place: usize, gate: GateInProgress<'a>) -> Stage
        ensures stage { (program : List Placed) (form : GateForm)
            → HasBegunAs (Some gate.entry) self.old program place form → HasTakenAt result
            (program ++ gate_at place form ∷ []) self.new.names self.new.measured self.new.unrolled }
        ensures recent { IsRecent self.new.names.symbols self.new.recent }
    {
        self.recent.forget();
        match gate.declare(&mut self.names) {
            Ok(()) => Stage::Open,
            Err(StatementError::Wrong(cause)) => {
                Stage::Stopped(InlineError::Fault { cause, at: place })
            }
            Err(StatementError::NoMemory) => Stage::Stopped(InlineError::NoMemory),
        }
    }

    // The stage after a statement behind the version.
    fn after_next(&mut self, statement: &Statement<'a>) -> Stage
        ensures stage { (program : List Placed) → IsOpen program self.old.names self.old.measured
            self.old.unrolled → HasTakenAt result (program ++ placed statement.now ∷ [])
            self.new.names self.new.measured self.new.unrolled }
        ensures recent { IsRecent self.old.names.symbols self.old.recent
            → IsRecent self.new.names.symbols self.new.recent }
    {
        match read_statement(
            self.alloc,
            &mut self.names,
            &mut self.measured,
            &mut self.unrolled,
            &mut self.recent,
            &statement.kind,
        ) {
            Ok(()) => Stage::Open,
            Err(StatementError::Wrong(cause)) => Stage::Stopped(InlineError::Fault {
                cause,
                at: statement.place,
            }),
            Err(StatementError::NoMemory) => Stage::Stopped(InlineError::NoMemory),
        }
    }
}

// The stage after the first statement.
fn after_first(statement: &Statement<'_>) -> Stage
    ensures { result
        ≡ (if is_version (sentence statement.now.kind) then Stage.Open
        else Stage.Stopped (InlineError.Fault Cause.Version statement.now.place)) }
{
    if is_version(&statement.kind) {
        Stage::Open
    } else {
        without_version(statement.place)
    }
}

// The stage after a first statement at this place that isn't the version.
fn without_version(place: usize) -> Stage
    ensures { result ≡ Stage.Stopped (InlineError.Fault Cause.Version place) }
{
    Stage::Stopped(InlineError::Fault {
        cause: Cause::Version,
        at: place,
    })
}

// Whether the statement is `OPENQASM 2.0;`.
fn is_version(kind: &StatementKind<'_>) -> bool
    ensures { result ≡ is_version (sentence kind.now) }
{
    match kind {
        StatementKind::Version(real) => is_two(real),
        _ => false,
    }
}

// Whether a number is spelled `2.0`.
fn is_two(real: &[u8]) -> bool
    ensures { result ≡ bytes_eq real.now (codes "2.0") }
{
    real == b"2.0".as_slice()
}
