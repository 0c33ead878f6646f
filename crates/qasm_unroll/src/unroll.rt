//! Unrolling of calls, depth first, with a stack of its own.

ghost use Rattle.std.specs.Prelude.{◌≡◌, ◌+◌, ◌-◌, ◌*◌, ◌<◌, ◌≤◌, ◌++◌, ◌∷◌, List, ℕ, length, take, drop, Err, IfOk, IfErr, IfSome, OnOk, true, false, [], slice_get};
ghost use Rattle.zx_gates.specs.declared.elementary.ElementaryGate.{ElementaryGate};
ghost use Rattle.qasm_scope.specs.declared.causes.Cause.{Cause};
ghost use Rattle.qasm_scope.specs.Calls.{Event, Called, Undefined, applied, first_wrong};
ghost use Rattle.qasm_unroll.specs.Internal.KeptCalls.{Numbered, Unrolls, ComesTo, Leads, StopsAt, IsBase, IsStacked, frames_of, first_events, entered_events, left_events, no_events, gate_events, calls_of, u_events, cx_events};
ghost use Rattle.qasm_unroll.specs.Internal.KnownCalls.{AreKnown, IsExpansion};
ghost use Rattle.qasm_unroll.specs.Internal.Spans.{instance_events};
ghost use Rattle.qasm_names.specs.declared.gates.GateBody.{GateBody};
ghost use Rattle.qasm_scope.specs.Meaning.{most_calls};

use crate::applications::Span;
use crate::expansions::{Expansion, Known, known_expansion, push_placed};
use crate::values::{push_instance, push_picked, push_values, sixteenth_of};
use qasm_angle::{Angle, Expr};
use qasm_names::{CalledGate, GateBody, GateCall, StatementError};
use qasm_scope::Cause;
use std::alloc::{AllocError, Global};
use zx_gates::{ElementaryGate, Elements, Qubit};

// The most calls of a program.
const MOST_CALLS: usize = 1_000_000;

// The deepest that calls may be nested.
const DEEPEST: usize = 256;

// Of how many gates it is kept what calls come to.
const MOST_KNOWN: usize = 256;

// How many calls may be made in one that is kept.
const MOST_KEPT: usize = 64;

// How many qubits a call may have that is copied.
const WIDEST: usize = 4;

// How many angles and qubits lie on the stacks.
#[derive(Clone, Copy)]
struct Heights {
    angles: usize,
    qubits: usize,
}

// A gate that is being unrolled.
#[derive(Clone, Copy)]
struct Frame {
    // Its number.
    gate: usize,
    // The index of the next call in its body.
    next: usize,
    // What lies below its angles and qubits.
    base: Heights,
}

/// The built-in gates that act so far, and how many calls were made. The stacks are kept between applications.
#[derive(Drop)]
pub struct Unrolled {
    alloc: Global,
    /// The built-in gates.
    pub gates: Elements,
    /// How many calls.
    pub calls: usize,
    /// The gates that are being unrolled, each called by the one below it.
    frames: Vec<Frame>,
    /// Their angles, those of each gate above those of the gate that calls it.
    angles: Vec<Angle>,
    /// Their qubits, in the same way.
    qubits: Vec<Qubit>,
    /// What calls without angles come to, by the gate's number.
    known: Vec<Known>,
}

impl Unrolled {
    /// Nothing so far.
    pub fn new(alloc: Global) -> Unrolled
        ensures gates { result.gates ≡ [] }
        ensures calls { result.calls ≡ 0 }
        ensures known { result.known.items ≡ [] }
        ensures frames { result.frames.items ≡ [] }
        ensures angles { result.angles.items ≡ [] }
        ensures qubits { result.qubits.items ≡ [] }
    {
        Unrolled {
            alloc,
            gates: Elements::new(alloc),
            calls: 0,
            frames: Vec::new(alloc),
            angles: Vec::new(alloc),
            qubits: Vec::new(alloc),
            known: Vec::new(alloc),
        }
    }

    /// The gates, where no call follows.
    pub fn into_gates(self) -> Elements
        ensures { result ≡ self.gates }
    {
        self.gates
    }

    /// Learns what calls of this gate without angles come to, where that isn't known yet.
    pub fn learn(&mut self, gates: &[GateBody], called: CalledGate) -> Result<(), AllocError>
        ensures known { OnOk result ((numbered : Numbered) → Unrolls gates.now numbered
            → AreKnown numbered (length gates.now) self.old.known.items
            → AreKnown numbered (length gates.now) self.new.known.items) }
        ensures others { OnOk result (self.new ≡ record self.old { known = self.new.known }) }
    {
        for _number in self.known.len()..needed(gates, called) {
            self.known.push(Known::Untried)?;
        }
        let CalledGate::Gate(number) = called else {
            return Ok(());
        };
        if number < self.known.len() && self.known[number].is_untried() {
            self.known[number] = Known::new(expansion(self.alloc, gates, number)?);
        }
        Ok(())
    }

    /// The instance of an application at an index: a call with these angles on its qubits, and all that it comes to.
    pub fn instance(
        &mut self,
        gates: &[GateBody],
        called: CalledGate,
        angles: &[Expr],
        spans: &[Span],
        index: usize,
    ) -> Result<(), StatementError>
        ensures ok { OnOk result ((numbered : Numbered) (count : ℕ) → Unrolls gates.now numbered
            → AreKnown numbered count self.old.known.items → ComesTo self.old
            (instance_events called angles.now spans.now index numbered) self.new []) }
        ensures err { (cause : Cause) → result ≡ Err (StatementError.Wrong cause)
            → StopsAt gates.now self.old (instance_events called angles.now spans.now index) cause }
        ensures known { self.new.known ≡ self.old.known }
    {
        if self.copy_instance(called, angles, spans, index)? {
            return Ok(());
        }
        self.unroll_instance(gates, called, angles, spans, index)
    }

    /// A call of a gate without angles on single qubits by a copy, where what it comes to is known and makes not too
    /// many calls; tells whether it is.
    pub fn copy(&mut self, called: CalledGate, spans: &[Span]) -> Result<bool, AllocError>
        ensures copied { IfOk result (λ copied. copied ≡ true → (numbered : Numbered) (gates : List GateBody)
            (count : ℕ) → Unrolls gates numbered → AreKnown numbered count self.old.known.items →
            ComesTo self.old (instance_events called [] spans.now 0 numbered) self.new []) }
        ensures left { IfOk result (λ copied. copied ≡ false → self.new ≡ self.old) }
        ensures known { self.new.known ≡ self.old.known }
    {
        match called {
            CalledGate::Cx => self.copy_cx(spans),
            _ => self.copy_instance(called, &[], spans, 0),
        }
    }

    // A call of `CX`, where there are not too many calls; tells whether it is made.
    fn copy_cx(&mut self, spans: &[Span]) -> Result<bool, AllocError>
        ensures copied { IfOk result (λ copied. copied ≡ true → (numbered : Numbered) (gates : List GateBody)
            (count : ℕ) → Unrolls gates numbered → AreKnown numbered count self.old.known.items →
            ComesTo self.old (instance_events CalledGate.Cx [] spans.now 0 numbered) self.new []) }
        ensures left { IfOk result (λ copied. copied ≡ false → self.new ≡ self.old) }
        ensures known { self.new.known ≡ self.old.known }
    {
        if MOST_CALLS <= self.calls {
            return Ok(false);
        }
        self.qubits.clear();
        push_instance(spans, 0, &mut self.qubits)?;
        if let Some(gate) = cx_gate(&self.qubits) {
            self.gates.push(gate)?;
        }
        self.calls += 1;
        Ok(true)
    }

    // The same by a copy of what is known, where that is kept and makes not too many calls; tells whether it is.
    fn copy_instance(
        &mut self,
        called: CalledGate,
        angles: &[Expr],
        spans: &[Span],
        index: usize,
    ) -> Result<bool, AllocError>
        ensures copied { IfOk result (λ copied. copied ≡ true → (numbered : Numbered) (gates : List GateBody)
            (count : ℕ) → Unrolls gates numbered → AreKnown numbered count self.old.known.items →
            ComesTo self.old (instance_events called angles.now spans.now index numbered) self.new []) }
        ensures left { IfOk result (λ copied. copied ≡ false → self.new ≡ self.old) }
        ensures known { self.new.known ≡ self.old.known }
    {
        if !angles.is_empty() || spans.len() > WIDEST {
            return Ok(false);
        }
        let Some(kept) = known_expansion(&self.known, called) else {
            return Ok(false);
        };
        let calls = self.calls.saturating_add(kept.calls);
        if calls > MOST_CALLS {
            return Ok(false);
        }
        self.qubits.clear();
        self.qubits.push(0)?;
        push_instance(spans, index, &mut self.qubits)?;
        push_placed(kept.gates.as_slice(), &self.qubits, &mut self.gates)?;
        self.calls = calls;
        Ok(true)
    }

    // The same by unrolling. What an earlier application left on the stacks is taken off first.
    fn unroll_instance(
        &mut self,
        gates: &[GateBody],
        called: CalledGate,
        angles: &[Expr],
        spans: &[Span],
        index: usize,
    ) -> Result<(), StatementError>
        ensures ok { OnOk result (Leads gates.now
            self.old (instance_events called angles.now spans.now index) self.new no_events) }
        ensures err { (cause : Cause) → result ≡ Err (StatementError.Wrong cause)
            → StopsAt gates.now self.old (instance_events called angles.now spans.now index) cause }
        ensures known { self.new.known ≡ self.old.known }
    {
        self.count(1)?;
        self.frames.clear();
        self.angles.clear();
        self.qubits.clear();
        push_values(self.alloc, angles, 0, &mut self.angles)?;
        push_instance(spans, index, &mut self.qubits)?;
        self.unroll(gates, called)
    }

    // All that a gate comes to with the angles and qubits on the stacks.
    fn unroll(&mut self, gates: &[GateBody], called: CalledGate) -> Result<(), StatementError>
        requires { self.old.frames.items ≡ [] }
        ensures ok { OnOk result (Leads gates.now
            self.old (first_events called self.old) self.new no_events) }
        ensures err { (cause : Cause) → result ≡ Err (StatementError.Wrong cause)
            → StopsAt gates.now self.old (first_events called self.old) cause }
        ensures known { self.new.known ≡ self.old.known }
    {
        let base = Heights {
            angles: 0,
            qubits: 0,
        };
        self.enter(gates, called, base)?;
        while let Some(frame) = self.frames.pop() {
            self.step(gates, frame)?;
        }
        Ok(())
    }

    // Counts a call at a depth.
    fn count(&mut self, depth: usize) -> Result<(), StatementError>
        ensures ok { OnOk result ((events : List Event)
            → first_wrong most_calls self.old.calls (Called depth ∷ events)
            ≡ first_wrong most_calls self.new.calls events) }
        ensures calls { OnOk result (self.new.calls ≡ self.old.calls + 1) }
        ensures most { OnOk result (self.new.calls ≤ most_calls) }
        ensures others { self.new ≡ record self.old { calls = self.new.calls } }
        ensures err { (cause : Cause) (events : List Event)
            → result ≡ Err (StatementError.Wrong cause)
            → first_wrong most_calls self.old.calls (Called depth ∷ events) ≡ Some cause }
    {
        if self.calls >= MOST_CALLS {
            return Err(StatementError::Wrong(Cause::TooManyGates));
        }
        self.calls += 1;
        if depth > DEEPEST {
            return Err(StatementError::Wrong(Cause::TooDeep));
        }
        Ok(())
    }

    // The next call in the body of the gate that was on top, or nothing where its body is over.
    fn step(&mut self, gates: &[GateBody], frame: Frame) -> Result<(), StatementError>
        requires { IsStacked (frame ∷ frames_of self.old) self.old }
        ensures ok { OnOk result (Leads gates.now
            self.old (left_events gates.now (frame ∷ frames_of self.old) self.old)
            self.new (left_events gates.now (frames_of self.new) self.new)) }
        ensures err { (cause : Cause) → result ≡ Err (StatementError.Wrong cause)
            → StopsAt gates.now
            self.old (left_events gates.now (frame ∷ frames_of self.old) self.old) cause }
        ensures stacked { OnOk result (IsStacked (frames_of self.new) self.new) }
        ensures ends { OnOk result (2 * (most_calls - self.new.calls) + length self.new.frames.items
            < 2 * (most_calls - self.old.calls) + (1 + length self.old.frames.items)) }
        ensures known { self.new.known ≡ self.old.known }
    {
        let Some(call) = calls_of(gates, frame.gate).get(frame.next) else {
            self.take_off(frame.base);
            return Ok(());
        };
        let depth = self.depth() + 2;
        self.count(depth)?;
        let base = self.heights();
        push_values(
            self.alloc,
            &call.angles,
            frame.base.angles,
            &mut self.angles,
        )?;
        push_picked(&call.qubits, frame.base.qubits, &mut self.qubits)?;
        self.frames.push(Frame {
            next: frame.next + 1,
            ..frame
        })?;
        self.enter(gates, call.called, base)
    }

    // A built-in gate acts with the angles and qubits above the base, and a declared one comes on top of the stack.
    fn enter(
        &mut self,
        gates: &[GateBody],
        called: CalledGate,
        base: Heights,
    ) -> Result<(), StatementError>
        requires { IsBase base self.old }
        ensures ok { OnOk result (Leads gates.now
            self.old (entered_events gates.now called base self.old)
            self.new (left_events gates.now (frames_of self.new) self.new)) }
        ensures err { (cause : Cause) → result ≡ Err (StatementError.Wrong cause)
            → StopsAt gates.now self.old (entered_events gates.now called base self.old) cause }
        ensures stacked { OnOk result (IsStacked (frames_of self.new) self.new) }
        ensures calls { OnOk result (self.new.calls ≡ self.old.calls) }
        ensures frames { OnOk result
            (length self.new.frames.items ≤ length self.old.frames.items + 1) }
        ensures known { self.new.known ≡ self.old.known }
    {
        match called {
            CalledGate::U => match self.top_u(base) {
                Ok(gate) => self.act(gate, base),
                Err(cause) => Err(StatementError::Wrong(cause)),
            },
            CalledGate::Cx => {
                let gate = self.top_cx(base);
                self.act(gate, base)
            }
            CalledGate::Gate(number) => {
                self.frames.push(Frame {
                    gate: number,
                    next: 0,
                    base,
                })?;
                Ok(())
            }
        }
    }

    // A built-in gate acts, if there is one, and its angles and qubits are taken off the stacks.
    fn act(&mut self, gate: Option<ElementaryGate>, base: Heights) -> Result<(), StatementError>
        ensures gates { OnOk result (self.new.gates
            ≡ self.old.gates ++ applied (gate_events gate)) }
        ensures angles { OnOk result
            (self.new.angles.items ≡ take base.angles self.old.angles.items) }
        ensures qubits { OnOk result
            (self.new.qubits.items ≡ take base.qubits self.old.qubits.items) }
        ensures frames { self.new.frames ≡ self.old.frames }
        ensures calls { self.new.calls ≡ self.old.calls }
        ensures err { IfErr result (λ stopped. stopped ≡ StatementError.NoMemory) }
        ensures known { self.new.known ≡ self.old.known }
    {
        if let Some(gate) = gate {
            self.gates.push(gate)?;
        }
        self.take_off(base);
        Ok(())
    }

    // `U` with the angles and the qubits above the base.
    fn top_u(&self, base: Heights) -> Result<Option<ElementaryGate>, Cause>
        requires { IsBase base self.now }
        ensures ok { IfOk result (λ gate. u_events (drop base.angles self.now.angles.items)
            (drop base.qubits self.now.qubits.items) ≡ gate_events gate) }
        ensures err { IfErr result (λ cause. u_events (drop base.angles self.now.angles.items)
            (drop base.qubits self.now.qubits.items) ≡ Undefined cause ∷ []) }
    {
        u_gate(&self.angles[base.angles..], &self.qubits[base.qubits..])
    }

    // `CX` on the qubits above the base.
    fn top_cx(&self, base: Heights) -> Option<ElementaryGate>
        requires { IsBase base self.now }
        ensures { cx_events (drop base.qubits self.now.qubits.items) ≡ gate_events result }
    {
        cx_gate(&self.qubits[base.qubits..])
    }

    // How many gates are on the stack.
    fn depth(&self) -> usize
        ensures { result ≡ length self.now.frames.items }
    {
        self.frames.len()
    }

    // How many angles and qubits lie on the stacks.
    fn heights(&self) -> Heights
        ensures angles { result.angles ≡ length self.now.angles.items }
        ensures qubits { result.qubits ≡ length self.now.qubits.items }
    {
        Heights {
            angles: self.angles.len(),
            qubits: self.qubits.len(),
        }
    }

    // Takes the angles and qubits above the base off the stacks.
    fn take_off(&mut self, base: Heights)
        ensures angles { self.new.angles.items ≡ take base.angles self.old.angles.items }
        ensures qubits { self.new.qubits.items ≡ take base.qubits self.old.qubits.items }
        ensures others { self.new
            ≡ record self.old { angles = self.new.angles; qubits = self.new.qubits } }
    {
        self.angles.truncate(base.angles);
        self.qubits.truncate(base.qubits);
    }
}

// How many of the first gates have a place in what is known, where this one is called.
fn needed(gates: &[GateBody], called: CalledGate) -> usize
    ensures { result ≤ length gates.now }
{
    match called {
        CalledGate::Gate(number) => number.saturating_add(1).min(gates.len()).min(MOST_KNOWN),
        _ => 0,
    }
}

// What calls of a gate without angles come to, by the call on places, which is counted first; none where something is
// wrong in it or it makes too many calls.
fn expansion(
    alloc: Global,
    gates: &[GateBody],
    number: usize,
) -> Result<Option<Expansion>, AllocError>
    ensures { IfOk result (λ found. IfSome found (λ kept. (numbered : Numbered)
        → Unrolls gates.now numbered → IsExpansion numbered number kept)) }
{
    let before = MOST_CALLS - MOST_KEPT;
    let mut unrolled = Unrolled::new(alloc);
    unrolled.calls = before + 1;
    unrolled.qubits.extend_from_slice(&[1, 2, 3, 4])?;
    match unrolled.unroll(gates, CalledGate::Gate(number)) {
        Ok(()) => Ok(Some(Expansion {
            calls: unrolled.calls.saturating_sub(before),
            gates: unrolled.into_gates(),
        })),
        Err(StatementError::Wrong(_)) => Ok(None),
        Err(StatementError::NoMemory) => Err(AllocError),
    }
}

// The calls in the body of a gate; none where there is no such gate.
fn calls_of(gates: &[GateBody], number: usize) -> &[GateCall]
    ensures { result.now ≡ calls_of (slice_get gates.now number) }
{
    if number < gates.len() {
        &gates[number].calls
    } else {
        &[]
    }
}

// `U` with these angles, where they are whole sixteenth turns; none where it has another number of
// angles or qubits.
fn u_gate(angles: &[Angle], qubits: &[Qubit]) -> Result<Option<ElementaryGate>, Cause>
    ensures ok { IfOk result (λ gate. u_events angles.now qubits.now ≡ gate_events gate) }
    ensures err { IfErr result (λ cause. u_events angles.now qubits.now ≡ Undefined cause ∷ []) }
{
    if let [theta, phi, lambda] = angles {
        if let [qubit] = qubits {
            return u_of(theta, phi, lambda, *qubit);
        }
    }
    Ok(None)
}

// `U` with these angles, where they are whole sixteenth turns.
fn u_of(
    theta: &Angle,
    phi: &Angle,
    lambda: &Angle,
    qubit: Qubit,
) -> Result<Option<ElementaryGate>, Cause>
    ensures ok { IfOk result (λ gate. u_events
        (theta.now ∷ phi.now ∷ lambda.now ∷ []) (qubit ∷ []) ≡ gate_events gate) }
    ensures err { IfErr result (λ cause. u_events
        (theta.now ∷ phi.now ∷ lambda.now ∷ []) (qubit ∷ []) ≡ Undefined cause ∷ []) }
{
    let theta = sixteenth_of(theta)?;
    let phi = sixteenth_of(phi)?;
    let lambda = sixteenth_of(lambda)?;
    Ok(Some(ElementaryGate::U {
        qubit,
        theta,
        phi,
        lambda,
    }))
}

// `CX` on these qubits; none where it has another number of qubits.
fn cx_gate(qubits: &[Qubit]) -> Option<ElementaryGate>
    ensures { cx_events qubits.now ≡ gate_events result }
{
    if let [control, target] = qubits {
        Some(ElementaryGate::Cx {
            control: *control,
            target: *target,
        })
    } else {
        None
    }
}
