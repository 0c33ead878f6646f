//! The header that `include "qelib1.inc";` stands for.

ghost use Rattle.std.specs.Prelude.{◌≡◌, ◌<◌, ◌^◌, ◌∷◌, [], IfOk, OnOk, map, None, Some, Err, true, false};
ghost use Rattle.std.specs.List.{list_any};
ghost use Rattle.std.specs.Option.{is_some};
ghost use Rattle.std.specs.Str.{bytes_eq};
ghost use Rattle.qasm_angle.specs.Trees.{Tree, postfix};
ghost use Rattle.qasm_reader.specs.Syntax.{Include};
ghost use Rattle.qasm_scope.specs.declared.causes.Cause.{Cause};
ghost use Rattle.qasm_scope.specs.Faults.{wrong_in};
ghost use Rattle.qasm_scope.specs.HeaderGates.{first_gates};
ghost use Rattle.qasm_scope.specs.Meaning.{with_first, with_header};
ghost use Rattle.qasm_scope.specs.Scope.{Scope, is_declared};
ghost use Rattle.qasm_names.specs.Internal.HeaderTable.{IsShared, angle_tree, body_after, call_after, called_after, divided_by, divided_tree, header_name, turn_tree};
ghost use Rattle.qasm_names.specs.Kept.{DeclaresGate, Represents, found, gate_count, kept_body, kept_call};

use crate::gates::{CalledGate, GateBody, GateCall};
use crate::header_table::{
    Divisor, HeaderAngle, HeaderCall, HeaderCalled, HeaderGate, Turn, first_table, further_table,
};
use crate::names::Names;
use crate::statement_error::StatementError;
use qasm_angle::{Expr, ExprItem, Literal, Operation, folded};
use qasm_scope::Cause;
use smallvec::SmallVec;
use std::alloc::{AllocError, Global};

// The file that the header stands for, as it is spelled.
const HEADER_NAME: &[u8] = b"\"qelib1.inc\"";

// What the bodies of the header's gates share: the number of its first gate, and the numbers in its angles.
#[derive(Clone, Copy)]
struct Shared {
    base: usize,
    zero: Literal,
    two: Literal,
    four: Literal,
}

impl Shared {
    // The header's first gate has this number.
    fn new(base: usize) -> Shared
        requires { base < 2 ^ 63 }
        ensures shared { IsShared result }
        ensures base { result.base ≡ base }
    {
        Shared {
            base,
            zero: Literal::read(b"0"),
            two: Literal::read(b"2"),
            four: Literal::read(b"4"),
        }
    }
}

/// Declares the gates of the header, where nothing is wrong with an include.
///
/// # Errors
///
/// `Wrong(Include)` where the file is another one, else `Wrong(Redeclared)` where a name of the first gates is
/// declared; and `NoMemory` where memory runs out. After an error some of the gates may be declared.
pub fn include<'a>(
    alloc: Global,
    names: &mut Names<'a>,
    text: &'a [u8],
) -> Result<(), StatementError>
    ensures ok { OnOk result ((scope : Scope) → Represents names.old scope
        → wrong_in scope (Include text.now) ≡ None) }
    ensures after { OnOk result ((scope : Scope) → Represents names.old scope
        → Represents names.new (with_header scope)) }
    ensures err { (cause : Cause) (scope : Scope) → result ≡ Err (StatementError.Wrong cause)
        → Represents names.old scope
        → wrong_in scope (Include text.now) ≡ Some cause }
{
    if !is_header(text) {
        return Err(StatementError::Wrong(Cause::Include));
    }
    if any_declared(names, first_table()) {
        return Err(StatementError::Wrong(Cause::Redeclared));
    }
    names.reserve_gates(first_table().len() + further_table().len())?;
    let shared = Shared::new(names.gates.len());
    declare_first(alloc, names, &shared)?;
    declare_further(alloc, names, &shared)?;
    Ok(())
}

// Whether a text with its quotes names the header.
fn is_header(text: &[u8]) -> bool
    ensures { result ≡ bytes_eq text.now header_name }
{
    text == HEADER_NAME
}

// Whether one of these gates is declared.
fn any_declared(names: &Names<'_>, gates: &[HeaderGate]) -> bool
    ensures { result ≡ list_any (λ name. is_some (found name names.now.symbols))
        (map (λ gate. gate.name.now) gates.now) }
{
    for gate in gates {
        if names.is_declared(gate.name) {
            return true;
        }
    }
    false
}

// Declares the first gates, none of whose names is declared. The program may not declare these names again.
fn declare_first(alloc: Global, names: &mut Names<'_>, shared: &Shared) -> Result<(), AllocError>
    requires { IsShared shared.now }
    ensures { OnOk result ((scope : Scope) → Represents names.old scope → shared.now.base ≡ gate_count scope
        → list_any (λ form. is_declared form.name scope) first_gates ≡ false
        → Represents names.new (with_first first_gates scope)) }
{
    let mut rest = first_table();
    while let [gate, others @ ..] = rest {
        declare(alloc, names, gate, shared, false)?;
        rest = others;
    }
    Ok(())
}

// Declares those of the further gates whose names are free. The program may declare these names again.
fn declare_further(alloc: Global, names: &mut Names<'_>, shared: &Shared) -> Result<(), AllocError>
    requires { IsShared shared.now }
    ensures { OnOk result ((scope : Scope) → Represents names.old (with_first first_gates scope)
        → shared.now.base ≡ gate_count scope → Represents names.new (with_header scope)) }
{
    let mut rest = further_table();
    while let [gate, others @ ..] = rest {
        if !names.is_declared(gate.name) {
            declare(alloc, names, gate, shared, true)?;
        }
        rest = others;
    }
    Ok(())
}

// Declares a gate of the header. If it is replaceable, the program may declare its name again.
fn declare(
    alloc: Global,
    names: &mut Names<'_>,
    gate: &HeaderGate,
    shared: &Shared,
    replaceable: bool,
) -> Result<(), AllocError>
    requires { IsShared shared.now }
    ensures { OnOk result (DeclaresGate names.old names.new gate.now.name.now gate.now.angles
        gate.now.qubits (body_after shared.now.base gate.now) replaceable) }
{
    let body = body(alloc, gate, shared)?;
    names.declare_gate(gate.name, gate.angles, gate.qubits, body, replaceable)
}

// The body of a gate of the header.
fn body(alloc: Global, gate: &HeaderGate, shared: &Shared) -> Result<GateBody, AllocError>
    requires { IsShared shared.now }
    ensures { IfOk result (λ body. kept_body body ≡ body_after shared.now.base gate.now) }
{
    let mut calls = Vec::with_capacity(alloc, gate.calls.len())?;
    for call in gate.calls {
        calls.push(gate_call(alloc, call, shared, gate.angles > 0)?)?;
    }
    Ok(GateBody { calls })
}

// A call in such a body. It is told whether its angles are to be evaluated where they hold no parameter: what calls of
// gates without angles come to is kept, so that angles in these are evaluated once.
fn gate_call(
    alloc: Global,
    call: &HeaderCall,
    shared: &Shared,
    evaluates: bool,
) -> Result<GateCall, AllocError>
    requires { IsShared shared.now }
    ensures { IfOk result (λ made. kept_call made ≡ call_after shared.now.base call.now) }
{
    Ok(GateCall {
        called: called(call.0, shared.base),
        angles: exprs(alloc, call.1, shared, evaluates)?,
        qubits: qubits(alloc, call.2)?,
    })
}

// The places of a call's qubits.
fn qubits(alloc: Global, places: &[usize]) -> Result<SmallVec<usize, 2>, AllocError>
    ensures { IfOk result (λ qubits. qubits.items ≡ places.now) }
{
    let mut qubits = SmallVec::new(alloc);
    for place in places {
        qubits.push(*place)?;
    }
    Ok(qubits)
}

// The gate that is called, where the first gate of the header has this number.
fn called(called: HeaderCalled, base: usize) -> CalledGate
    requires { base < 2 ^ 63 }
    ensures { result ≡ called_after base called }
{
    match called {
        HeaderCalled::U => CalledGate::U,
        HeaderCalled::Cx => CalledGate::Cx,
        HeaderCalled::Gate(number) => CalledGate::Gate(usize::from(number) + base),
    }
}

// The angles of a call.
fn exprs(
    alloc: Global,
    angles: &[HeaderAngle],
    shared: &Shared,
    evaluates: bool,
) -> Result<Vec<Expr>, AllocError>
    requires { IsShared shared.now }
    ensures { IfOk result (λ exprs. exprs.items ≡ map angle_tree angles.now) }
{
    let mut exprs = Vec::with_capacity(alloc, angles.len())?;
    for angle in angles {
        exprs.push(expr(alloc, *angle, shared, evaluates)?)?;
    }
    Ok(exprs)
}

// An angle of a call.
fn expr(
    alloc: Global,
    angle: HeaderAngle,
    shared: &Shared,
    evaluates: bool,
) -> Result<Expr, AllocError>
    requires { IsShared shared.now }
    ensures { IfOk result (λ expr. expr ≡ angle_tree angle) }
{
    let expr = Expr::new(steps(alloc, angle, shared)?);
    if evaluates {
        folded(alloc, expr)
    } else {
        Ok(expr)
    }
}

// The steps of an angle.
fn steps(alloc: Global, angle: HeaderAngle, shared: &Shared) -> Result<Vec<ExprItem>, AllocError>
    requires { IsShared shared.now }
    ensures { IfOk result (λ steps. steps.items ≡ postfix (angle_tree angle)) }
{
    let mut steps = Vec::with_capacity(alloc, 4)?;
    steps.push(turn_step(angle.turn, shared))?;
    if angle.negated {
        steps.push(ExprItem::Negate)?;
    }
    if let Some(divisor) = divisor(angle.divisor, shared) {
        steps.push(ExprItem::Number(divisor))?;
        steps.push(ExprItem::Binary(Operation::Divide))?;
    }
    Ok(steps)
}

// The step that an angle is but for its sign and its divisor.
fn turn_step(turn: Turn, shared: &Shared) -> ExprItem
    requires { IsShared shared.now }
    ensures { result ∷ [] ≡ postfix (turn_tree turn) }
{
    match turn {
        Turn::Zero => ExprItem::Number(shared.zero),
        Turn::Pi => ExprItem::Pi,
        Turn::Parameter(index) => ExprItem::Parameter(index),
    }
}

// The number by which an angle is divided, if there is one.
fn divisor(divisor: Divisor, shared: &Shared) -> Option<Literal>
    requires { IsShared shared.now }
    ensures { (turn : Tree) → divided_tree divisor turn ≡ divided_by result turn }
{
    match divisor {
        Divisor::One => None,
        Divisor::Two => Some(shared.two),
        Divisor::Four => Some(shared.four),
    }
}
