//! Applications in statements: what their arguments stand for, and what is wrong with them.

ghost use Rattle.std.specs.Prelude.{◌≡◌, ◌==◌, map, not, slice_get, IfOk, IfSome, IfNone, OnOk, Some, None, Err, true, false, nat_le};
ghost use Rattle.std.specs.List.{list_any};
ghost use Rattle.std.specs.Option.{option_map};
ghost use Rattle.qasm_reader.specs.Syntax.{Barrier};
ghost use Rattle.qasm_reader.specs.Views.{operand};
ghost use Rattle.qasm_scope.specs.declared.causes.Cause.{Cause};
ghost use Rattle.qasm_names.specs.Kept.{Represents, found, symbol_register};
ghost use Rattle.qasm_names.specs.Checks.{lookup_by};
ghost use Rattle.qasm_scope.specs.Applications.{register_size, register_sizes};
ghost use Rattle.qasm_scope.specs.Faults.{has_no_register, has_other_size, is_past, wrong_in};
ghost use Rattle.qasm_scope.specs.Scope.{Scope, numeral};
ghost use Rattle.qasm_unroll.specs.Internal.Spans.{span_range, span_in, is_missing, any_missing, IsSpan, AreSpans, instance_count, IsLastRegister};

use qasm_names::{Names, StatementError, number};
use qasm_reader::Argument;
use qasm_scope::Cause;
use std::alloc::{AllocError, Global};

/// What an argument stands for.
#[derive(Clone, Copy)]
pub enum Span {
    /// One qubit or bit.
    Single(usize),
    /// A register.
    Register {
        /// Its first qubit or bit.
        first: usize,
        /// How many it has.
        size: usize,
    },
}

/// The name that was looked up last, and the first qubit and the size of the register of qubits that it stands for;
/// none where it stands for none.
#[derive(Clone, Copy)]
pub struct LastRegister<'a> {
    /// The name.
    pub name: &'a [u8],
    /// The first qubit and the size.
    pub register: Option<(usize, usize)>,
}

impl<'a> LastRegister<'a> {
    /// This name is looked up.
    pub fn look_up(names: &Names<'a>, name: &'a [u8]) -> LastRegister<'a>
        ensures is { IsLastRegister (lookup_by names.now.symbols) result }
        ensures name { result.name.now ≡ name.now }
    {
        LastRegister {
            name,
            register: names.register(name),
        }
    }

    // The first qubit and the size of the register of a name, which is looked up unless it was last.
    #[inline(always)]
    fn find(&mut self, names: &Names<'a>, name: &'a [u8]) -> Option<(usize, usize)>
        requires { IsLastRegister (lookup_by names.now.symbols) self.old }
        ensures found { result ≡ symbol_register (found name.now names.now.symbols) }
        ensures last { IsLastRegister (lookup_by names.now.symbols) self.new }
    {
        if self.name != name {
            *self = LastRegister::look_up(names, name);
        }
        self.register
    }
}

/// Whether an argument isn't a register of qubits or one of its qubits.
pub fn any_no_register<'a>(names: &Names<'a>, arguments: &[Argument<'a>]) -> bool
    ensures { result ≡ list_any (has_no_register (lookup_by names.now.symbols)) (map operand arguments.now) }
{
    for argument in arguments {
        if names.register(argument.register).is_none() {
            return true;
        }
    }
    false
}

/// What the arguments stand for; none where one of them is no register of qubits nor one of its qubits.
pub fn spans<'a>(
    alloc: Global,
    names: &Names<'a>,
    arguments: &[Argument<'a>],
) -> Result<Option<Vec<Span>>, AllocError>
    ensures some { IfOk result (λ found. IfSome found (λ spans.
        AreSpans (lookup_by names.now.symbols) (map operand arguments.now) (map span_range spans.items))) }
    ensures none { IfOk result (λ found. IfNone found (
        any_missing (lookup_by names.now.symbols) (map operand arguments.now) ≡ true)) }
{
    let mut spans = Vec::with_capacity(alloc, arguments.len())?;
    let Some(first) = arguments.first() else {
        return Ok(Some(spans));
    };
    let mut last = LastRegister::look_up(names, first.register);
    for argument in arguments {
        let Some(span) = argument_span(names, &mut last, argument) else {
            return Ok(None);
        };
        spans.push(span)?;
    }
    Ok(Some(spans))
}

/// Whether two sizes of registers differ.
pub fn has_other_sizes(spans: &[Span]) -> bool
    ensures { result ≡ has_other_size (register_sizes (map span_range spans.now)) }
{
    match first_size(spans) {
        Some(size) => any_other_size(spans, size),
        None => false,
    }
}

/// How many instances there are: one for each index of the registers, or one alone.
pub fn instance_count(spans: &[Span]) -> usize
    ensures { result ≡ instance_count (register_sizes (map span_range spans.now)) }
{
    match first_size(spans) {
        Some(size) => size,
        None => 1,
    }
}

/// What is wrong with a barrier, in each scope that the names are of.
///
/// # Errors
///
/// `Wrong(Unknown)` where an argument is no register of qubits nor one of its qubits, else `Wrong(Index)` where an
/// index isn't below its register's size.
pub fn barrier<'a>(names: &Names<'a>, arguments: &[Argument<'a>]) -> Result<(), StatementError>
    ensures ok { OnOk result ((scope : Scope) → Represents names.now scope
        → wrong_in scope (Barrier (map operand arguments.now)) ≡ None) }
    ensures err { (cause : Cause) (scope : Scope) → result ≡ Err (StatementError.Wrong cause)
        → Represents names.now scope
        → wrong_in scope (Barrier (map operand arguments.now)) ≡ Some cause }
{
    if !any_missing(names, arguments) {
        Ok(())
    } else if any_no_register(names, arguments) {
        Err(StatementError::Wrong(Cause::Unknown))
    } else {
        Err(StatementError::Wrong(Cause::Index))
    }
}

// Whether an argument isn't a register of qubits, nor one of the qubits that it has.
fn any_missing<'a>(names: &Names<'a>, arguments: &[Argument<'a>]) -> bool
    ensures { result ≡ any_missing (lookup_by names.now.symbols) (map operand arguments.now) }
{
    let Some(first) = arguments.first() else {
        return false;
    };
    let mut last = LastRegister::look_up(names, first.register);
    for argument in arguments {
        if argument_span(names, &mut last, argument).is_none() {
            return true;
        }
    }
    false
}

// What an argument stands for, if it is a register of qubits or one of the qubits that it has.
#[inline(always)]
fn argument_span<'a>(
    names: &Names<'a>,
    last: &mut LastRegister<'a>,
    argument: &Argument<'a>,
) -> Option<Span>
    requires { IsLastRegister (lookup_by names.now.symbols) last.old }
    ensures last { IsLastRegister (lookup_by names.now.symbols) last.new }
    ensures some { IfSome result (λ span.
        IsSpan (lookup_by names.now.symbols) (operand argument.now) (span_range span)) }
    ensures none { IfNone result (is_missing (lookup_by names.now.symbols) (operand argument.now) ≡ true) }
{
    let register = last.find(names, argument.register)?;
    span_of(register, argument.index)
}

/// What stands at an index of a register, by its first qubit or bit and its size, if there is one; the register where
/// there is no index.
#[inline(always)]
pub fn span_of(register: (usize, usize), index: Option<&[u8]>) -> Option<Span>
    ensures some { IfSome result (λ span.
        (is_past (Some register) (option_map (λ text. text.now) index.entry) ≡ false)
        × (span_range span ≡ span_in (Some register) (option_map (λ text. text.now) index.entry))) }
    ensures none { IfNone result (
        is_past (Some register) (option_map (λ text. text.now) index.entry) ≡ true) }
{
    let (first, size) = register;
    match index {
        Some(text) => place_span(first, size, text),
        None => Some(Span::Register { first, size }),
    }
}

// What stands in a register at the index that a text spells, if there is one.
fn place_span(first: usize, size: usize, text: &[u8]) -> Option<Span>
    ensures some { IfSome result (λ span. (nat_le size (numeral text.now) ≡ false)
        × (span_range span ≡ span_in (Some (first, size)) (Some text.now))) }
    ensures none { IfNone result (nat_le size (numeral text.now) ≡ true) }
{
    let index = number(text);
    if index < size {
        Some(Span::Single(first.saturating_add(index)))
    } else {
        None
    }
}

// The size of the first register.
fn first_size(spans: &[Span]) -> Option<usize>
    ensures { result ≡ slice_get (register_sizes (map span_range spans.now)) 0 }
{
    for span in spans {
        if let Some(size) = register_size(span) {
            return Some(size);
        }
    }
    None
}

// The size of a register; none of one qubit.
fn register_size(span: &Span) -> Option<usize>
    ensures { result ≡ register_size (span_range span.now) }
{
    match span {
        Span::Single(_) => None,
        Span::Register { size, .. } => Some(*size),
    }
}

// Whether a register has another size.
fn any_other_size(spans: &[Span], size: usize) -> bool
    ensures { result
        ≡ list_any (λ other. not (other == size)) (register_sizes (map span_range spans.now)) }
{
    spans
        .iter()
        .filter_map(register_size)
        .any(|other| other != size)
}
