//! Declarations of registers.

ghost use Rattle.std.specs.Prelude.{◌≡◌, ◌<◌, ◌==◌, ◌∷◌, OnOk, None, Some, Err};
ghost use Rattle.qasm_reader.specs.Syntax.{QubitRegister, BitRegister};
ghost use Rattle.qasm_scope.specs.declared.causes.Cause.{Cause};
ghost use Rattle.qasm_names.specs.Internal.Registers.{register_cause, too_many_cause};
ghost use Rattle.qasm_names.specs.Kept.{Represents, found, symbol_taken};
ghost use Rattle.qasm_scope.specs.Faults.{wrong_in};
ghost use Rattle.qasm_scope.specs.Meaning.{after_statement};
ghost use Rattle.qasm_scope.specs.Scope.{Scope};

use crate::names::Names;
use crate::numerals::number;
use crate::statement_error::StatementError;
use qasm_scope::Cause;

// The most qubits that a circuit may have.
const MOST_QUBITS: usize = 1024;

// The most bits that a circuit may have.
const MOST_BITS: usize = 65536;

/// Declares a register of qubits, where nothing is wrong with it.
///
/// # Errors
///
/// `Wrong` with the first cause of `Redeclared`, `EmptyRegister` and `TooManyQubits`; and `NoMemory` where memory runs out.
pub fn declare_qubits<'a>(
    names: &mut Names<'a>,
    name: &'a [u8],
    size: &'a [u8],
) -> Result<(), StatementError>
    ensures ok { OnOk result ((scope : Scope) → Represents names.old scope
        → wrong_in scope (QubitRegister name.now size.now) ≡ None) }
    ensures declared { OnOk result ((scope : Scope) → Represents names.old scope
        → Represents names.new (after_statement scope (QubitRegister name.now size.now))) }
    ensures err { (cause : Cause) (scope : Scope) → result ≡ Err (StatementError.Wrong cause)
        → Represents names.old scope
        → wrong_in scope (QubitRegister name.now size.now) ≡ Some cause }
{
    let count = number(size);
    let too_many = too_many(names.qubits, count, MOST_QUBITS, Cause::TooManyQubits);
    if let Some(cause) = wrong_register(names, name, count, too_many) {
        return Err(StatementError::Wrong(cause));
    }
    names.declare_qubits(name, count)?;
    Ok(())
}

/// Declares a register of bits, where nothing is wrong with it.
///
/// # Errors
///
/// `Wrong` with the first cause of `Redeclared`, `EmptyRegister` and `TooManyBits`; and `NoMemory` where memory runs out.
pub fn declare_bits<'a>(
    names: &mut Names<'a>,
    name: &'a [u8],
    size: &'a [u8],
) -> Result<(), StatementError>
    ensures ok { OnOk result ((scope : Scope) → Represents names.old scope
        → wrong_in scope (BitRegister name.now size.now) ≡ None) }
    ensures declared { OnOk result ((scope : Scope) → Represents names.old scope
        → Represents names.new (after_statement scope (BitRegister name.now size.now))) }
    ensures err { (cause : Cause) (scope : Scope) → result ≡ Err (StatementError.Wrong cause)
        → Represents names.old scope
        → wrong_in scope (BitRegister name.now size.now) ≡ Some cause }
{
    let count = number(size);
    let too_many = too_many(names.bits, count, MOST_BITS, Cause::TooManyBits);
    if let Some(cause) = wrong_register(names, name, count, too_many) {
        return Err(StatementError::Wrong(cause));
    }
    names.declare_bits(name, count)?;
    Ok(())
}

// What is wrong with a register of that size, with which there may be too many qubits or bits.
fn wrong_register<'a>(
    names: &Names<'a>,
    name: &'a [u8],
    size: usize,
    too_many: Option<Cause>,
) -> Option<Cause>
    ensures { result
        ≡ register_cause (symbol_taken (found name.now names.now.symbols)) (size == 0) too_many }
{
    if names.is_taken(name) {
        Some(Cause::Redeclared)
    } else if size == 0 {
        Some(Cause::EmptyRegister)
    } else {
        too_many
    }
}

// This cause, where with so many more there are more than the most.
fn too_many(count: usize, more: usize, most: usize, cause: Cause) -> Option<Cause>
    requires { most < usize.MAX }
    ensures { result ≡ too_many_cause most count more cause }
{
    if count.saturating_add(more) > most {
        Some(cause)
    } else {
        None
    }
}
