//! Statements, and the statements of gates' bodies.

ghost use Rattle.qasm_lexer.specs.Tokens.{lexemes};
ghost use Rattle.qasm_reader.specs.Views.{action, body_sentence, sentence};
ghost use Rattle.qasm_reader.specs.Internal.Taking.{Reads, heading_of};
ghost use Rattle.qasm_reader.specs.Internal.Taking as spec;

use crate::arguments::{
    angles, argument, arguments, gate_name, identifier, identifiers, natural, parameters,
};
use crate::program::{
    Application, BodyApplication, BodyStatement, GateHeading, Operation, StatementKind,
};
use crate::step_error::StepError;
use crate::tokens::{Taken, after, expect, text};
use qasm_lexer::{Token, TokenKind};
use std::alloc::Global;

// The statement at the start of the tokens, which declares no gate, and what follows.
#[tactic(auto, unfolding(crate::specs::Internal::Taking::simple_statement))]
pub(crate) fn statement<'t, 'a>(
    alloc: Global,
    tokens: &'t [Token<'a>],
) -> Taken<'t, 'a, StatementKind<'a>>
    ensures { Reads sentence result (spec.simple_statement (lexemes tokens.now)) }
{
    let [first, rest @ ..] = tokens else {
        return Err(StepError::Misfit);
    };
    match first.kind {
        TokenKind::Openqasm => version(rest),
        TokenKind::Include => include(rest),
        TokenKind::Qreg => qubit_register(rest),
        TokenKind::Creg => bit_register(rest),
        TokenKind::Opaque => opaque(alloc, rest),
        TokenKind::If => conditional(alloc, rest),
        TokenKind::Barrier => barrier(alloc, rest),
        _ => {
            let (operation, rest) = operation(alloc, tokens)?;
            Ok((StatementKind::Operation(operation), rest))
        }
    }
}

// What follows `OPENQASM`.
#[tactic(auto, unfolding(crate::specs::Internal::Taking::version))]
fn version<'t, 'a>(tokens: &'t [Token<'a>]) -> Taken<'t, 'a, StatementKind<'a>>
    ensures { Reads sentence result (spec.version (lexemes tokens.now)) }
{
    let (real, rest) = text(tokens, TokenKind::Real)?;
    let rest = expect(rest, TokenKind::Semicolon)?;
    Ok((StatementKind::Version(real), rest))
}

// What follows `include`.
#[tactic(auto, unfolding(crate::specs::Internal::Taking::include))]
fn include<'t, 'a>(tokens: &'t [Token<'a>]) -> Taken<'t, 'a, StatementKind<'a>>
    ensures { Reads sentence result (spec.include (lexemes tokens.now)) }
{
    let (name, rest) = text(tokens, TokenKind::Text)?;
    let rest = expect(rest, TokenKind::Semicolon)?;
    Ok((StatementKind::Include(name), rest))
}

// A register's name and size.
#[tactic(auto, unfolding(crate::specs::Internal::Taking::register))]
fn register<'t, 'a>(tokens: &'t [Token<'a>]) -> Taken<'t, 'a, (&'a [u8], &'a [u8])>
    ensures { Reads (λ pair. (pair.0.now, pair.1.now)) result (spec.register (lexemes tokens.now)) }
{
    let (name, rest) = identifier(tokens)?;
    let inside = expect(rest, TokenKind::LeftBracket)?;
    let (size, following) = natural(inside)?;
    let following = expect(following, TokenKind::RightBracket)?;
    let rest = expect(following, TokenKind::Semicolon)?;
    Ok(((name, size), rest))
}

// What follows `qreg`.
fn qubit_register<'t, 'a>(tokens: &'t [Token<'a>]) -> Taken<'t, 'a, StatementKind<'a>>
    ensures { Reads sentence result (spec.qubit_register (lexemes tokens.now)) }
{
    let ((name, size), rest) = register(tokens)?;
    Ok((StatementKind::QubitRegister { name, size }, rest))
}

// What follows `creg`.
fn bit_register<'t, 'a>(tokens: &'t [Token<'a>]) -> Taken<'t, 'a, StatementKind<'a>>
    ensures { Reads sentence result (spec.bit_register (lexemes tokens.now)) }
{
    let ((name, size), rest) = register(tokens)?;
    Ok((StatementKind::BitRegister { name, size }, rest))
}

// The name, the parameters and the qubits of a gate that is declared.
#[tactic(auto, unfolding(crate::specs::Internal::Taking::heading))]
fn heading<'t, 'a>(alloc: Global, tokens: &'t [Token<'a>]) -> Taken<'t, 'a, GateHeading<'a>>
    ensures { Reads heading_of result (spec.heading (lexemes tokens.now)) }
{
    let (name, rest) = identifier(tokens)?;
    let (parameters, rest) = parameters(alloc, rest)?;
    let (qubits, rest) = identifiers(alloc, rest)?;
    Ok((
        GateHeading {
            name,
            parameters,
            qubits,
        },
        rest,
    ))
}

// The name, the parameters and the qubits of a gate that is declared, and the brace behind them.
#[tactic(auto, unfolding(crate::specs::Internal::Taking::opening))]
pub(crate) fn opening<'t, 'a>(
    alloc: Global,
    tokens: &'t [Token<'a>],
) -> Taken<'t, 'a, GateHeading<'a>>
    ensures { Reads heading_of result (spec.opening (lexemes tokens.now)) }
{
    let (heading, rest) = heading(alloc, tokens)?;
    let inside = expect(rest, TokenKind::LeftBrace)?;
    Ok((heading, inside))
}

// What follows `opaque`.
#[tactic(auto, unfolding(crate::specs::Internal::Taking::opaque))]
fn opaque<'t, 'a>(alloc: Global, tokens: &'t [Token<'a>]) -> Taken<'t, 'a, StatementKind<'a>>
    ensures { Reads sentence result (spec.opaque (lexemes tokens.now)) }
{
    let (head, rest) = heading(alloc, tokens)?;
    let rest = expect(rest, TokenKind::Semicolon)?;
    Ok((StatementKind::Opaque(head), rest))
}

// The register and the value of a condition between parentheses.
#[tactic(auto, unfolding(crate::specs::Internal::Taking::condition))]
fn condition<'t, 'a>(tokens: &'t [Token<'a>]) -> Taken<'t, 'a, (&'a [u8], &'a [u8])>
    ensures { Reads (λ pair. (pair.0.now, pair.1.now)) result (spec.condition (lexemes tokens.now)) }
{
    let inside = expect(tokens, TokenKind::LeftParenthesis)?;
    let (register, rest) = identifier(inside)?;
    let following = expect(rest, TokenKind::Equals)?;
    let (value, following) = natural(following)?;
    let rest = expect(following, TokenKind::RightParenthesis)?;
    Ok(((register, value), rest))
}

// What follows `if`.
#[tactic(auto, unfolding(crate::specs::Internal::Taking::conditional))]
fn conditional<'t, 'a>(alloc: Global, tokens: &'t [Token<'a>]) -> Taken<'t, 'a, StatementKind<'a>>
    ensures { Reads sentence result (spec.conditional (lexemes tokens.now)) }
{
    let ((register, value), rest) = condition(tokens)?;
    let (operation, rest) = operation(alloc, rest)?;
    Ok((
        StatementKind::If {
            register,
            value,
            operation,
        },
        rest,
    ))
}

// What follows `barrier`.
#[tactic(auto, unfolding(crate::specs::Internal::Taking::barrier))]
fn barrier<'t, 'a>(alloc: Global, tokens: &'t [Token<'a>]) -> Taken<'t, 'a, StatementKind<'a>>
    ensures { Reads sentence result (spec.barrier (lexemes tokens.now)) }
{
    let (qubits, rest) = arguments(alloc, tokens)?;
    let rest = expect(rest, TokenKind::Semicolon)?;
    Ok((StatementKind::Barrier(qubits), rest))
}

// The operation on qubits at the start of the tokens, and what follows.
#[tactic(auto, unfolding(crate::specs::Internal::Taking::operation))]
fn operation<'t, 'a>(alloc: Global, tokens: &'t [Token<'a>]) -> Taken<'t, 'a, Operation<'a>>
    ensures { Reads action result (spec.operation (lexemes tokens.now)) }
{
    let [first, rest @ ..] = tokens else {
        return Err(StepError::Misfit);
    };
    match first.kind {
        TokenKind::Measure => measure(rest),
        TokenKind::Reset => reset(rest),
        _ => application(alloc, tokens),
    }
}

// The application of a gate.
#[tactic(auto, unfolding(crate::specs::Internal::Taking::application))]
pub(crate) fn application<'t, 'a>(
    alloc: Global,
    tokens: &'t [Token<'a>],
) -> Taken<'t, 'a, Operation<'a>>
    ensures { Reads action result (spec.application (lexemes tokens.now)) }
{
    let (gate, rest) = gate_name(tokens)?;
    let (angles, rest) = angles(alloc, rest)?;
    let (qubits, rest) = arguments(alloc, rest)?;
    let rest = expect(rest, TokenKind::Semicolon)?;
    Ok((
        Operation::Apply(Application {
            gate,
            angles,
            qubits,
        }),
        rest,
    ))
}

// What follows `measure`.
#[tactic(auto, unfolding(crate::specs::Internal::Taking::measure))]
fn measure<'t, 'a>(tokens: &'t [Token<'a>]) -> Taken<'t, 'a, Operation<'a>>
    ensures { Reads action result (spec.measure (lexemes tokens.now)) }
{
    let (from, rest) = argument(tokens)?;
    let rest = expect(rest, TokenKind::Arrow)?;
    let (to, rest) = argument(rest)?;
    let rest = expect(rest, TokenKind::Semicolon)?;
    Ok((Operation::Measure { from, to }, rest))
}

// What follows `reset`.
#[tactic(auto, unfolding(crate::specs::Internal::Taking::reset))]
fn reset<'t, 'a>(tokens: &'t [Token<'a>]) -> Taken<'t, 'a, Operation<'a>>
    ensures { Reads action result (spec.reset (lexemes tokens.now)) }
{
    let (argument, rest) = argument(tokens)?;
    let rest = expect(rest, TokenKind::Semicolon)?;
    Ok((Operation::Reset(argument), rest))
}

// The statement of a gate's body at the start of the tokens, and what follows.
#[tactic(auto, unfolding(crate::specs::Internal::Taking::body_statement))]
pub(crate) fn body_statement<'t, 'a>(
    alloc: Global,
    tokens: &'t [Token<'a>],
) -> Taken<'t, 'a, BodyStatement<'a>>
    ensures { Reads body_sentence result (spec.body_statement (lexemes tokens.now)) }
{
    match after(tokens, TokenKind::Barrier) {
        Some(rest) => body_barrier(alloc, rest),
        None => body_application(alloc, tokens),
    }
}

// What follows `barrier` in a body.
fn body_barrier<'t, 'a>(alloc: Global, tokens: &'t [Token<'a>]) -> Taken<'t, 'a, BodyStatement<'a>>
    ensures { Reads body_sentence result (spec.body_barrier (lexemes tokens.now)) }
{
    let (qubits, rest) = identifiers(alloc, tokens)?;
    let rest = expect(rest, TokenKind::Semicolon)?;
    Ok((BodyStatement::Barrier(qubits), rest))
}

// The application of a gate in a body.
#[tactic(auto, unfolding(crate::specs::Internal::Taking::body_application))]
fn body_application<'t, 'a>(
    alloc: Global,
    tokens: &'t [Token<'a>],
) -> Taken<'t, 'a, BodyStatement<'a>>
    ensures { Reads body_sentence result (spec.body_application (lexemes tokens.now)) }
{
    let (gate, rest) = gate_name(tokens)?;
    let (angles, rest) = angles(alloc, rest)?;
    let (qubits, rest) = identifiers(alloc, rest)?;
    let rest = expect(rest, TokenKind::Semicolon)?;
    Ok((
        BodyStatement::Apply(BodyApplication {
            gate,
            angles,
            qubits,
        }),
        rest,
    ))
}
