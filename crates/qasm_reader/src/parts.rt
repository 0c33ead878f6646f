//! Programs part by part: statements, and gates' bodies statement by statement.

ghost use Rattle.std.specs.Prelude.{◌≡◌, List, ℕ, None, Ok, IfOk, IfSome};
ghost use Rattle.qasm_lexer.specs.Tokens.{Lexeme, lexemes};
ghost use Rattle.qasm_reader.specs.Internal.PartReading.{IsBodyPart, IsPart};
ghost use Rattle.qasm_reader.specs.Parts.{BeginNone, IsBehind, IsFirstPart, IsInBody, IsNextInBody, ends_part, has_end};
ghost use Rattle.qasm_reader.specs.Syntax.{GateForm};

use crate::program::{BodyStatement, GateHeading, Statement, StatementKind};
use crate::statement::{application, body_statement, opening, statement};
use crate::step_error::StepError;
use crate::tokens::{Taken, after};
use qasm_lexer::{Token, TokenKind};
use std::alloc::{AllocError, Global};

/// A part of a program.
#[derive(Drop)]
pub enum Part<'a> {
    /// A whole statement.
    Statement(Statement<'a>),
    /// The beginning of a gate's declaration, up to its left brace.
    Heading {
        /// The place of its first byte in the text.
        place: usize,
        /// What it says.
        heading: GateHeading<'a>,
    },
}

/// A part of a gate's body.
#[derive(Drop)]
pub enum BodyPart<'a> {
    /// A statement.
    Statement(BodyStatement<'a>),
    /// The brace that closes the body.
    End,
}

/// The statement at the start of the tokens, or the heading where it declares a gate, and the tokens behind it; `None`
/// where neither begins them. Where they `has_end` then, neither begins them whatever follows.
///
/// # Errors
///
/// Where memory runs out.
// Its result is large, and a reader calls it once for each part.
#[inline(always)]
pub fn next_part<'t, 'a>(
    alloc: Global,
    tokens: &'t [Token<'a>],
) -> Result<Option<(Part<'a>, &'t [Token<'a>])>, AllocError>
    ensures found { IfOk result (λ read. IfSome read (λ x.
        IsFirstPart x.0 (lexemes tokens.now) (lexemes x.1.now))) }
    ensures behind { IfOk result (λ read. IfSome read
        (λ x. IsBehind (lexemes x.1.now) (lexemes tokens.now))) }
    ensures none { result ≡ Ok None → BeginNone (lexemes tokens.now) (lexemes tokens.now) }
{
    match first_part(alloc, tokens) {
        Ok(read) => Ok(Some(read)),
        Err(StepError::Misfit) => Ok(None),
        Err(StepError::NoMemory) => Err(AllocError),
    }
}

/// What is next where the tokens are inside a gate's body, and the tokens behind it; `None` where neither a statement
/// of a body nor the brace that closes it begins them.
///
/// # Errors
///
/// Where memory runs out.
pub fn next_in_body<'t, 'a>(
    alloc: Global,
    tokens: &'t [Token<'a>],
) -> Result<Option<(BodyPart<'a>, &'t [Token<'a>])>, AllocError>
    ensures next { (place : ℕ) (gate : GateForm) (all : List Lexeme)
        → IsInBody place gate all (lexemes tokens.now)
        → IfOk result (λ read. IsNextInBody place gate all (lexemes tokens.now) read) }
    ensures behind { IfOk result (λ read. IfSome read
        (λ x. IsBehind (lexemes x.1.now) (lexemes tokens.now))) }
{
    match body_part(alloc, tokens) {
        Ok(read) => Ok(Some(read)),
        Err(StepError::Misfit) => Ok(None),
        Err(StepError::NoMemory) => Err(AllocError),
    }
}

/// Whether one of the tokens is a sign with which parts end: `;`, `{` or `}`. A part has none of them before its last
/// token.
pub fn has_end(tokens: &[Token<'_>]) -> bool
    ensures { result ≡ has_end (lexemes tokens.now) }
{
    tokens.iter().any(|token| ends_part(token.kind))
}

// Whether parts end with tokens of this kind.
fn ends_part(kind: TokenKind) -> bool
    ensures { result ≡ ends_part kind }
{
    match kind {
        TokenKind::Semicolon | TokenKind::LeftBrace | TokenKind::RightBrace => true,
        _ => false,
    }
}

// The part of a program at the start of the tokens, and what follows.
#[inline(always)]
fn first_part<'t, 'a>(alloc: Global, tokens: &'t [Token<'a>]) -> Taken<'t, 'a, Part<'a>>
    ensures { IsPart (lexemes tokens.now) result }
{
    let Some((first, inside)) = tokens.split_first() else {
        return Err(StepError::Misfit);
    };
    let place = first.place;
    match first.kind {
        TokenKind::Gate => {
            let (heading, rest) = opening(alloc, inside)?;
            Ok((Part::Heading { place, heading }, rest))
        }
        // Most statements apply a gate: these are read straight.
        TokenKind::Identifier => {
            let (operation, rest) = application(alloc, tokens)?;
            let kind = StatementKind::Operation(operation);
            Ok((Part::Statement(Statement { place, kind }), rest))
        }
        _ => {
            let (kind, rest) = statement(alloc, tokens)?;
            Ok((Part::Statement(Statement { place, kind }), rest))
        }
    }
}

// The part of a gate's body at the start of the tokens, and what follows.
fn body_part<'t, 'a>(alloc: Global, tokens: &'t [Token<'a>]) -> Taken<'t, 'a, BodyPart<'a>>
    ensures { IsBodyPart (lexemes tokens.now) result }
{
    if let Some(rest) = after(tokens, TokenKind::RightBrace) {
        return Ok((BodyPart::End, rest));
    }
    let (statement, rest) = body_statement(alloc, tokens)?;
    Ok((BodyPart::Statement(statement), rest))
}
