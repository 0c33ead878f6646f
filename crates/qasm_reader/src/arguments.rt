//! Names, arguments and lists of them.

ghost use Rattle.std.specs.Prelude.{◌≡◌, map};
ghost use Rattle.std.specs.Option.{option_map};
ghost use Rattle.qasm_lexer.specs.Tokens.{lexemes};
ghost use Rattle.qasm_reader.specs.Postfix.{formula_of};
ghost use Rattle.qasm_reader.specs.Views.{callee, operand};
ghost use Rattle.qasm_reader.specs.Internal.Taking.{Reads};
ghost use Rattle.qasm_reader.specs.Internal.Taking as spec;
ghost use Rattle.qasm_reader.specs.Internal.Machine.{take_expression};

use crate::expression::Expression;
use crate::machine::expression;
use crate::program::{Argument, GateName};
use crate::step_error::StepError;
use crate::tokens::{Taken, after, expect, text};
use qasm_lexer::{Token, TokenKind};
use std::alloc::Global;

// The identifier at the start of the tokens, and what follows.
pub(crate) fn identifier<'t, 'a>(tokens: &'t [Token<'a>]) -> Taken<'t, 'a, &'a [u8]>
    ensures { Reads (λ name. name.now) result (spec.identifier (lexemes tokens.now)) }
{
    text(tokens, TokenKind::Identifier)
}

// The whole number at the start of the tokens, and what follows.
pub(crate) fn natural<'t, 'a>(tokens: &'t [Token<'a>]) -> Taken<'t, 'a, &'a [u8]>
    ensures { Reads (λ name. name.now) result (spec.natural (lexemes tokens.now)) }
{
    text(tokens, TokenKind::Natural)
}

// The name of a gate at the start of the tokens, and what follows.
#[tactic(auto, unfolding(crate::specs::Internal::Taking::gate_name))]
pub(crate) fn gate_name<'t, 'a>(tokens: &'t [Token<'a>]) -> Taken<'t, 'a, GateName<'a>>
    ensures { Reads callee result (spec.gate_name (lexemes tokens.now)) }
{
    let [first, rest @ ..] = tokens else {
        return Err(StepError::Misfit);
    };
    match callee_of(first) {
        Some(gate) => Ok((gate, rest)),
        None => Err(StepError::Misfit),
    }
}

// The gate that a token names.
fn callee_of<'a>(token: &Token<'a>) -> Option<GateName<'a>>
    ensures { option_map callee result ≡ spec.callee_of token.now.kind token.now.slice.now }
{
    match token.kind {
        TokenKind::Identifier => Some(GateName::Declared(token.slice)),
        TokenKind::U => Some(GateName::U),
        TokenKind::Cx => Some(GateName::Cx),
        _ => None,
    }
}

// The argument at the start of the tokens, and what follows.
#[tactic(auto, unfolding(crate::specs::Internal::Taking::argument))]
pub(crate) fn argument<'t, 'a>(tokens: &'t [Token<'a>]) -> Taken<'t, 'a, Argument<'a>>
    ensures { Reads operand result (spec.argument (lexemes tokens.now)) }
{
    let (register, rest) = identifier(tokens)?;
    let Some(inside) = after(rest, TokenKind::LeftBracket) else {
        return Ok((
            Argument {
                register,
                index: None,
            },
            rest,
        ));
    };
    let (index, following) = natural(inside)?;
    let end = expect(following, TokenKind::RightBracket)?;
    Ok((
        Argument {
            register,
            index: Some(index),
        },
        end,
    ))
}

// The identifiers at the start of the tokens, with commas between them, and what follows.
#[tactic(auto, unfolding(crate::specs::Internal::Taking::identifiers, crate::specs::Internal::Taking::comma_list))]
pub(crate) fn identifiers<'t, 'a>(
    alloc: Global,
    tokens: &'t [Token<'a>],
) -> Taken<'t, 'a, Vec<&'a [u8]>>
    ensures { Reads (λ found. map (λ name. name.now) found.items) result (spec.identifiers (lexemes tokens.now)) }
{
    let mut names = Vec::new(alloc);
    let (first, mut rest) = identifier(tokens)?;
    names.push(first)?;
    while let Some(following) = after(rest, TokenKind::Comma) {
        let (name, end) = identifier(following)?;
        names.push(name)?;
        rest = end;
    }
    Ok((names, rest))
}

// The arguments at the start of the tokens, with commas between them, and what follows.
#[tactic(auto, unfolding(crate::specs::Internal::Taking::arguments, crate::specs::Internal::Taking::comma_list))]
pub(crate) fn arguments<'t, 'a>(
    alloc: Global,
    tokens: &'t [Token<'a>],
) -> Taken<'t, 'a, Vec<Argument<'a>>>
    ensures { Reads (λ found. map operand found.items) result (spec.arguments (lexemes tokens.now)) }
{
    let mut found = Vec::new(alloc);
    let (first, mut rest) = argument(tokens)?;
    found.push(first)?;
    while let Some(following) = after(rest, TokenKind::Comma) {
        let (next, end) = argument(following)?;
        found.push(next)?;
        rest = end;
    }
    Ok((found, rest))
}

// The expressions at the start of the tokens, with commas between them, and what follows.
#[tactic(auto, unfolding(crate::specs::Internal::Taking::comma_list))]
fn expressions<'t, 'a>(alloc: Global, tokens: &'t [Token<'a>]) -> Taken<'t, 'a, Vec<Expression<'a>>>
    ensures { Reads (λ found. map formula_of found.items) result
        (spec.comma_list take_expression (lexemes tokens.now)) }
{
    let mut found = Vec::new(alloc);
    let (first, mut rest) = expression(alloc, tokens)?;
    found.push(first)?;
    while let Some(following) = after(rest, TokenKind::Comma) {
        let (next, end) = expression(alloc, following)?;
        found.push(next)?;
        rest = end;
    }
    Ok((found, rest))
}

// The identifiers between parentheses at the start of the tokens, if parentheses stand there, and what follows.
#[tactic(auto, unfolding(crate::specs::Internal::Taking::parameters, crate::specs::Internal::Taking::optional_list, crate::specs::Internal::Taking::identifiers))]
pub(crate) fn parameters<'t, 'a>(
    alloc: Global,
    tokens: &'t [Token<'a>],
) -> Taken<'t, 'a, Vec<&'a [u8]>>
    ensures { Reads (λ found. map (λ name. name.now) found.items) result (spec.parameters (lexemes tokens.now)) }
{
    let Some(inside) = after(tokens, TokenKind::LeftParenthesis) else {
        return Ok((Vec::new(alloc), tokens));
    };
    if let Some(rest) = after(inside, TokenKind::RightParenthesis) {
        return Ok((Vec::new(alloc), rest));
    }
    let (names, following) = identifiers(alloc, inside)?;
    let rest = expect(following, TokenKind::RightParenthesis)?;
    Ok((names, rest))
}

// The expressions between parentheses at the start of the tokens, if parentheses stand there, and what follows.
#[tactic(auto, unfolding(crate::specs::Internal::Taking::angles, crate::specs::Internal::Taking::optional_list))]
pub(crate) fn angles<'t, 'a>(
    alloc: Global,
    tokens: &'t [Token<'a>],
) -> Taken<'t, 'a, Vec<Expression<'a>>>
    ensures { Reads (λ found. map formula_of found.items) result (spec.angles (lexemes tokens.now)) }
{
    let Some(inside) = after(tokens, TokenKind::LeftParenthesis) else {
        return Ok((Vec::new(alloc), tokens));
    };
    if let Some(rest) = after(inside, TokenKind::RightParenthesis) {
        return Ok((Vec::new(alloc), rest));
    }
    let (found, following) = expressions(alloc, inside)?;
    let rest = expect(following, TokenKind::RightParenthesis)?;
    Ok((found, rest))
}
