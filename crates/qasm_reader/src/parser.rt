//! The parser: from tokens to a program.

ghost use Rattle.std.specs.Prelude.{◌≡◌, List, None, Some, Ok, Err, IfOk, OnOk, ℕ};
ghost use Rattle.qasm_lexer.specs.Tokens.{lexemes};
ghost use Rattle.qasm_reader.specs.Answers.{AnswersFault, AnswersProgram};
ghost use Rattle.qasm_reader.specs.Depth.{too_deep};
ghost use Rattle.qasm_reader.specs.Grammar.{IsProgram, IsSyntaxFault};
ghost use Rattle.qasm_reader.specs.Internal.Parsing.{IsAnswer, IsDepthAnswer, IsNext};
ghost use Rattle.qasm_reader.specs.Syntax.{Placed};
ghost use Rattle.qasm_reader.specs.Views.{statements_of};

use crate::depth::Depth;
use crate::error::ParseError;
use crate::parts::{BodyPart, Part, next_in_body, next_part};
use crate::program::{GateDeclaration, Program, ProgramElement};
use qasm_lexer::Token;
use std::alloc::{AllocError, Global};

/// The program that the tokens are.
///
/// # Errors
///
/// `TooDeep` where more than 256 parentheses are open, with the first such place; else `Syntax` where the tokens
/// are no program, with the place where the first statement would begin that is none; and `NoMemory` where memory
/// runs out.
pub fn parse<'a>(alloc: Global, tokens: &[Token<'a>]) -> Result<Program<'a>, ParseError>
    // What is answered is what the tokens say.
    ensures found { IfOk result (λ program. IsProgram (lexemes tokens.now)
        (statements_of program)) }
    ensures shallow { OnOk result (too_deep (lexemes tokens.now) ≡ None) }
    // What the tokens say is answered, unless memory runs out.
    ensures only { (statements : List Placed) → IsProgram (lexemes tokens.now) statements
        → too_deep (lexemes tokens.now) ≡ None → AnswersProgram statements result }
    // Which fault it is, both ways.
    ensures deep { (at : ℕ) → result ≡ Err (ParseError.TooDeep at)
        → too_deep (lexemes tokens.now) ≡ Some at }
    ensures only_deep { (at : ℕ) → too_deep (lexemes tokens.now) ≡ Some at
        → AnswersFault (ParseError.TooDeep at) result }
    ensures syntax { (at : ℕ) → result ≡ Err (ParseError.Syntax at)
        → (too_deep (lexemes tokens.now) ≡ None) × IsSyntaxFault (lexemes tokens.now) at }
    ensures only_syntax { (at : ℕ) → IsSyntaxFault (lexemes tokens.now) at
        → too_deep (lexemes tokens.now) ≡ None → AnswersFault (ParseError.Syntax at) result }
{
    program(alloc, tokens)
}

// The program that the tokens are, with one relation for all causes, from which each clause of `parse` follows.
fn program<'a>(alloc: Global, tokens: &[Token<'a>]) -> Result<Program<'a>, ParseError>
    ensures { IsAnswer (lexemes tokens.now) result }
{
    let mut rest = shallow(tokens)?;
    let mut elements = Vec::new(alloc);
    while let Some((element, end)) = next_element(alloc, rest).or(Err(ParseError::NoMemory))? {
        elements.push(element).or(Err(ParseError::NoMemory))?;
        rest = end;
    }
    match rest.first() {
        Some(first) => Err(ParseError::Syntax { at: first.place }),
        None => Ok(Program { elements }),
    }
}

// The tokens, if parentheses are not too deep.
fn shallow<'t, 'a>(tokens: &'t [Token<'a>]) -> Result<&'t [Token<'a>], ParseError>
    ensures { IsDepthAnswer tokens.now result }
{
    match Depth::start().after(tokens) {
        Depth::TooDeep(at) => Err(ParseError::TooDeep { at }),
        Depth::Open(_) => Ok(tokens),
    }
}

// The statement or the whole gate at the start of the tokens, and what follows; none where neither begins them.
fn next_element<'t, 'a>(
    alloc: Global,
    tokens: &'t [Token<'a>],
) -> Result<Option<(ProgramElement<'a>, &'t [Token<'a>])>, AllocError>
    ensures { IfOk result (λ read. IsNext (lexemes tokens.now) read) }
{
    let Some((part, mut rest)) = next_part(alloc, tokens)? else {
        return Ok(None);
    };
    let (place, heading) = match part {
        Part::Statement(statement) => return Ok(Some((ProgramElement::Statement(statement), rest))),
        Part::Heading { place, heading } => (place, heading),
    };
    let mut body = Vec::new(alloc);
    while let Some((part, end)) = next_in_body(alloc, rest)? {
        match part {
            BodyPart::Statement(statement) => body.push(statement)?,
            BodyPart::End => {
                let declaration = GateDeclaration { heading, body };
                return Ok(Some((ProgramElement::Gate { place, declaration }, end)));
            }
        }
        rest = end;
    }
    Ok(None)
}
