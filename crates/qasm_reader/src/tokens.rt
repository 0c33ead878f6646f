//! The steps that every other is made of: single tokens at the start.

ghost use Rattle.std.specs.Prelude.{◌≡◌};
ghost use Rattle.std.specs.Option.{option_map};
ghost use Rattle.qasm_lexer.specs.Tokens.{lexemes};
ghost use Rattle.qasm_reader.specs.Internal.Taking.{Gives, Reads};
ghost use Rattle.qasm_reader.specs.Internal.Taking as spec;

use crate::step_error::StepError;
use qasm_lexer::{Token, TokenKind};

// What stands at the start of tokens, and the tokens that follow.
pub(crate) type Taken<'t, 'a, T> = Result<(T, &'t [Token<'a>]), StepError>;

// Whether two kinds are the same.
fn same_kind(left: TokenKind, right: TokenKind) -> bool
    ensures { result ≡ spec.same_kind left right }
{
    left == right
}

// What follows the first token, if it is of this kind.
#[tactic(auto, unfolding(crate::specs::Internal::Taking::after))]
pub(crate) fn after<'t, 'a>(tokens: &'t [Token<'a>], kind: TokenKind) -> Option<&'t [Token<'a>]>
    ensures { option_map (λ rest. lexemes rest.now) result ≡ spec.after kind (lexemes tokens.now) }
{
    let (first, rest) = tokens.split_first()?;
    if same_kind(first.kind, kind) {
        Some(rest)
    } else {
        None
    }
}

// What follows the first token, which is to be of this kind.
pub(crate) fn expect<'t, 'a>(
    tokens: &'t [Token<'a>],
    kind: TokenKind,
) -> Result<&'t [Token<'a>], StepError>
    ensures { Gives (λ rest. lexemes rest.now) result (spec.after kind (lexemes tokens.now)) }
{
    match after(tokens, kind) {
        Some(rest) => Ok(rest),
        None => Err(StepError::Misfit),
    }
}

// The bytes of the first token, which is to be of this kind, and what follows.
#[tactic(auto, unfolding(crate::specs::Internal::Taking::text))]
pub(crate) fn text<'t, 'a>(tokens: &'t [Token<'a>], kind: TokenKind) -> Taken<'t, 'a, &'a [u8]>
    ensures { Reads (λ name. name.now) result (spec.text kind (lexemes tokens.now)) }
{
    match tokens.split_first() {
        Some((first, rest)) if same_kind(first.kind, kind) => Ok((first.slice, rest)),
        _ => Err(StepError::Misfit),
    }
}
