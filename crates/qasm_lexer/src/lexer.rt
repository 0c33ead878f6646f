//! The cutting of a text into tokens.

ghost use Rattle.std.specs.Prelude.{◌≡◌, ◌<◌, ◌≤◌, ◌+◌, ◌^◌, ◌⊎◌, ◌∷◌, [], ◌++◌, ℕ, List, length, OnOk, IfOk, IfErr, IsErrAnd, MatchResult, Err};
ghost use Rattle.qasm_lexer.specs.declared.errors.LexError.TheVariants.{BadByte, NoMemory};
ghost use Rattle.qasm_lexer.specs.Tokens.{Lexeme, lexemes, IsCut, IsCutAt, IsBadByte, IsBegun};
ghost use Rattle.qasm_lexer.specs.Internal.FirstPiece.{piece_tokens, naturals, natural_tokens};

use crate::errors::LexError;
use crate::first_piece::{Sort, first_piece};
use crate::token::{Token, TokenKind};
use std::alloc::{AllocError, Global};

/// The tokens of a text, in their order. White space and comments are left out.
///
/// # Errors
///
/// `BadByte` with the lowest place at which no token, white space or comment begins, where there is one; and
/// `NoMemory` where memory runs out.
pub fn lex<'a>(alloc: Global, text: &'a [u8]) -> Result<Vec<Token<'a>>, LexError>
    // The text is cut into these tokens.
    ensures found { IfOk result (λ tokens. IsCut 0 text.now (lexemes tokens.items)) }
    // Tokens that it can be cut into are given, unless memory runs out.
    ensures only { (tokens : List Lexeme) → IsCut 0 text.now tokens
        → MatchResult result (λ given. lexemes given.items ≡ tokens) (λ error. error ≡ NoMemory) }
    // A bad byte stands where it is told,
    ensures bad_byte { (at : ℕ) → IfErr result (λ error. error ≡ BadByte at
        → IsBadByte text.now at) }
    // and where there is one, it is told, unless memory runs out.
    ensures bad_byte_only { (at : ℕ) → IsBadByte text.now at
        → IsErrAnd result (λ error. (error ≡ BadByte at) ⊎ (error ≡ NoMemory)) }
{
    let mut tokens = Vec::new(alloc);
    let mut place = 0;
    while place < text.len() {
        place = push_next(text, place, &mut tokens)?;
    }
    Ok(tokens)
}

/// Cuts a text that is cut up to a place further on, until the list has so many tokens or the text is over. The
/// tokens are added to the list, and the new place is given.
///
/// # Errors
///
/// `BadByte` with the place that was come to, where no token, white space or comment begins there; and `NoMemory`
/// where memory runs out.
pub fn lex_further<'a>(
    text: &'a [u8],
    place: usize,
    tokens: &mut Vec<Token<'a>>,
    count: usize,
) -> Result<usize, LexError>
    requires { place ≤ length text.now }
    // Behind what was cut before, the text is cut up to the new place into the tokens that are added.
    ensures cut { (before : List Lexeme) → IsCutAt text.now place
        (before ++ lexemes tokens.old.items)
        → IfOk result (λ end. IsCutAt text.now end (before ++ lexemes tokens.new.items)) }
    ensures added { OnOk result (IsBegun (lexemes tokens.old.items) (lexemes tokens.new.items)) }
    // It comes to the end or to so many tokens, and gets on.
    ensures within { IfOk result (λ end. end ≤ length text.now) }
    ensures enough { IfOk result (λ end. (end ≡ length text.now)
        ⊎ (count ≤ length tokens.new.items)) }
    ensures further { IfOk result (λ end. place < length text.now → length tokens.old.items < count
        → place < end) }
    // A bad byte that is told is the text's.
    ensures bad_byte { (before : List Lexeme) (at : ℕ)
        → IsCutAt text.now place (before ++ lexemes tokens.old.items)
        → result ≡ Err (BadByte at) → IsBadByte text.now at }
{
    let mut end = place;
    while end < text.len() && tokens.len() < count {
        end = push_next(text, end, tokens)?;
    }
    Ok(end)
}

// Adds the tokens of the piece at a place, and gives the place behind it.
// A text is cut by this and what it calls, once for each piece: calls would be a tenth of the reading.
#[inline(always)]
fn push_next<'a>(
    text: &'a [u8],
    place: usize,
    tokens: &mut Vec<Token<'a>>,
) -> Result<usize, LexError>
    requires { place < length text.now }
    ensures cut { (before : List Lexeme) → IsCutAt text.now place
        (before ++ lexemes tokens.old.items)
        → IfOk result (λ end. IsCutAt text.now end (before ++ lexemes tokens.new.items)) }
    ensures added { OnOk result (IsBegun (lexemes tokens.old.items) (lexemes tokens.new.items)) }
    ensures further { IfOk result (λ end. (place < end) × (end ≤ length text.now)) }
    ensures bad_byte { (before : List Lexeme) (at : ℕ)
        → IsCutAt text.now place before
        → result ≡ Err (BadByte at) → IsBadByte text.now at }
{
    let rest = &text[place..];
    let Some((sort, count)) = first_piece(rest) else {
        return Err(LexError::BadByte { at: place });
    };
    push_piece(tokens, sort, &rest[..count], place)?;
    Ok(place + count)
}

// Adds the tokens of a piece that stands at a place.
#[inline(always)]
fn push_piece<'a>(
    tokens: &mut Vec<Token<'a>>,
    sort: Sort,
    piece: &'a [u8],
    place: usize,
) -> Result<(), AllocError>
    requires { place + length piece.now < 2 ^ 64 }
    ensures { OnOk result (lexemes tokens.new.items
        ≡ lexemes tokens.old.items ++ piece_tokens sort place piece.now) }
{
    match sort {
        Sort::Blank => Ok(()),
        Sort::Digits => push_naturals(tokens, piece, place),
        Sort::Token(kind) => push_token(tokens, kind, piece, place),
    }
}

// Adds the naturals that digits are: each 0 at the start alone, and the others together.
fn push_naturals<'a>(
    tokens: &mut Vec<Token<'a>>,
    digits: &'a [u8],
    place: usize,
) -> Result<(), AllocError>
    requires { place + length digits.now < 2 ^ 64 }
    ensures { OnOk result (lexemes tokens.new.items
        ≡ lexemes tokens.old.items ++ natural_tokens place (naturals digits.now)) }
{
    let mut rest = digits;
    let mut place = place;
    while rest.first() == Some(&b'0') {
        push_token(tokens, TokenKind::Natural, &rest[..1], place)?;
        rest = &rest[1..];
        place += 1;
    }
    if !rest.is_empty() {
        push_token(tokens, TokenKind::Natural, rest, place)?;
    }
    Ok(())
}

// Adds one token.
#[inline(always)]
fn push_token<'a>(
    tokens: &mut Vec<Token<'a>>,
    kind: TokenKind,
    slice: &'a [u8],
    place: usize,
) -> Result<(), AllocError>
    ensures { OnOk result (lexemes tokens.new.items
        ≡ lexemes tokens.old.items ++ record { kind = kind; text = slice.now; place = place } ∷
        []) }
{
    tokens.push(Token { kind, slice, place })?;
    Ok(())
}
