//! Texts of tokens that outlive the pieces that they came in.

ghost use Rattle.std.specs.Prelude.{◌≡◌, ◌+◌, ◌^◌, ◌<◌, ◌≤◌, ◌++◌, ◌∷◌, [], map, IfOk, OnOk};
ghost use Rattle.std.specs.List.{All};
ghost use Rattle.qasm_lexer.specs.Tokens.{lexemes};
ghost use Rattle.qasm_lexer.specs.Internal.Moved.{moved};

use bumpalo::Bump;
use qasm_lexer::Token;
use std::alloc::{AllocError, Global};

// How many texts are known at once.
const ROWS: usize = 512;

// The printable characters of ASCII, in the order of their codes, of which the first is 32.
const PRINTABLE: &[u8] =
    b" !\"#$%&'()*+,-./0123456789:;<=>?@ABCDEFGHIJKLMNOPQRSTUVWXYZ[\\]^_`abcdefghijklmnopqrstuvwxyz{|}~";

/// Keeps the texts of tokens. One that is known already isn't kept again.
#[derive(Drop)]
pub(crate) struct Words<'a> {
    arena: &'a Bump,
    // The texts that are known, each at a row of its own.
    known: Vec<&'a [u8]>,
}

impl<'a> Words<'a> {
    // No text is known.
    pub(crate) fn new(alloc: Global, arena: &'a Bump) -> Words<'a> {
        Words {
            arena,
            known: Vec::new(alloc),
        }
    }

    // Adds these tokens, of a text that stands so many bytes further on, to those that are kept.
    pub(crate) fn keep_all(
        &mut self,
        tokens: &[Token<'_>],
        from: usize,
        kept: &mut Vec<Token<'a>>,
    ) -> Result<(), AllocError>
        requires { All (λ token. from + token.place < 2 ^ 64) tokens.now }
        ensures { OnOk result (lexemes kept.new.items
            ≡ lexemes kept.old.items ++ map (moved from) (lexemes tokens.now)) }
    {
        for token in tokens {
            let slice = self.keep(token.slice)?;
            kept.push(Token {
                kind: token.kind,
                slice,
                place: from + token.place,
            })?;
        }
        Ok(())
    }

    // Keeps a text.
    fn keep(&mut self, text: &[u8]) -> Result<&'a [u8], AllocError>
        ensures { IfOk result (λ kept. kept.now ≡ text.now) }
    {
        match text {
            // So are nearly all signs, and most names and numbers.
            [byte @ b' '..=b'~'] => Ok(character(*byte)),
            _ => self.keep_longer(text),
        }
    }

    // Keeps a text, which needn't be a single character.
    fn keep_longer(&mut self, text: &[u8]) -> Result<&'a [u8], AllocError>
        ensures { IfOk result (λ kept. kept.now ≡ text.now) }
    {
        let row = row_of(text);
        if let Some(known) = self.known.get(row) {
            let known = *known;
            if known == text {
                return Ok(known);
            }
        }
        let kept = copy(self.arena, text)?;
        self.put(row, kept)?;
        Ok(kept)
    }

    // Makes a text known.
    fn put(&mut self, row: usize, text: &'a [u8]) -> Result<(), AllocError> {
        if self.known.is_empty() {
            self.known.resize(ROWS, b"".as_slice())?;
        }
        if let Some(place) = self.known.get_mut(row) {
            *place = text;
        }
        Ok(())
    }
}

// The text of a printable character.
fn character(byte: u8) -> &'static [u8]
    requires { (32 ≤ byte) × (byte ≤ 126) }
    ensures { result.now ≡ byte ∷ [] }
{
    let characters = PRINTABLE;
    let place = usize::from(byte - b' ');
    &characters[place..place + 1]
}

// A copy of a text.
fn copy<'a>(arena: &'a Bump, text: &[u8]) -> Result<&'a [u8], AllocError>
    ensures { IfOk result (λ kept. kept.now ≡ text.now) }
{
    let kept = arena.try_alloc_slice_copy(text)?;
    Ok(kept)
}

// The row of a text.
fn row_of(text: &[u8]) -> usize {
    let mut row = text.len();
    for byte in text {
        row = row.wrapping_mul(31).wrapping_add(usize::from(*byte));
    }
    row % ROWS
}
