//! Tokens that are kept without the text that they come from.

ghost use Rattle.std.specs.Prelude.{◌≡◌, ◌+◌, ◌^◌, ◌<◌, ◌∷◌, [], ◌++◌, ℕ, List, length, map, IfOk, OnOk};
ghost use Rattle.std.specs.List.{concat, All};
ghost use Rattle.qasm_lexer.specs.Tokens.{Lexeme, lexemes};
ghost use Rattle.qasm_lexer.specs.TokenLists.{texts};
ghost use Rattle.qasm_lexer.specs.Internal.Moved.{moved};
ghost use Rattle.qasm_lexer.specs.Internal.Entries.{listed, count_of};

use crate::token::{Token, TokenKind};
use std::alloc::{AllocError, Global};
use std::marker::Model;

// A token without its text.
#[derive(Clone, Copy)]
struct Entry {
    kind: TokenKind,
    // How many bytes its text has.
    count: usize,
    place: usize,
}

/// Tokens with their texts, which are kept one behind the other. White space and comments aren't kept.
#[derive(Drop)]
pub struct TokenList {
    entries: Vec<Entry>,
    pool: Vec<u8>,
}

// A clause sees the tokens.
impl Model for TokenList {
    ghost Value = { List Lexeme };

    ghost view = { λ l. listed l.pool.items l.entries.items };

    ghost invariant = { λ l. count_of l.entries.items ≡ length l.pool.items };
}

impl TokenList {
    // No tokens.
    pub(crate) fn new(alloc: Global) -> TokenList
        ensures { result ≡ [] }
    {
        TokenList {
            entries: Vec::new(alloc),
            pool: Vec::new(alloc),
        }
    }

    /// The tokens, in their order.
    pub fn tokens(&self) -> Result<Vec<Token<'_>>, AllocError>
        ensures { IfOk result (λ tokens. lexemes tokens.items ≡ self.now) }
    {
        let mut tokens = Vec::with_capacity(*self.pool.allocator(), self.entries.len())?;
        let mut start = 0;
        for entry in &self.entries {
            tokens.push(Token {
                kind: entry.kind,
                slice: &self.pool[start..start + entry.count],
                place: entry.place,
            })?;
            start += entry.count;
        }
        Ok(tokens)
    }

    /// How many tokens there are.
    pub fn count(&self) -> usize
        ensures { result ≡ length self.now }
    {
        self.entries.len()
    }

    /// All bytes that are kept: the texts of the tokens, one behind the other.
    pub fn pool(&self) -> &[u8]
        ensures { result.now ≡ concat (texts self.now) }
    {
        self.pool.as_slice()
    }

    // What gives the list its memory.
    pub(crate) fn allocator(&self) -> Global {
        *self.pool.allocator()
    }

    // Adds tokens of a text that stands so many bytes further on.
    pub(crate) fn add(&mut self, tokens: &[Token<'_>], from: usize) -> Result<(), AllocError>
        requires { All (λ token. from + token.place < 2 ^ 64) tokens.now }
        ensures { OnOk result (self.new ≡ self.old ++ map (moved from) (lexemes tokens.now)) }
    {
        for token in tokens {
            self.push(token.kind, token.slice, from + token.place)?;
        }
        Ok(())
    }

    // Adds one token.
    fn push(&mut self, kind: TokenKind, text: &[u8], place: usize) -> Result<(), AllocError>
        ensures { OnOk result (self.new
            ≡ self.old ++ record { kind = kind; text = text.now; place = place } ∷ []) }
    {
        self.entries.reserve(1)?;
        self.pool.extend_from_slice(text)?;
        self.entries.push(Entry {
            kind,
            count: text.len(),
            place,
        })?;
        Ok(())
    }
}
