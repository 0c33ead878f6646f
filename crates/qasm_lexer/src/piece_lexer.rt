//! The cutting of a text that comes piece by piece.

ghost use Rattle.std.specs.Prelude.{◌≡◌, ◌⊎◌, ◌+◌, ◌^◌, ◌<◌, ◌≤◌, ◌++◌, [], ℕ, List, length, map, None, Some, Err, OnOk, OnErr, IfOk, IfErr, IsErrAnd, MatchResult, alloc_error};
ghost use Rattle.qasm_lexer.specs.declared.errors.LexError.TheVariants.{BadByte, NoMemory};
ghost use Rattle.qasm_lexer.specs.Tokens.{Lexeme, lexemes, IsCut, IsBadByte, IsBegun};
ghost use Rattle.qasm_lexer.specs.Internal.Moved.{moved};
ghost use Rattle.qasm_lexer.specs.Taken.{AreLines, HasBadLine, HasTaken, HasFailed};
ghost use Rattle.qasm_lexer.specs.Internal.UnderWay.{IsUnderWay};

use crate::errors::LexError;
use crate::lexer::lex_further;
use crate::lines::whole_lines;
use crate::token::Token;
use crate::token_list::TokenList;
use std::alloc::{AllocError, Global};
use zx_io::Pieces;

// How many tokens are cut off a line at once.
const BATCH: usize = 4096;

/// Cuts a text that comes piece by piece. However it comes, the tokens are those of the whole text.
///
/// The last line is kept until it is over. Once a place was found where no piece begins, what follows is passed over.
/// Once there was no memory, each call answers so.
#[derive(Drop)]
pub struct PieceLexer {
    // The tokens of the lines before the last one.
    list: TokenList,
    // The last line so far, and its place.
    line: Vec<u8>,
    place: usize,
    // What has failed.
    fault: Option<LexError>,
}

impl PieceLexer {
    /// The lexer before any piece.
    pub fn new(alloc: Global) -> PieceLexer
        ensures { HasTaken result [] }
    {
        PieceLexer {
            list: TokenList::new(alloc),
            line: Vec::new(alloc),
            place: 0,
            fault: None,
        }
    }

    /// The tokens of all bytes that came.
    ///
    /// # Errors
    ///
    /// `BadByte` with the lowest place at which no token, white space or comment begins, where there is one; and
    /// `NoMemory` where memory runs out, or has before.
    pub fn finish(self) -> Result<TokenList, LexError>
        // The bytes are cut into these tokens.
        ensures found { (bytes : List ℕ) → HasTaken self bytes
            → IfOk result (λ tokens. IsCut 0 bytes tokens) }
        // Tokens that they can be cut into are given, unless memory runs out.
        ensures only { (bytes : List ℕ) (tokens : List Lexeme)
            → HasTaken self bytes → IsCut 0 bytes tokens
            → MatchResult result (λ given. given ≡ tokens) (λ error. error ≡ NoMemory) }
        // A bad byte stands where it is told,
        ensures bad_byte { (bytes : List ℕ) (at : ℕ)
            → HasTaken self bytes
            → IfErr result (λ error. error ≡ BadByte at → IsBadByte bytes at) }
        // and where there is one, it is told, unless memory runs out.
        ensures bad_byte_only { (bytes : List ℕ) (at : ℕ)
            → HasTaken self bytes → IsBadByte bytes at
            → IsErrAnd result (λ error. (error ≡ BadByte at) ⊎ (error ≡ NoMemory)) }
        ensures failed { HasFailed self → result ≡ Err NoMemory }
    {
        match self.fault {
            Some(fault) => Err(fault),
            None => self.finish_line(),
        }
    }

    /// The tokens of the lines that are over.
    pub fn tokens(&self) -> Result<Vec<Token<'_>>, AllocError>
        ensures { IfOk result (λ tokens. lexemes tokens.items ≡ self.now.list) }
    {
        self.list.tokens()
    }

    /// How many tokens these are.
    pub fn count(&self) -> usize
        ensures { result ≡ length self.now.list }
    {
        self.list.count()
    }

    // The tokens, where nothing has failed.
    fn finish_line(mut self) -> Result<TokenList, LexError>
        ensures cut { (bytes : List ℕ) → IsUnderWay self bytes
            → IfOk result (λ tokens. IsCut 0 bytes tokens) }
        ensures bad_byte { (bytes : List ℕ) (at : ℕ)
            → IsUnderWay self bytes
            → result ≡ Err (BadByte at) → IsBadByte bytes at }
    {
        self.end_line()?;
        Ok(self.list)
    }

    // Takes the next bytes, where nothing has failed.
    fn take_further(&mut self, piece: &[u8]) -> Result<(), LexError>
        ensures taken { (bytes : List ℕ)
            → IsUnderWay self.old bytes
            → OnOk result (IsUnderWay self.new (bytes ++ piece.now)) }
        ensures bad_byte { (bytes : List ℕ) (at : ℕ)
            → IsUnderWay self.old bytes
            → result ≡ Err (BadByte at) → HasBadLine at (bytes ++ piece.now) }
        ensures added { OnOk result (IsBegun self.old.list self.new.list) }
        ensures fault { self.new.fault ≡ self.old.fault }
    {
        let count = whole_lines(piece);
        self.take_lines(&piece[..count])?;
        self.line.extend_from_slice(&piece[count..])?;
        Ok(())
    }

    // Takes bytes with which the last line is over, or none.
    fn take_lines(&mut self, lines: &[u8]) -> Result<(), LexError>
        requires { AreLines lines.now }
        ensures taken { (bytes : List ℕ) → IsUnderWay self.old bytes
            → OnOk result (IsUnderWay self.new (bytes ++ lines.now)) }
        ensures bad_byte { (bytes : List ℕ) (at : ℕ) → IsUnderWay self.old bytes
            → result ≡ Err (BadByte at) → HasBadLine at (bytes ++ lines.now) }
        ensures added { OnOk result (IsBegun self.old.list self.new.list) }
        ensures fault { self.new.fault ≡ self.old.fault }
    {
        if lines.is_empty() {
            return Ok(());
        }
        self.line.extend_from_slice(lines)?;
        self.end_line()?;
        Ok(())
    }

    // Cuts the last line, which is over.
    fn end_line(&mut self) -> Result<(), LexError>
        ensures cut { (bytes : List ℕ)
            → IsUnderWay self.old bytes
            → OnOk result (IsCut 0 bytes self.new.list × (self.new.place ≡ length bytes)) }
        ensures line { OnOk result (self.new.line.items ≡ []) }
        ensures bad_byte { (bytes : List ℕ) (at : ℕ)
            → IsUnderWay self.old bytes
            → result ≡ Err (BadByte at) → IsBadByte bytes at }
        ensures added { OnOk result (IsBegun self.old.list self.new.list) }
        ensures fault { self.new.fault ≡ self.old.fault }
    {
        let Some(end) = self.place.checked_add(self.line.len()) else {
            return Err(LexError::NoMemory);
        };
        add_tokens(&mut self.list, &self.line, self.place)?;
        self.place = end;
        self.line.clear();
        Ok(())
    }
}

impl Pieces for PieceLexer {
    ghost stands_for = { HasTaken };

    fn take(&mut self, piece: &[u8]) -> Result<(), AllocError>
        ensures taken { (bytes : List ℕ) → HasTaken self.old bytes
            → length bytes + length piece.now < 2 ^ 64
            → OnOk result (HasTaken self.new (bytes ++ piece.now)) }
        ensures added { self.new.fault ≡ None → IsBegun self.old.list self.new.list }
        // Once there was no memory, that is answered from then on.
        ensures failed { OnErr result (HasFailed self.new) }
        ensures stays { HasFailed self.old → (result ≡ Err alloc_error) × HasFailed self.new }
    {
        match self.fault {
            None => match self.take_further(piece) {
                Ok(()) => Ok(()),
                Err(LexError::BadByte { at }) => {
                    self.fault = Some(LexError::BadByte { at });
                    Ok(())
                }
                Err(LexError::NoMemory) => {
                    self.fault = Some(LexError::NoMemory);
                    Err(AllocError)
                }
            },
            Some(LexError::BadByte { .. }) => Ok(()),
            Some(LexError::NoMemory) => Err(AllocError),
        }
    }
}

// Adds the tokens of a text that stands at a place.
fn add_tokens(list: &mut TokenList, text: &[u8], place: usize) -> Result<(), LexError>
    requires { place + length text.now < 2 ^ 64 }
    ensures added { OnOk result ((tokens : List Lexeme) × IsCut 0 text.now tokens
        × (list.new ≡ list.old ++ map (moved place) tokens)) }
    ensures bad_byte { (at : ℕ) → result ≡ Err (BadByte at)
        → (there : ℕ) × IsBadByte text.now there × (at ≡ place + there) }
{
    let mut done = 0;
    while done < text.len() {
        let mut tokens = Vec::new(list.allocator());
        match lex_further(text, done, &mut tokens, BATCH) {
            Ok(end) => done = end,
            Err(LexError::BadByte { at }) => return Err(LexError::BadByte { at: place + at }),
            Err(LexError::NoMemory) => return Err(LexError::NoMemory),
        }
        list.add(&tokens, place)?;
    }
    Ok(())
}
