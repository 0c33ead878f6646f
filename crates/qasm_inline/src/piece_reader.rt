//! Reading a text that comes piece by piece.

ghost use Rattle.std.specs.Prelude.{◌≡◌, ◌+◌, ◌^◌, ◌<◌, ◌++◌, List, [], ℕ, length, true, None, Some, Ok, Err, IfSome, IfNone, OnOk, OnErr, alloc_error};
ghost use Rattle.qasm_lexer.specs.declared.errors.LexError.TheVariants.{BadByte};
ghost use Rattle.qasm_lexer.specs.Taken.{AreLines, HasBadLine};
ghost use Rattle.qasm_lexer.specs.Tokens.{Lexeme, IsCut, IsBadByte};
ghost use Rattle.qasm_inline.specs.PieceReadings.{CameWith, HasRead, IsReadOff};
ghost use Rattle.qasm_inline.specs.TextAnswers.{IsTextAnswer};
ghost use Rattle.qasm_inline.specs.Internal.Readings.{KeepsTokens};

use crate::error::TextError;
use crate::reading::Reader;
use crate::words::Words;
use bumpalo::Bump;
use qasm_lexer::{LexError, whole_lines};
use std::alloc::{AllocError, Global};
use zx_gates::Elementary;
use zx_io::Pieces;

/// Reads a text that comes piece by piece. It keeps the lines that aren't read yet, the part that isn't over, and what the
/// circuit and its names are so far. The texts of names and numbers stand in an arena.
///
/// Once there was no memory, each call answers so.
#[derive(Drop)]
pub struct PieceReader<'a> {
    alloc: Global,
    // The lines that aren't read yet, the last of which needn't be over, and the place of their first byte.
    unread: Vec<u8>,
    place: usize,
    words: Words<'a>,
    reader: Reader<'a>,
    // The place of the bad byte, once one was found. What comes then is passed over.
    bad: Option<usize>,
    failed: bool,
}

impl<'a> PieceReader<'a> {
    /// The reader before any piece.
    pub fn new(alloc: Global, arena: &'a Bump) -> PieceReader<'a>
        ensures { HasRead result [] }
    {
        PieceReader {
            alloc,
            unread: Vec::new(alloc),
            place: 0,
            words: Words::new(alloc, arena),
            reader: Reader::new(alloc),
            bad: None,
            failed: false,
        }
    }

    /// The circuit that the whole text means, or the text's first fault.
    ///
    /// # Errors
    ///
    /// `BadByte`, `TooDeep`, `Syntax` and `Wrong` with the text's first fault, in this order: where the text has none of
    /// the kinds before. `NoMemory` where memory runs out, or has before.
    pub fn finish(self) -> Result<Elementary, TextError>
        ensures answers { (text : List ℕ) → HasRead self.entry text → IsTextAnswer text result }
        ensures failed { self.entry.failed ≡ true → result ≡ Err TextError.NoMemory }
    {
        match self.known_fault() {
            Some(error) => Err(error),
            None => self.last_answer(),
        }
    }

    // What is answered whatever the last lines are: that memory ran out, or there was a bad byte before.
    fn known_fault(&self) -> Option<TextError>
        ensures some { IfSome result (λ error. (text : List ℕ) → HasRead self.now text
            → IsTextAnswer text (Err error)) }
        ensures none { IfNone result ((text : List ℕ) → HasRead self.now text
            → IsReadOff self.now text) }
        ensures failed { self.now.failed ≡ true → result ≡ Some TextError.NoMemory }
    {
        if self.failed {
            return Some(TextError::NoMemory);
        }
        match self.bad {
            Some(at) => Some(TextError::BadByte { at }),
            None => None,
        }
    }

    // What is answered where memory hasn't run out, and no bad byte was found before.
    fn last_answer(mut self) -> Result<Elementary, TextError>
        ensures { (text : List ℕ) → IsReadOff self.entry text → IsTextAnswer text result }
    {
        let told = self.read_on();
        let PieceReader {
            unread,
            words,
            reader,
            ..
        } = self;
        // The circuit takes their place.
        drop(unread);
        drop(words);
        reader.answer(told)
    }

    // Takes the next bytes, where memory hasn't run out. Behind a bad byte they are passed over.
    fn take_on(&mut self, piece: &[u8]) -> Result<(), AllocError>
        ensures taken { (bytes : List ℕ) → CameWith self.old.bad self.old bytes
            → OnOk result (CameWith self.new.bad self.new (bytes ++ piece.now)) }
        ensures failed { self.new.failed ≡ self.old.failed }
    {
        match self.bad {
            Some(_) => Ok(()),
            None => match self.take_further(piece) {
                Ok(()) => Ok(()),
                Err(LexError::BadByte { at }) => {
                    self.bad = Some(at);
                    Ok(())
                }
                Err(LexError::NoMemory) => Err(AllocError),
            },
        }
    }

    // Takes the next bytes, where there was no bad byte before.
    fn take_further(&mut self, piece: &[u8]) -> Result<(), LexError>
        ensures taken { (bytes : List ℕ) → IsReadOff self.old bytes
            → OnOk result (IsReadOff self.new (bytes ++ piece.now)) }
        ensures bad_byte { (bytes : List ℕ) (at : ℕ) → IsReadOff self.old bytes
            → result ≡ Err (BadByte at) → HasBadLine at (bytes ++ piece.now) }
        ensures bad { self.new.bad ≡ self.old.bad }
        ensures failed { self.new.failed ≡ self.old.failed }
    {
        let count = whole_lines(piece);
        self.take_lines(&piece[..count])?;
        self.unread.extend_from_slice(&piece[count..])?;
        Ok(())
    }

    // Takes bytes with which a line is over, or none. Lines are read once they are worth while.
    fn take_lines(&mut self, lines: &[u8]) -> Result<(), LexError>
        requires { AreLines lines.now }
        ensures taken { (bytes : List ℕ) → IsReadOff self.old bytes
            → OnOk result (IsReadOff self.new (bytes ++ lines.now)) }
        ensures bad_byte { (bytes : List ℕ) (at : ℕ) → IsReadOff self.old bytes
            → result ≡ Err (BadByte at) → HasBadLine at (bytes ++ lines.now) }
        ensures bad { self.new.bad ≡ self.old.bad }
        ensures failed { self.new.failed ≡ self.old.failed }
    {
        self.unread.extend_from_slice(lines)?;
        if lines.is_empty() || self.unread.len() < self.reader.enough() {
            return Ok(());
        }
        self.read_on()?;
        Ok(())
    }

    // Reads all bytes that aren't read yet.
    fn read_on(&mut self) -> Result<(), LexError>
        ensures read { (bytes : List ℕ) → IsReadOff self.old bytes
            → OnOk result ((tokens : List Lexeme) × IsCut 0 bytes tokens
            × KeepsTokens tokens self.new.reader × (self.new.place ≡ length bytes)) }
        ensures unread { OnOk result (self.new.unread.items ≡ []) }
        ensures bad_byte { (bytes : List ℕ) (at : ℕ) → IsReadOff self.old bytes
            → result ≡ Err (BadByte at) → IsBadByte bytes at }
        ensures bad { self.new.bad ≡ self.old.bad }
        ensures failed { self.new.failed ≡ self.old.failed }
    {
        let Some(end) = self.place.checked_add(self.unread.len()) else {
            return Err(LexError::NoMemory);
        };
        self.reader
            .read_text(self.alloc, &mut self.words, &self.unread, self.place)?;
        self.place = end;
        self.unread.clear();
        Ok(())
    }
}

impl<'a> Pieces for PieceReader<'a> {
    ghost stands_for = { HasRead };

    fn take(&mut self, piece: &[u8]) -> Result<(), AllocError>
        ensures taken { (bytes : List ℕ) → HasRead self.old bytes
            → length bytes + length piece.now < 2 ^ 64
            → OnOk result (HasRead self.new (bytes ++ piece.now)) }
        // Once there was no memory, that is answered from then on.
        ensures failed { OnErr result (self.new.failed ≡ true) }
        ensures stays { self.old.failed ≡ true
            → (result ≡ Err alloc_error) × (self.new.failed ≡ true) }
    {
        if self.failed {
            return Err(AllocError);
        }
        match self.take_on(piece) {
            Ok(()) => Ok(()),
            Err(AllocError) => {
                self.failed = true;
                Err(AllocError)
            }
        }
    }
}
