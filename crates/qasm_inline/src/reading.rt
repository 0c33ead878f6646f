//! Reading: from a text to the circuit that it means, in one pass over the text.

ghost use Rattle.std.specs.Prelude.{◌≡◌, ◌+◌, ◌^◌, ◌<◌, ◌≤◌, ◌++◌, List, [], ℕ, length, map, drop, true, false, None, Some, Err, IfOk, IfSome, IfNone, OnOk};
ghost use Rattle.std.specs.List.{All};
ghost use Rattle.std.specs.Borrow.{Bor};
ghost use Rattle.qasm_lexer.specs.declared.errors.LexError.TheVariants.{BadByte};
ghost use Rattle.qasm_lexer.specs.declared.token.Token.{Token};
ghost use Rattle.qasm_lexer.specs.Internal.Moved.{moved};
ghost use Rattle.qasm_lexer.specs.Tokens.{Lexeme, lexemes, IsCut, IsCutAt, IsBadByte};
ghost use Rattle.qasm_reader.specs.Parts.{IsFirstPart};
ghost use Rattle.qasm_reader.specs.Syntax.{Placed};
ghost use Rattle.qasm_scope.specs.Texts.{IsProgramText};
ghost use Rattle.qasm_unroll.specs.Circuits.{HasTaken};
ghost use Rattle.qasm_inline.specs.TextAnswers.{IsTextAnswer};
ghost use Rattle.qasm_inline.specs.Internal.Readings.{AreTaken, IsReadSoFar, IsNextOf, IsTakenNext, IsTextFault, KeepsTokens, ReadsOn, open_place};
ghost use Rattle.qasm_inline.specs.Internal.Spellings.{IsBetween, IsReadPlain, IsReadTo, ReadsApplication, application_of};

use crate::error::TextError;
use crate::plain::{Plain, first_plain};
use crate::words::Words;
use bumpalo::Bump;
use qasm_lexer::{LexError, Token, TokenKind, lex_further};
use qasm_reader::{BodyPart, Depth, Part, has_end, next_in_body, next_part};
use qasm_unroll::{Circuit, InlineError, OpenGate};
use std::alloc::{AllocError, Global};
use std::mem;
use zx_gates::Elementary;

// How many tokens are cut off a text at once.
const BATCH: usize = 4096;

// How many more than were asked for are cut off at most, so that they end where a statement does.
const MOST_MORE: usize = 256;

/// The circuit that a text means, or the text's first fault. Tokens are cut a few thousand at a time, or as many as there
/// are of the part that isn't over, where a gate's declaration is its heading and the statements of its body, and a part
/// goes on up to `;`, `{` or `}`. Behind a syntax fault none are kept.
///
/// # Errors
///
/// `BadByte`, `TooDeep`, `Syntax` and `Wrong` with the text's first fault, in this order: where the text has none of
/// the kinds before. `NoMemory` where memory runs out.
pub fn read(alloc: Global, text: &[u8]) -> Result<Elementary, TextError>
    ensures answers { IsTextAnswer text.now result }
{
    let arena = Bump::new(alloc);
    let mut words = Words::new(alloc, &arena);
    let mut reader = Reader::new(alloc);
    let told = reader.read_text(alloc, &mut words, text, 0);
    reader.answer(told)
}

// The reader of a text, which goes through it batch by batch.
#[derive(Drop)]
pub(crate) struct Reader<'a> {
    // The circuit, which has taken in what was read.
    circuit: Circuit<'a>,
    // The gate whose declaration isn't over.
    gate: Option<OpenGate<'a>>,
    // The tokens behind that, which no part begins.
    tokens: Vec<Token<'a>>,
    // How deep parentheses are nested behind these.
    depth: Depth,
    // The place of the syntax fault, once there is one whatever follows. Then no tokens are kept.
    fault: Option<usize>,
}

impl<'a> Reader<'a> {
    // The reader before the text.
    pub(crate) fn new(alloc: Global) -> Reader<'a>
        ensures { KeepsTokens [] result }
    {
        Reader {
            circuit: Circuit::new(alloc),
            gate: None,
            tokens: Vec::new(alloc),
            depth: Depth::start(),
            fault: None,
        }
    }

    // Reads a text that comes next, batch by batch. It stands so many bytes further on.
    pub(crate) fn read_text(
        &mut self,
        alloc: Global,
        words: &mut Words<'a>,
        text: &[u8],
        from: usize,
    ) -> Result<(), LexError>
        requires { from + length text.now < 2 ^ 64 }
        ensures read { OnOk result ((tokens : List Lexeme) × IsCut 0 text.now tokens
            × ReadsOn self.old (map (moved from) tokens) self.new) }
        ensures bad_byte { (at : ℕ) → result ≡ Err (LexError.BadByte at)
            → (there : ℕ) × IsBadByte text.now there × (at ≡ from + there) }
    {
        let mut done = self.read_plain(text, 0)?;
        let mut batch = 1;
        let mut tokens = Vec::new(alloc);
        while done < text.len() {
            tokens.clear();
            let end = match lex_statements(text, done, &mut tokens, batch) {
                Ok(end) => end,
                Err(LexError::BadByte { at }) => return Err(LexError::BadByte { at: from + at }),
                Err(LexError::NoMemory) => return Err(LexError::NoMemory),
            };
            self.read_tokens(alloc, words, &tokens, from)?;
            done = self.read_plain(text, end)?;
            batch = self.next_batch(batch, end < done);
        }
        Ok(())
    }

    // How many tokens to cut next, by how many were cut before, and whether plain statements stood behind these.
    fn next_batch(&self, batch: usize, plain: bool) -> usize
        requires { 0 < batch }
        ensures { 0 < result }
    {
        if plain {
            1
        } else {
            batch.saturating_mul(2).min(self.enough())
        }
    }

    // Reads the plain statements that a text has from a place on, where no part is open, and gives the place behind
    // them.
    fn read_plain(&mut self, text: &[u8], place: usize) -> Result<usize, AllocError>
        requires { place ≤ length text.now }
        ensures read { IfOk result (λ end. (from : ℕ)
            → IsReadTo self.old text.now place (drop end text.now) from self.new) }
        ensures within { IfOk result (λ end. (place ≤ end) × (end ≤ length text.now)) }
    {
        if !self.is_between() {
            return Ok(place);
        }
        let mut rest = &text[place..];
        while let Some(behind) = self.read_next_plain(rest)? {
            rest = behind;
        }
        Ok(text.len() - rest.len())
    }

    // Reads the plain statement that a text begins with, where its names were applied before and nothing is wrong with
    // it, and gives the text behind it.
    fn read_next_plain<'t>(&mut self, text: &'t [u8]) -> Result<Option<&'t [u8]>, AllocError>
        requires { IsBetween self.old }
        ensures some { IfOk result (λ read. IfSome read (λ rest. IsReadPlain self.old text.now rest.now self.new)) }
        ensures none { IfOk result (λ read. IfNone read (self.new ≡ self.old)) }
    {
        let Some(next) = first_plain(text) else {
            return Ok(None);
        };
        if self.take_plain(&next)? {
            Ok(Some(next.rest))
        } else {
            Ok(None)
        }
    }

    // Takes in a plain statement, where its names were applied before and nothing is wrong with it; tells whether it
    // did.
    fn take_plain(&mut self, plain: &Plain<'_>) -> Result<bool, AllocError>
        requires { IsBetween self.old }
        ensures taken { IfOk result (λ taken. taken ≡ true
            → ReadsApplication self.old (application_of plain.now) self.new) }
        ensures left { IfOk result (λ taken. taken ≡ false → self.new ≡ self.old) }
        ensures between { OnOk result (IsBetween self.new) }
    {
        match plain.second {
            None => self.circuit.take_plain(&plain.gate, &[plain.first]),
            Some(second) => self.circuit.take_plain(&plain.gate, &[plain.first, second]),
        }
    }

    // Whether no part is open, and there was no fault of the grammar.
    fn is_between(&self) -> bool
        ensures { result ≡ true → IsBetween self.now }
    {
        let shallow = match self.depth {
            Depth::Open(0) => true,
            _ => false,
        };
        shallow && self.tokens.is_empty() && self.gate.is_none() && self.fault.is_none()
    }

    // Reads tokens that come next, of a text that stands so many bytes further on, and keeps what is needed of them.
    fn read_tokens(
        &mut self,
        alloc: Global,
        words: &mut Words<'a>,
        tokens: &[Token<'_>],
        from: usize,
    ) -> Result<(), AllocError>
        requires { All (λ token. from + token.place < 2 ^ 64) tokens.now }
        ensures { OnOk result (ReadsOn self.old (map (moved from) (lexemes tokens.now)) self.new) }
    {
        let mut kept = mem::replace(&mut self.tokens, Vec::new(alloc));
        let known = kept.len();
        words.keep_all(tokens, from, &mut kept)?;
        let depth = self.depth.after(&kept[known..]);
        let fault = self.read_kept(alloc, &mut kept)?;
        self.tokens = kept;
        self.depth = depth;
        self.fault = fault;
        Ok(())
    }

    // With how many further tokens, or as many bytes, it is worth while to read on.
    pub(crate) fn enough(&self) -> usize
        ensures { 0 < result }
    {
        self.tokens.len().max(BATCH)
    }

    // Reads on in the tokens that are kept, of which the last ones are new, and leaves those that are still needed. The
    // place of the syntax fault is given, if there is one whatever follows.
    fn read_kept(
        &mut self,
        alloc: Global,
        kept: &mut Vec<Token<'a>>,
    ) -> Result<Option<usize>, AllocError>
        ensures { (all known more : List Lexeme) → lexemes kept.old.items ≡ known ++ more
            → IsReadSoFar self.old.fault all self.old.gate self.old.circuit known → IfOk result (λ fault.
            IsReadSoFar fault (all ++ more) self.new.gate self.new.circuit (lexemes kept.new.items)) }
    {
        match self.fault {
            Some(at) => {
                kept.clear();
                Ok(Some(at))
            }
            None => {
                self.take_parts(alloc, kept)?;
                Ok(self.certain_fault(kept))
            }
        }
    }

    // Takes in the parts that the tokens begin with, and leaves the tokens behind them.
    fn take_parts(&mut self, alloc: Global, tokens: &mut Vec<Token<'a>>) -> Result<(), AllocError>
        ensures { (all : List Lexeme)
            → AreTaken all self.old.gate self.old.circuit (lexemes tokens.old.items)
            → OnOk result (IsReadSoFar None all self.new.gate self.new.circuit (lexemes tokens.new.items)) }
    {
        let mut taken = 0;
        while let Some(count) = self.take_next(alloc, &tokens[taken..])? {
            taken += count;
        }
        tokens.rotate_left(taken);
        tokens.truncate(tokens.len() - taken);
        Ok(())
    }

    // Takes in the part that the tokens begin with, and tells how many tokens it has; `None` where no part begins them.
    fn take_next(
        &mut self,
        alloc: Global,
        tokens: &[Token<'a>],
    ) -> Result<Option<usize>, AllocError>
        ensures taken { (all : List Lexeme)
            → AreTaken all self.old.gate self.old.circuit (lexemes tokens.now)
            → IfOk result (λ count. IsTakenNext all count self.new tokens.now) }
        ensures some { IfOk result (λ count. IfSome count (λ n.
            (0 < n) × (n ≤ length tokens.now))) }
    {
        match self.gate.take() {
            None => self.take_next_part(alloc, tokens),
            Some(gate) => self.take_next_in_body(alloc, gate, tokens),
        }
    }

    // Takes in the part that the tokens begin with, where no gate's declaration is open.
    fn take_next_part(
        &mut self,
        alloc: Global,
        tokens: &[Token<'a>],
    ) -> Result<Option<usize>, AllocError>
        requires { self.old.gate ≡ None }
        ensures taken { (all : List Lexeme)
            → AreTaken all self.old.gate self.old.circuit (lexemes tokens.now)
            → IfOk result (λ count. IsTakenNext all count self.new tokens.now) }
        ensures some { IfOk result (λ count. IfSome count (λ n.
            (0 < n) × (n ≤ length tokens.now))) }
    {
        match next_part(alloc, tokens)? {
            Some((part, rest)) => {
                self.take_part(&part);
                Ok(Some(tokens.len() - rest.len()))
            }
            None => Ok(None),
        }
    }

    // Takes in a part of a program.
    fn take_part(&mut self, part: &Part<'a>)
        requires { self.old.gate ≡ None }
        ensures { (all ts rest : List Lexeme) → IsFirstPart part.now ts rest
            → AreTaken all self.old.gate self.old.circuit ts
            → AreTaken all self.new.gate self.new.circuit rest }
    {
        match part {
            Part::Statement(statement) => self.circuit.take(statement),
            Part::Heading { place, heading } => {
                self.gate = Some(self.circuit.begin_gate(*place, heading));
            }
        }
    }

    // Takes in what the tokens begin with, where they are inside this gate's body.
    fn take_next_in_body(
        &mut self,
        alloc: Global,
        gate: OpenGate<'a>,
        tokens: &[Token<'a>],
    ) -> Result<Option<usize>, AllocError>
        requires { self.old.gate ≡ None }
        ensures taken { (all : List Lexeme)
            → AreTaken all (Some gate.entry) self.old.circuit (lexemes tokens.now)
            → IfOk result (λ count. IsTakenNext all count self.new tokens.now) }
        ensures some { IfOk result (λ count. IfSome count (λ n.
            (0 < n) × (n ≤ length tokens.now))) }
    {
        match next_in_body(alloc, tokens)? {
            Some((part, rest)) => {
                self.take_body_part(gate, &part);
                Ok(Some(tokens.len() - rest.len()))
            }
            None => {
                self.gate = Some(gate);
                Ok(None)
            }
        }
    }

    // Takes in a part of this gate's body.
    fn take_body_part(&mut self, mut gate: OpenGate<'a>, part: &BodyPart<'a>)
        requires { self.old.gate ≡ None }
        ensures { (all ts : List Lexeme) (rest : Bor (List Token))
            → IsNextOf gate.entry.place ts (Some (part.now, rest)) → AreTaken all (Some gate.entry) self.old.circuit ts
            → AreTaken all self.new.gate self.new.circuit (lexemes rest.now) }
    {
        match part {
            BodyPart::Statement(statement) => {
                self.circuit.take_in_gate(&mut gate, statement);
                self.gate = Some(gate);
            }
            BodyPart::End => self.circuit.end_gate(gate),
        }
    }

    // The place of the syntax fault, where these tokens are left and one of them ends a part. Then they are dropped.
    fn certain_fault(&self, tokens: &mut Vec<Token<'_>>) -> Option<usize>
        ensures { (all : List Lexeme) → IsReadSoFar None all self.now.gate self.now.circuit (lexemes tokens.old.items)
            → IsReadSoFar result all self.now.gate self.now.circuit (lexemes tokens.new.items) }
    {
        if has_end(tokens) {
            let fault = self.open_place(tokens);
            tokens.clear();
            fault
        } else {
            None
        }
    }

    // The place of what isn't over, where these tokens are left: the gate's declaration, or else the first of them.
    fn open_place(&self, tokens: &[Token<'_>]) -> Option<usize>
        ensures { result ≡ open_place self.now.gate (lexemes tokens.now) }
    {
        match &self.gate {
            Some(gate) => Some(gate.place),
            None => match tokens.first() {
                Some(first) => Some(first.place),
                None => None,
            },
        }
    }

    // What is answered where the text is over, by what its last lines were told to be.
    pub(crate) fn answer(self, told: Result<(), LexError>) -> Result<Elementary, TextError>
        ensures { (text : List ℕ) → OnOk told ((all : List Lexeme) × IsCut 0 text all × KeepsTokens all self.entry)
            → ((at : ℕ) → told ≡ Err (LexError.BadByte at) → IsBadByte text at)
            → IsTextAnswer text result }
    {
        match self.text_fault(told) {
            Some(error) => Err(error),
            None => {
                // The circuit takes their place.
                drop(self.tokens);
                finished(self.circuit)
            }
        }
    }

    // Why the text is no program, where it is over, by what its last lines were told to be.
    fn text_fault(&self, told: Result<(), LexError>) -> Option<TextError>
        ensures { (text : List ℕ) → OnOk told ((all : List Lexeme) × IsCut 0 text all × KeepsTokens all self.now)
            → ((at : ℕ) → told ≡ Err (LexError.BadByte at) → IsBadByte text at)
            → IsTextFault text self.now.circuit result }
    {
        match told {
            Ok(()) => self.grammar_fault(),
            Err(LexError::BadByte { at }) => Some(TextError::BadByte { at }),
            Err(LexError::NoMemory) => Some(TextError::NoMemory),
        }
    }

    // Why the text is no program, where all of its tokens were read.
    fn grammar_fault(&self) -> Option<TextError>
        ensures { (text : List ℕ) (all : List Lexeme) → IsCut 0 text all → KeepsTokens all self.now
            → IsTextFault text self.now.circuit result }
    {
        match self.depth {
            Depth::TooDeep(at) => Some(TextError::TooDeep { at }),
            Depth::Open(_) => match self.fault.or(self.open_place(&self.tokens)) {
                Some(at) => Some(TextError::Syntax { at }),
                None => None,
            },
        }
    }
}

// Cuts a text further from a place on, until the list has so many tokens and the last one ends a statement, or has a
// good many more, or the text is over.
fn lex_statements<'t>(
    text: &'t [u8],
    place: usize,
    tokens: &mut Vec<Token<'t>>,
    count: usize,
) -> Result<usize, LexError>
    requires { place ≤ length text.now }
    ensures cut { (before : List Lexeme) → IsCutAt text.now place
        (before ++ lexemes tokens.old.items)
        → IfOk result (λ end. IsCutAt text.now end (before ++ lexemes tokens.new.items)) }
    ensures within { IfOk result (λ end. end ≤ length text.now) }
    ensures further { IfOk result (λ end. place < length text.now → length tokens.old.items < count
        → place < end) }
    ensures bad_byte { (before : List Lexeme) (at : ℕ)
        → IsCutAt text.now place (before ++ lexemes tokens.old.items)
        → result ≡ Err (BadByte at) → IsBadByte text.now at }
{
    let mut end = lex_further(text, place, tokens, count)?;
    let most = tokens.len().saturating_add(MOST_MORE);
    while end < text.len() && tokens.len() < most && !ends_statement(tokens) {
        end = lex_further(text, end, tokens, tokens.len() + 1)?;
    }
    Ok(end)
}

// Whether a statement ends with the last token.
fn ends_statement(tokens: &[Token<'_>]) -> bool {
    match tokens.last() {
        Some(token) => token.kind == TokenKind::Semicolon || token.kind == TokenKind::RightBrace,
        None => false,
    }
}

// The circuit, or its first fault.
fn finished(circuit: Circuit<'_>) -> Result<Elementary, TextError>
    ensures { (text : List ℕ) (program : List Placed) → IsProgramText text program
        → HasTaken circuit.entry program → IsTextAnswer text result }
{
    match circuit.finish() {
        Ok(circuit) => Ok(circuit),
        Err(InlineError::Fault { cause, at }) => Err(TextError::Wrong { cause, at }),
        Err(InlineError::NoMemory) => Err(TextError::NoMemory),
    }
}
