//! Statements that are spelled plainly: `name q[i];` and `name q[i],q[j];`, with white space before words alone.

ghost use Rattle.std.specs.Prelude.{◌≡◌, ◌∷◌, ◌<◌, ◌≤◌, IfSome, Some, codes, length, map, true};
ghost use Rattle.std.specs.Str.{bytes_eq};
ghost use Rattle.std.specs.Char.{is_ascii_digit};
ghost use Rattle.std.specs.List.{list_all, prefix_len};
ghost use Rattle.std.specs.Option.{option_to_list};
ghost use Rattle.qasm_lexer.specs.Forms.{is_natural, is_word_byte};
ghost use Rattle.qasm_reader.specs.Grammar.{IsArgument, IsIdentifier, IsIndex, IsName};
ghost use Rattle.qasm_reader.specs.Views.{callee, operand};
ghost use Rattle.qasm_inline.specs.Internal.Spellings.{AreMore, AreNone, IsBehindSpace, IsPlain, IsSpelled, begins_keyword, is_free, is_short_keyword};

use qasm_reader::{Argument, GateName};

// A statement of that form, and the text behind it.
#[derive(Clone, Copy)]
pub(crate) struct Plain<'t> {
    pub(crate) gate: GateName<'t>,
    pub(crate) first: Argument<'t>,
    pub(crate) second: Option<Argument<'t>>,
    pub(crate) rest: &'t [u8],
}

// The plain statement at the start of a text, if one stands there.
#[inline(always)]
pub(crate) fn first_plain(text: &[u8]) -> Option<Plain<'_>>
    ensures plain { IfSome result (λ plain. IsPlain text.now plain) }
    ensures shorter { IfSome result (λ plain. length plain.rest.now < length text.now) }
{
    let (gate, rest) = gate_name(behind_spaces(text))?;
    let (first, rest) = element(rest)?;
    let (second, rest) = other_element(rest)?;
    let rest = behind_byte(rest, b';')?;
    Some(Plain {
        gate,
        first,
        second,
        rest,
    })
}

// The name of a gate at the start, but for `U`, and what follows.
#[inline(always)]
fn gate_name(text: &[u8]) -> Option<(GateName<'_>, &[u8])>
    ensures { IfSome result (λ r. IsSpelled (IsName (callee r.0)) text.now r.1.now) }
{
    let count = word_bytes(text);
    let word = &text[..count];
    if is_free(word) {
        Some((GateName::Declared(word), &text[count..]))
    } else if is_cx(word) {
        Some((GateName::Cx, &text[count..]))
    } else {
        None
    }
}

// A comma and an element at the start, and what follows; nothing where there is no comma.
#[inline(always)]
fn other_element(text: &[u8]) -> Option<(Option<Argument<'_>>, &[u8])>
    ensures { IfSome result (λ r. IsSpelled (AreMore (map operand (option_to_list r.0))) text.now r.1.now) }
{
    match behind_byte(text, b',') {
        None => Some((None, text)),
        Some(rest) => {
            let (argument, rest) = element(rest)?;
            Some((Some(argument), rest))
        }
    }
}

// An element of a register at the start, behind white space, and what follows.
#[inline(always)]
fn element(text: &[u8]) -> Option<(Argument<'_>, &[u8])>
    ensures { IfSome result (λ r. IsSpelled (IsArgument (operand r.0)) text.now r.1.now) }
{
    let (register, rest) = identifier(behind_spaces(text))?;
    let (index, rest) = index(rest)?;
    Some((
        Argument {
            register,
            index: Some(index),
        },
        rest,
    ))
}

// A whole number in brackets at the start, and what follows.
#[inline(always)]
fn index(text: &[u8]) -> Option<(&[u8], &[u8])>
    ensures { IfSome result (λ r. IsSpelled (IsIndex (Some r.0.now)) text.now r.1.now) }
{
    let inside = behind_byte(text, b'[')?;
    let count = digits(inside);
    let index = &inside[..count];
    let rest = behind_byte(&inside[count..], b']')?;
    if is_natural(index) {
        Some((index, rest))
    } else {
        None
    }
}

// A word at the start that is surely an identifier, and what follows.
#[inline(always)]
fn identifier(text: &[u8]) -> Option<(&[u8], &[u8])>
    ensures { IfSome result (λ r. IsSpelled (IsIdentifier r.0.now) text.now r.1.now) }
{
    let count = word_bytes(text);
    let word = &text[..count];
    if is_free(word) {
        Some((word, &text[count..]))
    } else {
        None
    }
}

// What follows white space at the start.
#[inline(always)]
fn behind_spaces(text: &[u8]) -> &[u8]
    ensures { IsSpelled AreNone text.now result.now }
{
    let mut rest = text;
    while let Some(behind) = behind_space(rest) {
        rest = behind;
    }
    rest
}

// What follows a byte of white space at the start.
#[inline(always)]
fn behind_space(text: &[u8]) -> Option<&[u8]>
    ensures { IfSome result (λ rest. IsBehindSpace text.now rest.now) }
{
    let (first, rest) = text.split_first()?;
    match *first {
        b' ' | b'\t' | b'\r' | b'\n' => Some(rest),
        _ => None,
    }
}

// What follows this byte at the start.
#[inline(always)]
fn behind_byte(text: &[u8], byte: u8) -> Option<&[u8]>
    ensures { IfSome result (λ rest. text.now ≡ byte ∷ rest.now) }
{
    let (first, rest) = text.split_first()?;
    if *first == byte { Some(rest) } else { None }
}

// How many letters, digits and `_` stand at the start.
#[inline(always)]
fn word_bytes(text: &[u8]) -> usize
    ensures count { result ≡ prefix_len is_word_byte text.now }
    ensures within { result ≤ length text.now }
{
    text.iter().take_while(|b| is_word_byte(**b)).count()
}

// How many digits stand at the start.
#[inline(always)]
fn digits(text: &[u8]) -> usize
    ensures count { result ≡ prefix_len is_ascii_digit text.now }
    ensures within { result ≤ length text.now }
{
    text.iter().take_while(|b| is_digit(**b)).count()
}

fn is_digit(byte: u8) -> bool
    ensures { result ≡ is_ascii_digit byte }
{
    byte.is_ascii_digit()
}

fn is_word_byte(byte: u8) -> bool
    ensures { result ≡ is_word_byte byte }
{
    byte.is_ascii_alphabetic() || is_digit(byte) || byte == b'_'
}

// Whether digits are a whole number: some, without a zero before others.
fn is_natural(digits: &[u8]) -> bool
    ensures { list_all is_ascii_digit digits.now ≡ true → result ≡ is_natural digits.now }
{
    match digits {
        [] => false,
        [_] => true,
        [first, ..] => *first != b'0',
    }
}

fn is_cx(word: &[u8]) -> bool
    ensures { result ≡ bytes_eq word.now (codes "CX") }
{
    word == b"CX".as_slice()
}

// Whether letters, digits and `_` begin with a small letter and with no more letters of a keyword than that.
fn is_free(word: &[u8]) -> bool
    ensures { result ≡ is_free word.now }
{
    match word {
        [] => false,
        [only] => only.is_ascii_lowercase(),
        [first, second] => first.is_ascii_lowercase() && !is_short_keyword(*first, *second),
        [first, second, ..] => first.is_ascii_lowercase() && !begins_keyword(*first, *second),
    }
}

// Whether two letters are a keyword.
fn is_short_keyword(first: u8, second: u8) -> bool
    ensures { result ≡ is_short_keyword first second }
{
    match first {
        b'i' => second == b'f',
        b'l' => second == b'n',
        b'p' => second == b'i',
        _ => false,
    }
}

// Whether two letters begin a longer keyword.
fn begins_keyword(first: u8, second: u8) -> bool
    ensures { result ≡ begins_keyword first second }
{
    match first {
        b'b' | b'g' | b't' => second == b'a',
        b'c' => second == b'r' || second == b'o',
        b'e' => second == b'x',
        b'i' => second == b'n',
        b'm' | b'r' => second == b'e',
        b'o' => second == b'p',
        b'p' => second == b'i',
        b'q' => second == b'r',
        b's' => second == b'i' || second == b'q',
        _ => false,
    }
}
