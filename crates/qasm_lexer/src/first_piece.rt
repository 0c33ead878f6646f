//! What stands first in a text.

ghost use Rattle.std.specs.Prelude.{◌≡◌, ◌+◌, ◌<◌, ◌≤◌, ◌∷◌, Some, length, IfSome};
ghost use Rattle.std.specs.List.{prefix_len};
ghost use Rattle.std.specs.Char.{is_ascii_digit, is_ascii_alphabetic};
ghost use Rattle.qasm_lexer.specs.Forms.{is_word_byte, is_no_feed};
ghost use Rattle.qasm_lexer.specs.Internal.FirstPiece.{word_piece, sign_len, exponent_len, fraction_len, number_piece, point_piece, is_inside, text_piece, plain_piece, sign_piece, first_piece};

use crate::tables::{long_sign, short_sign, word_kind};
use crate::token::TokenKind;

// The sort of a first piece.
#[derive(Clone, Copy)]
pub(crate) enum Sort {
    // White space or a comment.
    Blank,
    // Digits that no point follows: one natural, or several where the first digit is 0.
    Digits,
    // Another token.
    Token(TokenKind),
}

// The sort and the length of what stands first in a text that isn't over, or `None` where nothing begins.
#[inline(always)]
pub(crate) fn first_piece(text: &[u8]) -> Option<(Sort, usize)>
    requires { 0 < length text.now }
    ensures { result ≡ first_piece text.now }
{
    match text[0] {
        b' ' | b'\t' | b'\r' | b'\n' => Some((Sort::Blank, 1)),
        b'a'..=b'z' | b'A'..=b'Z' => word_piece(text),
        b'0'..=b'9' => Some(number_piece(text)),
        b'.' => point_piece(&text[1..]),
        b'"' => text_piece(&text[1..]),
        b'/' | b'-' | b'=' => sign_piece(text),
        byte => plain_piece(byte),
    }
}

// A word at the start.
fn word_piece(text: &[u8]) -> Option<(Sort, usize)>
    ensures { result ≡ word_piece text.now }
{
    let count = word_bytes(text);
    let kind = word_kind(&text[..count])?;
    Some((Sort::Token(kind), count))
}

// How many letters, digits and `_` stand at the start.
fn word_bytes(text: &[u8]) -> usize
    ensures count { result ≡ prefix_len is_word_byte text.now }
    ensures within { result ≤ length text.now }
{
    text.iter().take_while(|b| is_word_byte(**b)).count()
}

// Digits at the start, or a real.
#[inline(always)]
fn number_piece(text: &[u8]) -> (Sort, usize)
    ensures { result ≡ number_piece text.now }
{
    let count = digits(text);
    match &text[count..] {
        [b'.', rest @ ..] => (Sort::Token(TokenKind::Real), count + 1 + fraction(rest)),
        _ => (Sort::Digits, count),
    }
}

// A real after its point, where no digit stands before that.
fn point_piece(rest: &[u8]) -> Option<(Sort, usize)>
    ensures { result ≡ point_piece rest.now }
{
    match rest.first() {
        Some(b'0'..=b'9') => Some((Sort::Token(TokenKind::Real), 1 + fraction(rest))),
        _ => None,
    }
}

// How many digits stand at the start.
fn digits(text: &[u8]) -> usize
    ensures count { result ≡ prefix_len is_ascii_digit text.now }
    ensures within { result ≤ length text.now }
{
    text.iter().take_while(|b| is_digit(**b)).count()
}

// How many bytes belong to a real after its point.
fn fraction(rest: &[u8]) -> usize
    ensures count { result ≡ fraction_len rest.now }
    ensures within { result ≤ length rest.now }
{
    let count = digits(rest);
    count + exponent(&rest[count..])
}

// How many bytes an exponent at the start has; 0 where there is none.
fn exponent(text: &[u8]) -> usize
    ensures count { result ≡ exponent_len text.now }
    ensures within { result ≤ length text.now }
{
    let [b'e' | b'E', rest @ ..] = text else {
        return 0;
    };
    let sign = sign(rest);
    let count = digits(&rest[sign..]);
    if count == 0 { 0 } else { 1 + sign + count }
}

// How many bytes a sign of a number at the start has.
fn sign(text: &[u8]) -> usize
    ensures count { result ≡ sign_len text.now }
    ensures within { result ≤ length text.now }
{
    match text {
        [b'+' | b'-', ..] => 1,
        _ => 0,
    }
}

// A text after its first quote.
fn text_piece(rest: &[u8]) -> Option<(Sort, usize)>
    ensures { result ≡ text_piece rest.now }
{
    let count = inside(rest);
    match &rest[count..] {
        [b'"', ..] => Some((Sort::Token(TokenKind::Text), count + 2)),
        _ => None,
    }
}

// How many bytes stand before the first quote or line feed.
fn inside(rest: &[u8]) -> usize
    ensures count { result ≡ prefix_len is_inside rest.now }
    ensures within { result ≤ length rest.now }
{
    rest.iter().take_while(|b| is_inside(**b)).count()
}

// A sign that is a byte which begins no longer sign and no comment.
#[inline(always)]
fn plain_piece(byte: u8) -> Option<(Sort, usize)>
    ensures { result ≡ plain_piece byte }
{
    let kind = short_sign(byte)?;
    Some((Sort::Token(kind), 1))
}

// A comment or a sign at the start.
fn sign_piece(text: &[u8]) -> Option<(Sort, usize)>
    ensures { result ≡ sign_piece text.now }
{
    let first = *text.first()?;
    if let Some(second) = text.get(1) {
        if first == b'/' && *second == b'/' {
            return Some((Sort::Blank, line(text)));
        }
        if let Some(kind) = long_sign(first, *second) {
            return Some((Sort::Token(kind), 2));
        }
    }
    let kind = short_sign(first)?;
    Some((Sort::Token(kind), 1))
}

// How many bytes stand before the first line feed.
fn line(text: &[u8]) -> usize
    ensures { result ≡ prefix_len is_no_feed text.now }
{
    text.iter().take_while(|b| **b != b'\n').count()
}

fn is_letter(byte: u8) -> bool
    ensures { result ≡ is_ascii_alphabetic byte }
{
    byte.is_ascii_alphabetic()
}

fn is_digit(byte: u8) -> bool
    ensures { result ≡ is_ascii_digit byte }
{
    byte.is_ascii_digit()
}

fn is_word_byte(byte: u8) -> bool
    ensures { result ≡ is_word_byte byte }
{
    is_letter(byte) || is_digit(byte) || byte == b'_'
}

fn is_inside(byte: u8) -> bool
    ensures { result ≡ is_inside byte }
{
    byte != b'"' && byte != b'\n'
}
