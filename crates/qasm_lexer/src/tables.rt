//! The words and signs of the language.

ghost use Rattle.std.specs.Prelude.{◌≡◌, ◌∷◌, [], map};
ghost use Rattle.qasm_lexer.specs.Tokens.{words, signs, kind_in, word_kind};
ghost use Rattle.std.specs.Str.{bytes_eq};

use crate::token::TokenKind;

// A word and the kind that it has of its own.
type Row = (&'static [u8], TokenKind);

// The words of one byte that have a kind of their own.
const WORDS_OF_1: [Row; 1] = [(b"U", TokenKind::U)];

// Those of two bytes.
const WORDS_OF_2: [Row; 4] = [
    (b"CX", TokenKind::Cx),
    (b"if", TokenKind::If),
    (b"pi", TokenKind::Pi),
    (b"ln", TokenKind::Ln),
];

// Those of three bytes.
const WORDS_OF_3: [Row; 4] = [
    (b"sin", TokenKind::Sin),
    (b"cos", TokenKind::Cos),
    (b"tan", TokenKind::Tan),
    (b"exp", TokenKind::Exp),
];

// Those of four bytes.
const WORDS_OF_4: [Row; 4] = [
    (b"qreg", TokenKind::Qreg),
    (b"creg", TokenKind::Creg),
    (b"gate", TokenKind::Gate),
    (b"sqrt", TokenKind::Sqrt),
];

// That of five bytes.
const WORDS_OF_5: [Row; 1] = [(b"reset", TokenKind::Reset)];

// That of six bytes.
const WORDS_OF_6: [Row; 1] = [(b"opaque", TokenKind::Opaque)];

// Those of seven bytes.
const WORDS_OF_7: [Row; 3] = [
    (b"include", TokenKind::Include),
    (b"barrier", TokenKind::Barrier),
    (b"measure", TokenKind::Measure),
];

// That of eight bytes.
const WORDS_OF_8: [Row; 1] = [(b"OPENQASM", TokenKind::Openqasm)];

// The kind of a word, if it is a token.
pub(crate) fn word_kind(word: &[u8]) -> Option<TokenKind>
    ensures { result ≡ word_kind word.now }
{
    if let Some(kind) = keyword(word) {
        return Some(kind);
    }
    match word.first() {
        Some(b'a'..=b'z') => Some(TokenKind::Identifier),
        _ => None,
    }
}

// The kind of a word that has one of its own.
fn keyword(word: &[u8]) -> Option<TokenKind>
    ensures { result ≡ kind_in words word.now }
{
    match word.len() {
        1 => kind_in(&WORDS_OF_1, word),
        2 => kind_in(&WORDS_OF_2, word),
        3 => kind_in(&WORDS_OF_3, word),
        4 => kind_in(&WORDS_OF_4, word),
        5 => kind_in(&WORDS_OF_5, word),
        6 => kind_in(&WORDS_OF_6, word),
        7 => kind_in(&WORDS_OF_7, word),
        8 => kind_in(&WORDS_OF_8, word),
        _ => None,
    }
}

// The kind that the first row with these bytes gives.
fn kind_in(rows: &[(&[u8], TokenKind)], bytes: &[u8]) -> Option<TokenKind>
    ensures { result ≡ kind_in (map (λ row. (row.0.now, row.1)) rows.now) bytes.now }
{
    for (text, kind) in rows {
        if same(bytes, text) {
            return Some(*kind);
        }
    }
    None
}

// Whether two byte strings are the same.
fn same(word: &[u8], text: &[u8]) -> bool
    ensures { result ≡ bytes_eq word.now text.now }
{
    word == text
}

// The sign of one byte.
#[inline(always)]
pub(crate) fn short_sign(byte: u8) -> Option<TokenKind>
    ensures { result ≡ kind_in signs (byte ∷ []) }
{
    match byte {
        b';' => Some(TokenKind::Semicolon),
        b',' => Some(TokenKind::Comma),
        b'(' => Some(TokenKind::LeftParenthesis),
        b')' => Some(TokenKind::RightParenthesis),
        b'[' => Some(TokenKind::LeftBracket),
        b']' => Some(TokenKind::RightBracket),
        b'{' => Some(TokenKind::LeftBrace),
        b'}' => Some(TokenKind::RightBrace),
        b'+' => Some(TokenKind::Plus),
        b'-' => Some(TokenKind::Minus),
        b'*' => Some(TokenKind::Star),
        b'/' => Some(TokenKind::Slash),
        b'^' => Some(TokenKind::Caret),
        _ => None,
    }
}

// The sign of two bytes.
pub(crate) fn long_sign(first: u8, second: u8) -> Option<TokenKind>
    ensures { result ≡ kind_in signs (first ∷ second ∷ []) }
{
    if first == b'-' && second == b'>' {
        Some(TokenKind::Arrow)
    } else if first == b'=' && second == b'=' {
        Some(TokenKind::Equals)
    } else {
        None
    }
}
