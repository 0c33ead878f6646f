//! What no clause says: that texts are cut with ample memory, and worked texts with their tokens and bad bytes.
ghost use Rattle.std.specs.Prelude.{◌<◌};

use qasm_lexer::{LexError, PieceLexer, Token, TokenKind, TokenList, lex};
use std::alloc::Global;
use std::process::Abort;
use std::test::Fail;
use zx_io::Pieces;

// Each form, at the ends of lines of both sorts, and a comment at the end of the text.
const PAGE: &[u8] =
    b"OPENQASM 2.0;\r\ninclude \"qelib1.inc\";\n// gates: \x80 \"\ngate gates(pis) if0 { U(0,-pi/2,pis^2) if0; CX if0,if0; }\r\n\tu1(1. + .5e-3*1.e5) q[007];\nif(c_1==12) measure q0->c0;\nrx(1e5,00.5,1.5e,1.5e+x--1.5E+07) sqrt/a;//end";

// The tokens of the page: kind, bytes and place.
const PAGE_TOKENS: [(TokenKind, &[u8], usize); 82] = [
    (TokenKind::Openqasm, b"OPENQASM", 0),
    (TokenKind::Real, b"2.0", 9),
    (TokenKind::Semicolon, b";", 12),
    (TokenKind::Include, b"include", 15),
    (TokenKind::Text, b"\"qelib1.inc\"", 23),
    (TokenKind::Semicolon, b";", 35),
    (TokenKind::Gate, b"gate", 51),
    (TokenKind::Identifier, b"gates", 56),
    (TokenKind::LeftParenthesis, b"(", 61),
    (TokenKind::Identifier, b"pis", 62),
    (TokenKind::RightParenthesis, b")", 65),
    (TokenKind::Identifier, b"if0", 67),
    (TokenKind::LeftBrace, b"{", 71),
    (TokenKind::U, b"U", 73),
    (TokenKind::LeftParenthesis, b"(", 74),
    (TokenKind::Natural, b"0", 75),
    (TokenKind::Comma, b",", 76),
    (TokenKind::Minus, b"-", 77),
    (TokenKind::Pi, b"pi", 78),
    (TokenKind::Slash, b"/", 80),
    (TokenKind::Natural, b"2", 81),
    (TokenKind::Comma, b",", 82),
    (TokenKind::Identifier, b"pis", 83),
    (TokenKind::Caret, b"^", 86),
    (TokenKind::Natural, b"2", 87),
    (TokenKind::RightParenthesis, b")", 88),
    (TokenKind::Identifier, b"if0", 90),
    (TokenKind::Semicolon, b";", 93),
    (TokenKind::Cx, b"CX", 95),
    (TokenKind::Identifier, b"if0", 98),
    (TokenKind::Comma, b",", 101),
    (TokenKind::Identifier, b"if0", 102),
    (TokenKind::Semicolon, b";", 105),
    (TokenKind::RightBrace, b"}", 107),
    (TokenKind::Identifier, b"u1", 111),
    (TokenKind::LeftParenthesis, b"(", 113),
    (TokenKind::Real, b"1.", 114),
    (TokenKind::Plus, b"+", 117),
    (TokenKind::Real, b".5e-3", 119),
    (TokenKind::Star, b"*", 124),
    (TokenKind::Real, b"1.e5", 125),
    (TokenKind::RightParenthesis, b")", 129),
    (TokenKind::Identifier, b"q", 131),
    (TokenKind::LeftBracket, b"[", 132),
    (TokenKind::Natural, b"0", 133),
    (TokenKind::Natural, b"0", 134),
    (TokenKind::Natural, b"7", 135),
    (TokenKind::RightBracket, b"]", 136),
    (TokenKind::Semicolon, b";", 137),
    (TokenKind::If, b"if", 139),
    (TokenKind::LeftParenthesis, b"(", 141),
    (TokenKind::Identifier, b"c_1", 142),
    (TokenKind::Equals, b"==", 145),
    (TokenKind::Natural, b"12", 147),
    (TokenKind::RightParenthesis, b")", 149),
    (TokenKind::Measure, b"measure", 151),
    (TokenKind::Identifier, b"q0", 159),
    (TokenKind::Arrow, b"->", 161),
    (TokenKind::Identifier, b"c0", 163),
    (TokenKind::Semicolon, b";", 165),
    (TokenKind::Identifier, b"rx", 167),
    (TokenKind::LeftParenthesis, b"(", 169),
    (TokenKind::Natural, b"1", 170),
    (TokenKind::Identifier, b"e5", 171),
    (TokenKind::Comma, b",", 173),
    (TokenKind::Real, b"00.5", 174),
    (TokenKind::Comma, b",", 178),
    (TokenKind::Real, b"1.5", 179),
    (TokenKind::Identifier, b"e", 182),
    (TokenKind::Comma, b",", 183),
    (TokenKind::Real, b"1.5", 184),
    (TokenKind::Identifier, b"e", 187),
    (TokenKind::Plus, b"+", 188),
    (TokenKind::Identifier, b"x", 189),
    (TokenKind::Minus, b"-", 190),
    (TokenKind::Minus, b"-", 191),
    (TokenKind::Real, b"1.5E+07", 192),
    (TokenKind::RightParenthesis, b")", 199),
    (TokenKind::Sqrt, b"sqrt", 201),
    (TokenKind::Slash, b"/", 205),
    (TokenKind::Identifier, b"a", 206),
    (TokenKind::Semicolon, b";", 207),
];

// Whether a token is of this kind, with these bytes and this place.
fn is_at(tokens: &[Token], i: usize, kind: TokenKind, bytes: &[u8], place: usize) -> bool {
    match tokens.get(i) {
        Some(token) => token.kind == kind && token.slice == bytes && token.place == place,
        None => false,
    }
}

// The tokens are those of the page.
fn are_of_page(rt: &impl Abort, tokens: &[Token]) {
    assert_eq!(rt; tokens.len(), PAGE_TOKENS.len());
    for (i, (kind, bytes, place)) in PAGE_TOKENS.iter().enumerate() {
        assert!(rt; is_at(tokens, i, *kind, bytes, *place), "token {i}");
    }
}

#[test]
fn a_page_has_its_tokens(rt: HostRuntime) -> Result<(), Fail> {
    let tokens = lex(rt.alloc(), PAGE)?;
    are_of_page(&rt, &tokens);
    Ok(())
}

// Texts, and the place of the first bad byte of each.
const BAD_BYTES: [(&[u8], usize); 14] = [
    (b"Ux", 0),
    (b"q CXx", 2),
    (b"OpenQASM", 0),
    (b"OPENQASM2;", 0),
    (b"a = b", 2),
    (b"1 .", 2),
    (b"include \"abc", 8),
    (b"\"a\nb\"", 0),
    (b"// \xff\n\xff", 5),
    (b"q\x80", 1),
    (b"_q", 0),
    (b"1.5.E", 3),
    (b"--=", 2),
    (b"===", 2),
];

fn fault_of(alloc: Global, text: &[u8]) -> Option<LexError> {
    lex(alloc, text).err()
}

#[test]
fn bad_bytes_are_told(rt: HostRuntime) {
    for (text, at) in &BAD_BYTES {
        assert_eq!(rt;
            fault_of(rt.alloc(), text),
            Some(LexError::BadByte { at: *at })
        );
    }
}

// What a lexer answers of a text that comes in pieces of so many bytes.
fn lex_in_pieces(alloc: Global, text: &[u8], count: usize) -> Result<TokenList, LexError>
    requires { 0 < count }
{
    let mut lexer = PieceLexer::new(alloc);
    for piece in text.chunks(count) {
        lexer.take(piece)?;
    }
    lexer.finish()
}

// The list has the tokens of the page.
fn is_page(rt: &impl Abort, list: &TokenList) -> Result<(), Fail> {
    are_of_page(rt, &list.tokens()?);
    assert!(rt;
        list.pool()
            .starts_with(b"OPENQASM2.0;include\"qelib1.inc\";gategates(pis)")
    );
    Ok(())
}

// The page has its tokens where it comes in pieces of so many bytes.
fn is_page_in_pieces(rt: &impl Abort, alloc: Global, count: usize) -> Result<(), Fail>
    requires { 0 < count }
{
    let list = lex_in_pieces(alloc, PAGE, count)?;
    is_page(rt, &list)
}

#[test]
fn a_page_in_pieces_has_its_tokens(rt: HostRuntime) -> Result<(), Fail> {
    is_page_in_pieces(&rt, rt.alloc(), 1)?;
    is_page_in_pieces(&rt, rt.alloc(), 7)?;
    is_page_in_pieces(&rt, rt.alloc(), 1000)
}

// A number that goes on, a comment that ends with its piece, and a last token with nothing behind it.
const PIECES: [&[u8]; 8] = [
    b"q 1", b"2.5e+", b"7 // c", b"\n", b"//\n", b"c\nme", b"", b"asure",
];

fn take_pieces(lexer: &mut PieceLexer) -> Result<(), Fail> {
    for piece in &PIECES {
        lexer.take(piece)?;
    }
    Ok(())
}

// The list has the tokens of these pieces.
fn has_tokens(rt: &impl Abort, list: &TokenList) -> Result<(), Fail> {
    assert_eq!(rt; list.pool(), b"q12.5e+7cmeasure".as_slice());
    let tokens = list.tokens()?;
    assert_eq!(rt; tokens.len(), 4);
    assert!(rt; is_at(&tokens, 1, TokenKind::Real, b"12.5e+7", 2));
    assert!(rt; is_at(&tokens, 2, TokenKind::Identifier, b"c", 18));
    assert!(rt; is_at(&tokens, 3, TokenKind::Measure, b"measure", 20));
    Ok(())
}

#[test]
fn pieces_end_anywhere(rt: HostRuntime) -> Result<(), Fail> {
    let mut lexer = PieceLexer::new(rt.alloc());
    take_pieces(&mut lexer)?;
    let list = lexer.finish()?;
    has_tokens(&rt, &list)
}

// The first bad byte is told where the text comes in pieces of so many bytes.
fn is_told(rt: &impl Abort, alloc: Global, text: &[u8], count: usize, at: usize)
    requires { 0 < count }
{
    assert_eq!(rt;
        lex_in_pieces(alloc, text, count).err(),
        Some(LexError::BadByte { at })
    );
}

const BAD_LINES: [(&[u8], usize); 3] = [(b"q;\n\"a", 3), (b"q;\nq ?\n? q\n", 5), (b"? \n", 0)];

#[test]
fn the_first_bad_byte_is_told_at_the_end(rt: HostRuntime) {
    for (text, at) in &BAD_LINES {
        is_told(&rt, rt.alloc(), text, 1, *at);
        is_told(&rt, rt.alloc(), text, 4, *at);
        is_told(&rt, rt.alloc(), text, 100, *at);
    }
}
