//! How deep parentheses are nested.

ghost use Rattle.std.specs.Prelude.{◌≡◌, ◌≤◌, ◌∷◌, ◌++◌, [], List, nat_lt, if◌then◌else◌};
ghost use Rattle.qasm_lexer.specs.Tokens.{Lexeme, lexeme, lexemes};
ghost use Rattle.qasm_reader.specs.Depth.{most_open, IsDepth};
ghost use Rattle.qasm_reader.specs.Depth as spec;

use qasm_lexer::{Token, TokenKind};

// How many parentheses may be open.
const MOST_OPEN: usize = 256;

/// How deep parentheses are nested behind tokens.
#[derive(Clone, Copy, Debug, PartialEq, Eq)]
pub enum Depth {
    /// So many are open, and nowhere before were more than 256.
    Open(usize),
    /// More than 256 were open: the place of the first parenthesis with which there were.
    TooDeep(usize),
}

impl Depth {
    /// The depth before the first token.
    pub fn start() -> Depth
        ensures { IsDepth result [] }
    {
        Depth::Open(0)
    }

    /// The depth behind these tokens too.
    pub fn after(self, tokens: &[Token<'_>]) -> Depth
        ensures { (before : List Lexeme) → IsDepth self before
            → IsDepth result (before ++ lexemes tokens.now) }
    {
        let mut depth = self;
        for token in tokens {
            depth = depth.behind(token);
        }
        depth
    }

    // The depth behind one more token.
    fn behind(self, token: &Token<'_>) -> Depth
        ensures { (before : List Lexeme) → IsDepth self before
            → IsDepth result (before ++ lexeme token.now ∷ []) }
    {
        match self {
            Depth::Open(count) => depth_at(open_after(count, token.kind), token.place),
            Depth::TooDeep(at) => Depth::TooDeep(at),
        }
    }
}

// The depth at a place, where so many are open.
fn depth_at(count: usize, place: usize) -> Depth
    ensures { result ≡ (if nat_lt most_open count then Depth.TooDeep place else Depth.Open count) }
{
    if count > MOST_OPEN {
        Depth::TooDeep(place)
    } else {
        Depth::Open(count)
    }
}

// How many are open after a token, where so many were before it.
fn open_after(count: usize, kind: TokenKind) -> usize
    ensures { count ≤ most_open → result ≡ spec.open_after count kind }
{
    match kind {
        TokenKind::LeftParenthesis => count.saturating_add(1),
        TokenKind::RightParenthesis => count.saturating_sub(1),
        TokenKind::Semicolon | TokenKind::LeftBrace | TokenKind::RightBrace => 0,
        _ => count,
    }
}
