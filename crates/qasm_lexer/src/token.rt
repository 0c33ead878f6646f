//! The tokens of OpenQASM 2.0.

/// The kind of a token.
#[derive(Clone, Copy, Debug, PartialEq, Eq)]
pub enum TokenKind {
    /// The word `OPENQASM`.
    Openqasm,
    /// The word `U`.
    U,
    /// The word `CX`.
    Cx,
    /// The keyword `include`.
    Include,
    /// The keyword `qreg`.
    Qreg,
    /// The keyword `creg`.
    Creg,
    /// The keyword `gate`.
    Gate,
    /// The keyword `opaque`.
    Opaque,
    /// The keyword `if`.
    If,
    /// The keyword `barrier`.
    Barrier,
    /// The keyword `measure`.
    Measure,
    /// The keyword `reset`.
    Reset,
    /// The keyword `pi`.
    Pi,
    /// The keyword `sin`.
    Sin,
    /// The keyword `cos`.
    Cos,
    /// The keyword `tan`.
    Tan,
    /// The keyword `exp`.
    Exp,
    /// The keyword `ln`.
    Ln,
    /// The keyword `sqrt`.
    Sqrt,
    /// A word of letters, digits and `_` that begins with a small letter and is no keyword.
    Identifier,
    /// Decimal digits without a leading zero, or `0`.
    Natural,
    /// A decimal number with a point, and maybe an exponent.
    Real,
    /// Bytes between two `"` in one line, together with these.
    Text,
    /// `;`
    Semicolon,
    /// `,`
    Comma,
    /// `(`
    LeftParenthesis,
    /// `)`
    RightParenthesis,
    /// `[`
    LeftBracket,
    /// `]`
    RightBracket,
    /// `{`
    LeftBrace,
    /// `}`
    RightBrace,
    /// `+`
    Plus,
    /// `-`
    Minus,
    /// `*`
    Star,
    /// `/`
    Slash,
    /// `^`
    Caret,
    /// `->`
    Arrow,
    /// `==`
    Equals,
}

/// A token: its kind, its bytes, and the place of its first byte in the text, counted from 0.
#[derive(Clone, Copy, Debug)]
pub struct Token<'a> {
    /// What it is.
    pub kind: TokenKind,
    /// Its bytes.
    pub slice: &'a [u8],
    /// How many bytes of the text stand before it.
    pub place: usize,
}
