//! Tokens of OpenQASM 2.0: the bytes of a text, cut into words, numbers, texts and signs.
//!
//! Proved: every text has one cut into longest pieces or one bad byte, and `lex` answers it, with
//! the slice and the place of each token; `lex_further` the same, a number of tokens at a time; and
//! `PieceLexer` the same of a text that comes in pieces, however it is cut.
//!
//! Inside:
//!
//! - `lexer`, `first_piece`: a text cut into tokens, piece after piece by its first bytes.
//! - `piece_lexer`, `lines`: a text that comes in pieces, which is cut line by line.
//! - `token`, `token_list`: tokens, and tokens that are kept without their text.
//! - `tables`: the words and signs of the language.
//! - `errors`, `laws`: why a text has no tokens, and what holds of the cuts of every text.
//!
//! ```rust
//! let tokens = lex(alloc, b"OPENQASM 2.0;")?;    // OPENQASM, 2.0 and the semicolon
//! ```
#![tactic(auto)]

mod errors;
mod first_piece;
mod laws;
mod lexer;
mod lines;
mod piece_lexer;
mod tables;
mod token;
mod token_list;

pub use errors::LexError;
pub use laws::{cuts_of_lines_go_together, one_cut, worked_cuts};
pub use lexer::{lex, lex_further};
pub use lines::whole_lines;
pub use piece_lexer::PieceLexer;
pub use token::{Token, TokenKind};
pub use token_list::TokenList;
