//! The statements of OpenQASM 2.0, from tokens.
//!
//! Proved: tokens are one program or have one syntax fault, and `parse` answers it, or the first
//! parenthesis that is too deep, or the place of the first statement that is none. `next_part` and
//! `next_in_body` read a program in parts, with gates' bodies statement by statement, and so does
//! `parse`.
//!
//! Inside:
//!
//! - `parser`, `parts`: a program, whole or part by part.
//! - `statement`, `arguments`, `tokens`: a statement, what it is made of, and single tokens.
//! - `machine`, `expression`: expressions of angles, put into postfix order token by token.
//! - `program`: what statements say.
//! - `depth`: how deep parentheses are nested.
//! - `error`, `step_error`: why tokens are no program, and why a step stopped.
//! - `laws`: laws of the grammar.
//!
//! ```rust
//! let program = parse(alloc, &lex(alloc, text)?)?;
//! ```
#![tactic(auto)]

mod arguments;
mod depth;
mod error;
mod expression;
mod laws;
mod machine;
mod parser;
mod parts;
mod program;
mod statement;
mod step_error;
mod tokens;

pub use depth::Depth;
pub use error::ParseError;
pub use expression::{Expression, Function, Item, Operator};
pub use laws::{
    depth_by_prefixes, no_statement_begins_another, one_expression, one_program, one_syntax_fault,
    postfix_order_tells_the_expression,
};
pub use parser::parse;
pub use parts::{BodyPart, Part, has_end, next_in_body, next_part};
pub use program::{
    Application, Argument, BodyApplication, BodyStatement, GateDeclaration, GateHeading, GateName,
    Operation, Program, ProgramElement, Statement, StatementKind,
};
