//! The words of the command line.
//!
//! Proved of `command_in`: it gives the command that the definition makes of the words, or that
//! they are none; only want of memory is an error. In that definition `clap` doesn't occur: the law
//! `clap_agrees` says that it is what `clap` states of this command line.
//!
//! Inside:
//!
//! - `words`: the commands, and `command_in`, by `clap`.
//! - `laws`: `clap_agrees`, and worked numbers.
//!
//! ```rust
//! let command = command_in(alloc, &["opt", "--best"])?;
//! // Some(Command::Optimise { best: true, report: false, scalar: false })
//! ```
#![tactic(auto)]

pub mod laws;
mod words;

pub use words::{Command, command_in};
