//! The commands of the program as calls for C: a text in memory in, what the command writes for it out, into memory of
//! the caller's.
//!
//! Proved of each call: it answers as the program does, by the definitions that `zx_run::run` cites, with the same
//! numbers; it writes all that the command writes, where there is room for that, and else nothing, and tells how much
//! that is; and of a text that is refused it tells the first fault. Memory that runs out is the one other answer. No call
//! keeps anything, and one at a time or several at once are the same. What the caller owes stands in docs/GUARANTEE.md.
//!
//! - `calls`: a call for each command but `gen`, which reads no text.
//! - `told`: what a call tells beside its status.
//! - `text`: the text as a source.
//! - `version`: the library's version.
//!
//! ```c
//! zxopt_told told;
//! uint8_t status = zxopt_optimise(true, false, false, text, text_length, out, out_room, &told);
//! /* 0: the circuit is in the first told.length bytes of out */
//! ```
#![tactic(auto)]

mod calls;
mod text;
mod told;
mod version;

pub use calls::{
    zxopt_compile, zxopt_flow, zxopt_graph, zxopt_optimise, zxopt_reduce, zxopt_same,
    zxopt_teleport,
};
pub use told::Told;
pub use version::zxopt_version;
