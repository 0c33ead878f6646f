//! What the names of an OpenQASM 2.0 program stand for while it is read: registers, gates with
//! their bodies, and the gates of the header.
//!
//! Proved: which causes a declaration of a gate or of a register or an include has, by the
//! definitions of `qasm_scope`; and that after it, what is kept is what the program's scope says:
//! names, gates by their numbers with their calls resolved, qubits and bits. A gate's declaration is
//! taken in statement by statement.
//!
//! Inside:
//!
//! - `names`: what names stand for.
//! - `gates`: gates as they are kept, by numbers.
//! - `places`: places of formal names.
//! - `numerals`: whole numbers as they are spelled.
//! - `applied_gates`, `expressions`: the gate and the angles of an application, names resolved, in
//!   a statement or in a gate's body, and what is wrong with them.
//! - `gate_in_progress`: a gate whose declaration is taken in statement by statement.
//! - `formals`: its formal names.
//! - `bodies`: an application in its body as the call that it is kept as.
//! - `body_faults`: what is wrong with a body so far.
//! - `registers`, `header`: registers, and the gates of the header, which are declared one by one from
//!   `header_table`, a table that is proved to be what the header's texts declare.
//! - `statement_error`: why a statement isn't taken in.
//!
//! ```rust
//! include(alloc, &mut names, b"\"qelib1.inc\"")?;
//! ```
#![tactic(auto)]

mod applied_gates;
mod bodies;
mod body_faults;
mod expressions;
mod formals;
mod gate_in_progress;
mod gates;
mod header;
mod header_table;
mod names;
mod numerals;
mod places;
mod registers;
mod statement_error;

pub use applied_gates::{AppliedGate, GateFaults, applied_gate, gate_faults};
pub use body_faults::BodyFaults;
pub use formals::Formals;
pub use gate_in_progress::GateInProgress;
pub use gates::{CalledGate, GateBody, GateCall, KnownGate};
pub use header::include;
pub use names::{Names, Symbol};
pub use numerals::{clamped, number};
pub use places::Places;
pub use registers::{declare_bits, declare_qubits};
pub use statement_error::StatementError;
