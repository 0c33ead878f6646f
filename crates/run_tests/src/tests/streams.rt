//! Runs over streams in memory of which the given calls fail.
ghost use Rattle.std.specs.Prelude.{◌≤◌};

use std::alloc::{AllocError, Global};
use zx_io::{MemSink, MemSource};
use zx_run::{Status, run};

/// What a run is to answer, and what is to stand on its output and its error output.
#[derive(Clone, Copy)]
pub struct Outcome<'a> {
    pub status: Status,
    pub out: &'a [u8],
    pub err: &'a [u8],
}

// The line about words that are no command.
pub const USAGE: &[u8] =
    b"usage: zxopt opt [--best] [--report] [--scalar] | reduce | flow | graph | gen SEED QUBITS GATES | compile | teleport | same\n";

// Where a read fails before all of the text is read.
pub const READ_FAULT: Outcome = Outcome {
    status: Status::ReadFault,
    out: b"",
    err: b"zxopt: read fault\n",
};

// Whether a run of the words on a text has this outcome, with streams in memory of which the given calls fail, 20 bytes
// a call.
pub fn has_outcome(
    alloc: Global,
    words: &[&str],
    text: &[u8],
    fails: [&[u64]; 3],
    outcome: Outcome<'_>,
) -> Result<bool, AllocError> {
    has_outcome_in_pieces(alloc, words, text, 20, fails, outcome)
}

// The same, where so many bytes are read a call.
pub fn has_outcome_in_pieces(
    alloc: Global,
    words: &[&str],
    text: &[u8],
    piece: usize,
    fails: [&[u64]; 3],
    outcome: Outcome<'_>,
) -> Result<bool, AllocError>
    requires { 1 ≤ piece }
{
    let [read_fails, write_fails, err_fails] = fails;
    let mut out = sink(alloc, write_fails)?;
    let mut err = sink(alloc, err_fails)?;
    let status = run_into(alloc, words, text, piece, read_fails, &mut out, &mut err)?;
    Ok(status == outcome.status && out.bytes() == outcome.out && err.bytes() == outcome.err)
}

// Whether a run answers this and has this on its error output, whatever it writes.
pub fn has_error_output(
    alloc: Global,
    words: &[&str],
    text: &[u8],
    fails: [&[u64]; 3],
    status: Status,
    told: &[u8],
) -> Result<bool, AllocError> {
    let [read_fails, write_fails, err_fails] = fails;
    let mut out = sink(alloc, write_fails)?;
    let mut err = sink(alloc, err_fails)?;
    let answer = run_into(alloc, words, text, 20, read_fails, &mut out, &mut err)?;
    Ok(answer == status && err.bytes() == told)
}

// Whether a run writes the same bytes where so many bytes of the text are read a call as where all are read at once.
pub fn is_same_in_pieces(
    alloc: Global,
    words: &[&str],
    text: &[u8],
    piece: usize,
) -> Result<bool, AllocError>
    requires { 1 ≤ piece }
{
    let mut whole = sink(alloc, &[])?;
    let mut parts = sink(alloc, &[])?;
    let first = run_for_output(alloc, words, text, text.len().max(1), &mut whole)?;
    let second = run_for_output(alloc, words, text, piece, &mut parts)?;
    Ok(first == Status::Done && second == Status::Done && whole.bytes() == parts.bytes())
}

// Runs with an error output that nobody reads.
fn run_for_output(
    alloc: Global,
    words: &[&str],
    text: &[u8],
    piece: usize,
    out: &mut MemSink,
) -> Result<Status, AllocError>
    requires { 1 ≤ piece }
{
    let mut err = sink(alloc, &[])?;
    run_into(alloc, words, text, piece, &[], out, &mut err)
}

// Runs with a source of which the given calls fail.
fn run_into(
    alloc: Global,
    words: &[&str],
    text: &[u8],
    piece: usize,
    fails: &[u64],
    out: &mut MemSink,
    err: &mut MemSink,
) -> Result<Status, AllocError>
    requires { 1 ≤ piece }
{
    let mut source = source(alloc, text, piece, fails)?;
    Ok(run(alloc, words, &mut source, out, err))
}

// A source of a text, at most `piece` bytes a call, of which the given calls fail.
fn source(alloc: Global, text: &[u8], piece: usize, fails: &[u64]) -> Result<MemSource, AllocError>
    requires { 1 ≤ piece }
{
    let bytes = text.to_vec(alloc)?;
    let fails = fails.to_vec(alloc)?;
    Ok(MemSource::new(bytes, piece, fails))
}

// An output of which the given calls fail, 20 bytes a call.
fn sink(alloc: Global, fails: &[u64]) -> Result<MemSink, AllocError> {
    let fails = fails.to_vec(alloc)?;
    Ok(MemSink::new(alloc, 1000, 20, fails)?)
}
