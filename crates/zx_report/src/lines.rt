//! The lines of numbers of gates.

ghost use Rattle.std.specs.Prelude.{◌≡◌, ◌++◌, IfOk, OnOk, decimal};
ghost use Rattle.zx_report.specs.Report.{report_lines, report_line, count_of, scalar_line};

use itoa::Buffer;
use std::alloc::{AllocError, Global};
use zx_gates::Counts;
use zx_model::Scalar;

/// Two comment lines of OpenQASM, each with its line feed: how many gates of each kind the circuit
/// has that was read, and how many the one that was written.
///
/// # Errors
///
/// Only where memory runs out.
pub fn report(alloc: Global, read: &Counts, written: &Counts) -> Result<Vec<u8>, AllocError>
    ensures { IfOk result (λ lines. lines.items ≡ report_lines read.now written.now) }
{
    let mut lines = Vec::new(alloc);
    push_line(&mut lines, b"read", read)?;
    push_line(&mut lines, b"written", written)?;
    Ok(lines)
}

/// One comment line of OpenQASM, with its line feed: the exponents of a scalar, that of the root of two
/// and that of z.
///
/// # Errors
///
/// Only where memory runs out.
pub fn scalar_line(alloc: Global, s: &Scalar) -> Result<Vec<u8>, AllocError>
    ensures { IfOk result (λ line. line.items ≡ scalar_line s.now) }
{
    let mut buffer = Buffer::new();
    let mut line = Vec::from_slice(alloc, b"// scalar root2 ")?;
    line.extend_from_slice(buffer.format(s.root2).as_bytes())?;
    line.extend_from_slice(b" turn ")?;
    line.extend_from_slice(buffer.format(s.turn.get()).as_bytes())?;
    line.extend_from_slice(b"\n")?;
    Ok(line)
}

// Adds the line of a circuit.
fn push_line(lines: &mut Vec<u8>, circuit: &[u8], counts: &Counts) -> Result<(), AllocError>
    ensures { OnOk result (lines.new.items
        ≡ lines.old.items ++ report_line circuit.now counts.now) }
{
    lines.extend_from_slice(b"// ")?;
    lines.extend_from_slice(circuit)?;
    push_count(lines, b"gates", counts.total)?;
    push_count(lines, b"odd", counts.odd)?;
    push_count(lines, b"two-qubit", counts.two_qubit)?;
    push_count(lines, b"h", counts.h)?;
    push_count(lines, b"phase", counts.phase)?;
    push_count(lines, b"cz", counts.cz)?;
    push_count(lines, b"cx", counts.cx)?;
    push_count(lines, b"not", counts.nots)?;
    lines.extend_from_slice(b"\n")
}

// Adds the name of a kind of gates, and how many there are.
fn push_count(lines: &mut Vec<u8>, kind: &[u8], count: u64) -> Result<(), AllocError>
    ensures { OnOk result (lines.new.items ≡ lines.old.items ++ count_of kind.now count) }
{
    let mut buffer = Buffer::new();
    lines.extend_from_slice(b" ")?;
    lines.extend_from_slice(kind)?;
    lines.extend_from_slice(b" ")?;
    lines.extend_from_slice(buffer.format(count).as_bytes())
}
