//! Texts with measurements: what is read of them, and what is told of those that are wrong; texts in pieces.
ghost use Rattle.std.specs.Prelude.{◌<◌};

use bumpalo::Bump;
use qasm_inline::{PieceReader, TextError, read};
use qasm_scope::Cause;
use std::alloc::{AllocError, Global};
use std::process::Abort;
use std::test::Fail;
use zx_gates::{Elementary, Measure};
use zx_io::Pieces;

#[test]
fn measurements_are_numbered_through_all_registers(rt: HostRuntime) -> Result<(), Fail> {
    let text = b"OPENQASM 2.0; qreg p[1]; qreg q[2]; creg b[3]; creg c[2]; measure q -> c;";
    let circuit = read(rt.alloc(), text)?;
    assert_eq!(rt; circuit.bits, 5);
    let measured = [Measure { qubit: 1, bit: 3 }, Measure { qubit: 2, bit: 4 }];
    assert_eq!(rt; circuit.measured.as_slice(), measured.as_slice());
    Ok(())
}

// Texts, what is wrong with them, and at which byte.
const WRONG: [(&[u8], Cause, usize); 8] = [
    (
        b"OPENQASM 2.0;qreg q[1];creg c[1];measure q[0]->c[0];U(0,0,0) q[0];",
        Cause::AfterMeasure,
        52,
    ),
    (
        b"OPENQASM 2.0;qreg q[1];creg c[2];measure q[0]->c[0];measure q[0]->c[1];",
        Cause::AfterMeasure,
        52,
    ),
    (
        b"OPENQASM 2.0;qreg q[2];creg c[1];measure q[0]->c[0];measure q[1]->c[0];",
        Cause::BitTwice,
        52,
    ),
    (b"OPENQASM 2.0;creg c[65537];", Cause::TooManyBits, 13),
    (
        b"OPENQASM 2.0;qreg q[2];creg c[1];measure q->c[0];",
        Cause::Sizes,
        33,
    ),
    (
        b"OPENQASM 2.0;qreg q[1];creg c[1];measure q->c[0];",
        Cause::Sizes,
        33,
    ),
    (
        b"OPENQASM 2.0;qreg q[1];creg c[1];measure q[0]->c[1];",
        Cause::Index,
        33,
    ),
    (
        b"OPENQASM 2.0;qreg q[1];creg c[1];measure c[0]->c[0];",
        Cause::Unknown,
        33,
    ),
];

fn fault_of(alloc: Global, text: &[u8]) -> Option<TextError> {
    read(alloc, text).err()
}

#[test]
fn wrong_measurements_are_told(rt: HostRuntime) {
    for (i, (text, cause, at)) in WRONG.iter().enumerate() {
        let wrong = TextError::Wrong {
            cause: *cause,
            at: *at,
        };
        assert_eq!(rt; fault_of(rt.alloc(), text), Some(wrong), "row {i}");
    }
}

// Takes a text in pieces of so many bytes.
fn take_text(reader: &mut PieceReader<'_>, text: &[u8], count: usize) -> Result<(), AllocError>
    requires { 0 < count }
{
    for piece in text.chunks(count) {
        reader.take(piece)?;
    }
    Ok(())
}

// What is read of it, with the words in this arena.
fn read_with(
    alloc: Global,
    arena: &Bump,
    text: &[u8],
    count: usize,
) -> Result<Elementary, TextError>
    requires { 0 < count }
{
    let mut reader = PieceReader::new(alloc, arena);
    take_text(&mut reader, text, count).or(Err(TextError::NoMemory))?;
    reader.finish()
}

// What is read of a text that comes in pieces of so many bytes.
fn read_in_pieces(alloc: Global, text: &[u8], count: usize) -> Result<Elementary, TextError>
    requires { 0 < count }
{
    let arena = Bump::new(alloc);
    read_with(alloc, &arena, text, count)
}

// How many qubits, gates and measurements a text in pieces has.
fn counts(alloc: Global, text: &[u8], count: usize) -> Result<[usize; 3], TextError>
    requires { 0 < count }
{
    let circuit = read_in_pieces(alloc, text, count)?;
    Ok([
        usize::from(circuit.qubits),
        circuit.gates.as_slice().len(),
        circuit.measured.as_slice().len(),
    ])
}

// A text of two registers of qubits, with a gate, and one of each fault.
const GOOD: &[u8] =
    b"OPENQASM 2.0;\nqreg pp[1]; qreg qq[2]; creg b[3];\ngate g(x) a {\nU(x,0,0) a; } // g\n\
g(pi/4)\nqq; measure qq[1] -> b[2];";

const BAD_BYTE: &[u8] = b"OPENQASM 2.0;\nqreg q[1];\nU(0,0,0) p[0];\n?";

const UNKNOWN: &[u8] = b"OPENQASM 2.0;\nqreg q[1];\nU(0,0,0) p[0];";

// Texts, and what is read of them: their numbers of qubits, gates and measurements.
const TEXTS: [(&[u8], Result<[usize; 3], TextError>); 3] = [
    (GOOD, Ok([3, 2, 1])),
    (BAD_BYTE, Err(TextError::BadByte { at: 40 })),
    (
        UNKNOWN,
        Err(TextError::Wrong {
            cause: Cause::Unknown,
            at: 25,
        }),
    ),
];

// All of them are so where they come in pieces of so many bytes.
fn are_read(rt: &impl Abort, alloc: Global, count: usize)
    requires { 0 < count }
{
    for (text, wanted) in &TEXTS {
        assert_eq!(rt; counts(alloc, text, count), *wanted);
    }
}

#[test]
fn texts_are_read_whatever_the_pieces(rt: HostRuntime) {
    are_read(&rt, rt.alloc(), 1);
    are_read(&rt, rt.alloc(), 7);
    are_read(&rt, rt.alloc(), 1000);
}

// 23 bytes, and 500 statements of 12 tokens in 14 bytes each; then the end.
fn add_line(text: &mut Vec<u8>, end: &[u8]) -> Result<(), Fail> {
    text.extend_from_slice(b"OPENQASM 2.0;qreg q[1];")?;
    for _ in 0..500 {
        text.extend_from_slice(b"U(0,0,0) q[0];")?;
    }
    text.extend_from_slice(end)?;
    Ok(())
}

// The numbers of such a text, in pieces of 1,000 bytes.
fn counts_of_line(alloc: Global, end: &[u8]) -> Result<Result<[usize; 3], TextError>, Fail> {
    let mut text = Vec::new(alloc);
    add_line(&mut text, end)?;
    Ok(counts(alloc, &text, 1000))
}

#[test]
fn a_long_line_is_read_in_batches(rt: HostRuntime) -> Result<(), Fail> {
    let read = counts_of_line(rt.alloc(), b"")?;
    assert_eq!(rt; read, Ok([1, 500, 0]));
    let told = counts_of_line(rt.alloc(), b"?")?;
    assert_eq!(rt; told, Err(TextError::BadByte { at: 7023 }));
    Ok(())
}

// Statements that are spelled plainly behind others, and what is read of the text: the faults are those of other
// statements, at the same places.
const PLAIN: [(&[u8], Result<[usize; 3], TextError>); 12] = [
    (
        b"OPENQASM 2.0;\r\nqreg q[11];\r\nCX q[0],q[1];\r\nCX q[1],q[10]; // c\r\n\tCX q[2] , q[0];",
        Ok([11, 3, 0]),
    ),
    (
        b"OPENQASM 2.0;qreg q[3];CX q[0],q[1];barrier q[0],q[1];",
        Ok([3, 1, 0]),
    ),
    // A name of the header, declared anew behind a line that used it.
    (
        b"OPENQASM 2.0;include\"qelib1.inc\";qreg q[2];swap q[0],q[1];gate swap a,b{CX a,b;}swap q[0],q[1];",
        Ok([2, 4, 0]),
    ),
    (
        b"OPENQASM 2.0;qreg q[3];CX q[0],q[1];CX q[0],q[3];",
        Err(TextError::Wrong {
            cause: Cause::Index,
            at: 36,
        }),
    ),
    // 2 to the 64th, which is 0 in 64 bits.
    (
        b"OPENQASM 2.0;qreg q[3];CX q[0],q[1];CX q[1],q[18446744073709551616];",
        Err(TextError::Wrong {
            cause: Cause::Index,
            at: 36,
        }),
    ),
    (
        b"OPENQASM 2.0;qreg q[3];CX q[0],q[1];CX q[1],q[1];",
        Err(TextError::Wrong {
            cause: Cause::SameQubit,
            at: 36,
        }),
    ),
    (
        b"OPENQASM 2.0;qreg q[3];CX q[0],q[1];barrier q[0],q[3];",
        Err(TextError::Wrong {
            cause: Cause::Index,
            at: 36,
        }),
    ),
    (
        b"OPENQASM 2.0;qreg q[3];CX q[0],q[1];CX q[0],r[1];",
        Err(TextError::Wrong {
            cause: Cause::Unknown,
            at: 36,
        }),
    ),
    (
        b"OPENQASM 2.0;qreg q[3];CX q[0],q[1];CX q[0],q[02];",
        Err(TextError::Syntax { at: 36 }),
    ),
    (
        b"OPENQASM 2.0;qreg q[3];CX q[0],q[1];CX q[0],q[2]",
        Err(TextError::Syntax { at: 36 }),
    ),
    (
        b"OPENQASM 2.0;qreg q[3];CX q[0],q[1];CX q[0],q[2];;",
        Err(TextError::Syntax { at: 49 }),
    ),
    (
        b"OPENQASM 2.0;qreg q[2];creg c[1];CX q[0],q[1];measure q[0]->c[0];CX q[0],q[1];",
        Err(TextError::Wrong {
            cause: Cause::AfterMeasure,
            at: 65,
        }),
    ),
];

#[test]
fn plain_statements_are_read_as_others_are(rt: HostRuntime) {
    for (i, (text, wanted)) in PLAIN.iter().enumerate() {
        assert_eq!(rt; counts(rt.alloc(), text, 1), *wanted, "row {i}");
        assert_eq!(rt; counts(rt.alloc(), text, 1000), *wanted, "row {i}");
    }
}

// 23 bytes, and statements of 13 bytes each.
fn add_calls(text: &mut Vec<u8>, count: usize) -> Result<(), Fail> {
    text.extend_from_slice(b"OPENQASM 2.0;qreg q[2];")?;
    for _ in 0..count {
        text.extend_from_slice(b"CX q[0],q[1];")?;
    }
    Ok(())
}

fn counts_of_calls(alloc: Global, calls: usize) -> Result<Result<[usize; 3], TextError>, Fail> {
    let mut text = Vec::new(alloc);
    add_calls(&mut text, calls)?;
    Ok(counts(alloc, &text, 100_000))
}

#[test]
fn a_million_calls_are_read_and_not_one_more(rt: HostRuntime) -> Result<(), Fail> {
    let read = counts_of_calls(rt.alloc(), 1_000_000)?;
    assert_eq!(rt; read, Ok([2, 1_000_000, 0]));
    let told = counts_of_calls(rt.alloc(), 1_000_001)?;
    let wrong = TextError::Wrong {
        cause: Cause::TooManyGates,
        at: 13_000_023,
    };
    assert_eq!(rt; told, Err(wrong));
    Ok(())
}
