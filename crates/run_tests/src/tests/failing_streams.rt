//! Sources, outputs and error outputs that fail at one call, at each in turn. One call moves 20 bytes.

use super::streams::{Outcome, READ_FAULT, USAGE, has_error_output, has_outcome};
use std::alloc::AllocError;
use std::process::Abort;
use zx_run::{Fault, Status};

// Two T gates, in 63 bytes: four reads, and one that tells the end.
const TEXT: &[u8] = b"OPENQASM 2.0;\ninclude \"qelib1.inc\";\nqreg q[1];\nt q[0];\nt q[0];\n";

// The commands that read a circuit, and what each writes: 55 bytes, so three writes and a flush.
const COMMANDS: [&str; 2] = ["opt", "teleport"];

const WRITTEN: &[u8] = b"OPENQASM 2.0;\ninclude \"qelib1.inc\";\nqreg q[1];\ns q[0];\n";

// A graph of two vertices without an edge, with a table of corrections that isn't a flow.
const NO_FLOW: &[u8] =
    b"zxg 1\nvertex 0 XY 0\nvertex 1 XY 0\ninput 0 plain\noutput 1 plain\nflow\norder 0\ncorrect 0 1\nend\n";

// Where no call fails before the output is written.
const DONE: Outcome = Outcome {
    status: Status::Done,
    out: WRITTEN,
    err: b"",
};

#[test]
fn each_read_that_fails_is_told(rt: HostRuntime) -> Result<(), AllocError> {
    for command in COMMANDS {
        for call in 1..7 {
            let outcome = if call < 6 { READ_FAULT } else { DONE };
            let fails: [&[u64]; 3] = [&[call], &[], &[]];
            let is_so = has_outcome(rt.alloc(), &[command], TEXT, fails, outcome)?;
            assert!(rt; is_so, "{command}, call {call}");
        }
    }
    Ok(())
}

// What is answered where the output takes no more than this.
fn write_fault(out: &[u8]) -> Outcome<'_> {
    Outcome {
        status: Status::WriteFault,
        out,
        err: b"zxopt: write fault\n",
    }
}

#[test]
fn each_write_that_fails_is_told(rt: HostRuntime) -> Result<(), AllocError> {
    // The call that fails: 0, 20, 40 and 55 bytes were taken before; the flush is the fourth.
    let rows = [
        (1, write_fault(b"")),
        (2, write_fault(b"OPENQASM 2.0;\ninclud")),
        (
            3,
            write_fault(b"OPENQASM 2.0;\ninclude \"qelib1.inc\";\nqreg"),
        ),
        (4, write_fault(WRITTEN)),
        (5, DONE),
    ];
    for command in COMMANDS {
        for (call, outcome) in rows {
            let fails: [&[u64]; 3] = [&[], &[call], &[]];
            let is_so = has_outcome(rt.alloc(), &[command], TEXT, fails, outcome)?;
            assert!(rt; is_so, "{command}, call {call}");
        }
    }
    Ok(())
}

#[test]
fn error_outputs_that_fail_change_no_answer(rt: HostRuntime) -> Result<(), AllocError> {
    // The words, the text, the call of the source that fails and that of the output, or 0 where none does, the answer,
    // and its line: of at most 124 bytes, so at most seven writes and a flush.
    let rows: [(&[&str], &[u8], u64, u64, Status, &[u8]); 6] = [
        (&["opt"], TEXT, 0, 0, Status::Done, b""),
        (&["flow"], NO_FLOW, 0, 0, Status::No, b""),
        (
            &["opt"],
            b"x",
            0,
            0,
            Status::Refused(Fault::Syntax { at: 0 }),
            b"zxopt: fault 3 Syntax at 0\n",
        ),
        (&[], b"", 0, 0, Status::Usage, USAGE),
        (
            &["opt"],
            TEXT,
            1,
            0,
            Status::ReadFault,
            b"zxopt: read fault\n",
        ),
        (
            &["opt"],
            TEXT,
            0,
            1,
            Status::WriteFault,
            b"zxopt: write fault\n",
        ),
    ];
    for (i, (words, text, read, write, expected, line)) in rows.into_iter().enumerate() {
        // The call of the error output that fails, and how many bytes were taken before it at most.
        for (call, most) in [
            (1, 0),
            (2, 20),
            (3, 40),
            (4, 60),
            (5, 80),
            (6, 100),
            (7, 120),
            (8, 140),
        ] {
            let fails: [&[u64]; 3] = [&[read], &[write], &[call]];
            let taken = line.get(..most).unwrap_or(line);
            let is_so = has_error_output(rt.alloc(), words, text, fails, expected, taken)?;
            assert!(rt; is_so, "row {i}, call {call}");
        }
    }
    Ok(())
}
