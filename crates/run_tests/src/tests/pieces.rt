//! Texts that come in pieces.

use super::streams::{Outcome, READ_FAULT, has_outcome_in_pieces, is_same_in_pieces};
use std::alloc::AllocError;
use zx_run::{Fault, Status};

// A text whose last byte is a fault.
const REFUSED: &[u8] = b"OPENQASM 2.0;\ninclude \"qelib1.inc\";\nqreg q[1];\n@";

#[test]
fn pieces_change_no_output(rt: HostRuntime) -> Result<(), AllocError> {
    let words = ["opt", "--report"];
    let text = b"OPENQASM 2.0;\ninclude \"qelib1.inc\";\nqreg q[3];\nccx q[0],q[1],q[2];\n";
    for piece in [1usize, 7] {
        assert!(rt; is_same_in_pieces(rt.alloc(), &words, text, piece.max(1))?);
    }
    Ok(())
}

#[test]
fn pieces_change_no_refusal(rt: HostRuntime) -> Result<(), AllocError> {
    let outcome = Outcome {
        status: Status::Refused(Fault::BadByte { at: 47 }),
        out: b"",
        err: b"zxopt: fault 2 BadByte at 47\n",
    };
    let none: [&[u64]; 3] = [&[], &[], &[]];
    for piece in [1usize, 7, 100] {
        let is_so = has_outcome_in_pieces(
            rt.alloc(),
            &["opt"],
            REFUSED,
            piece.max(1),
            none,
            outcome,
        )?;
        assert!(rt; is_so, "in pieces of {piece}");
    }
    Ok(())
}

#[test]
fn a_read_fault_comes_before_a_refusal(rt: HostRuntime) -> Result<(), AllocError> {
    // The first read gives the whole text; the second one fails.
    let fails: [&[u64]; 3] = [&[2], &[], &[]];
    assert!(rt; has_outcome_in_pieces(rt.alloc(), &["opt"], REFUSED, 48, fails, READ_FAULT)?);
    Ok(())
}
