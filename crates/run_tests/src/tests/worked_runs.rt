//! The bytes of worked examples.

use super::streams::{Outcome, USAGE, has_outcome};
use std::alloc::AllocError;
use zx_run::{Fault, Status};

#[test]
fn worked_runs_write_these_bytes(rt: HostRuntime) -> Result<(), AllocError> {
    // The words, the text, the answer, and what the output and the error output get. Two T are one S; the numbers of
    // gates are counted by hand.
    let rows: [(&[&str], &[u8], Status, &[u8], &[u8]); 14] = [
        (
            &["opt"],
            b"OPENQASM 2.0;\ninclude \"qelib1.inc\";\nqreg q[1];\nt q[0];\nt q[0];\n",
            Status::Done,
            b"OPENQASM 2.0;\ninclude \"qelib1.inc\";\nqreg q[1];\ns q[0];\n",
            b"",
        ),
        (
            &["opt", "--report", "--best"],
            b"OPENQASM 2.0;\ninclude \"qelib1.inc\";\nqreg q[1];\nt q[0];\nt q[0];\n",
            Status::Done,
            b"OPENQASM 2.0;\ninclude \"qelib1.inc\";\nqreg q[1];\ns q[0];\n// read gates 2 odd 2 two-qubit 0 h 0 phase 2 cz 0 cx 0 not 0\n// written gates 1 odd 0 two-qubit 0 h 0 phase 1 cz 0 cx 0 not 0\n",
            b"",
        ),
        (
            &["opt", "--scalar"],
            b"OPENQASM 2.0;\ninclude \"qelib1.inc\";\nqreg q[1];\nh q[0]; h q[0];",
            Status::Done,
            b"OPENQASM 2.0;\ninclude \"qelib1.inc\";\nqreg q[1];\n// scalar root2 4 turn 4\n",
            b"",
        ),
        (
            &["opt", "--scalar", "--best"],
            b"OPENQASM 2.0;\ninclude \"qelib1.inc\";\nqreg q[1];\nt q[0]; t q[0];",
            Status::Done,
            b"OPENQASM 2.0;\ninclude \"qelib1.inc\";\nqreg q[1];\ns q[0];\n// scalar root2 2 turn 0\n",
            b"",
        ),
        (
            &["opt", "--scalar"],
            b"OPENQASM 2.0;\ninclude \"qelib1.inc\";\nqreg q[1];\nx q[0];",
            Status::Done,
            b"OPENQASM 2.0;\ninclude \"qelib1.inc\";\nqreg q[1];\nx q[0];\n// scalar root2 0 turn 0\n",
            b"",
        ),
        (
            &["opt", "--scalar"],
            b"OPENQASM 2.0; qreg q[1]; U(pi/2,0,pi) q[0];",
            Status::Done,
            b"OPENQASM 2.0;\ninclude \"qelib1.inc\";\nqreg q[1];\nh q[0];\n// scalar root2 0 turn 0\n",
            b"",
        ),
        (
            &["gen", "7", "1", "0"],
            b"",
            Status::Done,
            b"// gen 7 1 0\n// read gates 0 odd 0 two-qubit 0 h 0 phase 0 cz 0 cx 0 not 0\n// written gates 0 odd 0 two-qubit 0 h 0 phase 0 cz 0 cx 0 not 0\n",
            b"",
        ),
        (
            &["opt"],
            b"OPENQASM 2.0;\ninclude \"other.inc\";\n",
            Status::Refused(Fault::Include { at: 14 }),
            b"",
            b"zxopt: fault 5 Include at 14\n",
        ),
        (
            &["opt"],
            b"OPENQASM 2.0;\ninclude \"qelib1.inc\";\nqreg q[1]; creg c[1]; measure q[0] -> c[0];",
            Status::Done,
            b"OPENQASM 2.0;\ninclude \"qelib1.inc\";\nqreg q[1];\ncreg c[1];\nmeasure q[0] -> c[0];\n",
            b"",
        ),
        (
            &["opt"],
            b"OPENQASM 2.0;\ninclude \"qelib1.inc\";\nqreg q[1]; creg c[1]; measure q[0] -> c[0]; h q[0];",
            Status::Refused(Fault::AfterMeasure { at: 80 }),
            b"",
            b"zxopt: fault 22 AfterMeasure at 80\n",
        ),
        (
            &["teleport"],
            b"OPENQASM 2.0;\ninclude \"qelib1.inc\";\nqreg q[1];\nt q[0];\nt q[0];\n",
            Status::Done,
            b"OPENQASM 2.0;\ninclude \"qelib1.inc\";\nqreg q[1];\ns q[0];\n",
            b"",
        ),
        (
            &["teleport"],
            b"OPENQASM 2.0;\ninclude \"qelib1.inc\";\nqreg q[1];\ncreg c[1];\nt q[0]; h q[0]; h q[0]; t q[0]; measure q[0] -> c[0];",
            Status::Done,
            b"OPENQASM 2.0;\ninclude \"qelib1.inc\";\nqreg q[1];\ncreg c[1];\ns q[0];\nh q[0];\nh q[0];\nmeasure q[0] -> c[0];\n",
            b"",
        ),
        (
            &["teleport"],
            b"OPENQASM 2.0;\ninclude \"qelib1.inc\";\nqreg q[1]; @",
            Status::Refused(Fault::BadByte { at: 47 }),
            b"",
            b"zxopt: fault 2 BadByte at 47\n",
        ),
        (&["Opt"], b"", Status::Usage, b"", USAGE),
    ];
    for (i, (words, text, status, out, err)) in rows.into_iter().enumerate() {
        let outcome = Outcome { status, out, err };
        let is_so = has_outcome(rt.alloc(), words, text, [&[], &[], &[]], outcome)?;
        assert!(rt; is_so, "row {i}");
    }
    Ok(())
}
