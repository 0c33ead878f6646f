//! Worked words of the command line.

use std::alloc::AllocError;
use zx_words::{Command, command_in};

// The command `opt` with these flags.
fn optimise(best: bool, report: bool, scalar: bool) -> Option<Command> {
    Some(Command::Optimise {
        best,
        report,
        scalar,
    })
}

#[test]
fn words_of_commands(rt: HostRuntime) -> Result<(), AllocError> {
    let generate = Some(Command::Generate {
        seed: 18446744073709551615,
        qubits: 1024,
        gates: 1000000,
    });
    let rows: [(&[&str], Option<Command>); 10] = [
        (&["opt"], optimise(false, false, false)),
        (&["opt", "--best"], optimise(true, false, false)),
        (&["opt", "--best", "--report"], optimise(true, true, false)),
        (&["opt", "--report", "--best"], optimise(true, true, false)),
        (&["opt", "--scalar"], optimise(false, false, true)),
        (&["opt", "--scalar", "--"], optimise(false, false, true)),
        (
            &["opt", "--report", "--scalar", "--best"],
            optimise(true, true, true),
        ),
        (
            &["gen", "18446744073709551615", "1024", "1000000"],
            generate,
        ),
        (&["teleport"], Some(Command::Teleport)),
        (&["teleport", "--"], Some(Command::Teleport)),
    ];
    for (words, command) in rows {
        assert_eq!(rt; command_in(rt.alloc(), words)?, command);
    }
    Ok(())
}

#[test]
fn other_words(rt: HostRuntime) -> Result<(), AllocError> {
    let none: [&[&str]; 22] = [
        &[],
        &["help"],
        &["-h"],
        &["--help"],
        &["--version"],
        &["opt", "x"],
        &["opt", "--best", "--best"],
        &["opt", "--scalar", "--best", "--scalar"],
        &["opt", "--scalar=true"],
        &["opt", "--", "--scalar"],
        &["opt", "--best=true"],
        &["opt", "--help"],
        &["opt", "help"],
        &["teleport", "x"],
        &["teleport", "--report"],
        &["gen", "1", "0", "5"],
        &["gen", "1", "1025", "0"],
        &["gen", "01", "1", "5"],
        &["gen", "+1", "1", "5"],
        &["gen", "1", "1"],
        &["gen", "18446744073709551616", "1", "1"],
        &["gen", "1", "1", "1", "1"],
    ];
    for words in none {
        assert_eq!(rt; command_in(rt.alloc(), words)?, None);
    }
    Ok(())
}
