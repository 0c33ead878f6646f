//! From the circuit that is read to what is written for it.

ghost use Rattle.std.specs.Prelude.{◌≡◌, ◌++◌, List, ℕ, IfOk, OnOk};
ghost use Rattle.zx_gates.specs.Elementary.{IsElementary};
ghost use Rattle.zx_report.specs.Report.{report_lines};
ghost use Rattle.zx_optimise.specs.Optimising.{counts_of};
ghost use Rattle.zx_run.specs.FirstFault.{IsAccepted};
ghost use Rattle.zx_run.specs.CircuitTexts.{IsOptimisedText, report_if, scalar_if};

use qasm_writer::{text_scalar, write_text};
use std::alloc::{AllocError, Global};
use zx_gates::{Elementary, GateList, counts, lower};
use zx_model::Scalar;
use zx_optimise::optimise;
use zx_report::{report, scalar_line};

/// The text of the optimised circuit with the measurements behind the one that is read, and with a
/// report and the line of the scalar between the two maps where they are asked for.
///
/// # Errors
///
/// Only where memory runs out.
pub fn optimised_text(
    alloc: Global,
    read: &Elementary,
    best: bool,
    reported: bool,
    scaled: bool,
) -> Result<Vec<u8>, AllocError>
    requires { IsElementary read.now }
    ensures { (text : List ℕ) → IsAccepted text read.now
        → IfOk result (λ output. IsOptimisedText best reported scaled text output.items) }
{
    let lowered = lower(alloc, read)?;
    let optimised = optimise(alloc, &lowered.gates, best)?;
    let circuit = optimised.gates;
    let own = text_scalar(&circuit);
    // What `turn` says of a phase: it is below a whole turn.
    prove!(own.turn.get() < 16);
    let scalar = lowered.scalar.times(optimised.scalar).over(own);
    let mut lines = report_if(alloc, reported, &lowered.gates, &circuit)?;
    push_scalar_if(&mut lines, alloc, scaled, &scalar)?;
    let mut output = write_text(alloc, &circuit, read.bits, read.measured.as_slice())?;
    output.extend_from_slice(&lines)?;
    Ok(output)
}

// The report of two circuits where it is asked for, and else nothing.
fn report_if(
    alloc: Global,
    reported: bool,
    read: &GateList,
    made: &GateList,
) -> Result<Vec<u8>, AllocError>
    ensures { IfOk result (λ lines. lines.items
        ≡ report_if reported read.now.gates made.now.gates) }
{
    if !reported {
        return Ok(Vec::new(alloc));
    }
    report_lines(alloc, read, made)
}

/// The lines of how many gates of each kind the circuit has that was read, and the one that was made.
///
/// # Errors
///
/// Only where memory runs out.
pub fn report_lines(alloc: Global, read: &GateList, made: &GateList) -> Result<Vec<u8>, AllocError>
    ensures { IfOk result (λ lines. lines.items
        ≡ report_lines (counts_of read.now.gates) (counts_of made.now.gates)) }
{
    report(alloc, &counts(read), &counts(made))
}

// Adds the line of a scalar where it is asked for, and else nothing.
fn push_scalar_if(
    lines: &mut Vec<u8>,
    alloc: Global,
    asked: bool,
    scalar: &Scalar,
) -> Result<(), AllocError>
    ensures { OnOk result (lines.new.items ≡ lines.old.items ++ scalar_if asked scalar.now) }
{
    if !asked {
        return Ok(());
    }
    let line = scalar_line(alloc, scalar)?;
    lines.extend_from_slice(&line)
}
