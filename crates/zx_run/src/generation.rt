//! What is written of a circuit that is made from a seed.

ghost use Rattle.std.specs.Prelude.{◌≡◌, ◌≤◌, IfOk};
ghost use Rattle.zx_gates.specs.Circuit.{most_qubits};
ghost use Rattle.zx_gen.specs.Generator.{most_drawn_gates};
ghost use Rattle.zx_run.specs.CircuitTexts.{IsGenerationReport, generation_line};

use crate::output::report_lines;
use std::alloc::{AllocError, Global};
use zx_gates::Qubit;
use zx_gen::generate;
use zx_optimise::optimise;

/// The line of the seed and the numbers of qubits and gates, and the report of the circuit that they
/// give and of the optimised one.
///
/// # Errors
///
/// Only where memory runs out.
pub fn generation_report(
    alloc: Global,
    seed: u64,
    qubits: Qubit,
    gates: u32,
) -> Result<Vec<u8>, AllocError>
    requires some_qubit { 1 ≤ qubits }
    requires few_qubits { qubits ≤ most_qubits }
    requires few_gates { gates ≤ most_drawn_gates }
    ensures { IfOk result (λ output. IsGenerationReport seed qubits gates output.items) }
{
    let read = generate(alloc, seed, qubits, gates)?;
    let optimised = optimise(alloc, &read, false)?;
    let made = optimised.gates;
    let lines = report_lines(alloc, &read, &made)?;
    let mut output = generation_line(alloc, seed, qubits, gates)?;
    output.extend_from_slice(&lines)?;
    Ok(output)
}

// The line of the seed and the numbers of qubits and gates.
fn generation_line(
    alloc: Global,
    seed: u64,
    qubits: Qubit,
    gates: u32,
) -> Result<Vec<u8>, AllocError>
    ensures { IfOk result (λ line. line.items ≡ generation_line seed qubits gates) }
{
    let line = format!(in alloc; "// gen {seed} {qubits} {gates}\n")?;
    Ok(line.into_bytes())
}
