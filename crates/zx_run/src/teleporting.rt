//! From the circuit that is read to what is written for it where its phases alone may change.

ghost use Rattle.std.specs.Prelude.{List, ℕ, IfOk};
ghost use Rattle.zx_gates.specs.Elementary.{IsElementary};
ghost use Rattle.zx_run.specs.FirstFault.{IsAccepted};
ghost use Rattle.zx_run.specs.CircuitTexts.{IsTeleportedText};

use qasm_writer::write_text;
use std::alloc::{AllocError, Global};
use zx_gates::{Elementary, lower};
use zx_teleport::teleport_gates;

/// The text of the circuit with teleported phases, with the measurements behind the one that is read.
///
/// # Errors
///
/// Only where memory runs out.
pub fn teleported_text(alloc: Global, read: &Elementary) -> Result<Vec<u8>, AllocError>
    requires { IsElementary read.now }
    ensures { (text : List ℕ) → IsAccepted text read.now
        → IfOk result (λ output. IsTeleportedText text output.items) }
{
    let lowered = lower(alloc, read)?;
    let gates = teleport_gates(alloc, &lowered.gates)?;
    write_text(alloc, &gates, read.bits, read.measured.as_slice())
}
