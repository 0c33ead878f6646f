//! From the diagram that is read to the text of a circuit for it.

ghost use Rattle.std.specs.Prelude.{◌≡◌, ◌≤◌, ◌++◌, true, List, ℕ, codes, decimal, length, IfOk, OnOk};
ghost use Rattle.std.specs.List.{flat_map};
ghost use Rattle.zx_gates.specs.Circuit.{most_qubits};
ghost use Rattle.zx_run.specs.Compiling.{no_flow_line};
ghost use Rattle.zx_run.specs.DiagramFiles.{IsDiagramFile, IsSquare};
ghost use Rattle.zx_run.specs.Internal.Verdicts.{IsCompilation};

use crate::written::Written;
use itoa::Buffer;
use open_graph::VertexId;
use qasm_writer::write_text;
use std::alloc::{AllocError, Global};
use zx_diagram::Diagram;
use zx_simplify::{Compiled, compile};

/// The text of a circuit for a diagram, or where its graph-like form has no flow, no and the line of
/// the vertices that show it.
///
/// # Errors
///
/// Only where memory runs out.
pub fn compiled_text(alloc: Global, diagram: Diagram) -> Result<Written, AllocError>
    requires square { IsSquare diagram }
    requires few { length diagram.inputs ≤ most_qubits }
    ensures { (text : List ℕ) → IsDiagramFile text diagram
        → IfOk result (λ written. IsCompilation text written.bytes.items written.is_no) }
{
    match compile(alloc, diagram)? {
        Compiled::Circuit(circuit) => {
            let bytes = write_text(alloc, &circuit, 0, &[])?;
            Ok(Written::done(bytes))
        }
        Compiled::NoFlow { left } => {
            let bytes = no_flow_line(alloc, &left)?;
            Ok(Written::no(bytes))
        }
    }
}

// The line that names the vertices that are left.
fn no_flow_line(alloc: Global, left: &[VertexId]) -> Result<Vec<u8>, AllocError>
    ensures { IfOk result (λ line. line.items ≡ no_flow_line left.now) }
{
    let mut line = Vec::new(alloc);
    line.extend_from_slice(b"no flow")?;
    for v in left {
        push_vertex(&mut line, *v)?;
    }
    line.extend_from_slice(b"\n")?;
    Ok(line)
}

// Adds a vertex after a space.
fn push_vertex(line: &mut Vec<u8>, v: VertexId) -> Result<(), AllocError>
    ensures { OnOk result (line.new.items ≡ line.old.items ++ (codes " " ++ decimal v)) }
{
    let mut buffer = Buffer::new();
    line.push(b' ')?;
    line.extend_from_slice(buffer.format(v.get()).as_bytes())?;
    Ok(())
}
