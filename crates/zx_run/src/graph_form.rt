//! From the diagram that is read to the file of its graph-like form.

ghost use Rattle.std.specs.Prelude.{List, ℕ, IfOk};
ghost use Rattle.zx_run.specs.DiagramFiles.{IsDiagramFile, IsGraphText};

use graph_like::graph_like;
use std::alloc::{AllocError, Global};
use zx_diagram::Diagram;
use zx_text::write_graph;

/// The file of the graph-like form of a diagram, without a flow.
///
/// # Errors
///
/// Only where memory runs out.
pub fn graph_text(alloc: Global, diagram: Diagram) -> Result<Vec<u8>, AllocError>
    ensures { (text : List ℕ) → IsDiagramFile text diagram
        → IfOk result (λ output. IsGraphText text output.items) }
{
    let form = graph_like(alloc, diagram)?;
    write_graph(alloc, &form, None)
}
