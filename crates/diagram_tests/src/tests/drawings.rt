//! Diagrams that are drawn from lists.

use std::alloc::{AllocError, Global};
use std::process::Abort;
use zx_diagram::{Colour, Diagram};
use zx_model::Sixteenth;

// Spiders, edges between them and their ends. An edge or an end with `true` has a Hadamard gate.
#[derive(Clone, Copy)]
pub struct Drawing<'a> {
    pub spiders: &'a [(Colour, Sixteenth)],
    pub edges: &'a [(usize, usize, bool)],
    pub inputs: &'a [(usize, bool)],
    pub outputs: &'a [(usize, bool)],
}

// The diagram of a drawing.
pub fn drawn(rt: &impl Abort, alloc: Global, drawing: Drawing<'_>) -> Result<Diagram, AllocError> {
    let mut d = Diagram::new(alloc);
    draw(rt, &mut d, drawing)?;
    Ok(d)
}

// Adds a drawing to a diagram.
pub fn draw(rt: &impl Abort, d: &mut Diagram, drawing: Drawing<'_>) -> Result<(), AllocError> {
    for (colour, phase) in drawing.spiders {
        d.add_spider(*colour, *phase)?;
    }
    draw_edges(rt, d, drawing.edges)?;
    draw_ends(rt, d, drawing)
}

pub fn draw_edges(
    rt: &impl Abort,
    d: &mut Diagram,
    edges: &[(usize, usize, bool)],
) -> Result<(), AllocError> {
    for (a, b, hadamard) in edges {
        let count = d.spiders().len();
        assert!(rt; *a < count && *b < count);
        d.add_edge(*a, *b, *hadamard)?;
    }
    Ok(())
}

fn draw_ends(rt: &impl Abort, d: &mut Diagram, drawing: Drawing<'_>) -> Result<(), AllocError> {
    for (spider, hadamard) in drawing.inputs {
        assert!(rt; *spider < d.spiders().len());
        d.add_input(*spider, *hadamard)?;
    }
    for (spider, hadamard) in drawing.outputs {
        assert!(rt; *spider < d.spiders().len());
        d.add_output(*spider, *hadamard)?;
    }
    Ok(())
}
