use super::drawings::{Drawing, draw_edges, drawn};
use graph_like::least_spiders;
use std::alloc::{AllocError, Global};
use std::process::Abort;
use zx_diagram::{Colour, Diagram};
use zx_model::Sixteenth;

// The least spiders of the classes of a Z spider, three X spiders and a Z spider, with these edges between them.
fn classes(
    rt: &impl Abort,
    alloc: Global,
    edges: &[(usize, usize, bool)],
) -> Result<Vec<usize>, AllocError> {
    let zero = Sixteenth::new(0);
    let drawing = Drawing {
        spiders: &[
            (Colour::Z, zero),
            (Colour::X, zero),
            (Colour::X, zero),
            (Colour::X, zero),
            (Colour::Z, zero),
        ],
        edges,
        inputs: &[],
        outputs: &[],
    };
    let d = drawn(rt, alloc, drawing)?;
    least_spiders(alloc, &d)
}

// Plain edges join spiders of one colour, Hadamard edges those of two: 0 and 3, and 1 with 2 and 4.
#[test]
fn colours_count(rt: HostRuntime) -> Result<(), AllocError> {
    let edges = [
        (0, 1, false),
        (3, 0, true),
        (4, 2, true),
        (2, 1, false),
        (3, 2, true),
        (1, 1, false),
    ];
    let least = classes(&rt, rt.alloc(), &edges)?;
    assert!(rt; least.as_slice() == [0, 1, 1, 0, 1].as_slice());
    Ok(())
}

// Draws a chain of plain edges in which neighbours have far numbers.
fn draw_chain(rt: &impl Abort, d: &mut Diagram) -> Result<(), AllocError> {
    for _ in 0..10_000 {
        d.add_spider(Colour::Z, Sixteenth::new(1))?;
    }
    for i in 0..9_999 {
        let edge = (i * 3_333 % 10_000, (i + 1) * 3_333 % 10_000, false);
        draw_edges(rt, d, &[edge])?;
    }
    Ok(())
}

// The least spiders of its classes.
fn chain_classes(rt: &impl Abort, alloc: Global) -> Result<Vec<usize>, AllocError> {
    let mut d = Diagram::new(alloc);
    draw_chain(rt, &mut d)?;
    least_spiders(alloc, &d)
}

// Whether all spiders are in the class of the first.
fn is_one_class(least: &[usize]) -> bool {
    for u in least {
        if *u != 0 {
            return false;
        }
    }
    true
}

#[test]
fn a_long_chain_is_one_class(rt: HostRuntime) -> Result<(), AllocError> {
    let least = chain_classes(&rt, rt.alloc())?;
    assert!(rt; is_one_class(&least));
    Ok(())
}
