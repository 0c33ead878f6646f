use super::drawings::{Drawing, draw};
use std::alloc::AllocError;
use std::process::Abort;
use zx_diagram::{Colour, Diagram, Leg, Spider, Wire};
use zx_model::Sixteenth;

fn spider(colour: Colour, phase: Sixteenth) -> Spider {
    Spider { colour, phase }
}

fn wire(a: usize, b: usize, hadamard: bool) -> Wire {
    Wire { a, b, hadamard }
}

fn leg(spider: usize, hadamard: bool) -> Leg {
    Leg { spider, hadamard }
}

fn add_spiders(rt: &impl Abort, d: &mut Diagram) -> Result<(), AllocError> {
    assert!(rt; d.spiders().is_empty());
    let u = d.add_spider(Colour::Z, Sixteenth::eighth_turn())?;
    let v = d.add_spider(Colour::X, Sixteenth::new(15))?;
    assert!(rt; u == 0 && v == 1);
    Ok(())
}

// Whether the spiders, the edges and the ends are those below, in their order.
fn has_all(d: &Diagram) -> bool {
    let spiders = [
        spider(Colour::Z, Sixteenth::eighth_turn()),
        spider(Colour::X, Sixteenth::new(15)),
    ];
    let edges = [wire(0, 1, false), wire(1, 0, true), wire(0, 0, true)];
    d.spiders() == spiders.as_slice()
        && d.edges() == edges.as_slice()
        && d.inputs() == [leg(0, false), leg(0, true)].as_slice()
        && d.outputs() == [leg(0, true)].as_slice()
}

// Draws a Z spider that has an edge to itself, two inputs and an output, and an X spider with two edges to it.
fn draw_two(rt: &impl Abort, d: &mut Diagram) -> Result<(), AllocError> {
    add_spiders(rt, d)?;
    let edges_and_ends = Drawing {
        spiders: &[],
        edges: &[(0, 1, false), (1, 0, true), (0, 0, true)],
        inputs: &[(0, false), (0, true)],
        outputs: &[(0, true)],
    };
    draw(rt, d, edges_and_ends)?;
    assert!(rt; has_all(d));
    Ok(())
}

#[test]
fn edges_and_ends_come_in_their_order(rt: HostRuntime) -> Result<(), AllocError> {
    draw_two(&rt, &mut Diagram::new(rt.alloc()))
}
