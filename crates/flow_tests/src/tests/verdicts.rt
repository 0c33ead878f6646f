//! Verdicts on small graphs, worked out by hand.

use super::drawing::{APART, BESIDE_AN_OUTPUT, Drawing, SHARED_OUTPUT, draw, id};
use super::tables::{BOTH, ITSELF, OUTPUT, fill, said_of};
use flow_check::{Condition, Verdict};
use open_graph::{OpenGraph, Plane};
use std::alloc::Global;
use std::process::Abort;
use std::test::Fail;
use zx_flow::FlowTable;

// A verdict is the one that is wanted.
fn equals(rt: &impl Abort, verdict: Verdict, wanted: Verdict) {
    assert_eq!(rt; verdict, wanted);
}

// This is said of a graph and a table, of pairs of a vertex and a member of its set, once both are filled in.
fn is_said(
    rt: &impl Abort,
    alloc: Global,
    graph: &mut OpenGraph,
    table: &mut FlowTable,
    drawing: &Drawing<'_>,
    corrections: &[(usize, usize)],
    wanted: Verdict,
) -> Result<(), Fail> {
    draw(rt, graph, drawing)?;
    fill(rt, table, corrections)?;
    equals(rt, said_of(rt, alloc, graph, table)?, wanted);
    Ok(())
}

fn gives(
    rt: &impl Abort,
    alloc: Global,
    drawing: &Drawing<'_>,
    corrections: &[(usize, usize)],
    wanted: Verdict,
) -> Result<(), Fail> {
    let mut graph = OpenGraph::new(alloc);
    let mut table = FlowTable::new(alloc);
    is_said(
        rt,
        alloc,
        &mut graph,
        &mut table,
        drawing,
        corrections,
        wanted,
    )
}

fn fails(vertex: usize, condition: Condition) -> Verdict {
    Verdict::Fails {
        vertex: id(vertex),
        condition,
    }
}

#[test]
fn two_ends_need_an_edge(rt: HostRuntime) -> Result<(), Fail> {
    let corrections = [(0, 1)];
    gives(
        &rt,
        rt.alloc(),
        &APART,
        &corrections,
        fails(0, Condition::XY),
    )?;
    let joined = Drawing {
        edges: &[(0, 1)],
        ..APART
    };
    gives(&rt, rt.alloc(), &joined, &corrections, Verdict::Flow)
}

#[test]
fn a_path_has_a_flow(rt: HostRuntime) -> Result<(), Fail> {
    let drawing = Drawing {
        planes: &[Plane::XY, Plane::XY, Plane::XY],
        edges: &[(0, 1), (1, 2)],
        inputs: &[0],
        outputs: &[2],
    };
    gives(&rt, rt.alloc(), &drawing, &[(0, 1), (1, 2)], Verdict::Flow)
}

// Two gadgets with the same neighbours, each of which has an input and an output.
#[test]
fn twin_gadgets_correct_themselves(rt: HostRuntime) -> Result<(), Fail> {
    let drawing = Drawing {
        planes: &[Plane::XY, Plane::XY, Plane::YZ, Plane::YZ],
        edges: &[(0, 2), (0, 3), (1, 2), (1, 3)],
        inputs: &[0, 1],
        outputs: &[0, 1],
    };
    gives(&rt, rt.alloc(), &drawing, &[(2, 2), (3, 3)], Verdict::Flow)
}

// A gadget with a single neighbour, and one without.
#[test]
fn small_gadgets_correct_themselves(rt: HostRuntime) -> Result<(), Fail> {
    let drawing = Drawing {
        planes: &[Plane::XY, Plane::YZ, Plane::YZ],
        edges: &[(0, 1)],
        inputs: &[0],
        outputs: &[0],
    };
    gives(&rt, rt.alloc(), &drawing, &[(1, 1), (2, 2)], Verdict::Flow)
}

// A vertex beside an output that is an input too.
#[test]
fn an_input_is_no_member(rt: HostRuntime) -> Result<(), Fail> {
    let drawing = Drawing {
        planes: &[Plane::XY, Plane::XY],
        edges: &[(0, 1)],
        inputs: &[1],
        outputs: &[1],
    };
    let wanted = fails(0, Condition::Input);
    gives(&rt, rt.alloc(), &drawing, &[(0, 1)], wanted)
}

// Two adjacent vertices, each corrected by the other.
#[test]
fn a_member_comes_after(rt: HostRuntime) -> Result<(), Fail> {
    let pair = Drawing {
        planes: &[Plane::XY, Plane::XY],
        edges: &[(0, 1)],
        inputs: &[],
        outputs: &[],
    };
    let corrections = [(0, 1), (1, 0)];
    gives(
        &rt,
        rt.alloc(),
        &pair,
        &corrections,
        fails(1, Condition::Order),
    )?;

    // Where the member is an input besides, that is said first.
    let with_input = Drawing {
        inputs: &[0],
        ..pair
    };
    gives(
        &rt,
        rt.alloc(),
        &with_input,
        &corrections,
        fails(1, Condition::Input),
    )
}

#[test]
fn an_odd_neighbour_comes_after(rt: HostRuntime) -> Result<(), Fail> {
    let graph = SHARED_OUTPUT;
    let wanted = fails(1, Condition::Odd);
    gives(&rt, rt.alloc(), &graph, &[(0, 3), (1, 2)], wanted)?;
    gives(&rt, rt.alloc(), &graph, &[(1, 2), (0, 3)], Verdict::Flow)
}

#[test]
fn each_plane_has_its_set(rt: HostRuntime) -> Result<(), Fail> {
    for (plane, corrections) in &[(Plane::XY, OUTPUT), (Plane::XZ, BOTH), (Plane::YZ, ITSELF)] {
        let drawing = Drawing {
            planes: &[*plane, Plane::XY],
            ..BESIDE_AN_OUTPUT
        };
        gives(&rt, rt.alloc(), &drawing, *corrections, Verdict::Flow)?;
    }
    Ok(())
}

#[test]
fn each_plane_needs_its_set(rt: HostRuntime) -> Result<(), Fail> {
    let rows = [
        (Plane::XY, BOTH, Condition::XY),
        (Plane::XZ, ITSELF, Condition::XZ),
        (Plane::YZ, BOTH, Condition::YZ),
    ];
    for (plane, corrections, condition) in &rows {
        let drawing = Drawing {
            planes: &[*plane, Plane::XY],
            ..BESIDE_AN_OUTPUT
        };
        gives(
            &rt,
            rt.alloc(),
            &drawing,
            *corrections,
            fails(0, *condition),
        )?;
    }
    Ok(())
}

// No edges: neither vertex is corrected, and 1 comes first.
#[test]
fn the_first_in_the_order_is_named(rt: HostRuntime) -> Result<(), Fail> {
    let drawing = Drawing {
        planes: &[Plane::XY, Plane::XY, Plane::XY],
        edges: &[],
        inputs: &[],
        outputs: &[2],
    };
    let wanted = fails(1, Condition::XY);
    gives(&rt, rt.alloc(), &drawing, &[(1, 2), (0, 2)], wanted)
}
