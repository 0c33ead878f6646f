//! Rewrites of small graphs with their flows, drawn by hand.

use super::drawings::{Start, draw, id, is_drawn, no_flow, odd_phases};
use flow_rewrites::apply;
use graph_rewrites::Step;
use open_graph::OpenGraph;
use std::alloc::Global;
use std::process::Abort;
use std::test::Fail;
use zx_flow::Flow;
use zx_model::Sixteenth;

// Each step makes of the graph before it the graph that is drawn so.
fn follows(
    rt: &impl Abort,
    alloc: Global,
    start: Start,
    names: &[u8],
    rows: &[(Step, &str)],
) -> Result<(), Fail> {
    let mut flow = no_flow(alloc)?;
    let mut graph = OpenGraph::new(alloc);
    draw_and_follow(rt, alloc, &mut graph, &mut flow, start, names, rows)
}

fn draw_and_follow(
    rt: &impl Abort,
    alloc: Global,
    graph: &mut OpenGraph,
    flow: &mut Flow,
    start: Start,
    names: &[u8],
    rows: &[(Step, &str)],
) -> Result<(), Fail> {
    draw(rt, alloc, graph, flow, start)?;
    for (step, text) in rows {
        apply(graph, flow, *step)?;
        is_drawn(rt, alloc, names, graph, flow, text)?;
    }
    Ok(())
}

#[test]
fn both_ends_of_a_wire_are_split(rt: HostRuntime) -> Result<(), Fail> {
    let alloc = rt.alloc();
    let start = Start::Wire(Sixteenth::new(2), false, true);
    let rows = [
        (Step::SplitInput(id(0)), "20 ab:b->a-< ba"),
        (Step::SplitOutput(id(0)), "200 ab ac:b->c< ba ac"),
    ];
    follows(&rt, alloc, start, b"abc", &rows)?;

    let start = Start::Wire(Sixteenth::new(0), true, false);
    let rows = [
        (Step::SplitOutput(id(0)), "00 ab:a->b-< ab"),
        (Step::SplitInput(id(0)), "000 ab ac:c>b-< ca ab"),
    ];
    follows(&rt, alloc, start, b"abc", &rows)
}

#[test]
fn the_middle_of_a_path_is_deleted(rt: HostRuntime) -> Result<(), Fail> {
    let rows = [
        (Step::LocalComplement(id(0)), "X844 ba bc ac:a>c< ab bbc"),
        (Step::Delete(id(0)), "CC ac:a>c< ac"),
    ];
    follows(&rt, rt.alloc(), Start::PathOfThree, b"bac", &rows)
}

fn complement() -> Step {
    Step::LocalComplement(id(0))
}

// The second and the fourth are about an XZ vertex.
#[test]
fn four_local_complements(rt: HostRuntime) -> Result<(), Fail> {
    let rows = [
        (complement(), "X844 ba bc ac:a>c< ab bbc"),
        (complement(), "C88 ba bc:a>c< ab bc"),
        (complement(), "X0CC ba bc ac:a>c< ab bbc"),
        (complement(), "400 ba bc:a>c< ab bc"),
    ];
    follows(&rt, rt.alloc(), Start::PathOfThree, b"bac", &rows)
}

// The third local complement is about a YZ vertex. In planes and edges the three are a pivot.
#[test]
fn two_in_the_middle(rt: HostRuntime) -> Result<(), Fail> {
    let rows = [
        (
            Step::LocalComplement(id(1)),
            "4X440 ab ac bc cd:a>d< ab bbc cd",
        ),
        (
            Step::LocalComplement(id(2)),
            "8YCX84 ac ad bc bd cd:a>d< abd bbcd ccd",
        ),
        (
            Step::LocalComplement(id(1)),
            "8Y8Y88 ac ad bc bd:a>d< abc bbcd ccd",
        ),
        (Step::Delete(id(1)), "8Y80 ac ad:a>d< ad ccd"),
        (Step::Delete(id(2)), "00 ad:a>d< ad"),
    ];
    follows(&rt, rt.alloc(), Start::PathOfFour, b"abcd", &rows)
}

fn pivot() -> Step {
    Step::Pivot(id(1), id(2))
}

// Between two XY vertices, and back between two YZ vertices. A path has more flows than one.
#[test]
fn two_pivots(rt: HostRuntime) -> Result<(), Fail> {
    let rows = [
        (pivot(), "0Y0Y00 ac ad bc bd:a>d< abc bbcd ccd"),
        (pivot(), "0000 ab bc cd:a>d< abd bcd cd"),
    ];
    follows(&rt, rt.alloc(), Start::PathOfFour, b"abcd", &rows)
}

// Between an XZ and an XY vertex of a quarter turn each; vertex a is adjacent to both.
#[test]
fn a_common_neighbour(rt: HostRuntime) -> Result<(), Fail> {
    let rows = [
        (
            Step::LocalComplement(id(1)),
            "4X440 ab ac bc cd:a>d< ab bbc cd",
        ),
        (
            Step::Pivot(id(1), id(2)),
            "CX0Y40 ab ac ad bc bd:a>d< abcd bbc ccd",
        ),
    ];
    follows(&rt, rt.alloc(), Start::PathOfFour, b"abcd", &rows)
}

#[test]
fn twins_are_fused(rt: HostRuntime) -> Result<(), Fail> {
    let start = Start::Twins(Sixteenth::new(2), Sixteenth::new(2));
    let rows = [(Step::FuseTwin(id(2), id(3)), "00Y4 ac bc:ab>ab< cc")];
    follows(&rt, rt.alloc(), start, b"abcd", &rows)
}

// Twins of two odd phases are fused to the graph that is drawn so, with so many odd phases.
fn odd_twins_make(
    rt: &impl Abort,
    alloc: Global,
    start: Start,
    text: &str,
    odd: usize,
) -> Result<(), Fail> {
    let mut flow = no_flow(alloc)?;
    let mut graph = OpenGraph::new(alloc);
    fuse_odd_twins(rt, alloc, &mut graph, &mut flow, start, text, odd)
}

fn fuse_odd_twins(
    rt: &impl Abort,
    alloc: Global,
    graph: &mut OpenGraph,
    flow: &mut Flow,
    start: Start,
    text: &str,
    odd: usize,
) -> Result<(), Fail> {
    draw(rt, alloc, graph, flow, start)?;
    assert!(rt; odd_phases(graph) == 2);
    apply(graph, flow, Step::FuseTwin(id(2), id(3)))?;
    assert!(rt; odd_phases(graph) == odd);
    is_drawn(rt, alloc, b"abcd", graph, flow, text)
}

#[test]
fn odd_twins_of_an_even_sum(rt: HostRuntime) -> Result<(), Fail> {
    let start = Start::Twins(Sixteenth::new(1), Sixteenth::new(3));
    odd_twins_make(&rt, rt.alloc(), start, "00Y4 ac bc:ab>ab< cc", 0)
}

#[test]
fn odd_twins_of_an_odd_sum(rt: HostRuntime) -> Result<(), Fail> {
    let start = Start::Twins(Sixteenth::new(1), Sixteenth::new(1));
    odd_twins_make(&rt, rt.alloc(), start, "00Y2 ac bc:ab>ab< cc", 1)
}

#[test]
fn small_gadgets_are_taken_out(rt: HostRuntime) -> Result<(), Fail> {
    let rows = [(Step::DropLone(id(2)), "0Y6 ab:a>a< bb")];
    follows(&rt, rt.alloc(), Start::SmallGadgets, b"abc", &rows)?;
    let rows = [(Step::FuseInto(id(1)), "6YA:a>a< cc")];
    follows(&rt, rt.alloc(), Start::SmallGadgets, b"abc", &rows)
}
