//! Steps that are refused on a path of three, drawn by hand.

use super::drawings::{Start, draw, id, is_drawn, is_text, no_flow};
use flow_rewrites::{StepRefused, apply};
use graph_rewrites::Step;
use open_graph::OpenGraph;
use std::alloc::Global;
use std::process::Abort;
use std::test::Fail;
use zx_flow::Flow;

// A step on the path is refused, and the path stays as it was.
fn refused(rt: &impl Abort, alloc: Global, step: Step) -> Result<(), Fail> {
    let mut flow = no_flow(alloc)?;
    let mut graph = OpenGraph::new(alloc);
    draw_and_refuse(rt, alloc, &mut graph, &mut flow, step)
}

fn draw_and_refuse(
    rt: &impl Abort,
    alloc: Global,
    graph: &mut OpenGraph,
    flow: &mut Flow,
    step: Step,
) -> Result<(), Fail> {
    draw(rt, alloc, graph, flow, Start::PathOfThree)?;
    let answer = apply(graph, flow, step);
    assert!(rt; matches!(answer, Err(StepRefused::NotAllowed)));
    is_drawn(rt, alloc, b"bac", graph, flow, "400 ba bc:a>c< ab bc")
}

#[test]
fn steps_are_refused(rt: HostRuntime) -> Result<(), Fail> {
    // The path: the vertex with the input, the middle, and the vertex with the output.
    let (a, b, c) = (id(1), id(0), id(2));

    // The ends of the path are neither interior nor adjacent.
    refused(&rt, rt.alloc(), Step::Pivot(a, c))?;
    refused(&rt, rt.alloc(), Step::LocalComplement(a))?;

    // An XY vertex isn't deleted, and c has no input.
    refused(&rt, rt.alloc(), Step::Delete(b))?;
    refused(&rt, rt.alloc(), Step::SplitInput(c))?;

    // There is no such vertex.
    refused(&rt, rt.alloc(), Step::Delete(id(3)))
}

// A refusal is told so.
fn says(rt: &impl Abort, alloc: Global, refused: StepRefused, wanted: &str) -> Result<(), Fail> {
    let told = format!(in alloc; "{refused}")?;
    is_text(rt, told.as_bytes(), wanted);
    Ok(())
}

#[test]
fn refusals_say_why(rt: HostRuntime) -> Result<(), Fail> {
    let alloc = rt.alloc();
    says(
        &rt,
        alloc,
        StepRefused::NotAllowed,
        "the step isn't allowed",
    )?;
    says(&rt, alloc, StepRefused::NoMemory, "no memory")
}

// A rewrite leaves a flow its room where the graph has none.
fn room_of_flow(
    rt: &impl Abort,
    alloc: Global,
    graph: &mut OpenGraph,
    flow: &mut Flow,
) -> Result<(), Fail> {
    draw(rt, alloc, graph, flow, Start::PathOfThree)?;
    flow.reserve(50)?;
    let spare = flow.spare();
    let reach = flow.reach();
    apply(graph, flow, Step::LocalComplement(id(0)))?;
    assert!(rt; flow.spare() == spare);
    assert!(rt; flow.reach() == reach);
    Ok(())
}

#[test]
fn room_of_a_flow_stays(rt: HostRuntime) -> Result<(), Fail> {
    let alloc = rt.alloc();
    let mut flow = no_flow(alloc)?;
    let mut graph = OpenGraph::new(alloc);
    room_of_flow(&rt, alloc, &mut graph, &mut flow)
}
