//! Graphs that are reduced, worked by hand.

ghost use Rattle.std.specs.Prelude.{◌≡◌, ◌<◌};
ghost use Rattle.gflow_laws.specs.Flow.{IsFlow};

use super::drawings::{Start, draw, id, is_drawn, no_flow};
use flow_rewrites::{Steps, reduce};
use graph_rewrites::Step;
use open_graph::OpenGraph;
use std::alloc::{AllocError, Global};
use std::marker::Brand;
use std::process::Abort;
use std::sync::ledger::{Blank, Ledger};
use std::test::Fail;
use zx_flow::Flow;
use zx_model::{Scalar, Sixteenth};
use zx_moves::Trace;

fn reduce_counted<L: Ledger>(
    blank: Blank,
    graph: &mut OpenGraph,
    flow: &mut Flow,
    trace: &mut Trace,
) -> Result<Scalar, AllocError>
    requires name { blank.name ≡ L.name }
    requires parts { blank.parts ≡ L.parts }
    requires some { 0 < L.parts }
    requires flow { IsFlow graph.old.graph flow.old.flow }
{
    let mut steps = Steps::<L>::new(blank);
    reduce(graph, flow, trace, &mut steps)
}

// Draws a start and reduces it; the trace gains the steps.
fn draw_and_reduce(
    rt: &impl Abort,
    alloc: Global,
    graph: &mut OpenGraph,
    flow: &mut Flow,
    start: Start,
    trace: &mut Trace,
) -> Result<(), Fail> {
    draw(rt, alloc, graph, flow, start)?;
    reduce_counted::<Brand>(Blank::new(1), graph, flow, trace)?;
    Ok(())
}

fn are_steps(rt: &impl Abort, trace: &Trace, steps: &[Step]) {
    assert!(rt; trace.as_slice() == steps);
}

// By these steps the start is reduced to what is drawn so, where a, b and so on are 0, 1 and so on.
fn reduces(
    rt: &impl Abort,
    alloc: Global,
    start: Start,
    steps: &[Step],
    text: &str,
) -> Result<(), Fail> {
    let mut flow = no_flow(alloc)?;
    let mut graph = OpenGraph::new(alloc);
    has_steps(rt, alloc, &mut graph, &mut flow, start, steps, text)
}

fn has_steps(
    rt: &impl Abort,
    alloc: Global,
    graph: &mut OpenGraph,
    flow: &mut Flow,
    start: Start,
    steps: &[Step],
    text: &str,
) -> Result<(), Fail> {
    let mut trace = Trace::new(alloc);
    draw_and_reduce(rt, alloc, graph, flow, start, &mut trace)?;
    are_steps(rt, &trace, steps);
    is_drawn(rt, alloc, b"abcd", graph, flow, text)
}

#[test]
fn a_quarter_turn_goes(rt: HostRuntime) -> Result<(), Fail> {
    let steps = [Step::LocalComplement(id(0)), Step::Delete(id(0))];
    reduces(&rt, rt.alloc(), Start::PathOfThree, &steps, "CC bc:b>c< bc")
}

#[test]
fn a_pivot_at_the_boundary(rt: HostRuntime) -> Result<(), Fail> {
    let steps = [
        Step::SplitInput(id(0)),
        Step::Pivot(id(1), id(0)),
        Step::Delete(id(1)),
        Step::FuseInto(id(0)),
    ];
    reduces(
        &rt,
        rt.alloc(),
        Start::PathAfterAnEighth,
        &steps,
        "20 cd:d->c< dc",
    )
}

#[test]
fn twins_make_an_edge(rt: HostRuntime) -> Result<(), Fail> {
    let steps = [
        Step::FuseTwin(id(2), id(3)),
        Step::LocalComplement(id(2)),
        Step::Delete(id(2)),
    ];
    let start = Start::Twins(Sixteenth::new(2), Sixteenth::new(2));
    reduces(&rt, rt.alloc(), start, &steps, "44 ab:ab>ab<")
}

#[test]
fn small_gadgets_go(rt: HostRuntime) -> Result<(), Fail> {
    let steps = [Step::DropLone(id(2)), Step::FuseInto(id(1))];
    reduces(&rt, rt.alloc(), Start::SmallGadgets, &steps, "6:a>a<")
}

// The trace gains the steps that reduce a start.
fn traced(rt: &impl Abort, alloc: Global, start: Start, trace: &mut Trace) -> Result<(), Fail> {
    let mut flow = no_flow(alloc)?;
    draw_and_reduce(
        rt,
        alloc,
        &mut OpenGraph::new(alloc),
        &mut flow,
        start,
        trace,
    )
}

// Reduces two graphs with one trace.
fn trace_two(rt: &impl Abort, alloc: Global, trace: &mut Trace) -> Result<(), Fail> {
    trace.reserve(100)?;
    assert!(rt; trace.as_slice().is_empty());
    traced(rt, alloc, Start::PathOfThree, trace)?;
    assert!(rt; trace.spare() >= 98);
    traced(rt, alloc, Start::SmallGadgets, trace)?;
    let steps = [
        Step::LocalComplement(id(0)),
        Step::Delete(id(0)),
        Step::DropLone(id(2)),
        Step::FuseInto(id(1)),
    ];
    are_steps(rt, trace, &steps);
    Ok(())
}

#[test]
fn a_trace_keeps_its_steps(rt: HostRuntime) -> Result<(), Fail> {
    trace_two(&rt, rt.alloc(), &mut Trace::new(rt.alloc()))
}
