//! Graphs of circuits after drawn rewrites, whose flows are thrown away and looked for again.

ghost use Rattle.gflow_laws.specs.Flow.{IsFlow};

use super::teleported::{draw, drawn};
use super::trips::rewrite;
use circuit_graph::translate;
use flow_find::{Found, find};
use graph_rewrites::Step;
use open_graph::{OpenGraph, VertexId};
use std::alloc::Global;
use std::process::Abort;
use std::test::Fail;
use zx_flow::Flow;
use zx_gates::GateList;

// A step at vertices of low ids, which may be allowed or not.
fn drawn_step(seed: &mut u64) -> Step {
    let u = VertexId::new(draw(seed, 14) as usize);
    let v = VertexId::new(draw(seed, 14) as usize);
    match draw(seed, 8) {
        0 => Step::LocalComplement(u),
        1 => Step::Delete(u),
        2 => Step::SplitInput(u),
        3 => Step::SplitOutput(u),
        4 => Step::DropLone(u),
        5 => Step::FuseInto(u),
        6 => Step::FuseTwin(u, v),
        _ => Step::Pivot(u, v),
    }
}

// How many of the steps are allowed, one after the other. After each that is, the graph still has a flow.
fn steps_done(
    rt: &impl Abort,
    alloc: Global,
    circuit: &GateList,
    steps: &[Step],
) -> Result<u64, Fail> {
    let made = translate(alloc, circuit)?;
    let mut graph = made.graph;
    let mut flow = made.flow;
    steps_done_on(rt, alloc, &mut graph, &mut flow, steps)
}

// The same of a graph with its flow, on which they are done.
fn steps_done_on(
    rt: &impl Abort,
    alloc: Global,
    graph: &mut OpenGraph,
    flow: &mut Flow,
    steps: &[Step],
) -> Result<u64, Fail>
    requires { IsFlow graph.old.graph flow.old.flow }
{
    let mut done = 0u64;
    for step in steps {
        if step.is_allowed(graph) {
            rewrite(graph, flow, *step)?;
            assert!(rt; has_flow(alloc, graph)?);
            done = done.saturating_add(1);
        }
    }
    Ok(done)
}

fn has_flow(alloc: Global, graph: &OpenGraph) -> Result<bool, Fail> {
    match find(alloc, graph)? {
        Found::Flow(_) => Ok(true),
        Found::NoFlow { .. } => Ok(false),
    }
}

fn drawn_steps(alloc: Global, seed: &mut u64) -> Result<Vec<Step>, Fail> {
    let mut steps = Vec::new(alloc);
    for _ in 0..200 {
        steps.push(drawn_step(seed))?;
    }
    Ok(steps)
}

#[test]
fn a_flow_is_found_after_each_rewrite(rt: HostRuntime) -> Result<(), Fail> {
    let mut seed = 1;
    let mut done = 0u64;
    for length in 5..30 {
        let given = drawn(&rt, rt.alloc(), &mut seed, length)?;
        let steps = drawn_steps(rt.alloc(), &mut seed)?;
        done = done.saturating_add(steps_done(&rt, rt.alloc(), &given, &steps)?);
    }
    assert!(rt; done > 100);
    Ok(())
}
