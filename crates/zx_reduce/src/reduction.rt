//! Simplification: moves until none is left.

ghost use Rattle.std.specs.Prelude.{map, IfOk};
ghost use Rattle.gflow_laws.specs.Flow.{IsFlow};
ghost use Rattle.graph_rewrites.specs.Steps.{step_named};
ghost use Rattle.phase_groups.specs.Groups.{FollowRun};
ghost use Rattle.zx_reduce.specs.Reducing.{Reduces};
ghost use Rattle.zx_reduce.specs.Internal.Progress.{IsCompleted};

use crate::engine::Engine;
use crate::progress::Progress;
use crate::ranks::Ranks;
use open_graph::OpenGraph;
use phase_groups::PhaseGroups;
use std::alloc::{AllocError, Global};
use zx_flow::Flow;
use zx_model::Scalar;
use zx_moves::Trace;

/// A graph that was simplified, with its flow and the steps that led to it.
#[derive(Drop)]
pub struct Reduction {
    /// The graph.
    pub graph: OpenGraph,
    /// A flow of it.
    pub flow: Flow,
    /// The steps from the graph before.
    pub trace: Trace,
    /// The sum before is so many times the sum after.
    pub scalar: Scalar,
}

/// Does steps on a graph with a flow until none is left to do. No more than the order of the flow is kept meanwhile.
///
/// # Errors
///
/// Only where memory runs out.
pub fn reduce_owned(alloc: Global, graph: OpenGraph, flow: Flow) -> Result<Reduction, AllocError>
    requires flow { IsFlow graph.graph flow.flow }
    ensures { IfOk result (λ made. Reduces graph.graph
        made.graph.graph made.flow.flow made.trace.steps made.scalar) }
{
    let ended = completed(alloc, graph, flow, None)?;
    ended.finish()
}

/// As `reduce_owned`; what the steps do to the groups of gates whose phases the vertices hold together is done, too.
///
/// # Errors
///
/// Only where memory runs out.
pub fn reduce_with_groups(
    alloc: Global,
    graph: OpenGraph,
    flow: Flow,
    groups: PhaseGroups,
) -> Result<(Reduction, PhaseGroups), AllocError>
    requires flow { IsFlow graph.graph flow.flow }
    ensures reduces { IfOk result (λ made. Reduces graph.graph
        made.0.graph.graph made.0.flow.flow made.0.trace.steps made.0.scalar) }
    ensures groups { IfOk result (λ made. FollowRun graph.graph
        (map step_named made.0.trace.steps) made.0.graph.graph groups made.1) }
{
    let mut ended = completed(alloc, graph, flow, Some(groups))?;
    let groups = ended.take_phases();
    let made = ended.finish()?;
    Ok((made, groups.unwrap()))
}

// What is left of a graph with a flow once no move is; groups of gates follow the steps, where it is asked for them.
fn completed(
    alloc: Global,
    graph: OpenGraph,
    flow: Flow,
    groups: Option<PhaseGroups>,
) -> Result<Progress, AllocError>
    requires flow { IsFlow graph.graph flow.flow }
    ensures { IfOk result (IsCompleted graph.graph groups) }
{
    let order = Ranks::of_flow(alloc, &flow)?;
    drop(flow);
    let vertices = graph.vertex_count();
    let begun = Progress::of_graph(alloc, graph, order, groups);
    let mut engine = Engine::new(alloc, begun, vertices)?;
    engine.add_all()?;
    engine.complete()
}
