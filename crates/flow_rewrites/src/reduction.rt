//! Simplification: moves until none is left.

ghost use Rattle.std.specs.Prelude.{◌≡◌, ◌≤◌, ◌+◌, ◌*◌, length, IsOk, IfOk, OnOk, OnErr};
ghost use Rattle.zx_model.specs.Scalar.{IsWithin};
ghost use Rattle.zx_calculus.specs.Graph.{WellFormed};
ghost use Rattle.zx_calculus.specs.Counts.{odd_phases};
ghost use Rattle.zx_calculus.specs.Reduced.{IsReduced};
ghost use Rattle.gflow_laws.specs.Flow.{IsFlow};
ghost use Rattle.zx_calculus.specs.StepScalars.{KeepsMap, IsSumTimes};
ghost use Rattle.zx_moves.specs.Moving.{GainsMoves, GainsRun, most_moves};
ghost use Rattle.zx_moves.specs.Scaling.{most_exponent};
ghost use Rattle.zx_moves.specs.Internal.Scaling.{IsMade};
ghost use Rattle.flow_rewrites.specs.Rooms.{HasRoom, KeepRoom};

use crate::in_place::reduce_in_place;
use crate::room::has_room;
use crate::steps::Steps;
use open_graph::OpenGraph;
use std::alloc::AllocError;
use std::mem;
use std::sync::ledger::Ledger;
use zx_flow::Flow;
use zx_model::Scalar;
use zx_moves::{Made, Trace};

/// Does moves on a graph with its flow until none applies, each time one of the first kind that
/// applies anywhere, and answers by which scalar they change the sum: the sum before is so many times
/// the sum after. The trace gains the step of each rewrite, the counter one for each move.
///
/// # Errors
///
/// Only where memory runs out, and never where graph, flow and trace have room for simplification. Then
/// they stay as they were, and so does the counter. No room that they have is lost, with Ok or
/// without.
pub fn reduce<L: Ledger>(
    g: &mut OpenGraph,
    f: &mut Flow,
    trace: &mut Trace,
    steps: &mut Steps<L>,
) -> Result<Scalar, AllocError>
    requires flow { IsFlow g.old.graph f.old.flow }

    // The graph is reduced, with a proportional sum, a flow and no more odd phases.
    ensures reduced { OnOk result (IsReduced g.new.graph) }
    ensures map { OnOk result (KeepsMap g.old.graph g.new.graph) }
    ensures scalar { IfOk result (λ s. IsSumTimes g.old.graph s g.new.graph) }
    ensures small { IfOk result (IsWithin (most_exponent g.old.graph)) }
    ensures flow { OnOk result (IsFlow g.new.graph f.new.flow) }
    ensures odd { OnOk result (odd_phases g.new.graph ≤ odd_phases g.old.graph) }
    ensures inputs { OnOk result (length g.new.graph.inputs ≡ length g.old.graph.inputs) }
    ensures outputs { OnOk result (length g.new.graph.outputs ≡ length g.old.graph.outputs) }

    // The steps that the trace gained lead there, and are those of so many moves.
    ensures run { OnOk result
        (GainsRun g.old.graph g.new.graph trace.old.steps trace.new.steps) }
    ensures moves { OnOk result
        (GainsMoves g.old.graph g.new.graph trace.old.steps trace.new.steps steps.old steps.new) }
    ensures few_moves { OnOk result (steps.new ≤ steps.old + most_moves g.old.graph) }
    ensures few_steps { OnOk result
        (length trace.new.steps + 6 * steps.old ≤ length trace.old.steps + 6 * steps.new) }

    ensures err_graph { OnErr result ((g.new.graph ≡ g.old.graph) × (f.new.flow ≡ f.old.flow)) }
    ensures err_trace { OnErr result (trace.new.steps ≡ trace.old.steps) }
    ensures err_counter { OnErr result (steps.new ≡ steps.old) }

    // With Ok or without, no room is lost.
    ensures room { KeepRoom g.old f.old trace.old g.new f.new trace.new }
    ensures has_room { HasRoom g.old f.old trace.old → IsOk result }
    ensures valid { WellFormed g.new.graph }
{
    let made = reduce_graph(g, f, trace)?;
    steps.count(made.moves);
    Ok(made.scalar)
}

// The moves of `reduce`, which aren't counted yet: in place where there is room, else on copies, which have the same
// memory and then take the place of graph, flow and trace.
fn reduce_graph(g: &mut OpenGraph, f: &mut Flow, trace: &mut Trace) -> Result<Made, AllocError>
    requires flow { IsFlow g.old.graph f.old.flow }
    ensures made { IfOk result (λ made. IsMade g.old.graph trace.old.steps made
        g.new.graph f.new.flow trace.new.steps) }
    ensures err { OnErr result ((g.new.graph ≡ g.old.graph) × (f.new.flow ≡ f.old.flow)
        × (trace.new.steps ≡ trace.old.steps)) }
    ensures room { KeepRoom g.old f.old trace.old g.new f.new trace.new }
    ensures has_room { HasRoom g.old f.old trace.old → IsOk result }
    ensures was_valid { WellFormed g.old.graph }
    ensures valid { WellFormed g.new.graph }
{
    if has_room(g, f, trace) {
        return reduce_in_place(g, f, trace);
    }
    let mut graph = g.copy()?;
    let mut flow = f.copy()?;
    let mut longer = trace.copy()?;
    let made = reduce_in_place(&mut graph, &mut flow, &mut longer)?;
    mem::swap(g, &mut graph);
    mem::swap(f, &mut flow);
    mem::swap(trace, &mut longer);
    Ok(made)
}
