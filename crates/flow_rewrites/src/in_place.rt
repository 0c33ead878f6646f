//! Simplification of a graph with its flow as they are: the sets are kept by the rewrites, and moves are looked for
//! over all vertices.

ghost use Rattle.std.specs.Prelude.{◌<◌, ◌≤◌, ◌+◌, ℕ, length, map, IsOk, IfOk, OnOk};
ghost use Rattle.zx_calculus.specs.Graph.{WellFormed};
ghost use Rattle.zx_calculus.specs.Steps.{IsRun};
ghost use Rattle.gflow_laws.specs.Flow.{IsFlow};
ghost use Rattle.move_laws.specs.Demand.{demand};
ghost use Rattle.flow_rewrites.specs.Rooms.{HasRoom, KeepPlaces, KeepRoom};
ghost use Rattle.zx_moves.specs.Search.{AppliesAt, IsOfFirstKind};
ghost use Rattle.graph_rewrites.specs.Steps.{step_named};
ghost use Rattle.zx_moves.specs.Internal.Planning.{AreAllowed, GainsMove};
ghost use Rattle.flow_rewrites.specs.Internal.Rooms.{HavePlaces, StaysWithin};
ghost use Rattle.zx_moves.specs.Internal.Scaling.{Scales, IsMade};

use crate::performing::in_place;
use graph_rewrites::Step;
use open_graph::OpenGraph;
use std::alloc::AllocError;
use zx_flow::Flow;
use zx_model::Scalar;
use zx_moves::{Made, Move, Trace, add_steps, next_move};

// Does moves until none applies. Where memory runs out, a part of a move is done; where there is the memory that
// simplification needs, none is taken.
pub(crate) fn reduce_in_place(
    g: &mut OpenGraph,
    f: &mut Flow,
    trace: &mut Trace,
) -> Result<Made, AllocError>
    requires valid { WellFormed g.old.graph }
    requires flow { IsFlow g.old.graph f.old.flow }
    ensures made { IfOk result (λ made. IsMade g.old.graph trace.old.steps made
        g.new.graph f.new.flow trace.new.steps) }
    ensures has_room { HasRoom g.old f.old trace.old → IsOk result }
    ensures room { OnOk result (KeepRoom g.old f.old trace.old g.new f.new trace.new) }
    ensures valid { WellFormed g.new.graph }
{
    // So the exponent of the scalar fits.
    prove!(g.vertex_count() as u64 <= 1 << 32);
    let mut scalar = Scalar::one();
    let mut moves = 0;
    while let Some(found) = next_move(g) {
        scalar = scalar.times(make(g, f, trace, &found)?);
        moves += 1;
    }
    Ok(Made { scalar, moves })
}

// Makes a move. Its steps are put into the trace before they are done.
fn make(g: &mut OpenGraph, f: &mut Flow, trace: &mut Trace, m: &Move) -> Result<Scalar, AllocError>
    requires valid { WellFormed g.old.graph }
    requires flow { IsFlow g.old.graph f.old.flow }
    requires applies { AppliesAt g.old.graph m.now }
    requires first { IsOfFirstKind g.old.graph m.now }
    ensures gains { OnOk result (GainsMove g.old.graph m.now g.new.graph
        trace.old.steps trace.new.steps) }
    ensures scalar { IfOk result (λ s. Scales g.old.graph 12 s g.new.graph) }
    ensures flow { OnOk result (IsFlow g.new.graph f.new.flow) }
    ensures valid { WellFormed g.new.graph }
    ensures has_room { (n : ℕ) → HavePlaces n g.old f.old → demand g.old.graph + 2 ≤ n →
        6 ≤ trace.old.spare → IsOk result }
    ensures places { OnOk result ((n : ℕ) → HavePlaces n g.old f.old →
        demand g.old.graph + 2 ≤ n → HavePlaces n g.new f.new) }
    ensures spare { OnOk result (trace.old.spare ≤ trace.new.spare + 6) }
    ensures room { OnOk result (KeepRoom g.old f.old trace.old g.new f.new trace.new) }
{
    let start = trace.as_slice().len();
    add_steps(trace, g, m)?;
    do_steps(g, f, trace.steps_from(start))
}

// Does steps that can be done one after the other.
fn do_steps(g: &mut OpenGraph, f: &mut Flow, steps: &[Step]) -> Result<Scalar, AllocError>
    requires valid { WellFormed g.old.graph }
    requires flow { IsFlow g.old.graph f.old.flow }
    requires allowed { AreAllowed g.old.graph (map step_named steps.now) }
    requires few { length steps.now ≤ 6 }
    ensures run { OnOk result (IsRun g.old.graph (map step_named steps.now) g.new.graph) }
    ensures scalar { IfOk result (λ s. Scales g.old.graph 12 s g.new.graph) }
    ensures flow { OnOk result (IsFlow g.new.graph f.new.flow) }
    ensures valid { WellFormed g.new.graph }
    ensures has_room { (n d : ℕ) → HavePlaces n g.old f.old → d + 2 ≤ n →
        StaysWithin d g.old.graph (map step_named steps.now) → IsOk result }
    ensures places { OnOk result ((n d : ℕ) → HavePlaces n g.old f.old → d + 2 ≤ n →
        StaysWithin d g.old.graph (map step_named steps.now) → HavePlaces n g.new f.new) }
    ensures room { OnOk result (KeepPlaces g.old f.old g.new f.new) }
{
    let mut scalar = Scalar::one();
    for step in steps {
        scalar = scalar.times(in_place(g, f, step)?);
    }
    Ok(scalar)
}
