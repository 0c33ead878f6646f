//! One step, where it is allowed.

ghost use Rattle.std.specs.Prelude.{◌≡◌, ◌↔◌, true, false, IsOk, IfOk, OnOk, OnErr, IsErrOf};
ghost use Rattle.zx_calculus.specs.Graph.{WellFormed};
ghost use Rattle.zx_calculus.specs.Steps.{allowed};
ghost use Rattle.zx_calculus.specs.StepScalars.{step_scalar};
ghost use Rattle.gflow_laws.specs.Flow.{IsFlow};
ghost use Rattle.gflow_laws.specs.Rewritten.{IsRewritten};
ghost use Rattle.flow_rewrites.specs.Rooms.{HaveRoomFor, KeepPlaces, UsesPlaces};
ghost use Rattle.graph_rewrites.specs.Steps.{step_named};

use crate::performing::perform;
use crate::refusal::StepRefused;
use graph_rewrites::Step;
use open_graph::OpenGraph;
use zx_flow::Flow;
use zx_model::Scalar;

/// Does a step on a graph with its flow, where it is allowed: where its ids are those of vertices,
/// and its side condition holds, and answers its scalar: the sum before is so many times the sum
/// after. Where it isn't, or memory runs out, graph and flow stay as they
/// were. Where both have the memory that the step needs, it takes none. None that they have is lost: a
/// split uses one place for a vertex, one is given back for each vertex that goes, and the reach of
/// both stays.
pub fn apply(g: &mut OpenGraph, f: &mut Flow, step: Step) -> Result<Scalar, StepRefused>
    requires flow { IsFlow g.old.graph f.old.flow }

    // Whether the step is allowed is tested before memory is asked for.
    ensures not_allowed { IsErrOf result StepRefused.NotAllowed ↔
        (allowed g.old.graph (step_named step) ≡ false) }
    ensures no_memory { IsErrOf result StepRefused.NoMemory →
        allowed g.old.graph (step_named step) ≡ true }
    ensures allowed { OnOk result (allowed g.old.graph (step_named step) ≡ true) }

    ensures rewritten { OnOk result (IsRewritten g.old.graph f.old.flow (step_named step)
        g.new.graph f.new.flow) }
    ensures scalar { IfOk result (λ s. s ≡ step_scalar g.old.graph (step_named step)) }
    ensures err { OnErr result ((g.new.graph ≡ g.old.graph) × (f.new.flow ≡ f.old.flow)) }
    ensures has_room { allowed g.old.graph (step_named step) ≡ true →
        HaveRoomFor (step_named step) g.old f.old → IsOk result }
    ensures places { OnOk result (UsesPlaces (step_named step) g.old.room g.new.room
        × UsesPlaces (step_named step) f.old.room f.new.room) }
    ensures err_places { OnErr result (KeepPlaces g.old f.old g.new f.new) }
    ensures valid { WellFormed g.new.graph }
{
    if !step.is_allowed(g) {
        return Err(StepRefused::NotAllowed);
    }
    Ok(perform(g, f, &step)?)
}
