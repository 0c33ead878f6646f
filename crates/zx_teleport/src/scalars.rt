//! By which scalar steps change the sum of a graph.

ghost use Rattle.std.specs.Prelude.{◌<◌, ◌≤◌, ◌*◌, length, map, IfOk};
ghost use Rattle.zx_model.specs.Phase.{turn};
ghost use Rattle.zx_model.specs.Scalar.{IsWithin};
ghost use Rattle.circuit_graph.specs.Translation.{translated};
ghost use Rattle.graph_rewrites.specs.Steps.{step_named};
ghost use Rattle.zx_reduce.specs.Scaling.{most_steps};
ghost use Rattle.zx_teleport.specs.Internal.Scaling.{HaveScalar, MayRun};

use circuit_graph::translate;
use graph_rewrites::Step;
use open_graph::OpenGraph;
use std::alloc::{AllocError, Global};
use zx_gates::GateList;
use zx_model::Scalar;

// The scalar of steps that can be done one after the other on the graph of a circuit: the sum before
// is so many times the sum after.
pub(crate) fn scalar_of(
    alloc: Global,
    circuit: &GateList,
    steps: &[Step],
) -> Result<Scalar, AllocError>
    requires run { MayRun (translated circuit.now) (map step_named steps.now) }
    requires few { length steps.now ≤ most_steps }
    ensures scalar { IfOk result
        (HaveScalar (translated circuit.now) (map step_named steps.now)) }
    ensures small { IfOk result (IsWithin (2 * length steps.now)) }
    ensures turn { IfOk result (λ s. s.turn < turn) }
{
    let made = translate(alloc, circuit)?;
    scalar_of_run(made.graph, steps)
}

// The same on any graph.
fn scalar_of_run(mut graph: OpenGraph, steps: &[Step]) -> Result<Scalar, AllocError>
    requires run { MayRun graph.graph (map step_named steps.now) }
    requires few { length steps.now ≤ most_steps }
    ensures scalar { IfOk result (HaveScalar graph.graph (map step_named steps.now)) }
    ensures small { IfOk result (IsWithin (2 * length steps.now)) }
    ensures turn { IfOk result (λ s. s.turn < turn) }
{
    let mut scalar = Scalar::one();
    for step in steps {
        scalar = scalar.times(step.do_in(&mut graph)?);
    }
    Ok(scalar)
}
