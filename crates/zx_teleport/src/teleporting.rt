//! Phases of a circuit put together.

ghost use Rattle.std.specs.Prelude.{◌≡◌, ◌≤◌, ◌*◌, length, map, IfOk, OnOk};
ghost use Rattle.zx_model.specs.Scalar.{IsWithin};
ghost use Rattle.zx_calculus.specs.Counts.{odd_phases};
ghost use Rattle.zx_calculus.specs.Reduced.{IsReduced};
ghost use Rattle.zx_calculus.specs.Steps.{IsRun};
ghost use Rattle.zx_calculus.specs.StepScalars.{IsSumTimes};
ghost use Rattle.zx_gates.specs.Circuit.{gate_odd_phases, IsCircuit};
ghost use Rattle.zx_gates.specs.Passes.{Preserves};
ghost use Rattle.circuit_graph.specs.Translation.{translated};
ghost use Rattle.teleport_circuits.specs.Circuits.{IsSkeleton};
ghost use Rattle.zx_teleport.specs.Together.{HasTeleported, IsPutTogether, IsTeleported};
ghost use Rattle.zx_reduce.specs.Scaling.{most_steps, most_reduced_root2};
ghost use Rattle.graph_rewrites.specs.Steps.{step_named};
ghost use Rattle.zx_teleport.specs.Scalars.{most_teleported_root2};

use crate::holding::{groups_at, with_groups};
use crate::scalars::scalar_of;
use circuit_graph::translate_placed;
use open_graph::OpenGraph;
use std::alloc::{AllocError, Global};
use zx_gates::GateList;
use zx_model::Scalar;
use zx_moves::Trace;
use zx_reduce::{group_phases, reduce_with_groups};

/// A circuit whose phases were put together, the steps by which its graph was simplified to see
/// which, the simplified graph, and the scalar between the maps.
#[derive(Drop)]
pub struct Teleported {
    /// The circuit.
    pub gates: GateList,
    /// The steps from the graph of the circuit that was read.
    pub trace: Trace,
    /// The graph to which they lead.
    pub reduced: OpenGraph,
    /// The map of the circuit that was read is so many times that of `gates`.
    pub scalar: Scalar,
}

// A circuit whose phases were put together, the steps by which its graph was simplified to see
// which, and the simplified graph.
#[derive(Drop)]
struct Unscaled {
    gates: GateList,
    // The steps from the graph of the circuit that was read.
    trace: Trace,
    // The graph to which they lead.
    reduced: OpenGraph,
    // The sum of the graph of the circuit that was read is so many times that of `reduced`.
    before: Scalar,
}

/// Puts phases of a circuit together where its simplified graph shows that they may be; all other
/// gates stay as they are, in their places.
///
/// # Errors
///
/// Only where memory runs out.
pub fn teleport(alloc: Global, read: &GateList) -> Result<Teleported, AllocError>
    // Nothing but values of phases changes, and the map stays up to the scalar, which isn't 0.
    ensures kept { IfOk result (λ found.
        Preserves most_teleported_root2 read.now found.gates found.scalar) }
    ensures skeleton { IfOk result (λ found. IsSkeleton read.now.gates found.gates.gates) }

    // The steps lead from the circuit's graph to the reduced one.
    ensures run { IfOk result (λ found.
        IsRun (translated read.now) (map step_named found.trace.steps) found.reduced.graph) }
    ensures reduced { IfOk result (λ found. IsReduced found.reduced.graph) }

    // The gates are the read ones with the phases that these steps put together.
    ensures gates { IfOk result (λ found. IsPutTogether read.now
        (map step_named found.trace.steps) found.reduced.graph found.gates.gates) }

    // At most as many phases are odd as in that graph.
    ensures odd { IfOk result (λ found.
        gate_odd_phases found.gates.gates ≤ odd_phases found.reduced.graph) }
{
    let found = teleport_unscaled(alloc, read)?;
    let after = scalar_of(alloc, &found.gates, found.trace.as_slice())?;
    Ok(Teleported {
        gates: found.gates,
        trace: found.trace,
        reduced: found.reduced,
        scalar: found.before.over(after),
    })
}

// As `teleport`, without the scalar between the maps, for which the steps are done once more on the graph of the new
// circuit.
fn teleport_unscaled(alloc: Global, read: &GateList) -> Result<Unscaled, AllocError>
    ensures circuit { OnOk result (IsCircuit read.now) }
    ensures teleported { IfOk result (λ found. IsTeleported read.now found.gates
        (map step_named found.trace.steps) found.reduced.graph) }
    ensures before { IfOk result (λ found.
        IsSumTimes (translated read.now) found.before found.reduced.graph) }
    ensures small { IfOk result (λ found. IsWithin most_reduced_root2 found.before) }
    ensures few_steps { IfOk result (λ found. length found.trace.steps ≤ most_steps) }
{
    let placed = translate_placed(alloc, read)?;
    let places = placed.places;
    let held = groups_at(alloc, read, &places)?;
    let (made, groups) = reduce_with_groups(alloc, placed.graph, placed.flow, held)?;
    let gates = with_groups(alloc, read, &groups)?;
    Ok(Unscaled {
        gates,
        trace: made.trace,
        reduced: made.graph,
        before: made.scalar,
    })
}

/// As `teleport`, where neither the steps nor the scalar are asked for: phases are put together while the graph of
/// the circuit grows and is simplified.
///
/// # Errors
///
/// Those of `teleport`.
pub fn teleport_gates(alloc: Global, read: &GateList) -> Result<GateList, AllocError>
    ensures { IfOk result (λ made. HasTeleported read.now made) }
{
    let groups = group_phases(alloc, read)?;
    with_groups(alloc, read, &groups)
}
