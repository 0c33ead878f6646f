//! The steps of a move, from the graph before it.

ghost use Rattle.std.specs.Prelude.{◌≤◌, ◌+◌, [], ◌∷◌, IsOk, OnOk};
ghost use Rattle.zx_calculus.specs.Graph.{IsVertex, WellFormed};
ghost use Rattle.graph_rewrites.specs.Steps.{step_named};
ghost use Rattle.zx_moves.specs.Search.{AppliesAt};
ghost use Rattle.zx_moves.specs.Moving.{steps_of, splits_of, removal_of, AddsSteps};
ghost use Rattle.zx_moves.specs.declared.moves.Move.TheVariants as moves;
ghost use Rattle.zx_moves.specs.Traces.{KeepSteps};

use crate::moves::Move;
use crate::trace::Trace;
use graph_rewrites::Step;
use open_graph::{OpenGraph, VertexId};
use std::alloc::AllocError;
use zx_model::Sixteenth;

/// Adds the steps that a move consists of, at most six. Where memory runs out, some of them are added.
///
/// # Errors
///
/// Where memory runs out; not where the trace has room for six steps.
pub fn add_steps(steps: &mut Trace, g: &OpenGraph, m: &Move) -> Result<(), AllocError>
    requires valid { WellFormed g.now.graph }
    requires applies { AppliesAt g.now.graph m.now }
    ensures added { OnOk result
        (AddsSteps steps.old.steps steps.new.steps (steps_of g.now.graph m.now)) }
    ensures has_room { 6 ≤ steps.old.spare → IsOk result }
    ensures spare { OnOk result (steps.old.spare ≤ steps.new.spare + 6) }
    ensures room { OnOk result (KeepSteps steps.old steps.new) }
{
    match m {
        Move::Delete(u) => steps.push(Step::Delete(*u)),
        Move::QuarterGadget(u) => add_two(steps, Step::LocalComplement(*u), Step::Delete(*u)),
        Move::FromXZ(u) => steps.push(Step::LocalComplement(*u)),
        Move::QuarterSpider(u) => add_two(steps, Step::LocalComplement(*u), Step::Delete(*u)),
        Move::InnerPivot(u, v) => add_two(steps, Step::Pivot(*u, *v), Step::Delete(*u)),
        Move::BoundaryPivot(u, b) => add_boundary_steps(steps, g, *u, *b),
        Move::GadgetPair(u, v) => steps.push(Step::Pivot(*u, *v)),
        Move::LoneGadget(u) => steps.push(Step::DropLone(*u)),
        Move::SingleGadget(u) => steps.push(Step::FuseInto(*u)),
        Move::Twins(u, v) => steps.push(Step::FuseTwin(*u, *v)),
    }
}

// Adds two steps.
fn add_two(steps: &mut Trace, first: Step, second: Step) -> Result<(), AllocError>
    ensures added { OnOk result (AddsSteps steps.old.steps steps.new.steps
        (step_named first ∷ step_named second ∷ [])) }
    ensures has_room { 2 ≤ steps.old.spare → IsOk result }
    ensures spare { OnOk result (steps.old.spare ≤ steps.new.spare + 2) }
    ensures room { OnOk result (KeepSteps steps.old steps.new) }
{
    steps.push(first)?;
    steps.push(second)
}

// The ends of b are split, then the two are pivoted, and u goes; and b where its phase allows it.
fn add_boundary_steps(
    steps: &mut Trace,
    g: &OpenGraph,
    u: VertexId,
    b: VertexId,
) -> Result<(), AllocError>
    requires { IsVertex g.now.graph b }
    ensures added { OnOk result (AddsSteps steps.old.steps steps.new.steps
        (steps_of g.now.graph (moves.BoundaryPivot u b))) }
    ensures has_room { 6 ≤ steps.old.spare → IsOk result }
    ensures spare { OnOk result (steps.old.spare ≤ steps.new.spare + 6) }
    ensures room { OnOk result (KeepSteps steps.old steps.new) }
{
    add_splits(steps, g, b)?;
    add_two(steps, Step::Pivot(u, b), Step::Delete(u))?;
    let (_, phase) = g.weight(b);
    add_removal(steps, phase, b)
}

// Adds the splits of the ends of b, of its input before its output.
fn add_splits(steps: &mut Trace, g: &OpenGraph, b: VertexId) -> Result<(), AllocError>
    requires { IsVertex g.now.graph b }
    ensures added { OnOk result
        (AddsSteps steps.old.steps steps.new.steps (splits_of g.now.graph b)) }
    ensures has_room { 2 ≤ steps.old.spare → IsOk result }
    ensures spare { OnOk result (steps.old.spare ≤ steps.new.spare + 2) }
    ensures room { OnOk result (KeepSteps steps.old steps.new) }
{
    if g.input_at(b).is_some() {
        steps.push(Step::SplitInput(b))?;
    }
    if g.output_at(b).is_some() {
        steps.push(Step::SplitOutput(b))?;
    }
    Ok(())
}

// Adds the steps by which a YZ vertex of this phase goes, where it does.
fn add_removal(steps: &mut Trace, phase: Sixteenth, b: VertexId) -> Result<(), AllocError>
    ensures added { OnOk result
        (AddsSteps steps.old.steps steps.new.steps (removal_of phase b)) }
    ensures has_room { 2 ≤ steps.old.spare → IsOk result }
    ensures spare { OnOk result (steps.old.spare ≤ steps.new.spare + 2) }
    ensures room { OnOk result (KeepSteps steps.old steps.new) }
{
    if phase.is_half_turns() {
        steps.push(Step::Delete(b))
    } else if phase.is_quarter_turn() {
        add_two(steps, Step::LocalComplement(b), Step::Delete(b))
    } else {
        Ok(())
    }
}
