//! A rewrite of a graph with its flow: in place where there is the memory, and else with copies.

ghost use Rattle.std.specs.Prelude.{◌≡◌, ◌↔◌, true, IsOk, IfOk, OnErr};
ghost use Rattle.zx_calculus.specs.Graph.{WellFormed};
ghost use Rattle.zx_calculus.specs.Steps.{allowed};
ghost use Rattle.gflow_laws.specs.Flow.{IsFlow};
ghost use Rattle.graph_rewrites.specs.Steps.{step_named};
ghost use Rattle.flow_rewrites.specs.Rooms.{HaveRoomFor};
ghost use Rattle.flow_rewrites.specs.Safely.{IsDone, IsUndone, IsDoneSafely};

use crate::sets::change_sets;
use graph_rewrites::Step;
use open_graph::OpenGraph;
use std::alloc::AllocError;
use std::mem;
use zx_flow::Flow;
use zx_model::Scalar;

/// Does a step where it is allowed, and answers its scalar: the sum before is so many times the sum after. Where
/// memory runs out, graph and flow stay as they were; where they have the memory that it needs, none is taken.
pub fn perform(g: &mut OpenGraph, f: &mut Flow, step: &Step) -> Result<Scalar, AllocError>
    requires flow { IsFlow g.old.graph f.old.flow }
    requires allowed { allowed g.old.graph (step_named step.now) ≡ true }
    ensures safely { IsDoneSafely (step_named step.now) g.old f.old result g.new f.new }
{
    if has_room_for(step, g, f) {
        return in_place(g, f, step);
    }
    with_copies(g, f, step)
}

// Whether graph and flow have the memory that a step needs.
fn has_room_for(step: &Step, g: &OpenGraph, f: &Flow) -> bool
    ensures value { (result ≡ true) ↔ HaveRoomFor (step_named step.now) g.now f.now }
    ensures valid { WellFormed g.now.graph }
{
    if step.is_split() {
        f.has_place(g)
    } else {
        f.has_reach(g)
    }
}

// Does a step that is allowed. Where memory runs out, graph and flow may be any.
pub(crate) fn in_place(g: &mut OpenGraph, f: &mut Flow, step: &Step) -> Result<Scalar, AllocError>
    requires valid { WellFormed g.old.graph }
    requires flow { IsFlow g.old.graph f.old.flow }
    requires allowed { allowed g.old.graph (step_named step.now) ≡ true }
    ensures done { IfOk result (λ s. IsDone (step_named step.now) g.old f.old s g.new f.new) }
    ensures has_room { HaveRoomFor (step_named step.now) g.old f.old → IsOk result }
    ensures valid { WellFormed g.new.graph }
{
    change_sets(f, g, step)?;
    step.do_in(g)
}

// The same. Where memory runs out, copies take the place of graph and flow.
fn with_copies(g: &mut OpenGraph, f: &mut Flow, step: &Step) -> Result<Scalar, AllocError>
    requires valid { WellFormed g.old.graph }
    requires flow { IsFlow g.old.graph f.old.flow }
    requires allowed { allowed g.old.graph (step_named step.now) ≡ true }
    ensures done { IfOk result (λ s. IsDone (step_named step.now) g.old f.old s g.new f.new) }
    ensures undone { OnErr result (IsUndone g.old f.old g.new f.new) }
    ensures valid { WellFormed g.new.graph }
{
    let mut graph = g.copy()?;
    let mut flow = f.copy()?;
    match in_place(g, f, step) {
        Ok(scalar) => Ok(scalar),
        Err(error) => {
            mem::swap(g, &mut graph);
            mem::swap(f, &mut flow);
            Err(error)
        }
    }
}
