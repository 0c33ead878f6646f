//! A graph that is simplified while gates are still put behind its outputs.

ghost use Rattle.std.specs.Prelude.{◌≡◌, ◌≢◌, ◌<◌, true, length, IfOk, OnOk};
ghost use Rattle.zx_calculus.specs.Graph.{WellFormed};
ghost use Rattle.zx_calculus.specs.Steps.{allowed, IsStep};
ghost use Rattle.zx_calculus.specs.StepScalars.{step_scalar};
ghost use Rattle.circuit_laws.specs.Peeling.{are_plain, HasPlainOutput};
ghost use Rattle.circuit_graph.specs.Translation.{wires};
ghost use Rattle.zx_gates.specs.declared.gate.Gate.TheVariants.{H, Phase, Cz};
ghost use Rattle.growing_laws.specs.Growing.{IsFree, placed};
ghost use Rattle.gflow_laws.specs.Flow.{IsFlow};
ghost use Rattle.graph_rewrites.specs.Steps.{step_named};
ghost use Rattle.zx_reduce.specs.Internal.Guiding.{HasFlowIn};
ghost use Rattle.zx_reduce.specs.Internal.Ordering.{IsOrdered};

use crate::ranks::Ranks;
use circuit_graph::{last_spider, put_edge, put_hadamard, put_phase, wires_alone};
use flow_find::find_by_rank;
use graph_rewrites::Step;
use open_graph::{OpenGraph, VertexId};
use std::alloc::{AllocError, Global};
use std::marker::Model;
use zx_flow::Flow;
use zx_gates::Qubit;
use zx_model::{Scalar, Sixteenth};

/// A graph with the order along which it has a flow, without correction sets. After a call that ran out
/// of memory a part of it may be done, so all of it is thrown away then.
#[derive(Drop)]
pub(crate) struct Ordered {
    graph: OpenGraph,
    order: Ranks,
}

impl Model for Ordered {
    ghost use Rattle.zx_reduce.specs.Internal.Ordering.{Ordered as Seen};

    ghost Value = { Seen };

    ghost view = { λ o. record {
      graph = o.graph.graph;
      ranks = o.order.ranks;
      low = o.order.low;
      high = o.order.high;
    } };
}

impl Ordered {
    /// So many wires without gates.
    pub(crate) fn wires(alloc: Global, qubits: Qubit) -> Result<Ordered, AllocError>
        ensures graph { IfOk result (λ made. made.graph ≡ wires qubits) }
        ensures ordered { IfOk result IsOrdered }
    {
        let graph = wires_alone(alloc, qubits)?;
        let order = Ranks::of_order(alloc, &[])?;
        Ok(Ordered { graph, order })
    }

    /// A graph, with the order along which it has a flow.
    pub(crate) fn of_graph(graph: OpenGraph, order: Ranks) -> Ordered
        requires flow { HasFlowIn graph.graph order }
        ensures graph { result.graph ≡ graph.graph }
        ensures ordered { IsOrdered result }
    {
        Ordered { graph, order }
    }

    /// The graph.
    pub(crate) fn graph(&self) -> &OpenGraph
        ensures { result.now.graph ≡ self.now.graph }
    {
        &self.graph
    }

    /// The vertex at the output of a qubit.
    pub(crate) fn last_spider(&self, q: Qubit) -> VertexId
        requires plain { are_plain self.now.graph.outputs ≡ true }
        requires on_qubits { q < length self.now.graph.outputs }
        ensures { HasPlainOutput self.now.graph q result }
    {
        last_spider(&self.graph, q)
    }

    /// Puts H behind the output of a qubit, and answers the new spider.
    pub(crate) fn add_hadamard(&mut self, q: Qubit) -> Result<VertexId, AllocError>
        requires plain { are_plain self.old.graph.outputs ≡ true }
        requires on_qubits { q < length self.old.graph.outputs }
        ensures fresh { IfOk result (λ new. IsFree new self.old.graph) }
        ensures gate { IfOk result (λ new. self.new.graph ≡ placed new self.old.graph (H q)) }
        ensures ordered { OnOk result (IsOrdered self.old → IsOrdered self.new) }
    {
        let (here, next) = put_hadamard(&mut self.graph, q)?;
        self.order.add_last(here)?;
        Ok(next)
    }

    /// Puts a phase gate behind the output of a qubit.
    pub(crate) fn add_phase(&mut self, q: Qubit, phase: Sixteenth)
        requires plain { are_plain self.old.graph.outputs ≡ true }
        requires on_qubits { q < length self.old.graph.outputs }
        requires turns { phase ≢ 0 }
        ensures gate { self.new.graph ≡ placed 0 self.old.graph (Phase q phase) }
        ensures ordered { IsOrdered self.old → IsOrdered self.new }
    {
        put_phase(&mut self.graph, q, phase);
    }

    /// Puts Cz behind the outputs of two qubits.
    pub(crate) fn toggle(&mut self, p: Qubit, q: Qubit) -> Result<(), AllocError>
        requires plain { are_plain self.old.graph.outputs ≡ true }
        requires p_on_qubits { p < length self.old.graph.outputs }
        requires q_on_qubits { q < length self.old.graph.outputs }
        requires apart { p ≢ q }
        ensures gate { OnOk result (self.new.graph ≡ placed 0 self.old.graph (Cz p q)) }
        ensures ordered { OnOk result (IsOrdered self.old → IsOrdered self.new) }
    {
        put_edge(&mut self.graph, p, q)
    }

    /// Does a step that is allowed, and answers its scalar: the sum before is so many times the sum after. A vertex that
    /// goes keeps its rank, which doesn't matter any more.
    ///
    /// # Errors
    ///
    /// Only where memory runs out.
    pub(crate) fn do_step(&mut self, step: &Step) -> Result<Scalar, AllocError>
        requires { allowed self.old.graph (step_named step.now) ≡ true }
        ensures step { OnOk result (IsStep self.old.graph (step_named step.now) self.new.graph) }
        ensures scalar { IfOk result (λ s. s ≡ step_scalar self.old.graph (step_named step.now)) }
        ensures ordered { OnOk result (IsOrdered self.old → IsOrdered self.new) }
    {
        rewrite(&mut self.graph, &mut self.order, step)
    }

    /// The graph with a flow, of which sets are found along the order.
    ///
    /// # Errors
    ///
    /// Only where memory runs out.
    pub(crate) fn with_flow(self, alloc: Global) -> Result<(OpenGraph, Flow), AllocError>
        requires ordered { IsOrdered self }
        ensures graph { IfOk result (λ made. made.0.graph ≡ self.graph) }
        ensures flow { IfOk result (λ made. IsFlow made.0.graph made.1.flow) }
    {
        let Ordered { graph, order } = self;
        let flow = found_flow(alloc, &graph, &order)?;
        Ok((graph, flow))
    }
}

// Does a step that is allowed, and answers its scalar. A vertex that goes keeps its rank, which doesn't matter any more.
fn rewrite(g: &mut OpenGraph, order: &mut Ranks, step: &Step) -> Result<Scalar, AllocError>
    requires allowed { allowed g.old.graph (step_named step.now) ≡ true }
    ensures step { OnOk result (IsStep g.old.graph (step_named step.now) g.new.graph) }
    ensures scalar { IfOk result (λ s. s ≡ step_scalar g.old.graph (step_named step.now)) }
    ensures flow { OnOk result (HasFlowIn g.old.graph order.old → HasFlowIn g.new.graph order.new) }
    ensures valid { WellFormed g.new.graph }
{
    let added = VertexId::new(g.next_id());
    let scalar = step.do_in(g)?;
    order.follow(step, added)?;
    Ok(scalar)
}

// A flow along the order of these ranks.
fn found_flow(alloc: Global, g: &OpenGraph, order: &Ranks) -> Result<Flow, AllocError>
    requires flow { HasFlowIn g.now.graph order.now }
    ensures { IfOk result (λ found. IsFlow g.now.graph found.flow) }
{
    let table = find_by_rank(alloc, g, order.ranks.as_slice())?;
    Flow::of_table(g, table)
}
