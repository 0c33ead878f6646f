//! A graph that is simplified, and what its sum is.

ghost use Rattle.std.specs.Prelude.{◌≡◌, ◌<◌, ◌≤◌, ◌+◌, ◌*◌, true, false, Some, [], ◌∷◌, length, IfOk, OnOk};
ghost use Rattle.zx_calculus.specs.Graph.{WellFormed};
ghost use Rattle.zx_calculus.specs.Moves.{IsStuck};
ghost use Rattle.zx_calculus.specs.Steps.{allowed, IsRun};
ghost use Rattle.move_laws.specs.Orders.{is_split};
ghost use Rattle.zx_gates.specs.Circuit.{IsOnQubits};
ghost use Rattle.zx_gates.specs.declared.gate.Gate.TheVariants.{H, Phase, Cz};
ghost use Rattle.zx_model.specs.Scalar.{one_scalar};
ghost use Rattle.zx_moves.specs.Moving.{steps_of};
ghost use Rattle.zx_moves.specs.Search.{AppliesAt, IsOfFirstKind};
ghost use Rattle.graph_rewrites.specs.Steps.{step_named};
ghost use Rattle.zx_reduce.specs.Internal.Growing.{IsGrown, HasGrown, Gains, none_held};
ghost use Rattle.zx_reduce.specs.Internal.Guiding.{HasFlowIn};
ghost use Rattle.zx_reduce.specs.Internal.Ordering.{IsOrdered};
ghost use Rattle.zx_reduce.specs.Internal.Progress.{Progress as Seen, IsDone, Tries, Makes, Begins, Exhausts, Finishes, most_tried};
ghost use Rattle.zx_reduce.specs.Internal.Progress.{AreAdded, AreFollowed, Notes};
ghost use Rattle.zx_reduce.specs.Scaling.{most_steps};

use crate::ordered::Ordered;
use crate::ranks::Ranks;
use crate::reduction::Reduction;
use graph_rewrites::Step;
use open_graph::{OpenGraph, VertexId};
use phase_groups::PhaseGroups;
use std::alloc::{AllocError, Global};
use std::marker::Model;
use zx_gates::Qubit;
use zx_model::{Scalar, Sixteenth};
use zx_moves::{Move, Trace, add_steps, next_move};

// No more steps are tried: as many take longer than anyone waits.
const MOST_TRIED: u64 = 1 << 51;

// A graph that steps made, and gates before them. The sum of the graph of the gates, or of the graph that was given, is
// so many times its sum.
#[derive(Drop)]
pub(crate) struct Progress {
    ordered: Ordered,
    scalar: Scalar,
    // How many steps were done.
    steps: u64,
    // Those that were done once no gate comes any more.
    trace: Trace,
    // Whether gates still come. Then no end is split.
    takes_gates: bool,
    // Which gates hold their phases together, where it is asked.
    phases: Option<PhaseGroups>,
}

impl Model for Progress {
    ghost use Rattle.zx_reduce.specs.Internal.Progress.{Progress as Seen, IsSmall};

    ghost Value = { Seen };

    ghost view = { λ p. record {
      ordered = p.ordered;
      scalar = p.scalar;
      steps = p.steps;
      trace = p.trace.steps;
      takes_gates = p.takes_gates;
      phases = p.phases;
    } };

    ghost invariant = { λ p. IsSmall p.steps p.scalar };
}

impl Progress {
    // So many wires without gates.
    pub(crate) fn wires(alloc: Global, qubits: Qubit) -> Result<Progress, AllocError>
        ensures { IfOk result (IsGrown qubits [] none_held) }
    {
        let ordered = Ordered::wires(alloc, qubits)?;
        Ok(Progress {
            ordered,
            scalar: Scalar::one(),
            steps: 0,
            trace: Trace::new(alloc),
            takes_gates: true,
            phases: None,
        })
    }

    // A graph, with the order along which it has a flow, and groups of gates, where it is asked for them.
    pub(crate) fn of_graph(
        alloc: Global,
        graph: OpenGraph,
        order: Ranks,
        phases: Option<PhaseGroups>,
    ) -> Progress
        requires flow { HasFlowIn graph.graph order }
        ensures { Begins graph.graph phases result }
    {
        Progress {
            ordered: Ordered::of_graph(graph, order),
            scalar: Scalar::one(),
            steps: 0,
            trace: Trace::new(alloc),
            takes_gates: false,
            phases,
        }
    }

    // Which gates hold their phases together is told from now on.
    pub(crate) fn hold(&mut self, phases: PhaseGroups)
        ensures { self.new ≡ record self.old { phases = Some phases } }
    {
        self.phases = Some(phases);
    }

    // The phase of the last gate, at the output of a qubit, is held there.
    pub(crate) fn note(&mut self, gate: usize, q: Qubit, phase: Sixteenth) -> Result<(), AllocError>
        requires grown { HasGrown self.old }
        requires on_qubits { q < length self.old.ordered.graph.outputs }
        ensures { OnOk result (Notes gate q phase self.old self.new) }
    {
        let v = self.ordered.last_spider(q);
        add_to(&mut self.phases, gate, v, phase)
    }

    // Which gates hold their phases together, which is forgotten then.
    pub(crate) fn take_phases(&mut self) -> Option<PhaseGroups>
        ensures phases { result ≡ self.old.phases }
        ensures forgotten { self.new ≡ record self.old { phases = None } }
    {
        self.phases.take()
    }

    // The graph.
    pub(crate) fn graph(&self) -> &OpenGraph
        ensures { result.now.graph ≡ self.now.ordered.graph }
    {
        self.ordered.graph()
    }

    // Whether gates still come.
    pub(crate) fn takes_gates(&self) -> bool {
        self.takes_gates
    }

    // No gate comes any more.
    pub(crate) fn close(&mut self)
        ensures { self.new ≡ record self.old { takes_gates = false } }
    {
        self.takes_gates = false;
    }

    // Puts H behind the output of a qubit, and answers the new spider.
    pub(crate) fn add_hadamard(&mut self, q: Qubit) -> Result<VertexId, AllocError>
        requires grown { HasGrown self.old }
        requires on_qubits { q < length self.old.ordered.graph.outputs }
        ensures { OnOk result (Gains (H q ∷ []) self.old self.new) }
    {
        self.ordered.add_hadamard(q)
    }

    // Puts a phase gate behind the output of a qubit.
    pub(crate) fn add_phase(&mut self, q: Qubit, phase: Sixteenth)
        requires grown { HasGrown self.old }
        requires on_qubits { IsOnQubits (length self.old.ordered.graph.outputs) (Phase q phase) }
        ensures { Gains (Phase q phase ∷ []) self.old self.new }
    {
        self.ordered.add_phase(q, phase);
    }

    // Puts Cz behind the outputs of two qubits.
    pub(crate) fn toggle(&mut self, p: Qubit, q: Qubit) -> Result<(), AllocError>
        requires grown { HasGrown self.old }
        requires on_qubits { IsOnQubits (length self.old.ordered.graph.outputs) (Cz p q) }
        ensures { OnOk result (Gains (Cz p q ∷ []) self.old self.new) }
    {
        self.ordered.toggle(p, q)
    }

    // Does a step where it is allowed, and answers whether it was done.
    pub(crate) fn try_step(&mut self, step: &Step) -> Result<bool, AllocError>
        ensures { OnOk result (Tries self.old self.new) }
    {
        if self.steps >= MOST_TRIED || self.takes_gates && step.is_split() {
            return Ok(false);
        }
        if !step.is_allowed(self.graph()) {
            return Ok(false);
        }
        self.do_step(step)?;
        Ok(true)
    }

    // Does a step that is allowed.
    fn do_step(&mut self, step: &Step) -> Result<(), AllocError>
        requires allowed { allowed self.old.ordered.graph (step_named step.now) ≡ true }
        requires whole { self.old.takes_gates ≡ true → is_split (step_named step.now) ≡ false }
        requires few { self.old.steps < most_steps }
        ensures { OnOk result (IsDone self.old step.now self.new) }
    {
        follow(&mut self.phases, self.ordered.graph(), step)?;
        let scalar = self.ordered.do_step(step)?;
        self.scalar = self.scalar.times(scalar);
        self.steps += 1;
        if !self.takes_gates {
            self.trace.push(*step)?;
        }
        Ok(())
    }

    // Makes a move of the first kind that applies anywhere.
    fn make(&mut self, m: &Move) -> Result<(), AllocError>
        requires valid { WellFormed self.old.ordered.graph }
        requires applies { AppliesAt self.old.ordered.graph m.now }
        requires first { IsOfFirstKind self.old.ordered.graph m.now }
        requires closed { self.old.takes_gates ≡ false }
        requires few { self.old.steps + 6 ≤ most_steps }
        ensures { OnOk result (Makes (steps_of self.old.ordered.graph m.now) self.old self.new) }
    {
        let mut steps = Trace::new(self.trace.alloc());
        add_steps(&mut steps, self.graph(), m)?;
        for step in steps.as_slice() {
            self.do_step(step)?;
        }
        Ok(())
    }

    // Makes moves in the order of their kinds until none is left.
    pub(crate) fn make_all(&mut self) -> Result<(), AllocError>
        requires ordered { IsOrdered self.old.ordered }
        requires closed { self.old.takes_gates ≡ false }
        requires few { self.old.steps ≤ most_tried }
        ensures { OnOk result (Exhausts self.old self.new) }
    {
        // So there are no more steps than may be done.
        prove!(self.graph().vertex_count() as u64 <= 1 << 32);
        while let Some(found) = next_move(self.graph()) {
            self.make(&found)?;
        }
        Ok(())
    }

    // The graph with a flow, of which sets are found along the order.
    pub(crate) fn finish(self) -> Result<Reduction, AllocError>
        requires ordered { IsOrdered self.ordered }
        requires stuck { IsStuck self.ordered.graph }
        ensures { IfOk result (λ made. Finishes self
            made.graph.graph made.flow.flow made.trace.steps made.scalar) }
    {
        let Progress {
            ordered,
            scalar,
            trace,
            ..
        } = self;
        let (graph, flow) = ordered.with_flow(trace.alloc())?;
        Ok(Reduction {
            graph,
            flow,
            trace,
            scalar,
        })
    }
}

// What a step that is allowed does to the groups of gates.
fn follow(
    phases: &mut Option<PhaseGroups>,
    graph: &OpenGraph,
    step: &Step,
) -> Result<(), AllocError>
    requires allowed { allowed graph.now.graph (step_named step.now) ≡ true }
    ensures { OnOk result (AreFollowed graph.now.graph (step_named step.now) phases.old phases.new) }
{
    match phases {
        Some(phases) => phases.follow(graph, step),
        None => Ok(()),
    }
}

// What the phase of a gate does to them that a vertex holds from now on.
fn add_to(
    phases: &mut Option<PhaseGroups>,
    gate: usize,
    v: VertexId,
    phase: Sixteenth,
) -> Result<(), AllocError>
    ensures { OnOk result (AreAdded gate v phase phases.old phases.new) }
{
    match phases {
        Some(phases) => phases.add(gate, v, phase),
        None => Ok(()),
    }
}
