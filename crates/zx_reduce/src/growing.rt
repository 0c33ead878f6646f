//! Gates one after the other, and moves after each block of spiders.

ghost use Rattle.std.specs.Prelude.{◌<◌, [], ◌∷◌, length, IfOk, OnOk};
ghost use Rattle.zx_gates.specs.Circuit.{IsOnQubits};
ghost use Rattle.zx_gates.specs.declared.gate.Gate.TheVariants.{H};
ghost use Rattle.circuit_graph.specs.Translation.{by_hadamards};
ghost use Rattle.zx_reduce.specs.Grown.{GrowsTo};
ghost use Rattle.zx_reduce.specs.Grouped.{GroupsTo};
ghost use Rattle.zx_reduce.specs.Internal.Growing.{IsGrown, HasGrown, Gains, GainsNumbered, none_held};
ghost use Rattle.zx_reduce.specs.Internal.Progress.{Tries};

use crate::blocks::Blocks;
use crate::engine::Engine;
use crate::plan::plan_between;
use crate::progress::Progress;
use circuit_graph::scalar_of;
use graph_rewrites::Step;
use open_graph::{OpenGraph, VertexId};
use phase_groups::PhaseGroups;
use std::alloc::{AllocError, Global};
use zx_flow::Flow;
use zx_gates::{Gate, GateList, Qubit};
use zx_model::{Scalar, Sixteenth};

/// The reduced graph of a circuit.
#[derive(Drop)]
pub struct Grown {
    /// The graph.
    pub graph: OpenGraph,
    /// A flow of it.
    pub flow: Flow,
    /// The circuit's linear map is so many times the sum of the graph.
    pub scalar: Scalar,
}

/// The reduced graph of a circuit, which is simplified while it grows.
///
/// # Errors
///
/// Only where memory runs out.
pub fn grow(alloc: Global, circuit: &GateList) -> Result<Grown, AllocError>
    ensures { IfOk result (λ made. GrowsTo circuit.now made.graph.graph made.flow.flow made.scalar) }
{
    let mut growing = Growing::begin(alloc, circuit.qubits(), circuit.gates().len())?;
    for gate in circuit.gates() {
        growing.add_gate(*gate)?;
    }
    let ended = growing.engine.complete()?;
    let made = ended.finish()?;
    Ok(Grown {
        graph: made.graph,
        flow: made.flow,
        scalar: scalar_of(circuit).times(made.scalar),
    })
}

/// The phases that the gates of a circuit get where those are put together that are held together once its graph is
/// simplified.
///
/// # Errors
///
/// Only where memory runs out.
pub fn group_phases(alloc: Global, circuit: &GateList) -> Result<PhaseGroups, AllocError>
    ensures { IfOk result (GroupsTo circuit.now) }
{
    let gates = circuit.gates();
    let mut growing = Growing::begin(alloc, circuit.qubits(), gates.len())?;
    growing
        .engine
        .progress
        .hold(PhaseGroups::new(alloc, gates.len())?);
    for i in 0..gates.len() {
        growing.add_numbered(i, &gates[i])?;
    }
    let mut ended = growing.engine.complete()?;
    Ok(ended.take_phases().unwrap())
}

// A graph that grows, and what is tried on it.
#[derive(Drop)]
struct Growing {
    engine: Engine,
    blocks: Blocks,
}

impl Growing {
    // So many wires, behind which so many gates come.
    fn begin(alloc: Global, qubits: Qubit, gates: usize) -> Result<Growing, AllocError>
        ensures { IfOk result (λ made. IsGrown qubits [] none_held made.engine.progress) }
    {
        let progress = Progress::wires(alloc, qubits)?;
        Ok(Growing {
            engine: Engine::new(alloc, progress, gates)?,
            blocks: Blocks::begin(alloc, qubits),
        })
    }

    // Adds a gate of a circuit, by its number. Where its phase is odd it is held from now on.
    fn add_numbered(&mut self, number: usize, gate: &Gate) -> Result<(), AllocError>
        requires grown { HasGrown self.old.engine.progress }
        requires on_qubits { IsOnQubits (length self.old.engine.progress.ordered.graph.outputs) gate.now }
        ensures { OnOk result (GainsNumbered number gate.now self.old.engine.progress self.new.engine.progress) }
    {
        self.add_gate(*gate)?;
        match gate {
            Gate::Phase(q, phase) => {
                if phase.is_odd() {
                    self.engine.progress.note(number, *q, *phase)
                } else {
                    Ok(())
                }
            }
            Gate::H(_) | Gate::Cz(..) | Gate::Cx { .. } | Gate::Not(_) => Ok(()),
        }
    }

    // Adds a gate; Cx and Not are written out.
    fn add_gate(&mut self, gate: Gate) -> Result<(), AllocError>
        requires grown { HasGrown self.old.engine.progress }
        requires on_qubits { IsOnQubits (length self.old.engine.progress.ordered.graph.outputs) gate }
        ensures { OnOk result (Gains (by_hadamards gate) self.old.engine.progress self.new.engine.progress) }
    {
        match gate {
            Gate::H(q) => self.add_hadamard(q),
            Gate::Phase(q, phase) => {
                self.engine.progress.add_phase(q, phase);
                Ok(())
            }
            Gate::Cz(p, q) => self.engine.progress.toggle(p, q),
            Gate::Cx { control, target } => {
                self.add_hadamard(target)?;
                self.engine.progress.toggle(control, target)?;
                self.add_hadamard(target)
            }
            Gate::Not(q) => {
                self.add_hadamard(q)?;
                self.engine.progress.add_phase(q, Sixteenth::half_turn());
                self.add_hadamard(q)
            }
        }
    }

    // Puts H behind the output of a qubit, and makes moves where a block ends.
    fn add_hadamard(&mut self, q: Qubit) -> Result<(), AllocError>
        requires grown { HasGrown self.old.engine.progress }
        requires on_qubits { q < length self.old.engine.progress.ordered.graph.outputs }
        ensures { OnOk result (Gains (H q ∷ []) self.old.engine.progress self.new.engine.progress) }
    {
        let here = self.engine.graph().output_vertex(usize::from(q));
        let next = self.engine.progress.add_hadamard(q)?;
        self.blocks.bear(next)?;
        self.pass(here, next)?;
        self.engine.add(here, self.blocks.level_of(here))?;
        match self.blocks.count() {
            Some(level) => self.engine.drain(level),
            None => Ok(()),
        }
    }

    // Takes a spider out at once that is between another one and the last one of its wire. Where these become
    // one, that is as old as the first of them.
    fn pass(&mut self, u: VertexId, last: VertexId) -> Result<(), AllocError>
        ensures { OnOk result (Tries self.old.engine.progress self.new.engine.progress) }
    {
        let Some((step, first)) = plan_between(self.engine.graph(), u, last) else {
            return Ok(());
        };
        self.engine.try_two(&step, Some(Step::Delete(u)))?;
        self.blocks.inherit(last, first)?;
        self.engine.look_at(first)
    }
}
